//! A vault sealed under another master key some times over, and what its keys take alone (MongoDB Client Side
//! Encryption).

ghost use Rattle.std.specs.Prelude.{◌≡◌, ◌<◌, ◌≤◌, length, IfSome, Ok};
ghost use Rattle.fle_bench.specs.Checksum.{checksum};
ghost use Rattle.fle_bench.specs.Vaults.{rewrapped_by};
ghost use Rattle.fle_vectors.specs.declared.data_key.TheConstants.{DATA_KEY};
ghost use Rattle.fle_vectors.specs.declared.master_key.TheConstants.{MASTER_KEY};
ghost use Rattle.key_vault.specs.Loading.{vault as vault_of};

use crate::checksum::checksum;
use crate::documents::SameBlock;
use crate::payload::IV;
use crypto_hooks::Tables;
use data_key::KeyDoc;
use fle_vectors::{DATA_KEY, MASTER_KEY};
use key_vault::Vault;
use local_kms::{MasterKey, unwrap_bytes, wrap_bytes};
use rewrap_keys::rewrap_vault;
use std::alloc::Global;

/// Seals the keys of a vault's file under the data key in the place of a master key, some times over, and gives the
/// checksum of the last file; `None` where the bytes are no vault, where a key doesn't open, or for want of memory.
pub fn run_vault(alloc: Global, bytes: &[u8], turns: u32) -> Option<u32>
    requires { length bytes.now ≤ 67108864 }
{
    match Vault::load(alloc, bytes) {
        Ok(vault) => rewrap(alloc, bytes, &vault, turns),
        Err(_) => None,
    }
}

/// The checksum of the file that was made last.
fn rewrap(alloc: Global, bytes: &[u8], vault: &Vault, turns: u32) -> Option<u32>
    requires loaded { vault_of bytes.now ≡ Ok vault.now }
    requires small { length bytes.now ≤ 67108864 }
    ensures sum { IfSome result (λ sum. 0 < turns
        → sum ≡ checksum (rewrapped_by MASTER_KEY DATA_KEY vault.now bytes.now)) }
{
    let file = rewrap_turns(alloc, bytes, vault, turns)?;
    Some(checksum(&file))
}

/// The file that was made last.
fn rewrap_turns(alloc: Global, bytes: &[u8], vault: &Vault, turns: u32) -> Option<Vec<u8>>
    requires loaded { vault_of bytes.now ≡ Ok vault.now }
    requires small { length bytes.now ≤ 67108864 }
    ensures file { IfSome result (λ file. 0 < turns
        → file.items ≡ rewrapped_by MASTER_KEY DATA_KEY vault.now bytes.now) }
{
    let from = MasterKey::new(MASTER_KEY);
    let to = MasterKey::new(DATA_KEY);
    let mut file = Some(Vec::new(alloc));
    for _turn in 0..turns {
        file = rewrap_once(alloc, bytes, vault, &from, &to);
    }
    file
}

/// The file of a vault under another master key, each key under the given IV.
#[tactic(auto, using(crate::proofs::SameIvs::rewrapped_same))]
fn rewrap_once(
    alloc: Global,
    bytes: &[u8],
    vault: &Vault,
    from: &MasterKey,
    to: &MasterKey,
) -> Option<Vec<u8>>
    requires loaded { vault_of bytes.now ≡ Ok vault.now }
    requires small { length bytes.now ≤ 67108864 }
    ensures file { IfSome result (λ file. file.items ≡ rewrapped_by from.now to.now vault.now bytes.now) }
{
    let mut blocks = SameBlock {
        left: vault.len(),
        faults: 0,
    };
    match rewrap_vault(alloc, bytes, vault, from, to, 0, &Tables, &mut blocks) {
        Ok(file) => Some(file),
        Err(_) => None,
    }
}

/// Opens each key of a vault's file to its 96 bytes and seals these, some times over, and gives the checksum of the
/// last material; `None` where the bytes are no vault.
pub fn run_keys(alloc: Global, bytes: &[u8], turns: u32) -> Option<u32>
    requires { length bytes.now ≤ 67108864 }
{
    let Ok(vault) = Vault::load(alloc, bytes) else {
        return None;
    };
    let from = MasterKey::new(MASTER_KEY);
    let to = MasterKey::new(DATA_KEY);
    let mut last = [0; 160];
    for _turn in 0..turns {
        last = last_material(&from, &to, vault.keys());
    }
    Some(checksum(&last))
}

/// The material of the last key, sealed anew; zeros where none opens.
fn last_material(from: &MasterKey, to: &MasterKey, keys: &[KeyDoc]) -> [u8; 160] {
    let mut last = [0; 160];
    for key in keys {
        match new_material(from, to, key) {
            Some(material) => last = material,
            None => {}
        }
    }
    last
}

/// The material of a key that is opened and sealed anew; `None` where it doesn't open.
fn new_material(from: &MasterKey, to: &MasterKey, key: &KeyDoc) -> Option<[u8; 160]> {
    match unwrap_bytes(&Tables, from, key.material.as_slice()) {
        Ok(data_key) => Some(wrap_bytes(&Tables, to, IV, &data_key)),
        Err(_) => None,
    }
}
