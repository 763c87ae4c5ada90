//! AEAD_AES_256_CBC_HMAC_SHA_512 (draft-mcgrew-aead-aes-cbc-hmac-sha2) of one value, under the
//! IV that it determines.

ghost use Rattle.std.specs.Prelude.{◌≡◌, ◌≤◌, ◌<◌, ◌+◌, ◌*◌, ◌/◌, ◌^◌, length, List, take, ℕ, IfOk};
ghost use Rattle.fle_aead.specs.Sealed.{derived_iv, IsSealed};
ghost use Rattle.fle_bench.specs.Checksum.{checksum};
ghost use Rattle.fle_bench.specs.Message.{message_bytes};
ghost use Rattle.fle_bench.specs.Turns.{value_turns};

use crate::checksum::checksum;
use crate::input::{last_18, message};
use crate::job::{KeySetup, MOST_BYTES};
use crypto_hooks::Tables;
use fle_aead::{DataKey, derive_iv, open_into, seal_into, sealed_len};
use fle_vectors::DATA_KEY;
use std::alloc::{AllocError, Global};

/// The associated data of a string that is sealed under a derived IV: 01, the key's id, 02.
const ASSOCIATED: [u8; 18] = [
    0x01, 0x00, 0x11, 0x22, 0x33, 0x44, 0x55, 0x46, 0x77, 0x88, 0x99, 0xaa, 0xbb, 0xcc, 0xdd, 0xee,
    0xff, 0x02,
];

/// Seals a message of some length, and gives the checksum of what it wrote last.
pub fn run_sealing(
    alloc: Global,
    setup: KeySetup,
    size: usize,
    turns: u32,
) -> Result<u32, AllocError>
    requires { size ≤ MOST_BYTES }
    ensures sum { IfOk result (λ sum. 0 < turns
        → sum ≡ checksum (value_turns DATA_KEY ASSOCIATED (message_bytes size) turns)) }
{
    let plain = message(alloc, size)?;
    let mut sealed = vec![in alloc; 0u8; sealed_len(size)]?;
    match setup {
        KeySetup::Kept => seal_kept(DATA_KEY, ASSOCIATED, &plain, &mut sealed, turns),
        KeySetup::Fresh => seal_fresh(DATA_KEY, ASSOCIATED, &plain, &mut sealed, turns),
    }
    Ok(checksum(&sealed))
}

/// Opens what a message of some length is sealed to, and gives the checksum of the message that it
/// found last.
pub fn run_opening(alloc: Global, size: usize, turns: u32) -> Result<u32, AllocError>
    requires { size ≤ MOST_BYTES }
    ensures sum { IfOk result (λ sum. 0 < turns → sum ≡ checksum (message_bytes size)) }
{
    let plain = message(alloc, size)?;
    let mut sealed = vec![in alloc; 0u8; sealed_len(size)]?;
    seal_once(&DataKey::new(DATA_KEY), &ASSOCIATED, &plain, &mut sealed);
    let mut opened = vec![in alloc; 0u8; sealed_len(size)]?;
    open_kept(DATA_KEY, &ASSOCIATED, &sealed, &mut opened, turns);
    Ok(checksum(&opened[..size]))
}

/// Seals a message some times over under a key that is kept, the last 18 bytes of each time being the
/// next associated data.
fn seal_kept(bytes: [u8; 96], first: [u8; 18], plain: &[u8], out: &mut [u8], turns: u32)
    requires room { length out.old ≡ 48 + 16 * (length plain.now / 16 + 1) }
    ensures { 0 < turns → out.new ≡ value_turns bytes first plain.now turns }
{
    let key = DataKey::new(bytes);
    let mut aad = first;
    for _turn in 0..turns {
        seal_once(&key, &aad, plain, out);
        aad = last_18(out);
    }
}

/// The same with nothing kept: each turn makes the key ready anew.
fn seal_fresh(bytes: [u8; 96], first: [u8; 18], plain: &[u8], out: &mut [u8], turns: u32)
    requires room { length out.old ≡ 48 + 16 * (length plain.now / 16 + 1) }
    ensures { 0 < turns → out.new ≡ value_turns bytes first plain.now turns }
{
    let mut aad = first;
    for _turn in 0..turns {
        seal_once(&DataKey::new(bytes), &aad, plain, out);
        aad = last_18(out);
    }
}

/// Seals a message under the IV that it determines.
fn seal_once(key: &DataKey, aad: &[u8], plain: &[u8], out: &mut [u8])
    requires aad { length aad.now < 2 ^ 31 }
    requires room { length out.old ≡ 48 + 16 * (length plain.now / 16 + 1) }
    ensures { IsSealed key.now aad.now (derived_iv key.now aad.now plain.now) plain.now out.new }
{
    let iv = derive_iv(key, aad, plain);
    seal_into(&Tables, key, aad, iv, plain, out);
}

/// Opens a sealed message some times over, under a key that is kept, to the front of `out`.
fn open_kept(bytes: [u8; 96], aad: &[u8], sealed: &[u8], out: &mut [u8], turns: u32)
    requires aad { length aad.now < 2 ^ 31 }
    requires room { length sealed.now ≤ length out.old }
    ensures { 0 < turns → (iv p : List ℕ) → IsSealed bytes aad.now iv p sealed.now
        → take (length p) out.new ≡ p }
{
    let key = DataKey::new(bytes);
    for _turn in 0..turns {
        let _outcome = open_into(&Tables, &key, aad, sealed, out);
    }
}
