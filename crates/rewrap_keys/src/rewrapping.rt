//! The call that seals the keys of a vault under a new master key.

ghost use Rattle.std.specs.Prelude.{◌≡◌, ◌≢◌, ◌≤◌, ℕ, length, Ok, Err, IfOk};
ghost use Rattle.std.specs.Int.{cast_unsigned, w64};
ghost use Rattle.bson_codec.specs.Layout.{longest};
ghost use Rattle.key_vault.specs.Loading.{vault as vault_of};
ghost use Rattle.rewrap_keys.specs.Answers.{Rewraps};
ghost use Rattle.rewrap_keys.specs.Reloaded.{Reloads};
ghost use Rattle.rewrap_keys.specs.Rewrapped.{change, draws_of};

use crate::document::Masters;
use crate::passes::{Unopened, open_keys, rewrap_all};
use crypto_hooks::Block256;
use fle_outside::{Entropy, Failed};
use key_vault::Vault;
use local_kms::MasterKey;
use std::alloc::Global;

/// Why a vault isn't rewrapped.
#[derive(Clone, Copy, Debug, PartialEq, Eq)]
pub enum RewrapFault {
    /// A local key doesn't open under the old master key: the first such one. No block was drawn.
    Damaged {
        /// The number of its document in the file, from 1.
        document: u32,
    },
    /// A draw failed. Fewer blocks were drawn than there are local keys.
    EntropyFailed,
    /// There was no memory for the data keys or for the file. No block was drawn.
    Memory,
}

/// The file of a vault under a new master key, where `keys` are the bytes of the old file, `vault` is what
/// `Vault::load` gives for them, and `now_ms` is the time in milliseconds since 1970. The material of each local key is
/// its data key sealed anew with the next random block as IV, and the date of its last change is
/// that time. All else stays, and so do all lengths.
///
/// First each local key is opened, and its 96 bytes are kept; then the new file is allocated; then a block is drawn for
/// each local key.
pub fn rewrap_vault<B: Block256, N: Entropy>(
    alloc: Global,
    keys: &[u8],
    vault: &Vault,
    from_master: &MasterKey,
    to_master: &MasterKey,
    now_ms: i64,
    hooks: &B,
    entropy: &mut N,
) -> Result<Vec<u8>, RewrapFault>
    requires hooks { B.answers hooks.now }
    requires loaded { vault_of keys.now ≡ Ok vault.now }
    requires small { length keys.now ≤ longest }
    ensures answer { Rewraps (change from_master.now to_master.now (cast_unsigned w64 now_ms)) keys.now vault.now
        (N.seen entropy.old) (N.seen entropy.new) result }
    ensures size { IfOk result (λ out. length out.items ≡ length keys.now) }
    ensures reloads { IfOk result (λ out. Reloads from_master.now to_master.now vault.now out.items) }
    ensures undrawn { result ≡ Err RewrapFault.Memory → entropy.new ≡ entropy.old }
    ensures unopened { (document : ℕ) → result ≡ Err (RewrapFault.Damaged document) → entropy.new ≡ entropy.old }
    ensures sure { draws_of vault.now ≤ (N.seen entropy.old).assured → result ≢ Err RewrapFault.EntropyFailed }
{
    let masters = Masters {
        from: from_master,
        to: to_master,
        time: now_ms.cast_unsigned(),
    };
    let opened = match open_keys(alloc, hooks, masters.from, vault.keys()) {
        Ok(opened) => opened,
        Err(Unopened::Damaged(document)) => return Err(RewrapFault::Damaged { document }),
        Err(Unopened::Memory) => return Err(RewrapFault::Memory),
    };
    let Ok(mut out) = vec![in alloc; 0; keys.len()] else {
        return Err(RewrapFault::Memory);
    };
    match rewrap_all(
        hooks,
        &masters,
        keys,
        vault.keys(),
        &opened,
        &mut out,
        entropy,
    ) {
        Ok(()) => Ok(out),
        Err(Failed) => Err(RewrapFault::EntropyFailed),
    }
}
