//! A key document under a new master key (MongoDB Client Side Encryption, "rewrapManyDataKey").

ghost use Rattle.std.specs.Prelude.{◌≡◌, ◌≤◌, length};
ghost use Rattle.fle_engine.specs.KeyRulings.{KeyAnswerIs, WantsFew, rewrap_ruling, stop_for};
ghost use Rattle.rewrap_keys.specs.Rewrapped.{draws_by, draws_of};

use crate::answer::Wanted;
use crate::key_stop::{KeyStop, stop_of};
use crate::loading::{load_keys, load_master};
use crate::opener::Opener;
use crypto_hooks::Block256;
use data_key::{KeyDoc, Provider};
use fle_outside::Entropy;
use local_kms::MasterKey;
use rewrap_keys::{RewrapFault, rewrap_vault};
use std::alloc::Global;

impl Opener {
    /// The key documents in these bytes, as those of a file, under a new master key: what is sealed under the opener's
    /// own is sealed anew with a random block as IV, the date of its last change is this time, the 64 bits of the
    /// milliseconds since 1970, and all else stays, byte for byte. Keys of other providers stay. It looks at the key
    /// documents first, then at the new master key, and opens each key before it draws.
    pub fn rewrap_key<B: Block256, N: Entropy>(
        &self,
        alloc: Global,
        hooks: &B,
        new_master: &[u8],
        time: u64,
        key: &[u8],
        entropy: &mut N,
    ) -> Result<Vec<u8>, KeyStop>
        requires hooks { B.answers hooks.now }
        ensures answers { KeyAnswerIs
            (rewrap_ruling self.now.cache.master time new_master.now key.now)
            (N.seen entropy.old) (N.seen entropy.new) result }
        ensures few { WantsFew result }
    {
        rewrap_under(
            alloc,
            hooks,
            self.cache.master(),
            new_master,
            time,
            key,
            entropy,
        )
    }
}

/// The same under this master key.
fn rewrap_under<B: Block256, N: Entropy>(
    alloc: Global,
    hooks: &B,
    from: &MasterKey,
    new_master: &[u8],
    time: u64,
    bytes: &[u8],
    entropy: &mut N,
) -> Result<Vec<u8>, KeyStop>
    requires hooks { B.answers hooks.now }
    ensures answers { KeyAnswerIs (rewrap_ruling from.now time new_master.now bytes.now)
        (N.seen entropy.old) (N.seen entropy.new) result }
    ensures few { WantsFew result }
{
    let vault = match load_keys(alloc, bytes) {
        Ok(vault) => vault,
        Err(fault) => return Err(stop_of(fault)),
    };
    let to = match load_master(new_master) {
        Ok(to) => to,
        Err(fault) => return Err(stop_of(fault)),
    };
    match rewrap_vault(
        alloc,
        bytes,
        &vault,
        from,
        &to,
        time.cast_signed(),
        hooks,
        entropy,
    ) {
        Ok(made) => Ok(made),
        Err(fault) => Err(stop_for(fault, bytes.len(), vault.keys())),
    }
}

/// Why a file of so many bytes with these keys isn't rewrapped.
fn stop_for(fault: RewrapFault, size: usize, keys: &[KeyDoc]) -> KeyStop
    ensures stop { result ≡ stop_for size (draws_of keys.now) fault }
{
    match fault {
        RewrapFault::Damaged { document: _ } => KeyStop::Damaged,
        RewrapFault::EntropyFailed => KeyStop::Undrawn(Wanted {
            size,
            draws: draws_of(keys),
        }),
        RewrapFault::Memory => KeyStop::Memory,
    }
}

/// How many blocks these keys draw: one for each local key.
fn draws_of(keys: &[KeyDoc]) -> usize
    ensures draws { result ≡ draws_of keys.now }
    ensures few { result ≤ length keys.now }
{
    let mut draws = 0;
    for key in keys {
        draws += draws_by(key.provider);
    }
    draws
}

/// How many blocks a key of this provider draws.
fn draws_by(provider: Provider) -> usize
    ensures draws { result ≡ draws_by provider }
    ensures few { result ≤ 1 }
{
    match provider {
        Provider::Local => 1,
        Provider::Other => 0,
    }
}
