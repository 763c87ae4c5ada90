//! The two passes over the keys of a vault: each local key is opened, then what it opened to is sealed anew.

ghost use Rattle.std.specs.Prelude.{◌≡◌, ◌+◌, ◌<◌, ◌≤◌, ◌^◌, ◌++◌, ◌∷◌, [], None, Ok, length, true, IfOk, IsOk};
ghost use Rattle.bson_codec.specs.Layout.{longest};
ghost use Rattle.key_vault.specs.Loading.{vault};
ghost use Rattle.rewrap_keys.specs.Answers.{RewrapsAll};
ghost use Rattle.rewrap_keys.specs.Opened.{data_keys_of, OpensAll, OpensOne};
ghost use Rattle.rewrap_keys.specs.Reloaded.{Reloads};
ghost use Rattle.rewrap_keys.specs.Rewrapped.{draws_of, first_damaged};
ghost use Rattle.rewrap_keys.specs.Seen.{seen};

use crate::document::{Masters, OpenedKey, rewrap_document};
use bson_codec::first_doc;
use crypto_hooks::Block256;
use data_key::{KeyDoc, Provider};
use fle_outside::{Entropy, Failed};
use local_kms::{KeyBytes, MasterKey, UnwrapFault, unwrap_bytes};
use std::alloc::Global;

/// Why the first pass keeps no data keys.
pub(crate) enum Unopened {
    /// A local key doesn't open: the number of the first such one, from 1.
    Damaged(u32),
    /// Each local key opens, and there was no memory for the data keys.
    Memory,
}

/// What each key opens to, or why that isn't known. Damage goes before want of memory, so that the pass goes on where
/// no more can be kept.
pub(crate) fn open_keys<B: Block256>(
    alloc: Global,
    hooks: &B,
    master: &MasterKey,
    keys: &[KeyDoc],
) -> Result<Vec<Option<KeyBytes>>, Unopened>
    requires hooks { B.answers hooks.now }
    requires few { length keys.now < 2 ^ 31 }
    ensures opened { OpensAll master.now keys.now result }
{
    let mut opened = Vec::new(alloc);
    let mut has_room = opened.reserve_exact(keys.len()).is_ok();
    let mut number = 1;
    for key in keys {
        match open_key(hooks, master, key) {
            Ok(data_key) => has_room = has_room && keep(&mut opened, data_key),
            Err(_) => return Err(Unopened::Damaged(number)),
        }
        number += 1;
    }
    if has_room {
        Ok(opened)
    } else {
        Err(Unopened::Memory)
    }
}

/// The data key of a local key, which may not open; `None` of a key whose master key a service holds.
fn open_key<B: Block256>(
    hooks: &B,
    master: &MasterKey,
    key: &KeyDoc,
) -> Result<Option<KeyBytes>, UnwrapFault>
    requires hooks { B.answers hooks.now }
    ensures opened { OpensOne master.now key.now result }
{
    match key.provider {
        Provider::Local => match unwrap_bytes(hooks, master, key.material.as_slice()) {
            Ok(data_key) => Ok(Some(data_key)),
            Err(fault) => Err(fault),
        },
        Provider::Other => Ok(None),
    }
}

/// Keeps what a key opened to behind the others. Whether there was room for it.
fn keep(opened: &mut Vec<Option<KeyBytes>>, data_key: Option<KeyBytes>) -> bool
    ensures kept { result ≡ true → opened.new.items ≡ opened.old.items ++ (data_key ∷ []) }
{
    opened.push(data_key).is_ok()
}

/// Writes the file of these keys, none of them damaged, under the new master key, from what the first pass opened them
/// to. One block is drawn for each local key.
pub(crate) fn rewrap_all<B: Block256, N: Entropy>(
    hooks: &B,
    masters: &Masters<'_>,
    bytes: &[u8],
    keys: &[KeyDoc],
    opened: &[Option<KeyBytes>],
    out: &mut [u8],
    entropy: &mut N,
) -> Result<(), Failed>
    requires hooks { B.answers hooks.now }
    requires loaded { vault bytes.now ≡ Ok keys.now }
    requires whole { first_damaged masters.now.from.now keys.now ≡ None }
    requires opened { opened.now ≡ data_keys_of masters.now.from.now keys.now }
    requires small { length bytes.now ≤ longest }
    requires room { length out.old ≡ length bytes.now }
    ensures size { length out.new ≡ length out.old }
    ensures rewrapped { RewrapsAll (seen masters.now) bytes.now
        keys.now (N.seen entropy.old) (N.seen entropy.new) out.new result }
    ensures reloads { IfOk result (λ _. Reloads masters.now.from.now masters.now.to.now keys.now out.new) }
    ensures sure { draws_of keys.now ≤ (N.seen entropy.old).assured → IsOk result }
{
    let mut rest = bytes;
    let mut at = 0;
    let mut index = 0;
    for key in keys {
        let key_opened = OpenedKey {
            key,
            data_key: &opened[index],
        };
        match first_doc(rest) {
            Ok((document, behind)) => {
                match rewrap_document(hooks, masters, &key_opened, &document, out, at, entropy) {
                    Ok(end) => at = end,
                    Err(Failed) => return Err(Failed),
                }
                rest = behind;
            }
            Err(_) => unreachable!(),
        }
        index += 1;
    }
    Ok(())
}
