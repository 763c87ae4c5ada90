//! The data keys of needs, found in a vault: each need has the vault's own answer, so no name of a key is gone through;
//! and the filter of those that the vault lacks.

ghost use Rattle.std.specs.Prelude.{◌≡◌, ◌++◌, [], option_copied, IfOk, OnOk};
ghost use Rattle.context_machine.specs.Asks.{filter_of};
ghost use Rattle.context_machine.specs.Kept.{is_met, key_by, unless_met, unmet};
ghost use Rattle.context_machine.specs.Needs.{need_at_seen, needs_seen};
ghost use Rattle.context_machine.specs.Rings.{finder};
ghost use Rattle.context_machine.specs.Tables.{TellsTable, table_of};
ghost use Rattle.payload6.specs.Needs.{need_seen};

use crate::keys_asked::key_filter;
use crate::need::NeedAt;
use crate::opened_keys::{KeysStop, put_cached};
use crypto_hooks::Block256;
use data_key::KeyDoc;
use doc_rewrite::KeyTable;
use fle_outside::Memory;
use key_vault::{KeyCache, Vault};
use payload6::Need;
use std::alloc::Global;

/// The data keys of the values that need them, of the keys that a vault has for their needs, under the master key of a
/// cache; or the first value whose key isn't to be had.
pub(crate) fn open_found<B: Block256>(
    alloc: Global,
    needs: &[NeedAt<'_>],
    keys: &Vault,
    cache: &mut KeyCache,
    hooks: &B,
) -> Result<KeyTable, KeysStop>
    requires hooks { B.answers hooks.now }
    ensures master { cache.new.master ≡ cache.old.master }
    ensures opened { TellsTable (table_of (finder keys.now cache.old.master) (needs_seen needs.now)) result }
{
    let mut table = KeyTable::new(alloc);
    for n in needs {
        let key = key_by(keys, n.need);
        match put_cached(alloc, &mut table, n, key, cache, hooks) {
            Ok(()) => {}
            Err(stop) => return Err(stop),
        }
    }
    Ok(table)
}

/// The key of a vault that meets a need: by its id, or by an alternate name.
pub fn key_by<'a>(keys: &'a Vault, need: Need<'_>) -> Option<&'a KeyDoc>
    ensures found { option_copied result ≡ key_by keys.entry.now (need_seen need.entry) }
{
    match need {
        Need::Id(id) => keys.by_id(&id),
        Need::Name(name) => keys.by_name(name),
    }
}

/// The filter of the keys that are needed and that a vault lacks; no byte where it lacks none. `Memory` where there is
/// none for it.
pub fn filter_beside(alloc: Global, needs: &[NeedAt<'_>], keys: &Vault) -> Result<Vec<u8>, Memory>
    ensures filter { IfOk result (λ out. out.items ≡ filter_of (unmet keys.now (needs_seen needs.now))) }
{
    let lacking = unmet(alloc, needs, keys)?;
    let out = filter_for(alloc, &lacking)?;
    Ok(out)
}

/// The filter of the keys that are needed; no byte where none is.
fn filter_for(alloc: Global, needs: &[NeedAt<'_>]) -> Result<Vec<u8>, Memory>
    ensures filter { IfOk result (λ out. out.items ≡ filter_of (needs_seen needs.now)) }
{
    if needs.len() == 0 {
        return Ok(Vec::new(alloc));
    }
    let out = key_filter(alloc, needs)?;
    Ok(out)
}

/// The needs that no key of a vault meets, in their order.
fn unmet<'a>(alloc: Global, needs: &[NeedAt<'a>], keys: &Vault) -> Result<Vec<NeedAt<'a>>, Memory>
    ensures unmet { IfOk result (λ ns. needs_seen ns.items ≡ unmet keys.now (needs_seen needs.now)) }
{
    let mut lacking = Vec::new(alloc);
    for n in needs {
        put_unless(&mut lacking, is_met(keys, n.need), *n)?;
    }
    Ok(lacking)
}

/// Appends a value, unless its need is met.
fn put_unless<'a>(needs: &mut Vec<NeedAt<'a>>, met: bool, n: NeedAt<'a>) -> Result<(), Memory>
    ensures put { OnOk result (needs_seen needs.new.items
        ≡ needs_seen needs.old.items ++ unless_met met (need_at_seen n.entry) []) }
{
    if met {
        return Ok(());
    }
    if needs.push(n).is_err() {
        return Err(Memory);
    }
    Ok(())
}

/// Whether a key of a vault meets a need.
fn is_met(keys: &Vault, need: Need<'_>) -> bool
    ensures met { result ≡ is_met (need_seen need.entry) keys.now }
{
    match key_by(keys, need) {
        Some(_) => true,
        None => false,
    }
}
