//! The data keys of what is needed.

ghost use Rattle.std.specs.Prelude.{◌≡◌, option_copied, IfErr, Ok, OnOk, Some};
ghost use Rattle.doc_rewrite.specs.Keys.{with_id, with_name};
ghost use Rattle.context_machine.specs.Needs.{need_at_seen};
ghost use Rattle.context_machine.specs.Rings.{finder, found_key, keyless_reason};
ghost use Rattle.context_machine.specs.Tables.{IsShort, PutsKey, TellsTable, table_of};
ghost use Rattle.context_machine.specs.declared.opened_keys.KeysStop.TheVariants as stops;

use crate::need::NeedAt;
use crate::wanted::Wanted;
use bson_tree::Bytes;
use crypto_hooks::Block256;
use data_key::{KeyDoc, Provider};
use doc_rewrite::KeyTable;
use encrypt_schema::Reason;
use fle_aead::{DataKey, SharedKey};
use key_vault::{KeyCache, Keyless, OpenStop, open_key};
use local_kms::MasterKey;
use payload6::Need;
use std::alloc::Global;

/// Why the keys that were handed in don't do.
#[derive(Clone, Copy, Debug, PartialEq, Eq)]
pub enum KeysStop {
    /// The first value whose key isn't to be had.
    Refused {
        /// `KeyMissing`, `KeyNotLocal` or `KeyDamaged`.
        reason: Reason,
        /// The offset of the value, as in `RawItem::start`.
        at: u32,
    },
    /// The sealed document would have more than 48,000,000 bytes.
    TooLong,
    /// There was no memory. It may come at any time.
    Memory,
}

/// The data key of each need, under a master key; or the first value whose key isn't to be had. It is never `TooLong`.
pub(crate) fn open_keys<B: Block256>(
    alloc: Global,
    wanted: &Wanted<'_>,
    master: &MasterKey,
    hooks: &B,
) -> Result<KeyTable, KeysStop>
    requires hooks { B.answers hooks.now }
    ensures opened { TellsTable (table_of (finder wanted.now.kept master.now) wanted.now.needs) result }
{
    let mut table = KeyTable::new(alloc);
    for n in wanted.needs() {
        let key = wanted.key_by(n.need);
        match put_opened(alloc, &mut table, n, key, master, hooks) {
            Ok(()) => {}
            Err(stop) => return Err(stop),
        }
    }
    Ok(table)
}

/// The same under the master key of a cache, which may have some of them opened already.
pub(crate) fn open_keys_cached<B: Block256>(
    alloc: Global,
    wanted: &Wanted<'_>,
    cache: &mut KeyCache,
    hooks: &B,
) -> Result<KeyTable, KeysStop>
    requires hooks { B.answers hooks.now }
    ensures master { cache.new.master ≡ cache.old.master }
    ensures opened { TellsTable (table_of (finder wanted.now.kept cache.old.master) wanted.now.needs) result }
{
    let mut table = KeyTable::new(alloc);
    for n in wanted.needs() {
        let key = wanted.key_by(n.need);
        match put_cached(alloc, &mut table, n, key, cache, hooks) {
            Ok(()) => {}
            Err(stop) => return Err(stop),
        }
    }
    Ok(table)
}

/// Puts the data key of a value behind the others, opened under a master key.
fn put_opened<B: Block256>(
    alloc: Global,
    table: &mut KeyTable,
    n: &NeedAt<'_>,
    key: Option<&KeyDoc>,
    master: &MasterKey,
    hooks: &B,
) -> Result<(), KeysStop>
    requires hooks { B.answers hooks.now }
    ensures put { PutsKey (need_at_seen n.now) (found_key master.now (option_copied key.entry)) table.old table.new
        result }
{
    let Some(key) = key else {
        return Err(refused(n, Keyless::Missing));
    };
    match open_key(hooks, master, Some(key)) {
        Ok(data_key) => put_key(alloc, table, n, key, data_key),
        Err(keyless) => Err(refused(n, keyless)),
    }
}

/// The same under the master key of a cache.
pub(crate) fn put_cached<B: Block256>(
    alloc: Global,
    table: &mut KeyTable,
    n: &NeedAt<'_>,
    key: Option<&KeyDoc>,
    cache: &mut KeyCache,
    hooks: &B,
) -> Result<(), KeysStop>
    requires hooks { B.answers hooks.now }
    ensures master { cache.new.master ≡ cache.old.master }
    ensures put { PutsKey (need_at_seen n.now) (found_key cache.old.master (option_copied key.entry)) table.old
        table.new result }
{
    match key {
        Some(key) => put_found(alloc, table, n, key, cache, hooks),
        None => Err(refused(n, Keyless::Missing)),
    }
}

/// Puts the data key of a key document behind the others, as the cache opens it.
fn put_found<B: Block256>(
    alloc: Global,
    table: &mut KeyTable,
    n: &NeedAt<'_>,
    key: &KeyDoc,
    cache: &mut KeyCache,
    hooks: &B,
) -> Result<(), KeysStop>
    requires hooks { B.answers hooks.now }
    ensures master { cache.new.master ≡ cache.old.master }
    ensures put { PutsKey (need_at_seen n.now) (found_key cache.old.master (Some key.now)) table.old table.new result }
{
    match key.provider {
        Provider::Local => match cache.open(hooks, key) {
            Ok(shared) => put_shared(alloc, table, n, key, shared),
            Err(OpenStop::Unopened(_)) => Err(refused(n, Keyless::Damaged)),
            Err(OpenStop::Memory) => Err(KeysStop::Memory),
        },
        Provider::Other => Err(refused(n, Keyless::NotLocal)),
    }
}

/// Puts the data key of a key document behind the others.
fn put_key(
    alloc: Global,
    table: &mut KeyTable,
    n: &NeedAt<'_>,
    key: &KeyDoc,
    data_key: DataKey,
) -> Result<(), KeysStop>
    ensures put { PutsKey (need_at_seen n.now) (Ok (record { id = key.now.id; key = data_key })) table.old table.new
        result }
{
    match SharedKey::new(alloc, data_key) {
        Ok(shared) => put_shared(alloc, table, n, key, shared),
        Err(_) => Err(KeysStop::Memory),
    }
}

/// Puts the data key of a key document, which others may own too, behind the others: under the id that names it, or
/// under the alternate name.
fn put_shared(
    alloc: Global,
    table: &mut KeyTable,
    n: &NeedAt<'_>,
    key: &KeyDoc,
    shared: SharedKey,
) -> Result<(), KeysStop>
    ensures put { PutsKey (need_at_seen n.now) (Ok (record { id = key.now.id; key = shared })) table.old table.new
        result }
{
    match n.need {
        Need::Id(id) => put_by_id(table, id, shared),
        Need::Name(name) => put_by_name(alloc, table, name, key.id, shared),
    }
}

/// Puts a data key under its id behind the others.
fn put_by_id(table: &mut KeyTable, id: [u8; 16], key: SharedKey) -> Result<(), KeysStop>
    ensures put { OnOk result (table.new ≡ with_id table.old (record { id = id; key = key })) }
    ensures short { IfErr result IsShort }
{
    match table.add_shared(id, key) {
        Ok(()) => Ok(()),
        Err(_) => Err(KeysStop::Memory),
    }
}

/// Puts a data key under an alternate name behind the others, with its id.
fn put_by_name(
    alloc: Global,
    table: &mut KeyTable,
    name: &[u8],
    id: [u8; 16],
    key: SharedKey,
) -> Result<(), KeysStop>
    ensures put { OnOk result (table.new ≡ with_name table.old (record { name = name.now; id = id; key = key })) }
    ensures short { IfErr result IsShort }
{
    match Vec::from_slice(alloc, name) {
        Ok(copy) => match table.add_named_shared(Bytes::from_vec(copy), id, key) {
            Ok(()) => Ok(()),
            Err(_) => Err(KeysStop::Memory),
        },
        Err(_) => Err(KeysStop::Memory),
    }
}

/// A value whose key isn't to be had.
fn refused(n: &NeedAt<'_>, keyless: Keyless) -> KeysStop
    ensures refused { result ≡ stops.Refused (keyless_reason keyless) n.now.at }
{
    KeysStop::Refused {
        reason: reason_of(keyless),
        at: n.at,
    }
}

/// The reason of a key that isn't to be had.
fn reason_of(keyless: Keyless) -> Reason
    ensures reason { result ≡ keyless_reason keyless }
{
    match keyless {
        Keyless::Missing => Reason::KeyMissing,
        Keyless::NotLocal => Reason::KeyNotLocal,
        Keyless::Damaged => Reason::KeyDamaged,
    }
}
