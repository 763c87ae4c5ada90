//! Data keys by their ids and by their alternate names.

ghost use Rattle.std.specs.Prelude.{◌≡◌, [], is_some, length, option_map, true};
ghost use Rattle.std.specs.Prelude.{IfSome, MatchResult, option_copied, unwrap_or};
ghost use Rattle.payload6.specs.Needs.{need_seen};
ghost use Rattle.doc_rewrite.specs.Keys.{GivesLongIds, key_by_id, key_by_name, key_in, with_id, with_name};
ghost use Rattle.doc_rewrite.specs.Sealed.{any_key};

use crate::indexed_keys::IndexedKeys;
use crate::named_keys::NamedKeys;
use bson_tree::Bytes;
use encrypt_schema::FEW;
use fle_aead::{DataKey, SharedKey};
use fle_outside::Memory;
use payload6::Need;
use std::alloc::Global;
use std::marker::Model;

/// A data key with its id.
#[derive(Drop)]
pub struct KeyEntry {
    /// The id, a UUID.
    pub id: [u8; 16],
    /// The data key, which others may own too.
    pub key: SharedKey,
}

/// Data keys, seen as two lists of entries, each in the order in which they were added: those with an id, and those
/// with an alternate name and an id. Neither list is read or changed by what is asked of the other.
#[derive(Drop)]
pub struct KeyTable {
    alloc: Global,
    few: Vec<KeyEntry>,
    /// Those behind the first `FEW`, which are found by an index.
    others: IndexedKeys,
    named: NamedKeys,
}

impl Model for KeyTable {
    ghost use Rattle.std.specs.Prelude.{◌≡◌, ◌<◌, ◌++◌, [], length};
    ghost use Rattle.encrypt_schema.specs.Views.Few as limits;
    ghost use Rattle.doc_rewrite.specs.Keys.{Table};

    ghost Value = { Table };

    ghost view = { λ t. record { ids = t.few.items ++ t.others; names = t.named } };

    ghost invariant = { λ t. length t.few.items < limits.few → t.others ≡ [] };
}

impl KeyTable {
    /// No key. It allocates nothing.
    pub fn new(alloc: Global) -> KeyTable
        ensures empty { result ≡ record { ids = []; names = [] } }
    {
        KeyTable {
            alloc,
            few: Vec::new(alloc),
            others: IndexedKeys::new(alloc),
            named: NamedKeys::new(alloc),
        }
    }

    /// Adds a key with its id behind the others. `Memory`, with the keys as before, for want of memory alone.
    pub fn add(&mut self, id: [u8; 16], key: DataKey) -> Result<(), Memory>
        ensures added { MatchResult result
            (λ _. self.new ≡ with_id self.old (record { id = id; key = key }))
            (λ _. self.new ≡ self.old) }
    {
        match SharedKey::new(self.alloc, key) {
            Ok(key) => self.add_shared(id, key),
            Err(_) => Err(Memory),
        }
    }

    /// Adds a key that others own too with its id behind the others, with no copy of it. `Memory`, with the keys as
    /// before, for want of memory alone.
    pub fn add_shared(&mut self, id: [u8; 16], key: SharedKey) -> Result<(), Memory>
        ensures added { MatchResult result
            (λ _. self.new ≡ with_id self.old (record { id = id; key = key }))
            (λ _. self.new ≡ self.old) }
    {
        self.add_entry(KeyEntry { id, key })
    }

    /// Adds a key with an alternate name and its id behind the others that have a name. `Memory`, with the keys as
    /// before, for want of memory alone.
    pub fn add_named(&mut self, name: Bytes, id: [u8; 16], key: DataKey) -> Result<(), Memory>
        ensures added { MatchResult result
            (λ _. self.new ≡ with_name self.old (record { name = name; id = id; key = key }))
            (λ _. self.new ≡ self.old) }
    {
        match SharedKey::new(self.alloc, key) {
            Ok(key) => self.add_named_shared(name, id, key),
            Err(_) => Err(Memory),
        }
    }

    /// The same of a key that others own too, with no copy of it.
    pub fn add_named_shared(
        &mut self,
        name: Bytes,
        id: [u8; 16],
        key: SharedKey,
    ) -> Result<(), Memory>
        ensures added { MatchResult result
            (λ _. self.new ≡ with_name self.old (record { name = name; id = id; key = key }))
            (λ _. self.new ≡ self.old) }
    {
        self.named.add(name, id, key)
    }

    /// Adds an entry behind the others.
    fn add_entry(&mut self, entry: KeyEntry) -> Result<(), Memory>
        ensures added { MatchResult result (λ _. self.new ≡ with_id self.old entry) (λ _. self.new ≡ self.old) }
    {
        if self.few.len() >= FEW {
            return self.others.add(entry);
        }
        match self.few.push(entry) {
            Ok(()) => Ok(()),
            Err(_) => Err(Memory),
        }
    }

    /// The first key with this id; `None` exactly where there is none.
    #[tactic(auto, using(crate::proofs::Numbered::key_before, crate::proofs::Numbered::key_behind))]
    pub fn find(&self, id: &[u8; 16]) -> Option<&DataKey>
        ensures found { option_copied result ≡ key_by_id self.now.ids id.now }
    {
        match first_key(&self.few, id) {
            Some(key) => Some(key),
            None => self.others.find(id),
        }
    }

    /// The id and the key of the first entry with this alternate name; `None` exactly where there is none.
    pub fn find_named(&self, name: &[u8]) -> Option<(&[u8; 16], &DataKey)>
        ensures found { option_map (λ f. record { id = f.0.now; key = f.1.now }) result
            ≡ key_by_name self.now.names name.now }
        ensures long { IfSome result (λ f. length f.0.now ≡ 16) }
    {
        match self.named.find(name) {
            Some(entry) => Some((&entry.id, entry.key.key())),
            None => None,
        }
    }

    /// What is found by an id of 16 bytes, or by an alternate name, has an id of 16 bytes: each that was added has one.
    pub(crate) fn ids(&self)
        ensures long { GivesLongIds (key_in self.now) }
    {
        self.named.ids()
    }
}

/// The first key with this id among a few, which are looked through.
fn first_key<'k>(entries: &'k [KeyEntry], id: &[u8; 16]) -> Option<&'k DataKey>
    ensures found { option_copied result ≡ key_by_id entries.now id.now }
{
    for entry in entries {
        if entry.id == *id {
            return Some(entry.key.key());
        }
    }
    None
}

/// The key with this id, which is there.
pub(crate) fn key_of<'k>(keys: &'k KeyTable, id: &[u8; 16]) -> &'k DataKey
    requires there { is_some (key_by_id keys.now.ids id.now) ≡ true }
    ensures key { result.now ≡ unwrap_or (key_by_id keys.now.ids id.now) [] }
{
    match keys.find(id) {
        Some(key) => key,
        None => unreachable!(),
    }
}

/// The key to which an id or an alternate name leads, which is there, with its id.
pub(crate) fn key_for<'k>(keys: &'k KeyTable, need: Need<'_>) -> ([u8; 16], &'k DataKey)
    requires there { is_some (key_in keys.now (need_seen need)) ≡ true }
    ensures key { record { id = result.0; key = result.1.now }
        ≡ unwrap_or (key_in keys.now (need_seen need.entry)) any_key }
{
    match need {
        Need::Id(id) => match keys.find(&id) {
            Some(key) => (id, key),
            None => unreachable!(),
        },
        Need::Name(name) => match keys.find_named(name) {
            Some((id, key)) => (*id, key),
            None => unreachable!(),
        },
    }
}
