//! Data keys by alternate names, with an index in the order of the names: whoever writes a command or a vault chooses
//! names, and can't make a search long by them, as by hashes that collide.

ghost use Rattle.std.specs.Prelude.{◌≡◌, ◌++◌, ◌∷◌, ℕ, List, [], bytes_eq, option_copied, option_map, slice_get};
ghost use Rattle.std.specs.Prelude.{MatchResult};
ghost use Rattle.doc_rewrite.specs.Keys.{HaveLongIds, found_by, key_by_name};
ghost use Rattle.bson_tree.specs.NameNumbers.{number_of_name, or_number};

use bson_tree::Bytes;
use fle_aead::SharedKey;
use fle_outside::Memory;
use std::alloc::Global;
use std::collections::BTreeMap;
use std::marker::Model;

/// A data key with its id and an alternate name of it.
#[derive(Drop)]
pub struct NamedEntry {
    /// The alternate name.
    pub name: Bytes,
    /// The id, a UUID.
    pub id: [u8; 16],
    /// The data key, which others may own too.
    pub key: SharedKey,
}

/// Data keys with alternate names, seen as the list of entries in the order in which they were added.
#[derive(Drop)]
pub(crate) struct NamedKeys {
    alloc: Global,
    entries: Vec<NamedEntry>,
    /// The number of the first entry with each name, counted from 0.
    numbers: BTreeMap<Vec<u8>, usize>,
}

impl Model for NamedKeys {
    ghost use Rattle.std.specs.Prelude.{◌≡◌, ℕ, List};
    ghost use Rattle.doc_rewrite.specs.declared.named_keys.NamedEntry.{NamedEntry};
    ghost use Rattle.doc_rewrite.specs.Keys.{HaveLongIds};
    ghost use Rattle.bson_tree.specs.NameNumbers.{number_of_name};
    ghost use Rattle.doc_rewrite.specs.Numbers.{named_place};

    ghost Value = { List NamedEntry };

    ghost view = { λ t. t.entries.items };

    ghost invariant = { λ t. ((name : List ℕ) → number_of_name t.numbers name ≡ named_place 0 name t.entries.items)
        × HaveLongIds t.entries.items };
}

impl NamedKeys {
    /// No key. It allocates nothing.
    pub(crate) fn new(alloc: Global) -> NamedKeys
        ensures empty { result ≡ [] }
    {
        NamedKeys {
            alloc,
            entries: Vec::new(alloc),
            numbers: BTreeMap::new(alloc),
        }
    }

    /// Adds a key behind the others. `Memory`, with the keys as before, for want of memory alone.
    pub(crate) fn add(&mut self, name: Bytes, id: [u8; 16], key: SharedKey) -> Result<(), Memory>
        ensures added { MatchResult result
            (λ _. self.new ≡ self.old ++ record { name = name; id = id; key = key } ∷ [])
            (λ _. self.new ≡ self.old) }
    {
        let number = self.entries.len();
        let Ok(copy) = Vec::from_slice(self.alloc, name.as_slice()) else {
            return Err(Memory);
        };
        match self.entries.push(NamedEntry { name, id, key }) {
            Ok(()) => {}
            Err(_) => return Err(Memory),
        }
        match put_first(&mut self.numbers, copy, number) {
            Ok(()) => Ok(()),
            Err(_) => {
                self.entries.truncate(number);
                Err(Memory)
            }
        }
    }

    /// Each entry's id has 16 bytes.
    pub(crate) fn ids(&self)
        ensures long { HaveLongIds self.now }
    {
        let _ = self.entries.len();
    }

    /// The first entry with this name; `None` exactly where there is none.
    pub(crate) fn find(&self, name: &[u8]) -> Option<&NamedEntry>
        ensures found { option_map found_by (option_copied result) ≡ key_by_name self.now name.now }
        ensures long { HaveLongIds self.now }
    {
        match number_of(&self.numbers, name) {
            Some(number) => entry_at(&self.entries, number),
            None => None,
        }
    }
}

/// The number of a name.
fn number_of(numbers: &BTreeMap<Vec<u8>, usize>, name: &[u8]) -> Option<usize>
    ensures number { result ≡ number_of_name numbers.now name.now }
{
    numbers.get(name).copied()
}

/// Gives a name a number, where it has none.
fn put_first(
    numbers: &mut BTreeMap<Vec<u8>, usize>,
    name: Vec<u8>,
    number: usize,
) -> Result<(), Memory>
    ensures put { MatchResult result
        (λ _. (other : List ℕ) → number_of_name numbers.new other
        ≡ or_number (number_of_name numbers.old other) (bytes_eq name.items other) number)
        (λ _. (other : List ℕ) → number_of_name numbers.new other ≡ number_of_name numbers.old other) }
{
    if number_of(numbers, &name).is_some() {
        return Ok(());
    }
    match numbers.insert(name, number) {
        // No number stood there, since the name had none.
        Ok(_) => {
            return Ok(());
        }
        Err(_) => {
            return Err(Memory);
        }
    }
}

/// The entry of this number, counted from 0.
fn entry_at(entries: &[NamedEntry], number: usize) -> Option<&NamedEntry>
    ensures entry { option_copied result ≡ slice_get entries.now number }
{
    if number < entries.len() {
        Some(&entries[number])
    } else {
        None
    }
}
