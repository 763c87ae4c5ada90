//! Data keys with an index by their ids. It is searched in the order of the ids: whoever writes a document or a vault
//! chooses ids, and can't make a search long by them, as by hashes that collide.

ghost use Rattle.std.specs.Prelude.{◌≡◌, ◌++◌, ◌∷◌, ℕ, List, [], bytes_eq, option_copied, option_map, slice_get};
ghost use Rattle.std.specs.Prelude.{MatchResult};
ghost use Rattle.doc_rewrite.specs.Keys.{key_by_id};
ghost use Rattle.bson_tree.specs.NameNumbers.{or_number};
ghost use Rattle.doc_rewrite.specs.Numbers.{number_of_id};

use crate::key_table::KeyEntry;
use fle_aead::DataKey;
use fle_outside::Memory;
use std::alloc::Global;
use std::collections::BTreeMap;
use std::marker::Model;

/// Data keys with their ids, seen as the list of entries in the order in which they were added.
#[derive(Drop)]
pub(crate) struct IndexedKeys {
    entries: Vec<KeyEntry>,
    /// The number of the first entry with each id, counted from 0.
    numbers: BTreeMap<[u8; 16], usize>,
}

impl Model for IndexedKeys {
    ghost use Rattle.std.specs.Prelude.{◌≡◌, ℕ, List};
    ghost use Rattle.doc_rewrite.specs.declared.key_table.KeyEntry.{KeyEntry};
    ghost use Rattle.doc_rewrite.specs.Numbers.{number_of_id, place_from};

    ghost Value = { List KeyEntry };

    ghost view = { λ t. t.entries.items };

    ghost invariant = { λ t. (id : List ℕ) → number_of_id t.numbers id ≡ place_from 0 id t.entries.items };
}

impl IndexedKeys {
    /// No key. It allocates nothing.
    pub(crate) fn new(alloc: Global) -> IndexedKeys
        ensures empty { result ≡ [] }
    {
        IndexedKeys {
            entries: Vec::new(alloc),
            numbers: BTreeMap::new(alloc),
        }
    }

    /// Adds a key behind the others. `Memory`, with the keys as before, for want of memory alone.
    pub(crate) fn add(&mut self, entry: KeyEntry) -> Result<(), Memory>
        ensures added { MatchResult result (λ _. self.new ≡ self.old ++ entry ∷ []) (λ _. self.new ≡ self.old) }
    {
        let number = self.entries.len();
        let id = entry.id;
        match self.entries.push(entry) {
            Ok(()) => {}
            Err(_) => return Err(Memory),
        }
        match put_first(&mut self.numbers, id, number) {
            Ok(()) => Ok(()),
            Err(_) => {
                self.entries.truncate(number);
                Err(Memory)
            }
        }
    }

    /// The first key with this id; `None` exactly where there is none.
    #[tactic(auto, using(crate::proofs::Numbered::found_at, crate::proofs::Numbered::found_none))]
    pub(crate) fn find(&self, id: &[u8; 16]) -> Option<&DataKey>
        ensures found { option_copied result ≡ key_by_id self.now id.now }
    {
        match number_of(&self.numbers, id) {
            Some(number) => key_at(&self.entries, number),
            None => None,
        }
    }
}

/// The number of an id.
fn number_of(numbers: &BTreeMap<[u8; 16], usize>, id: &[u8; 16]) -> Option<usize>
    ensures number { result ≡ number_of_id numbers.now id.now }
{
    numbers.get(id).copied()
}

/// Gives an id a number, where it has none.
fn put_first(
    numbers: &mut BTreeMap<[u8; 16], usize>,
    id: [u8; 16],
    number: usize,
) -> Result<(), Memory>
    ensures put { MatchResult result
        (λ _. (other : List ℕ) → number_of_id numbers.new other
        ≡ or_number (number_of_id numbers.old other) (bytes_eq id other) number)
        (λ _. (other : List ℕ) → number_of_id numbers.new other ≡ number_of_id numbers.old other) }
{
    if number_of(numbers, &id).is_some() {
        return Ok(());
    }
    match numbers.insert(id, number) {
        Ok(_) => Ok(()),
        Err(_) => Err(Memory),
    }
}

/// The key of this number, counted from 0.
fn key_at(entries: &[KeyEntry], number: usize) -> Option<&DataKey>
    ensures key { option_copied result ≡ option_map (λ e. e.key) (slice_get entries.now number) }
{
    if number < entries.len() {
        Some(entries[number].key.key())
    } else {
        None
    }
}
