//! Numbers of keys, found by a text: an id or a name. Whoever writes a vault chooses both, and can choose texts of one
//! hash. So a hash is a place in an order, where the first text that has it stands; the others of this hash stand in
//! the order of the texts. A search takes as many steps as the logarithm of their number, whatever the texts.

ghost use Rattle.std.specs.Prelude.{◌≡◌, ◌==◌, ◌&&◌, [], not, true, false, ℕ, List, bytes_eq, None, Some, slice_get};
ghost use Rattle.std.specs.Prelude.{if◌then◌else◌, ◌∷◌, option_copied, IfOk, OnErr, OnOk, IsSome};
ghost use Rattle.bson_tree.specs.NameNumbers.{hash_of, number_of_name};
ghost use Rattle.data_key.specs.declared.key_doc.KeyDoc.{KeyDoc};
ghost use Rattle.key_vault.specs.Keys.{is_among};
ghost use Rattle.key_vault.specs.Loading.{are_new};
ghost use Rattle.key_vault.specs.Undoing.{ChangesOnly, number_below, place_below, TakesBack};
ghost use Rattle.key_vault.specs.Numbers.{AreOf, first_of, has_number, is_text, number_of, number_of_first, text_at};

use crate::place::{Place, is_at};
use bson_tree::hash_of;
use data_key::KeyDoc;
use fle_outside::Memory;
use std::alloc::Global;
use std::collections::BTreeMap;

/// The numbers of texts of keys.
#[derive(Drop)]
pub(crate) struct Numbers {
    /// By a hash the place of the first text that has it.
    firsts: BTreeMap<u64, Place>,
    /// The numbers of the texts whose hash an earlier one has.
    others: BTreeMap<Vec<u8>, u32>,
}

impl Numbers {
    /// No text has a number.
    pub(crate) fn new(alloc: Global) -> Numbers
        ensures none { (keys : List KeyDoc) → (text : List ℕ) → number_of keys result text ≡ None }
        ensures of { (keys : List KeyDoc) → AreOf keys result }
    {
        Numbers {
            firsts: BTreeMap::new(alloc),
            others: BTreeMap::new(alloc),
        }
    }

    /// Takes all numbers away.
    pub(crate) fn clear(&mut self)
        ensures none { (keys : List KeyDoc) → (text : List ℕ) → number_of keys self.new text ≡ None }
        ensures of { (keys : List KeyDoc) → AreOf keys self.new }
    {
        self.firsts.clear();
        self.others.clear();
    }

    /// The number of a text.
    pub(crate) fn get(&self, keys: &[KeyDoc], text: &[u8]) -> Option<u32>
        ensures number { result ≡ number_of keys.now self.now text.now }
    {
        match self.others.get(text) {
            Some(number) => Some(*number),
            None => number_of_first(keys, self.firsts.get(&hash_of(text)), text),
        }
    }

    /// Gives the text at a place the number of its key where it has none, and tells whether so.
    pub(crate) fn put(
        &mut self,
        alloc: Global,
        keys: &[KeyDoc],
        place: Place,
        text: &[u8],
    ) -> Result<bool, Memory>
        requires text { text_at keys.now place ≡ Some text.now }
        ensures new { IfOk result (λ new. new ≡ not (has_number keys.now self.old text.now)) }
        ensures put { IfOk result (λ new. (other : List ℕ) → number_of keys.now self.new other
            ≡ (if new && bytes_eq text.now other then Some place.key else number_of keys.now self.old other)) }
        ensures of { OnOk result (AreOf keys.now self.old → AreOf keys.now self.new) }
        ensures only { ChangesOnly place.key (text.now ∷ []) self.old self.new }
    {
        if self.others.contains_key(text) {
            return Ok(false);
        }
        let hash = hash_of(text);
        match self.firsts.insert(hash, place) {
            Ok(None) => {
                return Ok(true);
            }
            Ok(Some(first)) => {
                return self.put_behind(alloc, keys, first, place.key, text);
            }
            Err(_) => {
                return Err(Memory);
            }
        }
    }

    /// Puts the first place of the hash of a text back, and the text behind it where it isn't the one that stands
    /// there; tells whether so.
    fn put_behind(
        &mut self,
        alloc: Global,
        keys: &[KeyDoc],
        first: Place,
        number: u32,
        text: &[u8],
    ) -> Result<bool, Memory>
        ensures new { IfOk result (λ new. new ≡ not (is_text text.now (text_at keys.now first))) }
        ensures firsts { OnOk result ((hash : ℕ) → first_of self.new.firsts hash
            ≡ (if hash_of text.now == hash then Some first else first_of self.old.firsts hash)) }
        ensures others { IfOk result (λ new. (other : List ℕ) → number_of_name self.new.others other
            ≡ (if new && bytes_eq text.now other then Some number else number_of_name self.old.others other)) }
        ensures firsts_stay { OnErr result (IsSome (first_of self.old.firsts (hash_of text.now)) → (hash : ℕ)
            → first_of self.new.firsts hash
            ≡ (if hash_of text.now == hash then Some first else first_of self.old.firsts hash)) }
        ensures others_stay { OnErr result ((other : List ℕ)
            → number_of_name self.new.others other ≡ number_of_name self.old.others other) }
    {
        put_first(&mut self.firsts, hash_of(text), first)?;
        if is_at(keys, first, text) {
            return Ok(false);
        }
        put_other(alloc, &mut self.others, text, number)?;
        Ok(true)
    }

    /// Gives each name of a key its number where none has one and none stands twice, and tells whether so.
    pub(crate) fn put_all(
        &mut self,
        alloc: Global,
        keys: &[KeyDoc],
        key: &KeyDoc,
        number: u32,
    ) -> Result<bool, Memory>
        requires key { slice_get keys.now number ≡ Some key.now }
        ensures new { IfOk result (λ new. new ≡ are_new (has_number keys.now self.old) [] key.now.names) }
        ensures put { IfOk result (λ new. new ≡ true → (other : List ℕ) → number_of keys.now self.new other
            ≡ (if is_among other key.now.names then Some number else number_of keys.now self.old other)) }
        ensures of { OnOk result (AreOf keys.now self.old → AreOf keys.now self.new) }
        ensures only { ChangesOnly number key.now.names self.old self.new }
    {
        let names = key.names.as_slice();
        for (i, name) in names.iter().enumerate() {
            let place = Place {
                key: number,
                name: Some(i),
            };
            if !self.put(alloc, keys, place, name.as_slice())? {
                return Ok(false);
            }
        }
        Ok(true)
    }

    /// Takes back what a text has from this number on.
    pub(crate) fn take_back(&mut self, number: u32, text: &[u8])
        ensures taken { TakesBack number (text.now ∷ []) self.old self.new }
    {
        take_first(&mut self.firsts, number, hash_of(text));
        take_other(&mut self.others, number, text);
    }

    /// Takes back what the names of a key have from this number on.
    pub(crate) fn take_all_back(&mut self, number: u32, key: &KeyDoc)
        ensures taken { TakesBack number key.now.names self.old self.new }
    {
        for name in key.names.as_slice() {
            self.take_back(number, name.as_slice());
        }
    }
}

/// The number of the first text of a hash, where that is this text.
fn number_of_first(keys: &[KeyDoc], first: Option<&Place>, text: &[u8]) -> Option<u32>
    ensures number { result ≡ number_of_first keys.now text.now (option_copied first.entry) }
{
    let first = *first?;
    if is_at(keys, first, text) {
        Some(first.key)
    } else {
        None
    }
}

/// Puts the place of the first text of a hash.
fn put_first(firsts: &mut BTreeMap<u64, Place>, hash: u64, place: Place) -> Result<(), Memory>
    ensures put { OnOk result ((other : ℕ) → first_of firsts.new other
        ≡ (if hash == other then Some place else first_of firsts.old other)) }
    ensures new { OnErr result (first_of firsts.old hash ≡ None) }
{
    match firsts.insert(hash, place) {
        Ok(_) => Ok(()),
        Err(_) => Err(Memory),
    }
}

/// Puts the number of a text whose hash an earlier one has.
fn put_other(
    alloc: Global,
    others: &mut BTreeMap<Vec<u8>, u32>,
    text: &[u8],
    number: u32,
) -> Result<(), Memory>
    ensures put { OnOk result ((other : List ℕ) → number_of_name others.new other
        ≡ (if bytes_eq text.now other then Some number else number_of_name others.old other)) }
    ensures stay { OnErr result ((other : List ℕ) → number_of_name others.new other ≡ number_of_name others.old other) }
{
    let Ok(copy) = Vec::from_slice(alloc, text) else {
        return Err(Memory);
    };
    match others.insert(copy, number) {
        Ok(_) => {
            return Ok(());
        }
        Err(_) => {
            return Err(Memory);
        }
    }
}

/// Takes the place of the first text of a hash back, where it isn't below this number.
fn take_first(firsts: &mut BTreeMap<u64, Place>, number: u32, hash: u64)
    ensures taken { (other : ℕ) → first_of firsts.new other
        ≡ (if hash == other then place_below number (first_of firsts.old other) else first_of firsts.old other) }
{
    let is_after = match firsts.get(&hash) {
        Some(place) => place.key >= number,
        None => false,
    };
    if is_after {
        let _ = firsts.remove(&hash);
    }
}

/// Takes the number of a text back whose hash an earlier one has, where it isn't below this one.
fn take_other(others: &mut BTreeMap<Vec<u8>, u32>, number: u32, text: &[u8])
    ensures taken { (other : List ℕ) → number_of_name others.new other
        ≡ (if bytes_eq text.now other then number_below number (number_of_name others.old other)
        else number_of_name others.old other) }
{
    if is_from(number, others.get(text)) {
        let _ = others.remove(text);
    }
}

/// Whether there is a number, and it isn't below this one.
fn is_from(number: u32, found: Option<&u32>) -> bool
    ensures gone { result ≡ true → number_below number (option_copied found.entry) ≡ None }
    ensures stays { result ≡ false
        → number_below number (option_copied found.entry) ≡ option_copied found.entry }
{
    match found {
        Some(other) => *other >= number,
        None => false,
    }
}
