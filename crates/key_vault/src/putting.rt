//! Keys put into a vault one by one.

ghost use Rattle.std.specs.Prelude.{◌≡◌, ◌∷◌, ◌<◌, ◌^◌, [], length, Ok, MatchBool, option_copied};
ghost use Rattle.key_vault.specs.Loading.{judged};
ghost use Rattle.key_vault.specs.Putting.{has_key, is_key, put_key, Puts, same_key, same_names, same_provider};
ghost use Rattle.key_vault.specs.Putting.{with_key, with_new};
ghost use Rattle.key_vault.specs.Undoing.{TakesBack};

use crate::faults::{PutFault, VaultKind};
use crate::loading::{KEYS, kind_of, put_numbers};
use crate::numbers::Numbers;
use crate::vault::Vault;
use bson_codec::RawDoc;
use bson_tree::Bytes;
use data_key::{KeyDoc, KeyFault, Provider, read_key};
use std::alloc::Global;

impl Vault {
    /// Puts the key that a document states behind the others. The same key again changes nothing, and is no fault.
    /// `Bad` exactly where the document is faulty, there are 65,536 keys, or another key has its id or one of its
    /// names. After a fault, and after `Memory`, the keys are as before.
    #[tactic(auto, unfolding(crate::specs::Putting::put_key))]
    pub fn put(&mut self, alloc: Global, document: &RawDoc<'_>) -> Result<(), PutFault>
        ensures put { Puts self.old self.new result (put_key self.old document.now.tree) }
    {
        match read_key(alloc, document) {
            Ok(key) => self.put_read(alloc, key),
            Err(KeyFault::Memory) => Err(PutFault::Memory),
            Err(fault) => Err(PutFault::Bad(kind_of(fault))),
        }
    }

    /// Puts a key behind the others, unless it is there.
    fn put_read(&mut self, alloc: Global, key: KeyDoc) -> Result<(), PutFault>
        ensures put { Puts self.old self.new result (with_key self.old key) }
    {
        if self.has_key(&key) {
            return Ok(());
        }
        if self.len() >= KEYS {
            return Err(PutFault::Bad(VaultKind::TooMany));
        }
        self.put_new(alloc, key)
    }

    /// Whether this key is there.
    fn has_key(&self, key: &KeyDoc) -> bool
        ensures same { result ≡ has_key self.now key.now }
    {
        is_key(key, self.by_id(&key.id))
    }

    /// Puts a key behind the others, where its id and its names are new; else nothing changes.
    pub(crate) fn put_new(&mut self, alloc: Global, key: KeyDoc) -> Result<(), PutFault>
        requires few { length self.old < 2 ^ 31 }
        ensures put { Puts self.old self.new result (with_new self.old (judged self.old (Ok key))) }
    {
        let number = self.keys.len() as u32;
        match self.keys.push(key) {
            Ok(()) => {}
            Err(_) => {
                return Err(PutFault::Memory);
            }
        }
        let keys = self.keys.as_slice();
        let key = &keys[number as usize];
        match put_numbers(alloc, &mut self.ids, &mut self.names, keys, key, number) {
            Ok(None) => {
                return Ok(());
            }
            Ok(Some(kind)) => {
                take_numbers(&mut self.ids, &mut self.names, key, number);
                self.keys.truncate(number as usize);
                return Err(PutFault::Bad(kind));
            }
            Err(_) => {
                take_numbers(&mut self.ids, &mut self.names, key, number);
                self.keys.truncate(number as usize);
                return Err(PutFault::Memory);
            }
        }
    }
}

/// Takes back what a key has from this number on.
fn take_numbers(ids: &mut Numbers, names: &mut Numbers, key: &KeyDoc, number: u32)
    ensures ids { TakesBack number (key.now.id ∷ []) ids.old ids.new }
    ensures names { TakesBack number key.now.names names.old names.new }
{
    ids.take_back(number, &key.id);
    names.take_all_back(number, key);
}

/// Whether the key that was found is this one.
fn is_key(key: &KeyDoc, found: Option<&KeyDoc>) -> bool
    ensures same { result ≡ is_key key.now (option_copied found.entry) }
{
    match found {
        None => false,
        Some(other) => is_same(other, key),
    }
}

/// Whether two keys are one and the same.
fn is_same(key: &KeyDoc, other: &KeyDoc) -> bool
    ensures same { result ≡ same_key key.now other.now }
    ensures told { MatchBool result (key.now ≡ other.now) (key.now ≡ other.now → ⊥) }
{
    have_same_parts(key, other)
}

/// Whether each part of two keys is the same.
fn have_same_parts(key: &KeyDoc, other: &KeyDoc) -> bool
    ensures same { result ≡ same_key key.now other.now }
{
    key.id == other.id
        && are_same(key.names.as_slice(), other.names.as_slice())
        && key.material.as_slice() == other.material.as_slice()
        && is_same_provider(key.provider, other.provider)
}

/// Whether two lists have the same names in the same order.
#[tactic(auto, using(crate::proofs::Same::other_length))]
fn are_same(names: &[Bytes], others: &[Bytes]) -> bool
    ensures same { result ≡ same_names names.now others.now }
{
    if names.len() != others.len() {
        return false;
    }
    for i in 0..names.len() {
        if names[i].as_slice() != others[i].as_slice() {
            return false;
        }
    }
    true
}

/// Whether the same holds two master keys.
fn is_same_provider(provider: Provider, other: Provider) -> bool
    ensures same { result ≡ same_provider provider other }
{
    match provider {
        Provider::Local => match other {
            Provider::Local => true,
            Provider::Other => false,
        },
        Provider::Other => match other {
            Provider::Local => false,
            Provider::Other => true,
        },
    }
}
