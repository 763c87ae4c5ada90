//! The keys of a file of key documents.

ghost use Rattle.std.specs.Prelude.{◌≡◌, ◌≤◌, ◌<◌, [], length, option_copied, slice_get};
ghost use Rattle.key_vault.specs.Keys.{AreDistinct, key_by_id, key_by_name};
ghost use Rattle.key_vault.specs.Loading.{Loads, vault};

use crate::faults::VaultFault;
use crate::numbers::Numbers;
use data_key::KeyDoc;
use std::alloc::Global;
use std::marker::Model;

/// So many keys are looked through for one of an id, which costs less than its number.
const FEW: usize = 8;

/// The keys of a file, seen as their list, in the file's order.
#[derive(Drop)]
pub struct Vault {
    pub(crate) keys: Vec<KeyDoc>,
    pub(crate) ids: Numbers,
    pub(crate) names: Numbers,
}

impl Model for Vault {
    ghost use Rattle.std.specs.Prelude.{◌≡◌, ℕ, List};
    ghost use Rattle.data_key.specs.declared.key_doc.KeyDoc.{KeyDoc};
    ghost use Rattle.key_vault.specs.Keys.{AreDistinct, has_id, has_name, place_from};
    ghost use Rattle.key_vault.specs.Numbers.{AreOf, number_of};

    ghost Value = { List KeyDoc };

    ghost view = { λ v. v.keys.items };

    ghost invariant = { λ v. ((id : List ℕ) → number_of v.keys.items v.ids id ≡ place_from 0 (has_id id) v.keys.items)
        × ((name : List ℕ) → number_of v.keys.items v.names name ≡ place_from 0 (has_name name) v.keys.items)
        × AreOf v.keys.items v.ids × AreOf v.keys.items v.names × AreDistinct v.keys.items };
}

impl Vault {
    /// No key; it allocates nothing.
    pub fn empty(alloc: Global) -> Vault
        ensures empty { result ≡ [] }
    {
        Vault {
            keys: Vec::new(alloc),
            ids: Numbers::new(alloc),
            names: Numbers::new(alloc),
        }
    }

    /// Takes all keys away, and gives their memory back.
    pub fn clear(&mut self, alloc: Global)
        ensures empty { self.new ≡ [] }
    {
        *self = Vault::empty(alloc);
    }

    /// Reads a file of key documents: one after another, nothing between them. `Bad` exactly where a document is
    /// faulty; they are judged in order.
    pub fn load(alloc: Global, bytes: &[u8]) -> Result<Vault, VaultFault>
        requires { length bytes.now ≤ 67108864 }
        ensures loaded { Loads result (vault bytes.now) }
    {
        let mut vault = Vault::empty(alloc);
        let mut rest = bytes;
        while !rest.is_empty() {
            let n = vault.add_front(alloc, rest)?;
            let (_, behind) = rest.split_at(n);
            rest = behind;
        }
        Ok(vault)
    }

    /// How many keys it has.
    pub fn len(&self) -> usize
        ensures number { result ≡ length self.now }
    {
        self.keys.len()
    }

    /// Key number `i`, from 0: `None` exactly where `i` isn't below `len`.
    pub fn key(&self, i: usize) -> Option<&KeyDoc>
        ensures found { option_copied result ≡ slice_get self.now i }
    {
        key_at(&self.keys, i)
    }

    /// The keys, in the file's order. No two have one id, and no two one name.
    pub fn keys(&self) -> &[KeyDoc]
        ensures same { result.now ≡ self.now }
        ensures distinct { AreDistinct self.now }
    {
        &self.keys
    }

    /// The key of this id, found by its number where there are more than eight; `None` exactly where there is none.
    pub fn by_id(&self, id: &[u8; 16]) -> Option<&KeyDoc>
        ensures found { option_copied result ≡ key_by_id self.now id.now }
    {
        if self.keys.len() <= FEW {
            return first_key(&self.keys, id);
        }
        match self.ids.get(&self.keys, id) {
            Some(number) => key_at(&self.keys, number as usize),
            None => None,
        }
    }

    /// The key of this alternate name, found by its number; `None` exactly where there is none.
    pub fn by_name(&self, name: &[u8]) -> Option<&KeyDoc>
        ensures found { option_copied result ≡ key_by_name self.now name.now }
    {
        match self.names.get(&self.keys, name) {
            Some(number) => key_at(&self.keys, number as usize),
            None => None,
        }
    }
}

/// The first key of an id of these, which are looked through.
fn first_key<'k>(keys: &'k [KeyDoc], id: &[u8; 16]) -> Option<&'k KeyDoc>
    ensures found { option_copied result ≡ key_by_id keys.now id.now }
{
    for key in keys {
        if key.id == *id {
            return Some(key);
        }
    }
    None
}

/// Key number `i`, from 0.
fn key_at(keys: &Vec<KeyDoc>, i: usize) -> Option<&KeyDoc>
    ensures { option_copied result ≡ slice_get keys.now.items i }
{
    if i < keys.len() { Some(&keys[i]) } else { None }
}
