//! Keys read into a vault, one document after another.

ghost use Rattle.std.specs.Prelude.{◌≡◌, ◌<◌, ◌≤◌, ◌∷◌, [], ◌^◌, ℕ, List, length, bytes_eq, None, Some};
ghost use Rattle.std.specs.Prelude.{Ok, IfOk};
ghost use Rattle.std.specs.Prelude.{if◌then◌else◌, slice_get, OnOk};
ghost use Rattle.key_vault.specs.Keys.{is_among};
ghost use Rattle.key_vault.specs.Loading.{Adds, are_new, front_key, Grows, judged, key_behind, kind_by, kind_of};
ghost use Rattle.key_vault.specs.Numbers.{AreOf, has_number, number_of};
ghost use Rattle.key_vault.specs.Undoing.{ChangesOnly};
ghost use Rattle.data_key.specs.declared.key_doc.KeyDoc.{KeyDoc};

use crate::faults::{PutFault, VaultFault, VaultKind};
use crate::numbers::Numbers;
use crate::place::Place;
use crate::vault::Vault;
use bson_codec::{RawDoc, first_doc};
use data_key::{KeyDoc, KeyFault, read_key};
use fle_outside::Memory;
use std::alloc::Global;

/// The most keys of a vault.
pub(crate) const KEYS: usize = 65536;

impl Vault {
    /// Reads the key at the front of these bytes, and adds it. Answers how many bytes it has.
    pub(crate) fn add_front(&mut self, alloc: Global, bytes: &[u8]) -> Result<usize, VaultFault>
        requires few { length self.old < 2 ^ 31 }
        requires some { 0 < length bytes.now }
        requires within { length bytes.now ≤ 67108864 }
        ensures added { Adds self.old self.new bytes.now result (front_key self.old bytes.now) }
        ensures size { IfOk result (λ n. (0 < n) × (n ≤ length bytes.now)) }
    {
        let document = self.len() as u32 + 1;
        match first_doc(bytes) {
            Err(_) => Err(VaultFault::Bad {
                document,
                kind: VaultKind::Bson,
            }),
            Ok((key, _)) => {
                let n = key.bytes().len();
                self.add_document(alloc, document, &key)?;
                Ok(n)
            }
        }
    }

    /// Adds the key that a document states, behind those before.
    #[tactic(auto, unfolding(crate::specs::Loading::key_behind))]
    fn add_document(
        &mut self,
        alloc: Global,
        document: u32,
        key: &RawDoc<'_>,
    ) -> Result<(), VaultFault>
        requires few { length self.old < 2 ^ 31 }
        ensures added { Grows self.old self.new document result (key_behind self.old key.now.tree) }
    {
        if self.len() >= KEYS {
            return Err(VaultFault::Bad {
                document,
                kind: VaultKind::TooMany,
            });
        }
        match read_key(alloc, key) {
            Ok(key) => self.add(alloc, document, key),
            Err(KeyFault::Memory) => Err(VaultFault::Memory),
            Err(fault) => Err(VaultFault::Bad {
                document,
                kind: kind_of(fault),
            }),
        }
    }

    /// Adds a key behind the others, where its id and its names are new.
    #[tactic(auto, using(crate::proofs::Put::grown, crate::proofs::Put::refused_new))]
    fn add(&mut self, alloc: Global, document: u32, key: KeyDoc) -> Result<(), VaultFault>
        requires few { length self.old < 2 ^ 31 }
        ensures added { Grows self.old self.new document result (judged self.old (Ok key)) }
    {
        match self.put_new(alloc, key) {
            Ok(()) => Ok(()),
            Err(PutFault::Bad(kind)) => Err(VaultFault::Bad { document, kind }),
            Err(PutFault::Memory) => Err(VaultFault::Memory),
        }
    }
}

/// Gives the id and the names of a key its number, or tells which of them has one. They are judged in this order.
pub(crate) fn put_numbers(
    alloc: Global,
    ids: &mut Numbers,
    names: &mut Numbers,
    keys: &[KeyDoc],
    key: &KeyDoc,
    number: u32,
) -> Result<Option<VaultKind>, Memory>
    requires key { slice_get keys.now number ≡ Some key.now }
    ensures kind { IfOk result (λ kind. kind
        ≡ kind_by (has_number keys.now ids.old key.now.id) (are_new (has_number keys.now names.old) [] key.now.names)) }
    ensures ids { IfOk result (λ kind. kind ≡ None → (id : List ℕ) → number_of keys.now ids.new id
        ≡ (if bytes_eq key.now.id id then Some number else number_of keys.now ids.old id)) }
    ensures names { IfOk result (λ kind. kind ≡ None → (name : List ℕ) → number_of keys.now names.new name
        ≡ (if is_among name key.now.names then Some number else number_of keys.now names.old name)) }
    ensures of_ids { OnOk result (AreOf keys.now ids.old → AreOf keys.now ids.new) }
    ensures of_names { OnOk result (AreOf keys.now names.old → AreOf keys.now names.new) }
    ensures only_ids { ChangesOnly number (key.now.id ∷ []) ids.old ids.new }
    ensures only_names { ChangesOnly number key.now.names names.old names.new }
{
    let place = Place {
        key: number,
        name: None,
    };
    if !ids.put(alloc, keys, place, &key.id)? {
        return Ok(Some(VaultKind::IdTwice));
    }
    if !names.put_all(alloc, keys, key, number)? {
        return Ok(Some(VaultKind::NameTwice));
    }
    Ok(None)
}

/// What is wrong with a document that has this fault.
pub(crate) fn kind_of(fault: KeyFault) -> VaultKind
    ensures { result ≡ kind_of fault }
{
    match fault {
        KeyFault::Id => VaultKind::Id,
        KeyFault::AltNames => VaultKind::AltNames,
        KeyFault::Material => VaultKind::Material,
        KeyFault::Provider => VaultKind::Provider,
        KeyFault::Memory => VaultKind::Bson,
    }
}
