//! Keys read from key documents.

ghost use Rattle.std.specs.Prelude.{◌≡◌, ◌++◌, ◌∷◌, [], codes, bytes_eq, option_copied, if◌then◌else◌, IfOk, OnOk};
ghost use Rattle.bson_codec.specs.Standings.{field_seen, standing};
ghost use Rattle.data_key.specs.declared.key_doc.Provider.TheVariants as providers;
ghost use Rattle.data_key.specs.Key.{id_in, names_in, names_of, material_in, provider_in, provider_by, provider_named};
ghost use Rattle.data_key.specs.Key.{key_in, Reads};
ghost use Rattle.data_key.specs.Seen.{names_seen, some_names_seen, Says};
ghost use Rattle.data_key.specs.Values.{texts};

use crate::elements::key_elements;
use crate::key_doc::{KeyDoc, KeyFault, Provider};
use crate::values::{GENERIC, are_strings, contents_of, text_of, uuid_of};
use bson_codec::{Field, RawDoc, RawItem, find_field, is_array, is_document};
use bson_tree::{Bytes, Names};
use fle_outside::Memory;
use std::alloc::Global;

/// The fields of a key document.
#[derive(Drop)]
pub(crate) struct KeyFields<'a> {
    /// The key's id.
    id: [u8; 16],
    /// The array of its names, if there is one.
    names: Option<RawDoc<'a>>,
    /// The sealed key.
    material: &'a [u8],
    /// Who holds the master key.
    provider: Provider,
}

/// The key of a document, with its bytes copied. A fault other than `Memory` comes exactly where the document has it,
/// the first one where it has several; it comes before anything is allocated.
pub fn read_key(alloc: Global, document: &RawDoc<'_>) -> Result<KeyDoc, KeyFault>
    ensures read { Reads result (key_in document.now.tree) }
{
    match key_fields(document) {
        Ok(fields) => {
            let names = copy_names(alloc, fields.names)?;
            let material = Bytes::from_slice(alloc, fields.material)?;
            Ok(KeyDoc {
                id: fields.id,
                names,
                material,
                provider: fields.provider,
            })
        }
        Err(fault) => Err(fault),
    }
}

/// The fields of a key document, or the first faulty one. The document is walked once.
#[tactic(auto, unfolding(crate::specs::Key::key_in))]
fn key_fields<'a>(document: &RawDoc<'a>) -> Result<KeyFields<'a>, KeyFault>
    ensures { Says result (key_in document.now.tree) }
{
    let found = key_elements(document);
    let Some(id) = id_of(&found.id) else {
        return Err(KeyFault::Id);
    };
    let Some(names) = names_of(&found.names) else {
        return Err(KeyFault::AltNames);
    };
    let Some(material) = material_of(&found.material) else {
        return Err(KeyFault::Material);
    };
    let Some(provider) = provider_of(&found.master_key) else {
        return Err(KeyFault::Provider);
    };
    Ok(KeyFields {
        id,
        names,
        material,
        provider,
    })
}

/// The UUID in `_id`.
fn id_of(field: &Field<'_>) -> Option<[u8; 16]>
    ensures { result ≡ id_in (field_seen field.now) }
{
    match field {
        Field::Absent => None,
        Field::Once(item) => uuid_of(item),
        Field::Repeated => None,
    }
}

/// The array of strings in `keyAltNames`, if there is one.
fn names_of<'a>(field: &Field<'a>) -> Option<Option<RawDoc<'a>>>
    ensures { some_names_seen result ≡ names_in (field_seen field.now) }
{
    match field {
        Field::Absent => Some(None),
        Field::Once(item) => strings_of(item),
        Field::Repeated => None,
    }
}

/// The array of strings that a value is.
fn strings_of<'a>(item: &RawItem<'a>) -> Option<Option<RawDoc<'a>>>
    ensures { some_names_seen result ≡ names_of item.now.tree }
{
    if !is_array(item) {
        return None;
    }
    let array = item.child()?;
    if are_strings(&array) {
        Some(Some(array))
    } else {
        None
    }
}

/// The contents of the binary in `keyMaterial`.
fn material_of<'a>(field: &Field<'a>) -> Option<&'a [u8]>
    ensures { option_copied result ≡ material_in (field_seen field.now) }
{
    match field {
        Field::Absent => None,
        Field::Once(item) => contents_of(GENERIC, item),
        Field::Repeated => None,
    }
}

/// The provider in `masterKey`.
fn provider_of(field: &Field<'_>) -> Option<Provider>
    ensures { result ≡ provider_in (field_seen field.now) }
{
    match field {
        Field::Absent => None,
        Field::Once(item) => if is_document(item) {
            let master_key = item.child()?;
            named_in(&master_key)
        } else {
            None
        },
        Field::Repeated => None,
    }
}

/// The provider that the field `provider` names.
fn named_in(master_key: &RawDoc<'_>) -> Option<Provider>
    ensures { result ≡ provider_by (standing (codes "provider") master_key.now.tree) }
{
    match find_field(master_key, b"provider") {
        Field::Absent => None,
        Field::Once(item) => {
            let text = text_of(&item)?;
            Some(named(text))
        }
        Field::Repeated => None,
    }
}

/// The provider of this name.
fn named(text: &[u8]) -> Provider
    ensures { result ≡ (if bytes_eq text.now (codes "local") then providers.Local else providers.Other) }
{
    if text == b"local".as_slice() {
        Provider::Local
    } else {
        Provider::Other
    }
}

/// Copies of the strings in an array that may not be there.
fn copy_names(alloc: Global, array: Option<RawDoc<'_>>) -> Result<Names, Memory>
    ensures { IfOk result (λ names. names ≡ names_seen array.entry) }
{
    match array {
        None => Ok(Names::new(alloc)),
        Some(array) => copy_strings(alloc, &array),
    }
}

/// Copies of the strings in an array.
fn copy_strings(alloc: Global, array: &RawDoc<'_>) -> Result<Names, Memory>
    ensures { IfOk result (λ names. names ≡ texts array.now.tree) }
{
    let mut names = Names::new(alloc);
    for item in array.items() {
        if let Some(text) = text_of(&item) {
            push_copy(alloc, &mut names, text)?;
        }
    }
    Ok(names)
}

/// Appends a copy of a name.
fn push_copy(alloc: Global, names: &mut Names, name: &[u8]) -> Result<(), Memory>
    ensures { OnOk result (names.new ≡ names.old ++ name.now ∷ []) }
{
    let copy = Bytes::from_slice(alloc, name)?;
    match names.push(copy) {
        Ok(()) => Ok(()),
        Err(_) => Err(Memory),
    }
}
