//! How the names of a key's fields stand in a document, found in one walk over it.

ghost use Rattle.std.specs.Prelude.{◌≡◌, codes};
ghost use Rattle.bson_codec.specs.Standings.{field_seen, standing, stands_behind};

use bson_codec::{Field, RawDoc, RawItem};

/// How each name of a key's fields stands in a document.
#[derive(Drop)]
pub(crate) struct KeyElements<'a> {
    /// `_id`.
    pub(crate) id: Field<'a>,
    /// `keyAltNames`.
    pub(crate) names: Field<'a>,
    /// `keyMaterial`.
    pub(crate) material: Field<'a>,
    /// `masterKey`.
    pub(crate) master_key: Field<'a>,
}

/// How these names stand among the fields of a document.
pub(crate) fn key_elements<'a>(document: &RawDoc<'a>) -> KeyElements<'a>
    ensures id { field_seen result.id ≡ standing (codes "_id") document.now.tree }
    ensures names { field_seen result.names ≡ standing (codes "keyAltNames") document.now.tree }
    ensures material { field_seen result.material ≡ standing (codes "keyMaterial") document.now.tree }
    ensures master_key { field_seen result.master_key ≡ standing (codes "masterKey") document.now.tree }
{
    let mut found = KeyElements {
        id: Field::Absent,
        names: Field::Absent,
        material: Field::Absent,
        master_key: Field::Absent,
    };
    for item in document.items() {
        put_element(&mut found, item);
    }
    found
}

/// One more element, behind those before.
fn put_element<'a>(found: &mut KeyElements<'a>, item: RawItem<'a>)
    ensures id { field_seen found.new.id ≡ stands_behind (codes "_id") (field_seen found.old.id) item.entry }
    ensures names { field_seen found.new.names
        ≡ stands_behind (codes "keyAltNames") (field_seen found.old.names) item.entry }
    ensures material { field_seen found.new.material
        ≡ stands_behind (codes "keyMaterial") (field_seen found.old.material) item.entry }
    ensures master_key { field_seen found.new.master_key
        ≡ stands_behind (codes "masterKey") (field_seen found.old.master_key) item.entry }
{
    let name = item.name();
    if name == b"_id".as_slice() {
        found.id.add(item);
    } else if name == b"keyAltNames".as_slice() {
        found.names.add(item);
    } else if name == b"keyMaterial".as_slice() {
        found.material.add(item);
    } else if name == b"masterKey".as_slice() {
        found.master_key.add(item);
    }
}
