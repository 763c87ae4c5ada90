//! Keys written as key documents.

ghost use Rattle.std.specs.Prelude.{◌≡◌, ◌+◌, ◌<◌, ◌≤◌, ◌^◌, ◌++◌, ◌∷◌, [], codes, decimal, length, Ok, IfOk, OnOk};
ghost use Rattle.std.specs.Int.{cast_unsigned, w32, w64};
ghost use Rattle.bson_tree.specs.Spelling.{doc_bytes, items_bytes, value_bytes};
ghost use Rattle.bson_tree.specs.Tree.{item, no_items};
ghost use Rattle.data_key.specs.Written.{binary, date, history, int, IsWritable, key_fields, local_key, names_field};
ghost use Rattle.data_key.specs.Written.{numbered, ReadsBack, size_of, text};

use crate::key_doc::KeyDoc;
use crate::values::GENERIC;
use bson_codec::writing::{append, close, open, put_name};
use bson_tree::{Bytes, subtypes, types};
use fle_outside::Memory;
use itoa::Buffer;
use std::alloc::Global;

/// The key document of a key under the user's master key, which has at most 1,000 names and, with its material, at
/// most 16,000,000 bytes of them. The dates are milliseconds since 1970. `Memory` where there is none for it.
pub fn write_key(
    alloc: Global,
    key: &KeyDoc,
    created_ms: i64,
    updated_ms: i64,
    status: i32,
) -> Result<Vec<u8>, Memory>
    requires { IsWritable key.now }
    ensures written { IfOk result (λ out. out.items
        ≡ doc_bytes (key_fields key.now (cast_unsigned w64 created_ms) (cast_unsigned w64 updated_ms)
        (cast_unsigned w32 status))) }
    ensures again { IfOk result (λ out. ReadsBack out.items key.now) }
{
    let mut out = Vec::new(alloc);
    open(&mut out)?;
    let created = created_ms.cast_unsigned();
    let updated = updated_ms.cast_unsigned();
    put_fields(&mut out, key, created, updated, status.cast_unsigned())?;
    close(&mut out, 0)?;
    Ok(out)
}

/// Appends the fields.
fn put_fields(
    out: &mut Vec<u8>,
    key: &KeyDoc,
    created: u64,
    updated: u64,
    status: u32,
) -> Result<(), Memory>
    requires few { length key.now.names ≤ 1000 }
    requires small { size_of key.now.names + length key.now.material ≤ 16000000 }
    requires room { length out.old.items < 2 ^ 30 }
    ensures fields { OnOk result
        (out.new.items ≡ out.old.items ++ items_bytes (key_fields key.now created updated status)) }
{
    put_id(out, &key.id)?;
    put_names(out, key.names.as_slice())?;
    put_material(out, key.material.as_slice())?;
    put_history(out, created, updated, status)?;
    Ok(())
}

/// Appends the field `_id`.
fn put_id(out: &mut Vec<u8>, id: &[u8; 16]) -> Result<(), Memory>
    ensures put { OnOk result
        (out.new.items ≡ out.old.items ++ items_bytes (item (codes "_id") (binary 4 id.now) no_items)) }
{
    put_binary(out, b"_id", subtypes::UUID, id)
}

/// Appends the field `keyAltNames`, where there are names.
fn put_names(out: &mut Vec<u8>, names: &[Bytes]) -> Result<(), Memory>
    requires few { length names.now ≤ 1000 }
    requires small { size_of names.now ≤ 16000000 }
    requires room { length out.old.items < 2 ^ 30 + 100 }
    ensures put { OnOk result (out.new.items ≡ out.old.items ++ items_bytes (names_field names.now no_items)) }
{
    if names.is_empty() {
        return Ok(());
    }
    put_name(out, types::ARRAY, b"keyAltNames")?;
    let at = out.len();
    open(out)?;
    put_texts(out, names)?;
    close(out, at)?;
    Ok(())
}

/// Appends the elements of an array of strings.
#[tactic(auto, using(crate::proofs::Sizes::first_size))]
fn put_texts(out: &mut Vec<u8>, names: &[Bytes]) -> Result<(), Memory>
    requires few { length names.now ≤ 1000 }
    requires small { size_of names.now ≤ 16000000 }
    ensures put { OnOk result (out.new.items ≡ out.old.items ++ items_bytes (numbered 0 names.now)) }
{
    let mut i = 0;
    for name in names {
        put_numbered(out, i, name.as_slice())?;
        i += 1;
    }
    Ok(())
}

/// Appends element `i` of an array, a string.
fn put_numbered(out: &mut Vec<u8>, i: u32, name: &[u8]) -> Result<(), Memory>
    requires { length name.now ≤ 16000000 }
    ensures put { OnOk result (out.new.items
        ≡ out.old.items ++ items_bytes (item (decimal i) (text name.now) no_items)) }
{
    let mut buffer = Buffer::new();
    put_name(out, types::STRING, buffer.format(i).as_bytes())?;
    put_text(out, name)?;
    Ok(())
}

/// Appends the value of a string.
fn put_text(out: &mut Vec<u8>, name: &[u8]) -> Result<(), Memory>
    requires { length name.now ≤ 16000000 }
    ensures put { OnOk result (out.new.items ≡ out.old.items ++ value_bytes (text name.now)) }
{
    append(out, &(name.len() as u32 + 1).to_le_bytes())?;
    append(out, name)?;
    append(out, &[0])?;
    Ok(())
}

/// Appends the field `keyMaterial`.
fn put_material(out: &mut Vec<u8>, material: &[u8]) -> Result<(), Memory>
    requires { length material.now ≤ 16000000 }
    ensures put { OnOk result
        (out.new.items ≡ out.old.items ++ items_bytes (item (codes "keyMaterial") (binary 0 material.now) no_items)) }
{
    put_binary(out, b"keyMaterial", GENERIC, material)
}

/// Appends a binary under a name.
fn put_binary(out: &mut Vec<u8>, name: &[u8], subtype: u8, contents: &[u8]) -> Result<(), Memory>
    requires { length contents.now ≤ 16000000 }
    ensures put { OnOk result
        (out.new.items ≡ out.old.items ++ items_bytes (item name.now (binary subtype contents.now) no_items)) }
{
    put_name(out, types::BINARY, name)?;
    append(out, &(contents.len() as u32).to_le_bytes())?;
    append(out, &[subtype])?;
    append(out, contents)?;
    Ok(())
}

/// Appends the fields behind the material.
fn put_history(out: &mut Vec<u8>, created: u64, updated: u64, status: u32) -> Result<(), Memory>
    ensures put { OnOk result (out.new.items ≡ out.old.items ++ items_bytes (history created updated status)) }
{
    put_creation_date(out, created)?;
    put_update_date(out, updated)?;
    put_status(out, status)?;
    put_master_key(out)?;
    Ok(())
}

/// Appends the field `creationDate`.
fn put_creation_date(out: &mut Vec<u8>, ms: u64) -> Result<(), Memory>
    ensures put { OnOk result
        (out.new.items ≡ out.old.items ++ items_bytes (item (codes "creationDate") (date ms) no_items)) }
{
    put_date(out, b"creationDate", ms)
}

/// Appends the field `updateDate`.
fn put_update_date(out: &mut Vec<u8>, ms: u64) -> Result<(), Memory>
    ensures put { OnOk result
        (out.new.items ≡ out.old.items ++ items_bytes (item (codes "updateDate") (date ms) no_items)) }
{
    put_date(out, b"updateDate", ms)
}

/// Appends a date under a name, by the 64 bits of its milliseconds.
fn put_date(out: &mut Vec<u8>, name: &[u8], ms: u64) -> Result<(), Memory>
    ensures put { OnOk result (out.new.items ≡ out.old.items ++ items_bytes (item name.now (date ms) no_items)) }
{
    put_name(out, types::DATE, name)?;
    append(out, &ms.to_le_bytes())?;
    Ok(())
}

/// Appends the field `status`.
fn put_status(out: &mut Vec<u8>, status: u32) -> Result<(), Memory>
    ensures put { OnOk result
        (out.new.items ≡ out.old.items ++ items_bytes (item (codes "status") (int status) no_items)) }
{
    put_int(out, b"status", status)
}

/// Appends an int under a name, by its 32 bits.
fn put_int(out: &mut Vec<u8>, name: &[u8], n: u32) -> Result<(), Memory>
    ensures put { OnOk result (out.new.items ≡ out.old.items ++ items_bytes (item name.now (int n) no_items)) }
{
    put_name(out, types::INT, name)?;
    append(out, &n.to_le_bytes())?;
    Ok(())
}

/// Appends the field `masterKey`.
fn put_master_key(out: &mut Vec<u8>) -> Result<(), Memory>
    ensures put { OnOk result
        (out.new.items ≡ out.old.items ++ items_bytes (item (codes "masterKey") local_key no_items)) }
{
    put_name(out, types::DOCUMENT, b"masterKey")?;
    append(
        out,
        b"\x19\x00\x00\x00\x02provider\x00\x06\x00\x00\x00local\x00\x00",
    )?;
    Ok(())
}
