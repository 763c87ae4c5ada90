//! Markings: a value with its algorithm and what names its key, for who seals it (MongoDB Client Side Encryption, BSON
//! binary subtype 6).

ghost use Rattle.std.specs.Prelude.{◌≡◌, ◌+◌, ◌≤◌, [], ◌∷◌, ◌++◌, codes, length, false, IfOk, OnOk};
ghost use Rattle.std.specs.Int.{to_le_bytes, w32};
ghost use Rattle.bson_codec.specs.Layout.{longest, string_bytes};
ghost use Rattle.bson_tree.specs.Spelling.{items_bytes, value_bytes};
ghost use Rattle.bson_tree.specs.Tree.{item as element, leaf, no_items};
ghost use Rattle.encrypt_schema.specs.Commands.Offences.{is_pointer};
ghost use Rattle.payload6.specs.Marking.{binary, key_id, key_name, key_value, marking, marking_fields};
ghost use Rattle.payload6.specs.Needs.{Id, Name, need_seen};
ghost use Rattle.payload6.specs.Payload.{algorithm_number};

use crate::needs::Need;
use crate::payload::{DETERMINISTIC, RANDOM};
use bson_codec::RawItem;
use bson_codec::writing::{append, put_name};
use bson_tree::{Bytes, subtypes, types};
use encrypt_schema::{Algorithm, KeyRef, Policy};
use fle_outside::Memory;
use std::alloc::Global;

/// How many bytes the document of a marking has more than its value and the key's id or name.
const DOCUMENT: usize = 24;

/// The marking of an element's value, of at most 67,108,864 bytes, under a policy whose key has an id: 00 and the
/// document `{v: value, a: algorithm, ki: key id}`. `Memory` where there is none for it.
pub fn marking(alloc: Global, item: &RawItem<'_>, policy: &Policy) -> Result<Bytes, Memory>
    requires short { length (value_bytes item.now.tree) ≤ longest }
    requires by_id { is_pointer policy.now.key ≡ false }
    ensures spelled { IfOk result (λ bytes. bytes
        ≡ marking policy.now.algorithm (Id (key_id policy.now.key)) item.now.tree) }
{
    match &policy.key {
        KeyRef::Id(id) => marking_by(alloc, item, policy.algorithm, Need::Id(*id)),
        KeyRef::Pointer(_) => unreachable!(),
    }
}

/// The marking of an element's value whose key has this alternate name, of at most 67,108,864 bytes together: 00 and
/// the document `{v: value, a: algorithm, ka: name}`. `Memory` where there is none for it.
pub fn marking_named(
    alloc: Global,
    item: &RawItem<'_>,
    algorithm: Algorithm,
    name: &[u8],
) -> Result<Bytes, Memory>
    requires { length (value_bytes item.now.tree) + length name.now ≤ longest }
    ensures spelled { IfOk result (λ bytes. bytes ≡ marking algorithm (Name name.now) item.now.tree) }
{
    marking_by(alloc, item, algorithm, Need::Name(name))
}

/// The marking of an element's value, with this key.
fn marking_by(
    alloc: Global,
    item: &RawItem<'_>,
    algorithm: Algorithm,
    need: Need<'_>,
) -> Result<Bytes, Memory>
    ensures spelled { IfOk result (λ bytes. bytes ≡ marking algorithm (need_seen need.entry) item.now.tree) }
{
    let mut out = with_room(alloc, 1 + DOCUMENT + need.len() + item.value().len())?;
    put_marking(&mut out, item, algorithm, need)?;
    Ok(Bytes::from_vec(out))
}

/// An empty buffer with room for this many bytes.
fn with_room(alloc: Global, size: usize) -> Result<Vec<u8>, Memory>
    ensures empty { IfOk result (λ v. v.items ≡ []) }
{
    match Vec::with_capacity(alloc, size) {
        Ok(out) => Ok(out),
        Err(_) => Err(Memory),
    }
}

/// Appends the marking of an element's value, with this algorithm and key, of any length. `Memory` where there is none
/// for it, with a part of the marking appended; it takes none where `out` has room.
pub fn put_marking(
    out: &mut Vec<u8>,
    item: &RawItem<'_>,
    algorithm: Algorithm,
    need: Need<'_>,
) -> Result<(), Memory>
    ensures appended { OnOk result
        (out.new.items ≡ out.old.items ++ marking algorithm (need_seen need.entry) item.now.tree) }
{
    let size = item.value().len() + need.len() + DOCUMENT;
    append(out, &[0])?;
    put_length(out, size)?;
    put_fields(out, item, algorithm, need)?;
    append(out, &[0])?;
    Ok(())
}

/// Appends a length in four bytes.
fn put_length(out: &mut Vec<u8>, size: usize) -> Result<(), Memory>
    ensures length { OnOk result (out.new.items ≡ out.old.items ++ to_le_bytes w32 size) }
{
    append(out, &length_bytes(size))?;
    Ok(())
}

/// The four bytes of a length (BSON 1.1, int32).
pub fn length_bytes(size: usize) -> [u8; 4]
    ensures bytes { result ≡ to_le_bytes w32 size }
{
    let bytes = size.to_le_bytes();
    [bytes[0], bytes[1], bytes[2], bytes[3]]
}

/// Appends the fields of a marking's document.
fn put_fields(
    out: &mut Vec<u8>,
    item: &RawItem<'_>,
    algorithm: Algorithm,
    need: Need<'_>,
) -> Result<(), Memory>
    ensures fields { OnOk result
        (out.new.items ≡ out.old.items ++ items_bytes (marking_fields algorithm (need_seen need.entry) item.now.tree)) }
{
    put_value(out, item)?;
    put_algorithm(out, algorithm)?;
    put_key(out, need)?;
    Ok(())
}

/// Appends the field `v`, with the value's bytes as they stand.
fn put_value(out: &mut Vec<u8>, item: &RawItem<'_>) -> Result<(), Memory>
    ensures { OnOk result
        (out.new.items ≡ out.old.items ++ items_bytes (element (codes "v") item.now.tree no_items)) }
{
    put_name(out, item.tag(), b"v")?;
    append(out, item.value())?;
    Ok(())
}

/// Appends the field `a`.
fn put_algorithm(out: &mut Vec<u8>, algorithm: Algorithm) -> Result<(), Memory>
    ensures { OnOk result (out.new.items ≡ out.old.items ++ items_bytes
        (element (codes "a") (leaf 16 (algorithm_number algorithm ∷ (0 ∷ (0 ∷ (0 ∷ []))))) no_items)) }
{
    put_name(out, types::INT, b"a")?;
    append(out, &[kind_of(algorithm), 0, 0, 0])?;
    Ok(())
}

/// Appends the field that names the key.
fn put_key(out: &mut Vec<u8>, need: Need<'_>) -> Result<(), Memory>
    ensures key { OnOk result (out.new.items ≡ out.old.items ++ items_bytes
        (element (key_name (need_seen need.entry)) (key_value (need_seen need.entry)) no_items)) }
{
    match need {
        Need::Id(id) => put_key_id(out, &id)?,
        Need::Name(name) => put_key_name(out, name)?,
    }
    Ok(())
}

/// Appends the field `ki`.
fn put_key_id(out: &mut Vec<u8>, id: &[u8; 16]) -> Result<(), Memory>
    ensures { OnOk result
        (out.new.items ≡ out.old.items ++ items_bytes (element (codes "ki") (binary 4 id.now) no_items)) }
{
    put_name(out, types::BINARY, b"ki")?;
    append(out, &[16, 0, 0, 0, subtypes::UUID])?;
    append(out, id)?;
    Ok(())
}

/// Appends the field `ka`.
fn put_key_name(out: &mut Vec<u8>, name: &[u8]) -> Result<(), Memory>
    ensures { OnOk result (out.new.items ≡ out.old.items ++ items_bytes
        (element (codes "ka") (leaf 2 (string_bytes name.now)) no_items)) }
{
    put_name(out, types::STRING, b"ka")?;
    put_length(out, name.len() + 1)?;
    append(out, name)?;
    append(out, &[0])?;
    Ok(())
}

/// The number of an algorithm.
pub fn kind_of(algorithm: Algorithm) -> u8
    ensures number { result ≡ algorithm_number algorithm }
{
    match algorithm {
        Algorithm::Deterministic => DETERMINISTIC,
        Algorithm::Random => RANDOM,
    }
}
