//! BSON documents for tests, put together from names and elements.

use bson_codec::check_bson;
use encrypt_schema::{Rows, SchemaFault};
use std::alloc::Global;

/// The longest document that a test makes.
const LONGEST: usize = 1_000_000;

/// `keyId: [K1]`, K1 being the UUID of sixteen bytes `1`.
pub(crate) const KEY_1: &[u8] =
    b"\x04keyId\x00\x1D\x00\x00\x00\x050\x00\x10\x00\x00\x00\x041111111111111111\x00";

/// `keyId: [K2]`, K2 being the UUID of sixteen bytes `2`.
pub(crate) const KEY_2: &[u8] =
    b"\x04keyId\x00\x1D\x00\x00\x00\x050\x00\x10\x00\x00\x00\x042222222222222222\x00";

/// `algorithm` of the deterministic algorithm.
pub(crate) const DETERMINISTIC: &[u8] =
    b"\x02algorithm\x00\x2C\x00\x00\x00AEAD_AES_256_CBC_HMAC_SHA_512-Deterministic\x00";

/// `algorithm` of the random algorithm.
pub(crate) const RANDOM: &[u8] =
    b"\x02algorithm\x00\x25\x00\x00\x00AEAD_AES_256_CBC_HMAC_SHA_512-Random\x00";

/// `algorithm: "x"`.
pub(crate) const NO_SUCH_ALGORITHM: &[u8] = b"\x02algorithm\x00\x02\x00\x00\x00x\x00";

/// `bsonType: "int"`.
pub(crate) const INT: &[u8] = b"\x02bsonType\x00\x04\x00\x00\x00int\x00";

/// `bsonType: "null"`.
pub(crate) const NULL: &[u8] = b"\x02bsonType\x00\x05\x00\x00\x00null\x00";

/// `encrypt: {}`.
pub(crate) const ENCRYPT: &[u8] = b"\x03encrypt\x00\x05\x00\x00\x00\x00";

/// `encrypt: {algorithm: "x"}`.
pub(crate) const ENCRYPT_OTHERWISE: &[u8] =
    b"\x03encrypt\x00\x16\x00\x00\x00\x02algorithm\x00\x02\x00\x00\x00x\x00\x00";

/// `properties: true`.
pub(crate) const NO_PROPERTIES: &[u8] = b"\x08properties\x00\x01";

/// `foo: true`, which is no keyword.
pub(crate) const NO_KEYWORD: &[u8] = b"\x08foo\x00\x01";

/// Puts a document of these elements behind the bytes.
pub(crate) fn put_document(out: &mut Vec<u8>, elements: &[u8]) -> Option<()> {
    if elements.len() > LONGEST {
        return None;
    }
    let width = elements.len() as u32 + 5;
    out.extend_from_slice(&width.to_le_bytes()).ok()?;
    out.extend_from_slice(elements).ok()?;
    out.push(0).ok()
}

/// An element of this name, a document of these elements.
fn element(alloc: Global, name: &[u8], elements: &[u8]) -> Option<Vec<u8>> {
    let mut out = Vec::from_slice(alloc, &[0x03]).ok()?;
    out.extend_from_slice(name).ok()?;
    out.push(0).ok()?;
    put_document(&mut out, elements)?;
    Some(out)
}

/// These parts one after another.
pub(crate) fn joined(alloc: Global, parts: &[&[u8]]) -> Option<Vec<u8>> {
    let mut out = Vec::new(alloc);
    for part in parts {
        out.extend_from_slice(part).ok()?;
    }
    Some(out)
}

/// The elements of a document that has, under the first name, a document that has, under the next name, and so
/// on, a document of these elements.
pub(crate) fn within(alloc: Global, path: &[&[u8]], parts: &[&[u8]]) -> Option<Vec<u8>> {
    let mut inner = joined(alloc, parts)?;
    for i in 0..path.len() {
        inner = element(alloc, path[path.len() - 1 - i], &inner)?;
    }
    Some(inner)
}

/// So many protected fields, of names of two bytes.
pub(crate) fn many_fields(alloc: Global, count: u32) -> Option<Vec<u8>> {
    let mut fields = Vec::new(alloc);
    for i in 0..count {
        let name = [
            b'a'.wrapping_add((i % 64) as u8),
            0x80 | ((i / 64) % 128) as u8,
        ];
        let field = within(alloc, &[&name, b"encrypt"], &[])?;
        fields.extend_from_slice(&field).ok()?;
    }
    Some(fields)
}

/// The rules of the schema of these elements, or why it is refused; `None` where it can't be made.
pub(crate) fn rules(alloc: Global, elements: &[u8]) -> Option<Result<Rows, SchemaFault>> {
    let mut schema = Vec::new(alloc);
    put_document(&mut schema, elements)?;
    if schema.len() > LONGEST {
        return None;
    }
    let schema = check_bson(&schema).ok()?;
    Some(Rows::read(alloc, &schema))
}

/// Whether the schema that has these elements at the end of this path has this fault or, without one, is accepted.
pub(crate) fn has_fault(
    alloc: Global,
    path: &[&[u8]],
    parts: &[&[u8]],
    fault: Option<SchemaFault>,
) -> bool {
    let Some(elements) = within(alloc, path, parts) else {
        return false;
    };
    match rules(alloc, &elements) {
        Some(rows) => rows.err() == fault,
        None => false,
    }
}
