//! What all tests read: documents, rules, and samples that are given in parts.

use bson_codec::{RawDoc, check_bson};
use encrypt_schema::Rows;
use std::alloc::Global;

/// The document of these bytes; `None` where they are none, or more than a test has.
pub(crate) fn document_of(bytes: &[u8]) -> Option<RawDoc<'_>> {
    if bytes.len() > 1000 {
        return None;
    }
    check_bson(bytes).ok()
}

/// The rules of a schema.
pub(crate) fn rows_of(alloc: Global, schema: &[u8]) -> Option<Rows> {
    let schema = document_of(schema)?;
    Rows::read(alloc, &schema).ok()
}

/// Parts one behind the other.
pub(crate) fn whole(alloc: Global, parts: &[&[u8]]) -> Option<Vec<u8>> {
    let mut bytes = Vec::new(alloc);
    for part in parts {
        bytes.extend_from_slice(part).ok()?;
    }
    Some(bytes)
}
