//! Which values may be stored under a rule.

use crate::schema::test_documents::{INT, KEY_1, RANDOM, rules, within};
use bson_codec::check_bson;
use encrypt_schema::{Policy, Reason, Rows, type_allowed};
use std::alloc::Global;

/// `{a: 1}`.
const AN_INT: &[u8] = b"\x0C\x00\x00\x00\x10a\x00\x01\x00\x00\x00\x00";

/// `{a: ""}`.
const STRING: &[u8] = b"\x0D\x00\x00\x00\x02a\x00\x01\x00\x00\x00\x00\x00";

/// `{a: null}`.
const NULL: &[u8] = b"\x08\x00\x00\x00\x0Aa\x00\x00";

/// `{a: an empty binary of subtype 00}`.
const BINARY: &[u8] = b"\x0D\x00\x00\x00\x05a\x00\x00\x00\x00\x00\x00\x00";

/// `{a: an empty binary of subtype 06}`.
const SEALED: &[u8] = b"\x0D\x00\x00\x00\x05a\x00\x00\x00\x00\x00\x06\x00";

/// `{a: {b: an empty binary of subtype 06}}`.
const HOLDS_SEALED: &[u8] =
    b"\x15\x00\x00\x00\x03a\x00\x0D\x00\x00\x00\x05b\x00\x00\x00\x00\x00\x06\x00\x00";

/// `bsonType: ["int", "string"]`.
const INT_OR_STRING: &[u8] =
    b"\x04bsonType\x00\x1E\x00\x00\x00\x020\x00\x04\x00\x00\x00int\x00\x021\x00\x07\x00\x00\x00string\x00\x00";

/// `bsonType: "binData"`.
const BIN_DATA: &[u8] = b"\x02bsonType\x00\x08\x00\x00\x00binData\x00";

/// `bsonType: "object"`.
const OBJECT: &[u8] = b"\x02bsonType\x00\x07\x00\x00\x00object\x00";

/// The rules of a schema with one protected field, `a`, of these types.
fn rows_of(alloc: Global, types: &[u8]) -> Option<Rows> {
    let elements = within(
        alloc,
        &[b"properties", b"a", b"encrypt"],
        &[KEY_1, RANDOM, types],
    )?;
    rules(alloc, &elements)?.ok()
}

/// Whether the only value of the document can't be stored under a rule of these types, for this reason; without a
/// reason, whether it can.
fn has_reason(alloc: Global, types: &[u8], document: &[u8], reason: Option<Reason>) -> bool {
    match rows_of(alloc, types) {
        Some(rows) => {
            matches!(rows.policy(0), Some(policy) if has_reason_under(policy, document, reason))
        }
        None => false,
    }
}

/// The same under this rule.
fn has_reason_under(policy: &Policy, document: &[u8], reason: Option<Reason>) -> bool {
    if document.len() > 100 {
        return false;
    }
    match check_bson(document) {
        Ok(document) => {
            matches!(document.items().next(), Some(item) if type_allowed(policy, &item) == reason)
        }
        Err(_) => false,
    }
}

#[test]
fn types_and_sealed_values_are_refused(rt: HostRuntime) {
    let not_allowed = Some(Reason::TypeNotAllowed);
    let cases: &[(&[u8], &[u8], Option<Reason>)] = &[
        (INT, AN_INT, None),
        (INT, STRING, not_allowed),
        (INT_OR_STRING, STRING, None),
        (INT, NULL, not_allowed),
        (INT_OR_STRING, b"\x08\x00\x00\x00\x06a\x00\x00", not_allowed),
        (OBJECT, b"\x08\x00\x00\x00\x7Fa\x00\x00", not_allowed),
        (BIN_DATA, BINARY, None),
        (BIN_DATA, SEALED, Some(Reason::AlreadyEncrypted)),
        (INT, SEALED, not_allowed),
        (OBJECT, HOLDS_SEALED, None),
    ];
    for (types, document, expected) in cases {
        assert!(rt; has_reason(rt.alloc(), types, document, *expected));
    }
}
