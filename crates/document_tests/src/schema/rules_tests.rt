//! The rules that schemas state.

use crate::schema::test_documents::{
    DETERMINISTIC, INT, KEY_1, KEY_2, RANDOM, has_fault, joined, many_fields, rules, within,
};
use encrypt_schema::{Algorithm, Class, KeyRef, Policy, Rows, SchemaFault};
use std::alloc::Global;

/// `encrypt` in the schema of the field `a`.
const ENCRYPT_A: [&[u8]; 3] = [b"properties", b"a", b"encrypt"];

/// `bsonType: ["int", "int"]`.
const INT_AND_INT: &[u8] =
    b"\x04bsonType\x00\x1B\x00\x00\x00\x020\x00\x04\x00\x00\x00int\x00\x021\x00\x04\x00\x00\x00int\x00\x00";

/// `bsonType: ["int"]`.
const LIST_OF_INT: &[u8] = b"\x04bsonType\x00\x10\x00\x00\x00\x020\x00\x04\x00\x00\x00int\x00\x00";

/// `bsonType: "double"`.
const DOUBLE: &[u8] = b"\x02bsonType\x00\x07\x00\x00\x00double\x00";

/// `bsonType: "object"`.
const OBJECT: &[u8] = b"\x02bsonType\x00\x07\x00\x00\x00object\x00";

/// `bsonType: "bool"`.
const BOOL: &[u8] = b"\x02bsonType\x00\x05\x00\x00\x00bool\x00";

#[test]
fn deterministic_rules_have_one_type(rt: HostRuntime) {
    let refused = Some(SchemaFault::DeterministicType);
    let cases: &[(&[&[u8]], Option<SchemaFault>)] = &[
        (&[KEY_1, DETERMINISTIC, INT], None),
        (&[KEY_1, DETERMINISTIC, LIST_OF_INT], None),
        (&[KEY_1, DETERMINISTIC, INT_AND_INT], refused),
        (&[KEY_1, DETERMINISTIC, DOUBLE], refused),
        (&[KEY_1, DETERMINISTIC, BOOL], refused),
        (&[KEY_1, RANDOM, INT_AND_INT], None),
        (&[KEY_1, RANDOM, BOOL], None),
        (&[KEY_1, RANDOM], None),
    ];
    for (parts, expected) in cases {
        assert!(rt; has_fault(rt.alloc(), &ENCRYPT_A, parts, *expected));
    }
}

/// Whether the policy is this one, which allows an int, and a string where the flag says so.
fn is_policy(policy: Option<&Policy>, algorithm: Algorithm, key: u8, string: bool) -> bool {
    match policy {
        Some(policy) => {
            policy.algorithm == algorithm
                && policy.key.is_same(&KeyRef::Id([key; 16]))
                && policy.types.has(0x10)
                && policy.types.has(0x02) == string
        }
        None => false,
    }
}

/// The rules of the schema with these elements; `None` where it is refused.
fn rows_of(alloc: Global, parts: &[&[u8]]) -> Option<Rows> {
    let elements = joined(alloc, parts)?;
    rules(alloc, &elements)?.ok()
}

/// The class of a dotted path.
fn class_of(rows: &Rows, dotted: &[u8]) -> Class {
    rows.class(rows.walk(dotted).at)
}

/// Whether the only rule is of K1 and this algorithm, and allows an int.
fn is_only_policy(rows: &Rows, algorithm: Algorithm) -> bool {
    rows.len() == 1 && is_policy(rows.policy(0), algorithm, b'1', false)
}

/// `properties: {a: {..., encryptMetadata: {...}, properties: {b: {encrypt: {bsonType: "int"}}}}}` with these elements
/// in front and this metadata.
fn field_a(alloc: Global, front: &[u8], metadata: &[&[u8]]) -> Option<Vec<u8>> {
    let metadata = within(alloc, &[b"encryptMetadata"], metadata)?;
    let below = within(alloc, &[b"properties", b"b", b"encrypt"], &[INT])?;
    within(alloc, &[b"properties", b"a"], &[front, &metadata, &below])
}

/// The rules of `{encryptMetadata: {keyId: [K2], algorithm: RAND}, properties: {a: {encryptMetadata: {keyId: [K1]},
/// properties: {b: {encrypt: {bsonType: "int"}}}}}}`.
fn far_and_near(alloc: Global) -> Option<Rows> {
    let far = within(alloc, &[b"encryptMetadata"], &[KEY_2, RANDOM])?;
    let a = field_a(alloc, b"", &[KEY_1])?;
    rows_of(alloc, &[&far, &a])
}

#[test]
fn the_nearest_metadata_counts(rt: HostRuntime) {
    let rows = far_and_near(rt.alloc()).expect(&rt, "no rules");
    assert!(rt; is_only_policy(&rows, Algorithm::Random));
    assert!(rt; class_of(&rows, b"a.b") == Class::Protected(0));
    assert!(rt; class_of(&rows, b"a") == Class::Above);
}

/// `{properties: {a: {bsonType: "object", encryptMetadata: {keyId: [K1], algorithm: DET}, properties: {b:
/// {encrypt: {bsonType: "int"}}}}}}`.
#[test]
fn a_field_of_a_field_is_protected(rt: HostRuntime) {
    let a = field_a(rt.alloc(), OBJECT, &[KEY_1, DETERMINISTIC]).expect(&rt, "no field");
    let rows = rows_of(rt.alloc(), &[&a]).expect(&rt, "no rules");
    assert!(rt; is_only_policy(&rows, Algorithm::Deterministic));
    assert!(rt; class_of(&rows, b"a.b") == Class::Protected(0));
}

/// What is in force beside a schema isn't in force in it: `{properties: {a: {encryptMetadata: {keyId: [K1],
/// algorithm: RAND}}, b: {encrypt: {}}}}`.
#[test]
fn metadata_of_a_sibling_is_not_in_force(rt: HostRuntime) {
    let alloc = rt.alloc();
    let a = within(alloc, &[b"a", b"encryptMetadata"], &[KEY_1, RANDOM]).expect(&rt, "no field");
    let b = within(alloc, &[b"b", b"encrypt"], &[]).expect(&rt, "no field");
    assert!(rt; has_fault(alloc, &[b"properties"], &[&a, &b], Some(SchemaFault::NoKey)));
}

/// The rules of `{encryptMetadata: {keyId: [K1], algorithm: RAND}, properties: {..}}` with so many such fields.
fn many_rules(alloc: Global, count: u32) -> Option<Result<Rows, SchemaFault>> {
    let fields = many_fields(alloc, count)?;
    let metadata = within(alloc, &[b"encryptMetadata"], &[KEY_1, RANDOM])?;
    let properties = within(alloc, &[b"properties"], &[&fields])?;
    let elements = joined(alloc, &[&metadata, &properties])?;
    rules(alloc, &elements)
}

#[test]
fn there_may_be_4096_rules(rt: HostRuntime) {
    let answer = many_rules(rt.alloc(), 4096).expect(&rt, "no schema");
    let rows = answer.expect(&rt, "the schema is refused");
    assert!(rt; rows.len() == 4096);
    assert!(rt; is_policy(rows.policy(4095), Algorithm::Random, b'1', true));
}

#[test]
fn the_4097th_rule_is_one_too_many(rt: HostRuntime) {
    let answer = many_rules(rt.alloc(), 4097).expect(&rt, "no schema");
    assert!(rt; answer.err() == Some(SchemaFault::TooMany));
}
