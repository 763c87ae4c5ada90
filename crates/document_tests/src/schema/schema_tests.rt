//! The rules of schemas, and why schemas are refused.

use crate::schema::test_documents::{
    DETERMINISTIC, ENCRYPT, ENCRYPT_OTHERWISE, INT, KEY_1, NO_KEYWORD, NO_PROPERTIES,
    NO_SUCH_ALGORITHM, NULL, RANDOM, has_fault, within,
};
use encrypt_schema::SchemaFault;

/// The path of the root.
const ROOT: [&[u8]; 0] = [];

/// The schema of the field `a`.
const A: [&[u8]; 2] = [b"properties", b"a"];

/// `encrypt` in the schema of the field `a`.
const ENCRYPT_A: [&[u8]; 3] = [b"properties", b"a", b"encrypt"];

/// `encrypt` in the schema of a field `a.b`, whose name has a dot.
const ENCRYPT_DOT: [&[u8]; 3] = [b"properties", b"a.b", b"encrypt"];

/// `type: "string"`, which is a keyword of any value.
const TYPE: &[u8] = b"\x02type\x00\x07\x00\x00\x00string\x00";

#[test]
fn the_faults_of_a_schema_in_the_smallest_ones(rt: HostRuntime) {
    let cases: &[(&[&[u8]], &[&[u8]], SchemaFault)] = &[
        (&ROOT, &[NO_KEYWORD], SchemaFault::Keyword),
        (&ROOT, &[NO_PROPERTIES], SchemaFault::Shape),
        (&ROOT, &[ENCRYPT], SchemaFault::Misplaced),
        (&A, &[ENCRYPT, TYPE], SchemaFault::Sibling),
    ];
    for (path, parts, expected) in cases {
        assert!(rt; has_fault(rt.alloc(), path, parts, Some(*expected)));
    }
}

#[test]
fn the_faults_of_a_rule_in_the_smallest_schemas(rt: HostRuntime) {
    let cases: &[(&[&[u8]], &[&[u8]], SchemaFault)] = &[
        (&ENCRYPT_A, &[RANDOM], SchemaFault::NoKey),
        (&ENCRYPT_A, &[KEY_1], SchemaFault::NoAlgorithm),
        (
            &ENCRYPT_A,
            &[KEY_1, NO_SUCH_ALGORITHM],
            SchemaFault::Algorithm,
        ),
        (&ENCRYPT_A, &[KEY_1, RANDOM, NULL], SchemaFault::TypeName),
        (
            &ENCRYPT_A,
            &[KEY_1, DETERMINISTIC],
            SchemaFault::DeterministicType,
        ),
        (&ENCRYPT_DOT, &[KEY_1, RANDOM], SchemaFault::Name),
    ];
    for (path, parts, expected) in cases {
        assert!(rt; has_fault(rt.alloc(), path, parts, Some(*expected)));
    }
}

#[test]
fn elements_are_judged_in_order_and_before_all_else(rt: HostRuntime) {
    let cases: &[(&[&[u8]], &[&[u8]], SchemaFault)] = &[
        (&ROOT, &[NO_KEYWORD, NO_PROPERTIES], SchemaFault::Keyword),
        (&ROOT, &[NO_PROPERTIES, NO_KEYWORD], SchemaFault::Shape),
        (&ROOT, &[ENCRYPT, NO_PROPERTIES], SchemaFault::Shape),
        (&ROOT, &[ENCRYPT, NO_KEYWORD], SchemaFault::Keyword),
        (&ROOT, &[ENCRYPT, TYPE], SchemaFault::Misplaced),
        (&A, &[ENCRYPT_OTHERWISE, TYPE], SchemaFault::Sibling),
    ];
    for (path, parts, expected) in cases {
        assert!(rt; has_fault(rt.alloc(), path, parts, Some(*expected)));
    }
}

/// `bsonType: ["null", "int"]`.
const NULL_AND_INT: &[u8] =
    b"\x04bsonType\x00\x1C\x00\x00\x00\x020\x00\x05\x00\x00\x00null\x00\x021\x00\x04\x00\x00\x00int\x00\x00";

#[test]
fn a_rule_is_judged_in_order(rt: HostRuntime) {
    let cases: &[(&[&[u8]], &[&[u8]], SchemaFault)] = &[
        (&ENCRYPT_A, &[NO_SUCH_ALGORITHM], SchemaFault::Algorithm),
        (
            &ENCRYPT_A,
            &[NO_SUCH_ALGORITHM, NULL],
            SchemaFault::Algorithm,
        ),
        (&ENCRYPT_A, &[], SchemaFault::NoKey),
        (&ENCRYPT_A, &[KEY_1, NULL], SchemaFault::NoAlgorithm),
        (
            &ENCRYPT_A,
            &[KEY_1, DETERMINISTIC, NULL_AND_INT],
            SchemaFault::TypeName,
        ),
        (&ENCRYPT_DOT, &[KEY_1, RANDOM, NULL], SchemaFault::TypeName),
        (
            &ENCRYPT_DOT,
            &[KEY_1, DETERMINISTIC],
            SchemaFault::DeterministicType,
        ),
    ];
    for (path, parts, expected) in cases {
        assert!(rt; has_fault(rt.alloc(), path, parts, Some(*expected)));
    }
}

/// `properties: {a: {foo: true}}`.
const PROPERTIES_WITHOUT_KEYWORD: &[u8] =
    b"\x03properties\x00\x13\x00\x00\x00\x03a\x00\x0B\x00\x00\x00\x08foo\x00\x01\x00\x00";

/// `not: {encrypt: {}}`.
const NOT_ENCRYPT: &[u8] = b"\x03not\x00\x13\x00\x00\x00\x03encrypt\x00\x05\x00\x00\x00\x00\x00";

/// `encryptMetadata: {algorithm: "x"}`.
const METADATA_OTHERWISE: &[u8] =
    b"\x03encryptMetadata\x00\x16\x00\x00\x00\x02algorithm\x00\x02\x00\x00\x00x\x00\x00";

#[test]
fn a_schema_is_judged_before_its_subschemas(rt: HostRuntime) {
    let cases: &[(&[&[u8]], &[&[u8]], SchemaFault)] = &[
        (
            &ROOT,
            &[PROPERTIES_WITHOUT_KEYWORD, METADATA_OTHERWISE],
            SchemaFault::Algorithm,
        ),
        (
            &ROOT,
            &[PROPERTIES_WITHOUT_KEYWORD, NO_PROPERTIES],
            SchemaFault::Shape,
        ),
        (
            &A,
            &[PROPERTIES_WITHOUT_KEYWORD, ENCRYPT],
            SchemaFault::Sibling,
        ),
        (
            &ROOT,
            &[NOT_ENCRYPT, PROPERTIES_WITHOUT_KEYWORD],
            SchemaFault::Misplaced,
        ),
        (
            &ROOT,
            &[PROPERTIES_WITHOUT_KEYWORD, NOT_ENCRYPT],
            SchemaFault::Keyword,
        ),
    ];
    for (path, parts, expected) in cases {
        assert!(rt; has_fault(rt.alloc(), path, parts, Some(*expected)));
    }
}

/// `items: [{encrypt: {}}]`.
const ITEMS_ENCRYPT: &[u8] =
    b"\x04items\x00\x1B\x00\x00\x00\x030\x00\x13\x00\x00\x00\x03encrypt\x00\x05\x00\x00\x00\x00\x00\x00";

/// `properties: {b: {encrypt: {}}}`.
const PROPERTIES_ENCRYPT: &[u8] =
    b"\x03properties\x00\x1B\x00\x00\x00\x03b\x00\x13\x00\x00\x00\x03encrypt\x00\x05\x00\x00\x00\x00\x00\x00";

/// `encryptMetadata: {}`.
const METADATA: &[u8] = b"\x03encryptMetadata\x00\x05\x00\x00\x00\x00";

#[test]
fn rules_stand_below_properties_alone(rt: HostRuntime) {
    let cases: &[(&[&[u8]], &[&[u8]])] = &[
        (&ROOT, &[ENCRYPT]),
        (&[b"items"], &[ENCRYPT]),
        (&A, &[ITEMS_ENCRYPT]),
        (&[b"patternProperties", b"a"], &[ENCRYPT]),
        (&[b"additionalItems"], &[ENCRYPT]),
    ];
    for (path, parts) in cases {
        assert!(rt; has_fault(rt.alloc(), path, parts, Some(SchemaFault::Misplaced)));
    }
}

/// `additionalProperties: {encrypt: {}}`.
const OTHERS_ENCRYPT: &[u8] =
    b"\x03additionalProperties\x00\x13\x00\x00\x00\x03encrypt\x00\x05\x00\x00\x00\x00\x00";

/// `patternProperties: {}`.
const PATTERNS: &[u8] = b"\x03patternProperties\x00\x05\x00\x00\x00\x00";

#[test]
fn rules_for_other_names_stand_in_good_schemas_without_patterns(rt: HostRuntime) {
    let cases: &[(&[&[u8]], &[&[u8]], SchemaFault)] = &[
        (&ROOT, &[OTHERS_ENCRYPT], SchemaFault::NoKey),
        (&A, &[OTHERS_ENCRYPT], SchemaFault::NoKey),
        (&ROOT, &[OTHERS_ENCRYPT, PATTERNS], SchemaFault::Misplaced),
        (&A, &[PATTERNS, OTHERS_ENCRYPT], SchemaFault::Misplaced),
        (&[b"not"], &[OTHERS_ENCRYPT], SchemaFault::Misplaced),
        (
            &[b"additionalItems"],
            &[OTHERS_ENCRYPT],
            SchemaFault::Misplaced,
        ),
    ];
    for (path, parts, expected) in cases {
        assert!(rt; has_fault(rt.alloc(), path, parts, Some(*expected)));
    }
}

/// The schema of other names.
const OTHERS: [&[u8]; 1] = [b"additionalProperties"];

#[test]
fn a_schema_of_other_names_has_a_rule_and_no_more(rt: HostRuntime) {
    let cases: &[(&[&[u8]], &[&[u8]], SchemaFault)] = &[
        (&OTHERS, &[METADATA], SchemaFault::Misplaced),
        (&OTHERS, &[OTHERS_ENCRYPT], SchemaFault::Misplaced),
        (&OTHERS, &[PROPERTIES_ENCRYPT], SchemaFault::Misplaced),
        (&OTHERS, &[ENCRYPT, TYPE], SchemaFault::Sibling),
    ];
    for (path, parts, expected) in cases {
        assert!(rt; has_fault(rt.alloc(), path, parts, Some(*expected)));
    }
}

#[test]
fn a_rule_for_other_names_is_judged_where_it_stands(rt: HostRuntime) {
    let cases: &[(&[&[u8]], &[&[u8]], SchemaFault)] = &[
        (
            &ROOT,
            &[PROPERTIES_WITHOUT_KEYWORD, PATTERNS, OTHERS_ENCRYPT],
            SchemaFault::Keyword,
        ),
        (
            &ROOT,
            &[OTHERS_ENCRYPT, PATTERNS, PROPERTIES_WITHOUT_KEYWORD],
            SchemaFault::Misplaced,
        ),
        (
            &ROOT,
            &[OTHERS_ENCRYPT, PATTERNS, METADATA_OTHERWISE],
            SchemaFault::Algorithm,
        ),
    ];
    for (path, parts, expected) in cases {
        assert!(rt; has_fault(rt.alloc(), path, parts, Some(*expected)));
    }
}

/// `properties: {"x.y": {}}`.
const LISTED_DOT: &[u8] = b"\x03properties\x00\x0F\x00\x00\x00\x03x.y\x00\x05\x00\x00\x00\x00\x00";

#[test]
fn names_on_the_way_are_plain_and_listed_ones_may_be_any(rt: HostRuntime) {
    let alloc = rt.alloc();
    let rule = within(
        alloc,
        &[b"additionalProperties", b"encrypt"],
        &[KEY_1, RANDOM],
    )
    .expect(&rt, "no rule");
    let dotted: [&[u8]; 2] = [b"properties", b"a.b"];
    assert!(rt; has_fault(alloc, &dotted, &[&rule], Some(SchemaFault::Name)));
    assert!(rt; has_fault(alloc, &A, &[LISTED_DOT, &rule], None));
}

#[test]
fn no_rules_stand_below_dependencies_not_and_items(rt: HostRuntime) {
    let cases: &[(&[&[u8]], &[&[u8]])] = &[
        (&[b"dependencies", b"a"], &[ENCRYPT]),
        (&[b"not"], &[ENCRYPT]),
        (&[b"properties", b"a", b"items"], &[PROPERTIES_ENCRYPT]),
        (&[b"items"], &[METADATA]),
        (&[b"dependencies", b"a"], &[METADATA]),
    ];
    for (path, parts) in cases {
        assert!(rt; has_fault(rt.alloc(), path, parts, Some(SchemaFault::Misplaced)));
    }
}

/// `keyId: "a"`.
const KEY_NAMED: &[u8] = b"\x02keyId\x00\x02\x00\x00\x00a\x00";

/// `keyId: [a binary of subtype 03 and 16 bytes]`.
const KEY_OF_SUBTYPE_3: &[u8] =
    b"\x04keyId\x00\x1D\x00\x00\x00\x050\x00\x10\x00\x00\x00\x031111111111111111\x00";

/// `keyId: []`.
const NO_KEYS: &[u8] = b"\x04keyId\x00\x05\x00\x00\x00\x00";

/// `bsonType: []`.
const NO_TYPES: &[u8] = b"\x04bsonType\x00\x05\x00\x00\x00\x00";

/// `items: [true]`.
const ITEMS_BOOL: &[u8] = b"\x04items\x00\x09\x00\x00\x00\x080\x00\x01\x00";

/// `a: {}`.
const FIELD_A: &[u8] = b"\x03a\x00\x05\x00\x00\x00\x00";

#[test]
fn keywords_stand_once_and_have_their_forms(rt: HostRuntime) {
    let cases: &[(&[&[u8]], &[&[u8]])] = &[
        (&ROOT, &[TYPE, TYPE]),
        (&[b"properties"], &[FIELD_A, FIELD_A]),
        (&[b"allOf"], &[FIELD_A]),
        (&ROOT, &[ITEMS_BOOL]),
        (&[b"not", b"properties"], &[NO_KEYWORD]),
    ];
    for (path, parts) in cases {
        assert!(rt; has_fault(rt.alloc(), path, parts, Some(SchemaFault::Shape)));
    }
}

#[test]
fn settings_stand_once_and_have_their_forms(rt: HostRuntime) {
    let cases: &[(&[&[u8]], &[&[u8]])] = &[
        (&ENCRYPT_A, &[KEY_1, KEY_1]),
        (&ENCRYPT_A, &[KEY_NAMED]),
        (&ENCRYPT_A, &[KEY_OF_SUBTYPE_3]),
        (&ENCRYPT_A, &[NO_KEYS]),
        (&ENCRYPT_A, &[NO_TYPES]),
        (&ENCRYPT_A, &[TYPE]),
        (&[b"encryptMetadata"], &[INT]),
    ];
    for (path, parts) in cases {
        assert!(rt; has_fault(rt.alloc(), path, parts, Some(SchemaFault::Shape)));
    }
}
