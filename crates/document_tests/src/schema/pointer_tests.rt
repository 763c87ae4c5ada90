//! Rules whose keys are named by JSON pointers (RFC 6901).

use crate::schema::test_documents::{
    DETERMINISTIC, INT, KEY_1, NULL, RANDOM, has_fault, joined, many_fields, put_document, rules,
    within,
};
use bson_tree::{Bytes, Names};
use encrypt_schema::{InfoFault, InfoKind, Infos, KeyRef, Rows, SchemaFault, SharedNames};
use std::alloc::Global;

/// `encrypt` in the schema of the field `a`.
const ENCRYPT_A: [&[u8]; 3] = [b"properties", b"a", b"encrypt"];

/// `encrypt` in the schema of a field `a.b`, whose name has a dot.
const ENCRYPT_DOT: [&[u8]; 3] = [b"properties", b"a.b", b"encrypt"];

/// `keyId: "/owner"`.
const OWNER: &[u8] = b"\x02keyId\x00\x07\x00\x00\x00/owner\x00";

/// The longest text that a test states.
const LONGEST: usize = 100;

/// `keyId` with this text.
fn key_id(alloc: Global, text: &[u8]) -> Option<Vec<u8>> {
    if text.len() > LONGEST {
        return None;
    }
    let width = text.len() as u32 + 1;
    let mut out = Vec::from_slice(alloc, b"\x02keyId\x00").ok()?;
    out.extend_from_slice(&width.to_le_bytes()).ok()?;
    out.extend_from_slice(text).ok()?;
    out.push(0).ok()?;
    Some(out)
}

/// The key with the name to which these names lead.
fn pointer(alloc: Global, names: &[&[u8]]) -> Option<KeyRef> {
    let mut all = Names::new(alloc);
    for name in names {
        all.push(Bytes::from_slice(alloc, name).ok()?).ok()?;
    }
    Some(KeyRef::Pointer(SharedNames::new(alloc, all).ok()?))
}

/// Whether the rule of this number has this key.
fn has_key(rows: &Rows, i: u32, key: &KeyRef) -> bool {
    match rows.policy(i) {
        Some(policy) => policy.key.is_same(key),
        None => false,
    }
}

/// The rules of the schema with these elements; `None` where it is refused.
fn rows_of(alloc: Global, parts: &[&[u8]]) -> Option<Rows> {
    let elements = joined(alloc, parts)?;
    rules(alloc, &elements)?.ok()
}

/// Whether a random rule whose `keyId` is this text has its key where these names lead.
fn is_read(alloc: Global, text: &[u8], names: &[&[u8]]) -> Option<bool> {
    let key_id = key_id(alloc, text)?;
    let rule = within(alloc, &ENCRYPT_A, &[&key_id, RANDOM])?;
    let rows = rows_of(alloc, &[&rule])?;
    Some(rows.len() == 1 && has_key(&rows, 0, &pointer(alloc, names)?))
}

#[test]
fn a_pointer_is_read_name_by_name(rt: HostRuntime) {
    let cases: &[(&[u8], &[&[u8]])] = &[
        (b"/owner", &[b"owner"]),
        (b"/a/bc/d", &[b"a", b"bc", b"d"]),
        (b"/a.b/$c/0", &[b"a.b", b"$c", b"0"]),
        (b"/a~1b", &[b"a/b"]),
        (b"/m~0n", &[b"m~n"]),
        (b"/~01", &[b"~1"]),
        (b"/~0~1", &[b"~/"]),
    ];
    for (text, names) in cases {
        assert!(rt; is_read(rt.alloc(), text, names) == Some(true));
    }
}

/// The fault of a random rule whose `keyId` is this text, stated in `encrypt` or in `encryptMetadata`.
fn is_refused(alloc: Global, path: &[&[u8]], text: &[u8]) -> bool {
    match key_id(alloc, text) {
        Some(key_id) => has_fault(alloc, path, &[&key_id, RANDOM], Some(SchemaFault::Shape)),
        None => false,
    }
}

#[test]
fn any_other_text_has_no_form(rt: HostRuntime) {
    let cases: &[&[u8]] = &[
        b"", b"/", b"a", b"a/b", b"/a/", b"/a//b", b"//a", b"/~", b"/a~", b"/~2", b"/~~0", b"/a~/0",
    ];
    for text in cases {
        assert!(rt; is_refused(rt.alloc(), &ENCRYPT_A, text));
        assert!(rt; is_refused(rt.alloc(), &[b"encryptMetadata"], text));
    }
}

#[test]
fn a_key_is_stated_once(rt: HostRuntime) {
    let cases: &[&[&[u8]]] = &[&[OWNER, OWNER], &[OWNER, KEY_1], &[KEY_1, OWNER]];
    for parts in cases {
        assert!(rt; has_fault(rt.alloc(), &ENCRYPT_A, parts, Some(SchemaFault::Shape)));
    }
}

#[test]
fn pointers_are_for_random_rules(rt: HostRuntime) {
    let refused = Some(SchemaFault::DeterministicPointer);
    let cases: &[(&[&[u8]], &[&[u8]], Option<SchemaFault>)] = &[
        (&ENCRYPT_A, &[OWNER, RANDOM, INT], None),
        (&ENCRYPT_A, &[OWNER, DETERMINISTIC, INT], refused),
        (&ENCRYPT_A, &[OWNER], Some(SchemaFault::NoAlgorithm)),
        (
            &ENCRYPT_A,
            &[OWNER, DETERMINISTIC, NULL],
            Some(SchemaFault::TypeName),
        ),
        (
            &ENCRYPT_A,
            &[OWNER, DETERMINISTIC],
            Some(SchemaFault::DeterministicType),
        ),
        (
            &ENCRYPT_DOT,
            &[OWNER, DETERMINISTIC, INT],
            Some(SchemaFault::Name),
        ),
    ];
    for (path, parts, expected) in cases {
        assert!(rt; has_fault(rt.alloc(), path, parts, *expected));
    }
}

/// Whether `{encryptMetadata: {..}, properties: {a: {encrypt: {..}}}}` with these settings has this fault.
fn settings_have_fault(
    alloc: Global,
    metadata: &[&[u8]],
    settings: &[&[u8]],
    fault: Option<SchemaFault>,
) -> Option<bool> {
    let metadata = within(alloc, &[b"encryptMetadata"], metadata)?;
    let rule = within(alloc, &ENCRYPT_A, settings)?;
    Some(has_fault(alloc, &[], &[&metadata, &rule], fault))
}

#[test]
fn key_and_algorithm_in_force_are_judged_together(rt: HostRuntime) {
    let refused = Some(SchemaFault::DeterministicPointer);
    let cases: &[(&[&[u8]], &[&[u8]], Option<SchemaFault>)] = &[
        (&[OWNER], &[DETERMINISTIC, INT], refused),
        (&[DETERMINISTIC], &[OWNER, INT], refused),
        (&[OWNER, DETERMINISTIC], &[INT], refused),
        (&[KEY_1, DETERMINISTIC], &[OWNER, INT], refused),
        (&[OWNER, DETERMINISTIC], &[KEY_1, INT], None),
        (&[OWNER, DETERMINISTIC], &[RANDOM], None),
    ];
    for (metadata, settings, expected) in cases {
        let answer = settings_have_fault(rt.alloc(), metadata, settings, *expected);
        assert!(rt; answer == Some(true));
    }
}

/// `{encryptMetadata: {..}, properties: {a: {encrypt: {}}, b: {encrypt: {..}}}}` with these settings around and in `b`.
fn around_and_inside(alloc: Global, metadata: &[&[u8]], settings: &[&[u8]]) -> Option<Rows> {
    let metadata = within(alloc, &[b"encryptMetadata"], metadata)?;
    let a = within(alloc, &[b"a", b"encrypt"], &[])?;
    let b = within(alloc, &[b"b", b"encrypt"], settings)?;
    let fields = within(alloc, &[b"properties"], &[&a, &b])?;
    rows_of(alloc, &[&metadata, &fields])
}

#[test]
fn a_pointer_around_counts_where_no_key_is_stated(rt: HostRuntime) {
    let alloc = rt.alloc();
    let owner = pointer(alloc, &[b"owner"]).expect(&rt, "no names");
    let rows = around_and_inside(alloc, &[OWNER, RANDOM], &[KEY_1]).expect(&rt, "no rules");
    assert!(rt; has_key(&rows, 0, &owner));
    assert!(rt; has_key(&rows, 1, &KeyRef::Id([b'1'; 16])));
}

#[test]
fn a_pointer_inside_counts_before_an_id_around(rt: HostRuntime) {
    let alloc = rt.alloc();
    let owner = pointer(alloc, &[b"owner"]).expect(&rt, "no names");
    let rows = around_and_inside(alloc, &[KEY_1, RANDOM], &[OWNER]).expect(&rt, "no rules");
    assert!(rt; has_key(&rows, 0, &KeyRef::Id([b'1'; 16])));
    assert!(rt; has_key(&rows, 1, &owner));
}

/// The rules of `{encryptMetadata: {keyId: "/owner", algorithm: RAND}, properties: {..}}` with so many fields, and then
/// a deterministic one.
fn many_rules(alloc: Global, count: u32) -> Option<Result<Rows, SchemaFault>> {
    let metadata = within(alloc, &[b"encryptMetadata"], &[OWNER, RANDOM])?;
    let fields = many_fields(alloc, count)?;
    let last = within(alloc, &[b"last", b"encrypt"], &[DETERMINISTIC, INT])?;
    let properties = within(alloc, &[b"properties"], &[&fields, &last])?;
    let elements = joined(alloc, &[&metadata, &properties])?;
    rules(alloc, &elements)
}

#[test]
fn the_count_of_rules_comes_before_the_pointer(rt: HostRuntime) {
    let answer = many_rules(rt.alloc(), 4095).expect(&rt, "no schema");
    assert!(rt; answer.err() == Some(SchemaFault::DeterministicPointer));
    let answer = many_rules(rt.alloc(), 4096).expect(&rt, "no schema");
    assert!(rt; answer.err() == Some(SchemaFault::TooMany));
}

/// The rules of `{encryptMetadata: {keyId: [K1], algorithm: RAND}, properties: {first: {encrypt: {keyId: "/owner",
/// algorithm: DET, bsonType: "int"}}, ..}}` with so many fields behind the first.
fn rules_behind(alloc: Global, count: u32) -> Option<Result<Rows, SchemaFault>> {
    let metadata = within(alloc, &[b"encryptMetadata"], &[KEY_1, RANDOM])?;
    let first = within(alloc, &[b"first", b"encrypt"], &[OWNER, DETERMINISTIC, INT])?;
    let fields = many_fields(alloc, count)?;
    let properties = within(alloc, &[b"properties"], &[&first, &fields])?;
    let elements = joined(alloc, &[&metadata, &properties])?;
    rules(alloc, &elements)
}

#[test]
fn a_pointer_is_judged_before_later_rules_are_counted(rt: HostRuntime) {
    let answer = rules_behind(rt.alloc(), 4096).expect(&rt, "no schema");
    assert!(rt; answer.err() == Some(SchemaFault::DeterministicPointer));
}

#[test]
fn a_rule_for_other_names_may_have_a_pointer(rt: HostRuntime) {
    let alloc = rt.alloc();
    let path: [&[u8]; 2] = [b"additionalProperties", b"encrypt"];
    let rule = within(alloc, &path, &[OWNER, RANDOM]).expect(&rt, "no rule");
    let rows = rows_of(alloc, &[&rule]).expect(&rt, "no rules");
    let owner = pointer(alloc, &[b"owner"]).expect(&rt, "no names");
    assert!(rt; has_key(&rows, 0, &owner));
}

/// `name: "c"`.
const NAME_C: &[u8] = b"\x02name\x00\x02\x00\x00\x00c\x00";

/// `name: "d"`.
const NAME_D: &[u8] = b"\x02name\x00\x02\x00\x00\x00d\x00";

/// The schema of an info.
const SCHEMA: [&[u8]; 3] = [b"options", b"validator", b"$jsonSchema"];

/// A file of two infos, the second of which has a rule of these settings.
fn file_of(alloc: Global, settings: &[&[u8]]) -> Option<Vec<u8>> {
    let rule = within(alloc, &ENCRYPT_A, settings)?;
    let options = within(alloc, &SCHEMA, &[&rule])?;
    let mut file = Vec::new(alloc);
    put_document(&mut file, NAME_C)?;
    put_document(&mut file, &joined(alloc, &[NAME_D, &options])?)?;
    Some(file)
}

/// Whether the second info of such a file is the faulty one, for this fault.
fn second_has_fault(alloc: Global, settings: &[&[u8]], fault: SchemaFault) -> Option<bool> {
    let file = file_of(alloc, settings)?;
    if file.len() > 1_000 {
        return None;
    }
    match Infos::load(alloc, &file) {
        Err(InfoFault::Bad { document, kind }) => {
            Some(document == 2 && kind == InfoKind::Schema(fault))
        }
        _ => None,
    }
}

#[test]
fn a_fault_is_told_with_the_number_of_its_info(rt: HostRuntime) {
    let cases: &[(&[&[u8]], SchemaFault)] = &[
        (
            &[b"\x02keyId\x00\x03\x00\x00\x00/~\x00", RANDOM],
            SchemaFault::Shape,
        ),
        (
            &[OWNER, DETERMINISTIC, INT],
            SchemaFault::DeterministicPointer,
        ),
    ];
    for (settings, fault) in cases {
        assert!(rt; second_has_fault(rt.alloc(), settings, *fault) == Some(true));
    }
}
