//! The marks of stored documents and of updates, and where one is refused.

use bson_codec::check_bson;
use encrypt_schema::{Class, Mark, MarkFault, Marks, Reason, Role, Rows};
use sample_documents::STAFF;
use std::alloc::Global;
use update_rules::{mark_document, mark_update};

/// A schema: `x` and `y` deterministic strings under one key, `z` random under that key.
const PAIR: &[u8] = b"\x98\x01\x00\x00\x03properties\x00\x87\x01\x00\x00\
\x03x\x00\x87\x00\x00\x00\x03encrypt\x00y\x00\x00\x00\
\x04keyId\x00\x1d\x00\x00\x00\x050\x00\x10\x00\x00\x00\x04\
\x00\x11\x223DUFw\x88\x99\xaa\xbb\xcc\xdd\xee\xff\x00\
\x02algorithm\x00,\x00\x00\x00AEAD_AES_256_CBC_HMAC_SHA_512-Deterministic\x00\
\x02bsonType\x00\x07\x00\x00\x00string\x00\x00\x00\
\x03y\x00\x87\x00\x00\x00\x03encrypt\x00y\x00\x00\x00\
\x04keyId\x00\x1d\x00\x00\x00\x050\x00\x10\x00\x00\x00\x04\
\x00\x11\x223DUFw\x88\x99\xaa\xbb\xcc\xdd\xee\xff\x00\
\x02algorithm\x00,\x00\x00\x00AEAD_AES_256_CBC_HMAC_SHA_512-Deterministic\x00\
\x02bsonType\x00\x07\x00\x00\x00string\x00\x00\x00\
\x03z\x00k\x00\x00\x00\x03encrypt\x00]\x00\x00\x00\
\x04keyId\x00\x1d\x00\x00\x00\x050\x00\x10\x00\x00\x00\x04\
\x00\x11\x223DUFw\x88\x99\xaa\xbb\xcc\xdd\xee\xff\x00\
\x02algorithm\x00%\x00\x00\x00AEAD_AES_256_CBC_HMAC_SHA_512-Random\x00\x00\x00\x00\x00";

/// `{a: {b: int 1}}`.
const DOCUMENT: &[u8] =
    b"\x14\x00\x00\x00\x03a\x00\x0c\x00\x00\x00\x10b\x00\x01\x00\x00\x00\x00\x00";

/// `{c: null, a: []}`.
const ARRAY: &[u8] = b"\x10\x00\x00\x00\x0ac\x00\x04a\x00\x05\x00\x00\x00\x00\x00";

/// `{$set: {"a.b": int 1}}`.
const SET: &[u8] =
    b"\x19\x00\x00\x00\x03$set\x00\x0e\x00\x00\x00\x10a.b\x00\x01\x00\x00\x00\x00\x00";

/// `{$set: {a: {b: int 1}}}`.
const SET_DOCUMENT: &[u8] = b"\x1f\x00\x00\x00\x03$set\x00\x14\x00\x00\x00\
\x03a\x00\x0c\x00\x00\x00\x10b\x00\x01\x00\x00\x00\x00\x00\x00";

/// `{$unset: {"a.b": ""}}`.
const UNSET: &[u8] =
    b"\x1c\x00\x00\x00\x03$unset\x00\x0f\x00\x00\x00\x02a.b\x00\x01\x00\x00\x00\x00\x00\x00";

/// `{$set: {"a.0.b": int 1}}`.
const SET_POSITION: &[u8] =
    b"\x1b\x00\x00\x00\x03$set\x00\x10\x00\x00\x00\x10a.0.b\x00\x01\x00\x00\x00\x00\x00";

/// `{$setOnInsert: {"a.b": "t"}}`.
const SET_STRING: &[u8] = b"\x23\x00\x00\x00\x03$setOnInsert\x00\x10\x00\x00\x00\
\x02a.b\x00\x02\x00\x00\x00t\x00\x00\x00";

/// `{$set: {a: []}}`.
const SET_ARRAY: &[u8] =
    b"\x18\x00\x00\x00\x03$set\x00\x0d\x00\x00\x00\x04a\x00\x05\x00\x00\x00\x00\x00\x00";

/// `{$set: {c: int 1}, x: int 1}`.
const MIXED: &[u8] = b"\x1e\x00\x00\x00\x03$set\x00\x0c\x00\x00\x00\
\x10c\x00\x01\x00\x00\x00\x00\x10x\x00\x01\x00\x00\x00\x00";

/// `{$rename: {"a.b": "c"}}`.
const RENAME: &[u8] = b"\x1e\x00\x00\x00\x03$rename\x00\x10\x00\x00\x00\
\x02a.b\x00\x02\x00\x00\x00c\x00\x00\x00";

/// `{$inc: {"a.b": int 1}}`.
const INC: &[u8] =
    b"\x19\x00\x00\x00\x03$inc\x00\x0e\x00\x00\x00\x10a.b\x00\x01\x00\x00\x00\x00\x00";

/// `{$rename: {x: "y"}}`.
const RENAME_ALIKE: &[u8] = b"\x1c\x00\x00\x00\x03$rename\x00\x0e\x00\x00\x00\
\x02x\x00\x02\x00\x00\x00y\x00\x00\x00";

/// `{$rename: {x: "z"}}`.
const RENAME_OTHERWISE: &[u8] = b"\x1c\x00\x00\x00\x03$rename\x00\x0e\x00\x00\x00\
\x02x\x00\x02\x00\x00\x00z\x00\x00\x00";

/// The rules of a schema.
fn read_rows(alloc: Global, schema: &[u8]) -> Option<Rows> {
    if schema.len() > 1000 {
        return None;
    }
    Rows::read(alloc, &check_bson(schema).ok()?).ok()
}

/// The marks of a whole document under the rules of a schema, and what marking it answers; `None` where one of the two
/// can't be read, or no rule stands below the root.
fn mark_whole(
    alloc: Global,
    schema: &[u8],
    document: &[u8],
) -> Option<(Marks, Result<(), MarkFault>)> {
    if document.len() > 100 {
        return None;
    }
    let document = check_bson(document).ok()?;
    let rows = read_rows(alloc, schema)?;
    let mut marks = Marks::new(alloc);
    let root = rows.root();
    match rows.class(root) {
        Class::Above => {
            let answer = mark_document(&mut marks, &rows, root, &document);
            Some((marks, answer))
        }
        _ => None,
    }
}

/// Why an update is refused and where, or the number of its marks, and the first of them.
#[derive(Clone, Copy, Debug, PartialEq)]
enum Seen {
    Refused(Reason, u32),
    Marked(usize, Option<Mark>),
}

/// What becomes of an update under the rules of a schema; `None` where one of the two can't be read.
fn see(alloc: Global, schema: &[u8], update: &[u8]) -> Option<Seen> {
    if update.len() > 100 {
        return None;
    }
    let update = check_bson(update).ok()?;
    let rows = read_rows(alloc, schema)?;
    let mut marks = Marks::new(alloc);
    match mark_update(&mut marks, &rows, &update) {
        Ok(()) => Some(Seen::Marked(marks.len(), marks.get(0))),
        Err(MarkFault::Refused { reason, at }) => Some(Seen::Refused(reason, at)),
        Err(MarkFault::Memory) => None,
    }
}

/// The mark of an int that is stored under the first rule.
fn int_at(start: u32, end: u32) -> Mark {
    Mark {
        start,
        end,
        tag: 0x10,
        policy: 0,
        role: Role::Store,
        name: None,
    }
}

#[test]
fn a_nested_value_is_marked(rt: HostRuntime) {
    let (marks, answer) = mark_whole(rt.alloc(), STAFF, DOCUMENT).expect(&rt, "no rules");
    assert!(rt; answer.is_ok());
    assert!(rt; marks.len() == 1 && marks.get(0) == Some(int_at(14, 18)));
}

#[test]
fn an_array_on_the_way_is_refused_where_it_stands(rt: HostRuntime) {
    let (marks, answer) = mark_whole(rt.alloc(), STAFF, ARRAY).expect(&rt, "no rules");
    assert!(rt;
        matches!(
            answer,
            Err(MarkFault::Refused {
                reason: Reason::ArrayOnPath,
                at: 10
            })
        )
    );
    assert!(rt; marks.len() == 0);
}

#[test]
fn stored_values_of_updates_are_marked(rt: HostRuntime) {
    let cases: &[(&[u8], u32, u32)] = &[(SET, 19, 23), (SET_DOCUMENT, 24, 28), (DOCUMENT, 14, 18)];
    for (update, start, end) in cases {
        let marked = Seen::Marked(1, Some(int_at(*start, *end)));
        assert!(rt; see(rt.alloc(), STAFF, update) == Some(marked));
    }
}

#[test]
fn updates_without_stored_values_pass(rt: HostRuntime) {
    let cases: &[(&[u8], &[u8])] = &[(STAFF, UNSET), (PAIR, RENAME_ALIKE)];
    for (schema, update) in cases {
        assert!(rt; see(rt.alloc(), schema, update) == Some(Seen::Marked(0, None)));
    }
}

#[test]
fn updates_are_refused_where_they_first_offend(rt: HostRuntime) {
    let cases: &[(&[u8], &[u8], Reason, u32)] = &[
        (STAFF, SET_POSITION, Reason::PositionalOnPath, 21),
        (STAFF, SET_STRING, Reason::TypeNotAllowed, 27),
        (STAFF, SET_ARRAY, Reason::ArrayOnPath, 17),
        (STAFF, MIXED, Reason::BadField, 25),
        (STAFF, RENAME, Reason::RenameMixed, 22),
        (STAFF, INC, Reason::OperatorOnProtected, 19),
        (PAIR, RENAME_OTHERWISE, Reason::RenameMixed, 20),
    ];
    for (schema, update, reason, at) in cases {
        assert!(rt; see(rt.alloc(), schema, update) == Some(Seen::Refused(*reason, *at)));
    }
}
