use crate::codec::owned_tests::INSERT;
use bson_codec::writing::{append, close, open, put_name};
use bson_codec::{BsonFault, BsonKind, RawDoc, RawItem, check_bson, check_value, first_doc};
use bson_tree::types;
use fle_outside::Memory;
use std::alloc::Global;

/// Whether an element has this tag, this name and this text.
fn is_element(item: &RawItem<'_>, tag: u8, name: &[u8], text: Option<&[u8]>) -> bool {
    item.tag() == tag && item.name() == name && item.text() == text
}

#[test]
fn the_elements_of_the_insert_command_stand_in_order(rt: HostRuntime) {
    let cases: &[(u8, &[u8], Option<&[u8]>)] = &[
        (0x02, b"insert", Some(b"people")),
        (0x04, b"documents", None),
        (0x02, b"$db", Some(b"hr")),
    ];
    let document = check_bson(&INSERT).expect(&rt, "no document");
    let mut items = document.items();
    for (tag, name, text) in cases {
        assert!(rt; matches!(items.next(), Some(item) if is_element(&item, *tag, name, *text)));
    }
    assert!(rt; items.next().is_none());
}

#[test]
fn an_element_has_a_place_and_a_value(rt: HostRuntime) {
    let document = check_bson(&INSERT).expect(&rt, "no document");
    let mut items = document.items();
    assert!(rt; matches!(items.next(), Some(insert) if insert.child().is_none()));
    assert!(rt; matches!(items.next(), Some(documents) if documents.start() == 34));
    let database = items.next().expect(&rt, "no $db");
    assert!(rt; database.value() == b"\x03\x00\x00\x00hr\x00".as_slice());
}

#[test]
fn what_is_taken_again_stands_where_it_stood(rt: HostRuntime) {
    let document = check_bson(&INSERT).expect(&rt, "no document");
    assert!(rt; document.again().bytes() == INSERT.as_slice());
    let mut items = document.items();
    let _insert = items.next();
    assert!(rt; matches!(items.again().next(), Some(item) if item.start() == 34));
    assert!(rt; matches!(items.next(), Some(item) if item.start() == 34));
}

/// The document in the element that holds this offset, where that one has this number.
fn child_at<'a>(document: &RawDoc<'a>, offset: usize, number: u32) -> Option<RawDoc<'a>> {
    match document.child_holding(offset) {
        Some((n, item)) => if n == number { item.child() } else { None },
        None => None,
    }
}

/// In element 0 of element 1 of the insert command, which both hold this offset, the element that holds it, and its
/// number.
fn held_in_person(offset: usize) -> Option<(u32, RawItem<'static>)> {
    let document = check_bson(&INSERT).ok()?;
    let array = child_at(&document, offset, 1)?;
    let person = child_at(&array, offset, 0)?;
    person.child_holding(offset)
}

// The value of `ssn` begins at offset 50, in element 0 of element 0 of element 1.
#[test]
fn an_offset_leads_to_the_value_that_begins_there(rt: HostRuntime) {
    let (number, ssn) = held_in_person(50).expect(&rt, "not in the document");
    assert!(rt; number == 0 && ssn.start() == 50);
    assert!(rt; ssn.text() == Some(b"123-45-6789".as_slice()));
}

#[test]
fn an_offset_inside_a_value_leads_to_it_and_one_behind_all_to_none(rt: HostRuntime) {
    let document = check_bson(&INSERT).expect(&rt, "no document");
    assert!(rt; document.child_holding(51).is_some());
    assert!(rt; document.child_holding(88).is_none());
}

/// The subtype and the contents of the binary that a document begins with.
fn first_binary<'a>(document: &RawDoc<'a>) -> Option<(u8, &'a [u8])> {
    document.items().next()?.binary()
}

// The BSON corpus of the MongoDB specifications, binary, subtype 0x00.
#[test]
fn a_binary_has_a_subtype_and_contents(rt: HostRuntime) {
    let bytes = b"\x0F\x00\x00\x00\x05x\x00\x02\x00\x00\x00\x00\xFF\xFF\x00\x07";
    let (document, rest) = first_doc(bytes).expect(&rt, "no document");
    assert!(rt; rest == b"\x07".as_slice());
    assert!(rt; first_binary(&document) == Some((0, b"\xFF\xFF".as_slice())));
    let fault = BsonFault {
        kind: BsonKind::Extra,
        offset: 15,
    };
    assert!(rt; check_bson(bytes).err() == Some(fault));
}

#[test]
fn a_value_fills_its_bytes_and_its_levels(rt: HostRuntime) {
    let cases: &[(u8, &[u8], u32, bool)] = &[
        (0x10, b"\x01\x00\x00\x00", 0, true),
        (0x10, b"\x01\x00\x00\x00\x00", 0, false),
        (0x03, b"\x05\x00\x00\x00\x00", 1, true),
        (0x03, b"\x05\x00\x00\x00\x00", 0, false),
        (0x20, b"", 0, false),
    ];
    for (tag, bytes, levels, fills) in cases {
        assert!(rt; check_value(*tag, bytes, *levels) == *fills);
    }
}

#[test]
fn malformed_bytes_have_their_first_fault(rt: HostRuntime) {
    let cases: &[(&[u8], BsonKind, usize)] = &[
        (b"\x05\x00\x00", BsonKind::Short, 3),
        (b"\x05\x00\x00\x00", BsonKind::Short, 4),
        (b"\x04\x00\x00\x00\x00", BsonKind::Length, 0),
        (b"\x05\x00\x00\x00\x01", BsonKind::NoEnd, 4),
        (b"\x06\x00\x00\x00\x00\x00", BsonKind::Extra, 5),
        (b"\x08\x00\x00\x00\x14a\x00\x00", BsonKind::Tag, 4),
        (b"\x08\x00\x00\x00\x0Aab\x00", BsonKind::NoEnd, 7),
        (b"\x09\x00\x00\x00\x08a\x00\x02\x00", BsonKind::Bool, 7),
        (b"\x0A\x00\x00\x00\x10a\x00\x01\x00\x00", BsonKind::Short, 9),
        (
            b"\x0C\x00\x00\x00\x02a\x00\x00\x00\x00\x00\x00",
            BsonKind::Length,
            7,
        ),
        (
            b"\x0D\x00\x00\x00\x05a\x00\xFF\xFF\xFF\xFF\x00\x00",
            BsonKind::Length,
            7,
        ),
    ];
    for (bytes, kind, offset) in cases {
        assert!(rt; bytes.len() < 100);
        let fault = BsonFault {
            kind: *kind,
            offset: *offset,
        };
        assert!(rt; check_bson(bytes).err() == Some(fault));
    }
}

// The scope of `{a: javascriptWithScope "" {}}` is no document of the tree.
#[test]
fn a_scope_is_no_child(rt: HostRuntime) {
    let bytes =
        b"\x16\x00\x00\x00\x0Fa\x00\x0E\x00\x00\x00\x01\x00\x00\x00\x00\x05\x00\x00\x00\x00\x00";
    let document = check_bson(bytes).expect(&rt, "no document");
    let item = document.items().next().expect(&rt, "no element");
    assert!(rt; item.tag() == 0x0F && item.child().is_none());
}

/// The text and the document of the scope that a document begins with.
fn first_scope<'a>(document: &RawDoc<'a>) -> Option<(&'a [u8], RawDoc<'a>)> {
    document.items().next()?.scope()
}

// BSON 1.1, "code_w_s": code `a` with the scope {x: true}, under the name `c`.
#[test]
fn a_scope_has_a_text_and_a_document(rt: HostRuntime) {
    let scope = b"\x09\x00\x00\x00\x08x\x00\x01\x00";
    let bytes =
        b"\x1B\x00\x00\x00\x0Fc\x00\x13\x00\x00\x00\x02\x00\x00\x00a\x00\x09\x00\x00\x00\x08x\x00\x01\x00\x00";
    let document = check_bson(bytes).expect(&rt, "no document");
    let (text, inner) = first_scope(&document).expect(&rt, "no scope");
    assert!(rt; text == b"a".as_slice() && inner.bytes() == scope.as_slice());
    let flag = inner.items().next().expect(&rt, "no flag");
    assert!(rt; flag.scope().is_none() && flag.start() == 24);
}

/// `front`, and behind it the document of bsonspec.org's first example, {"hello": "world"}, in pieces.
fn hello_behind_front(alloc: Global) -> Result<Vec<u8>, Memory> {
    let Ok(mut out) = Vec::from_slice(alloc, b"front") else {
        return Err(Memory);
    };
    open(&mut out)?;
    put_name(&mut out, types::STRING, b"hello")?;
    append(&mut out, b"\x06\x00\x00\x00world\x00")?;
    close(&mut out, 5)?;
    Ok(out)
}

#[test]
fn a_document_is_written_in_pieces(rt: HostRuntime) {
    let out = hello_behind_front(rt.alloc()).expect(&rt, "no memory");
    assert!(rt;
        out.as_slice()
            == b"front\x16\x00\x00\x00\x02hello\x00\x06\x00\x00\x00world\x00\x00".as_slice()
    );
}
