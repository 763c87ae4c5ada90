ghost use Rattle.std.specs.Prelude.{◌≡◌, IfOk, OnOk};
ghost use Rattle.bson_tree.specs.Tree.{leaf, node as node_tree, item, join, no_items};
ghost use Rattle.bson_tree.specs.View.{tree};

use bson_tree::{Body, Bytes, Doc, Kids, Names, Place, Value, byte_size, copy_doc, value_at};
use fle_outside::Memory;
use std::alloc::Global;

// String values of BSON 1.1: its length with the final 00, its bytes, 00.
const PEOPLE: [u8; 11] = *b"\x07\x00\x00\x00people\x00";

const NUMBER: [u8; 16] = *b"\x0C\x00\x00\x00123-45-6789\x00";

const HR: [u8; 7] = *b"\x03\x00\x00\x00hr\x00";

/// A value of this type and these bytes.
fn raw(alloc: Global, tag: u8, bytes: &[u8]) -> Result<Value, Memory>
    ensures { IfOk result (λ v. tree v ≡ leaf tag bytes.now) }
{
    let body = Body::Raw(Bytes::from_slice(alloc, bytes)?);
    Ok(Value { tag, body })
}

/// Puts an element behind the others.
fn add(alloc: Global, kids: &mut Kids, name: &[u8], value: Value) -> Result<(), Memory>
    ensures { OnOk result (kids.new ≡ join kids.old (item name.now (tree value) no_items)) }
{
    let name = Bytes::from_slice(alloc, name)?;
    match kids.push(name, value) {
        Ok(()) => Ok(()),
        Err(_) => Err(Memory),
    }
}

/// A document or an array.
fn node(tag: u8, kids: Kids) -> Value
    ensures { tree result ≡ node_tree tag kids }
{
    let body = Body::Kids(kids);
    Value { tag, body }
}

/// {insert: "people", documents: [{ssn: "123-45-6789", n: 1}], $db: "hr"}
fn insert_command(alloc: Global) -> Result<Doc, Memory> {
    let mut person = Kids::new(alloc);
    add(alloc, &mut person, b"ssn", raw(alloc, 0x02, &NUMBER)?)?;
    add(alloc, &mut person, b"n", raw(alloc, 0x10, &[1, 0, 0, 0])?)?;
    let mut documents = Kids::new(alloc);
    add(alloc, &mut documents, b"0", node(0x03, person))?;
    let mut kids = Kids::new(alloc);
    add(alloc, &mut kids, b"insert", raw(alloc, 0x02, &PEOPLE)?)?;
    add(alloc, &mut kids, b"documents", node(0x04, documents))?;
    add(alloc, &mut kids, b"$db", raw(alloc, 0x02, &HR)?)?;
    Ok(Doc { kids })
}

/// The bytes of a value that is no document and no array.
fn raw_bytes(value: Option<&Value>) -> Option<&[u8]> {
    match &value?.body {
        Body::Raw(bytes) => Some(bytes.as_slice()),
        Body::Kids(_) => None,
    }
}

/// Whether the document has these bytes at this place; or, without bytes, no value.
fn has_at(alloc: Global, document: &Doc, steps: &[u32], bytes: Option<&[u8]>) -> bool {
    let Ok(place) = Place::from_slice(alloc, steps) else {
        return false;
    };
    let value = value_at(document, &place);
    place.as_slice() == steps && value.is_some() == bytes.is_some() && raw_bytes(value) == bytes
}

#[test]
fn a_copy_of_the_insert_command_is_read_at_its_places(rt: HostRuntime) {
    let document = insert_command(rt.alloc()).expect(&rt, "no memory");
    let copy = copy_doc(rt.alloc(), &document).expect(&rt, "no memory");
    let cases: &[(&[u32], Option<&[u8]>)] = &[
        (&[1, 0, 0], Some(&NUMBER)),
        (&[1, 0, 2], None),
        (&[], None),
    ];
    for (steps, bytes) in cases {
        assert!(rt; has_at(rt.alloc(), &copy, steps, *bytes));
    }
}

/// Whether the name is there, of these bytes.
fn is_name(name: Option<&Bytes>, bytes: &[u8]) -> bool {
    match name {
        Some(name) => name.as_slice() == bytes,
        None => false,
    }
}

#[test]
fn names_and_values_stand_in_order(rt: HostRuntime) {
    let document = insert_command(rt.alloc()).expect(&rt, "no memory");
    let kids = &document.kids;
    assert!(rt; kids.len() == 3);
    let (name, value) = kids.item(1);
    assert!(rt; name.as_slice() == b"documents".as_slice() && value.tag == 0x04);
    assert!(rt;
        is_name(kids.name(2), b"$db") && raw_bytes(kids.value(0)) == Some(PEOPLE.as_slice())
    );
    assert!(rt; kids.name(3).is_none() && kids.value(3).is_none());
}

#[test]
fn bytes_of_a_vec_are_kept(rt: HostRuntime) {
    let bytes = Bytes::from_vec(Vec::from_slice(rt.alloc(), b"hr").expect(&rt, "no memory"));
    assert!(rt; bytes.as_slice() == b"hr".as_slice());
    assert!(rt; bytes.into_vec().as_slice() == b"hr".as_slice());
}

#[test]
fn steps_of_a_vec_are_kept(rt: HostRuntime) {
    let place = Place::from_vec(Vec::from_slice(rt.alloc(), &[1u32, 0]).expect(&rt, "no memory"));
    assert!(rt; place.as_slice() == [1u32, 0].as_slice());
    assert!(rt; place.into_vec().as_slice() == [1u32, 0].as_slice());
}

/// These names, in this order.
fn names_of(alloc: Global, texts: &[&[u8]]) -> Result<Names, Memory> {
    let mut names = Names::new(alloc);
    for text in texts {
        if names.push(Bytes::from_slice(alloc, text)?).is_err() {
            return Err(Memory);
        }
    }
    Ok(names)
}

#[test]
fn names_stand_in_the_order_of_pushing(rt: HostRuntime) {
    let names = names_of(rt.alloc(), &[b"ssn", b"mail"]).expect(&rt, "no memory");
    assert!(rt; names.len() == 2 && is_name(names.name(1), b"mail") && names.name(2).is_none());
    let again = Names::from_vec(names.into_vec());
    assert!(rt; again.as_slice().len() == 2);
    assert!(rt; again.as_slice()[0].as_slice() == b"ssn".as_slice());
}

/// The size of the document {"hello": "world"}.
fn hello_size(alloc: Global) -> Result<u64, Memory> {
    let mut kids = Kids::new(alloc);
    let world = raw(alloc, 0x02, b"\x06\x00\x00\x00world\x00")?;
    add(alloc, &mut kids, b"hello", world)?;
    Ok(byte_size(&node(0x03, kids)))
}

// bsonspec.org, examples: {"hello": "world"} has 22 bytes.
#[test]
fn the_hello_document_has_22_bytes(rt: HostRuntime) {
    assert!(rt; hello_size(rt.alloc()) == Ok(22));
}
