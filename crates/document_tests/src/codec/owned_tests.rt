ghost use Rattle.std.specs.Prelude.{◌<◌};

use bson_codec::{
    BsonFault, BsonKind, CodecFault, check_bson, decode, decode_front, encode, put_value,
    stated_length, well_formed,
};
use bson_tree::{Body, Bytes, Doc, Kids, Place, Value, copy_doc, value_at};
use fle_outside::Memory;
use std::alloc::{AllocError, Global};
use std::process::Abort;

// {insert: "people", documents: [{ssn: "123-45-6789", n: 1}], $db: "hr"}, as a driver writes it.
pub const INSERT: [u8; 88] = [
    0x58, 0x00, 0x00, 0x00, 0x02, 0x69, 0x6e, 0x73, 0x65, 0x72, 0x74, 0x00, 0x07, 0x00, 0x00, 0x00,
    0x70, 0x65, 0x6f, 0x70, 0x6c, 0x65, 0x00, 0x04, 0x64, 0x6f, 0x63, 0x75, 0x6d, 0x65, 0x6e, 0x74,
    0x73, 0x00, 0x29, 0x00, 0x00, 0x00, 0x03, 0x30, 0x00, 0x21, 0x00, 0x00, 0x00, 0x02, 0x73, 0x73,
    0x6e, 0x00, 0x0c, 0x00, 0x00, 0x00, 0x31, 0x32, 0x33, 0x2d, 0x34, 0x35, 0x2d, 0x36, 0x37, 0x38,
    0x39, 0x00, 0x10, 0x6e, 0x00, 0x01, 0x00, 0x00, 0x00, 0x00, 0x00, 0x02, 0x24, 0x64, 0x62, 0x00,
    0x03, 0x00, 0x00, 0x00, 0x68, 0x72, 0x00, 0x00,
];

/// The bytes of a value that is no document and no array.
fn raw_bytes(value: Option<&Value>) -> Option<&[u8]> {
    match &value?.body {
        Body::Raw(bytes) => Some(bytes.as_slice()),
        Body::Kids(_) => None,
    }
}

#[test]
fn a_value_of_the_insert_command_is_read_at_its_place(rt: HostRuntime) {
    let document = decode(rt.alloc(), &INSERT).expect(&rt, "no document");
    let place = Place::from_slice(rt.alloc(), &[1, 0, 0]).expect(&rt, "no memory");
    let number = raw_bytes(value_at(&document, &place));
    assert!(rt; number == Some(b"\x0C\x00\x00\x00123-45-6789\x00".as_slice()));
}

/// A copy of the insert command.
fn copied_insert(alloc: Global) -> Result<Doc, CodecFault> {
    let document = decode(alloc, &INSERT)?;
    Ok(copy_doc(alloc, &document)?)
}

/// Whether a document is well formed, and is written as these bytes.
fn is_written(alloc: Global, document: &Doc, bytes: &[u8]) -> bool {
    well_formed(document)
        && matches!(encode(alloc, document), Ok(written) if written.as_slice() == bytes)
}

#[test]
fn the_insert_command_is_read_copied_and_written_again(rt: HostRuntime) {
    let copy = copied_insert(rt.alloc()).expect(&rt, "no copy");
    assert!(rt; is_written(rt.alloc(), &copy, &INSERT));
}

#[test]
fn the_front_document_is_read_whatever_follows(rt: HostRuntime) {
    let bytes = b"\x0C\x00\x00\x00\x10n\x00\x01\x00\x00\x00\x00\x05\x00";
    let (document, width) = decode_front(rt.alloc(), bytes).expect(&rt, "no document");
    assert!(rt; width == 12 && document.kids.len() == 1);
    assert!(rt; raw_bytes(document.kids.value(0)) == Some(b"\x01\x00\x00\x00".as_slice()));
}

/// Decoding must end in this fault.
fn expect_fault(rt: &impl Abort, alloc: Global, bytes: &[u8], kind: BsonKind, offset: usize) {
    assert!(rt; bytes.len() < 100);
    let fault = BsonFault { kind, offset };
    assert!(rt; decode(alloc, bytes).err() == Some(CodecFault::Bson(fault)));
}

#[test]
fn a_fault_of_a_length_or_a_name_has_its_kind_and_offset(rt: HostRuntime) {
    let cases: &[(&[u8], BsonKind, usize)] = &[
        (b"", BsonKind::Short, 0),
        (b"\x05\x00\x00", BsonKind::Short, 3),
        (b"\x04\x00\x00\x00\x00", BsonKind::Length, 0),
        (b"\x05\x00\x00\x80\x00", BsonKind::Length, 0),
        (b"\x06\x00\x00\x00\x00", BsonKind::Short, 5),
        (b"\x05\x00\x00\x00\x01\x00", BsonKind::Extra, 5),
        (b"\x05\x00\x00\x00\x01", BsonKind::NoEnd, 4),
        (b"\x07\x00\x00\x00\x00\x00\x00", BsonKind::Extra, 5),
        (b"\x08\x00\x00\x00\x20b\x00\x00", BsonKind::Tag, 4),
        (b"\x07\x00\x00\x00\x10a\x00", BsonKind::NoEnd, 6),
    ];
    for (bytes, kind, offset) in cases {
        expect_fault(&rt, rt.alloc(), bytes, *kind, *offset);
    }
}

#[test]
fn a_fault_of_a_value_has_its_kind_and_offset(rt: HostRuntime) {
    let cases: &[(&[u8], BsonKind, usize)] = &[
        (
            b"\x0B\x00\x00\x00\x10n\x00\x01\x00\x00\x00",
            BsonKind::Short,
            10,
        ),
        (b"\x09\x00\x00\x00\x08b\x00\x02\x00", BsonKind::Bool, 7),
        (
            b"\x0E\x00\x00\x00\x02s\x00\x02\x00\x00\x00ab\x00",
            BsonKind::NoEnd,
            12,
        ),
        (
            b"\x0D\x00\x00\x00\x03d\x00\x05\x00\x00\x00\x01\x00",
            BsonKind::NoEnd,
            11,
        ),
    ];
    for (bytes, kind, offset) in cases {
        expect_fault(&rt, rt.alloc(), bytes, *kind, *offset);
    }
}

// Of a string, a binary and a document; of code with a scope, and of what is inside it.
#[test]
fn a_wrong_length_of_a_value_has_its_offset(rt: HostRuntime) {
    let cases: &[(&[u8], usize)] = &[
        (b"\x0D\x00\x00\x00\x02s\x00\x00\x00\x00\x00\x00\x00", 7),
        (b"\x0D\x00\x00\x00\x05b\x00\x01\x00\x00\x00\x00\x00", 7),
        (b"\x0D\x00\x00\x00\x03d\x00\x04\x00\x00\x00\x00\x00", 7),
        (
            b"\x16\x00\x00\x00\x0Fa\x00\x0D\x00\x00\x00\x01\x00\x00\x00\x00\x05\x00\x00\x00\x00\x00",
            7,
        ),
        (
            b"\x17\x00\x00\x00\x0Fa\x00\x0F\x00\x00\x00\x01\x00\x00\x00\x00\x05\x00\x00\x00\x00\x00\x00",
            16,
        ),
        (
            b"\x16\x00\x00\x00\x0Fa\x00\x0E\x00\x00\x00\x02\x00\x00\x00a\x00\x05\x00\x00\x00\x00",
            17,
        ),
    ];
    for (bytes, offset) in cases {
        expect_fault(&rt, rt.alloc(), bytes, BsonKind::Length, *offset);
    }
}

// The BSON corpus of the MongoDB specifications: one document of each type that isn't in the insert
// command.
#[test]
fn documents_of_each_type_are_read_and_written_again(rt: HostRuntime) {
    let cases: &[&[u8]] = &[
        b"\x10\x00\x00\x00\x01d\x00\x00\x00\x00\x00\x00\x00\xF0\x3F\x00",
        b"\x0D\x00\x00\x00\x05x\x00\x00\x00\x00\x00\x00\x00",
        b"\x08\x00\x00\x00\x06a\x00\x00",
        b"\x14\x00\x00\x00\x07a\x00\x00\x00\x00\x00\x00\x00\x00\x00\x00\x00\x00\x00\x00",
        b"\x10\x00\x00\x00\x09a\x00\x00\x00\x00\x00\x00\x00\x00\x00\x00",
        b"\x08\x00\x00\x00\x0Aa\x00\x00",
        b"\x0A\x00\x00\x00\x0Ba\x00\x00\x00\x00",
        b"\x1A\x00\x00\x00\x0Ca\x00\x02\x00\x00\x00b\x00\x56\xE1\xFC\x72\xE0\xC9\x17\xE9\xC4\x71\x41\x61\x00",
        b"\x0D\x00\x00\x00\x0Da\x00\x01\x00\x00\x00\x00\x00",
        b"\x0D\x00\x00\x00\x0Ea\x00\x01\x00\x00\x00\x00\x00",
        b"\x16\x00\x00\x00\x0Fa\x00\x0E\x00\x00\x00\x01\x00\x00\x00\x00\x05\x00\x00\x00\x00\x00",
        b"\x10\x00\x00\x00\x11a\x00\x2A\x00\x00\x00\x15\xCD\x5B\x07\x00",
        b"\x10\x00\x00\x00\x12a\x00\xFF\xFF\xFF\xFF\xFF\xFF\xFF\xFF\x00",
        b"\x18\x00\x00\x00\x13d\x00\x00\x00\x00\x00\x00\x00\x00\x00\x00\x00\x00\x00\x00\x00\x00\x7C\x00",
        b"\x08\x00\x00\x00\xFFa\x00\x00",
        b"\x08\x00\x00\x00\x7Fa\x00\x00",
    ];
    for bytes in cases {
        assert!(rt; bytes.len() < 100);
        let document = decode(rt.alloc(), bytes).expect(&rt, "no document");
        assert!(rt; is_written(rt.alloc(), &document, bytes));
    }
}

/// Documents inside one another, each but the last with the name "a" before the next one.
fn nested(alloc: Global, levels: u32) -> Result<Vec<u8>, AllocError>
    requires { levels < 1000 }
{
    let mut bytes = Vec::new(alloc);
    for level in 1..levels {
        bytes.extend_from_slice(&(5 + 8 * (levels - level)).to_le_bytes())?;
        bytes.extend_from_slice(b"\x03a\x00")?;
    }
    bytes.extend_from_slice(b"\x05\x00\x00\x00")?;
    for _ in 0..levels {
        bytes.push(0)?;
    }
    Ok(bytes)
}

#[test]
fn a_hundred_levels_are_read(rt: HostRuntime) {
    let bytes = nested(rt.alloc(), 100).expect(&rt, "no memory");
    assert!(rt; bytes.len() == 797);
    let document = decode(rt.alloc(), &bytes).expect(&rt, "no document");
    assert!(rt; well_formed(&document) && check_bson(&bytes).is_ok());
}

#[test]
fn a_hundred_and_one_levels_are_too_many(rt: HostRuntime) {
    let bytes = nested(rt.alloc(), 101).expect(&rt, "no memory");
    assert!(rt; bytes.len() == 805);
    let deep = BsonFault {
        kind: BsonKind::Deep,
        offset: 700,
    };
    assert!(rt; decode(rt.alloc(), &bytes).err() == Some(CodecFault::Bson(deep)));
    assert!(rt; check_bson(&bytes).err() == Some(deep));
}

#[test]
fn a_stated_length_is_at_least_five(rt: HostRuntime) {
    let length = BsonFault {
        kind: BsonKind::Length,
        offset: 0,
    };
    assert!(rt; stated_length([0x05, 0, 0, 0]) == Ok(5));
    assert!(rt; stated_length([0xff, 0xff, 0xff, 0x7f]) == Ok(2_147_483_647));
    assert!(rt; stated_length([0x04, 0, 0, 0]) == Err(length));
    assert!(rt; stated_length([0, 0, 0, 0x80]) == Err(length));
}

/// The document of one string of these bytes, under the name `s`.
fn one_string(alloc: Global, bytes: &[u8]) -> Result<Doc, Memory> {
    let name = Bytes::from_slice(alloc, b"s")?;
    let body = Body::Raw(Bytes::from_slice(alloc, bytes)?);
    let mut kids = Kids::new(alloc);
    match kids.push(name, Value { tag: 0x02, body }) {
        Ok(()) => Ok(Doc { kids }),
        Err(_) => Err(Memory),
    }
}

#[test]
fn a_string_without_its_00_is_not_well_formed(rt: HostRuntime) {
    let cases: &[(&[u8], bool)] = &[
        (b"\x01\x00\x00\x00\x00", true),
        (b"\x01\x00\x00\x00a", false),
    ];
    for (bytes, formed) in cases {
        let document = one_string(rt.alloc(), bytes).expect(&rt, "no memory");
        assert!(rt; well_formed(&document) == *formed);
    }
}

#[test]
fn kinds_are_numbered_from_one(rt: HostRuntime) {
    let kinds: &[BsonKind] = &[
        BsonKind::Short,
        BsonKind::Length,
        BsonKind::Tag,
        BsonKind::NoEnd,
        BsonKind::Bool,
        BsonKind::Deep,
        BsonKind::Extra,
    ];
    let mut number = 1;
    for kind in kinds {
        assert!(rt; kind.number() == number);
        number = kind.number().saturating_add(1);
    }
}

/// `n=`, and behind it the value of an int 1.
fn appended_int(alloc: Global) -> Result<Vec<u8>, Memory> {
    let body = Body::Raw(Bytes::from_slice(alloc, b"\x01\x00\x00\x00")?);
    let Ok(mut out) = Vec::from_slice(alloc, b"n=") else {
        return Err(Memory);
    };
    put_value(&mut out, &Value { tag: 0x10, body })?;
    Ok(out)
}

#[test]
fn a_value_is_appended(rt: HostRuntime) {
    let out = appended_int(rt.alloc()).expect(&rt, "no memory");
    assert!(rt; out.as_slice() == b"n=\x01\x00\x00\x00".as_slice());
}
