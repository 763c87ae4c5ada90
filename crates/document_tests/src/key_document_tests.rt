//! Key documents: one that was written outside this repository, and documents with each fault.

ghost use Rattle.std.specs.Prelude.{IfOk};
ghost use Rattle.data_key.specs.Written.{IsWritable};

use bson_codec::check_bson;
use bson_tree::{Bytes, Names};
use data_key::{KeyDoc, KeyFault, Provider, read_key, write_key};
use fle_outside::Memory;
use sample_documents::{KEY_ID, KEY_MATERIAL, TWO_KEYS};
use std::alloc::Global;

/// How long its document with the alternate name `hr-key` is, the first of `TWO_KEYS`.
const NAMED: usize = 331;

/// When it was made, in milliseconds since 1970.
const CREATED: i64 = 1700000000000;

/// The key of these bytes with the name `hr-key`.
fn named_key(alloc: Global) -> Result<KeyDoc, Memory>
    ensures { IfOk result (λ key. IsWritable key) }
{
    let Ok(name) = Bytes::from_slice(alloc, b"hr-key") else {
        return Err(Memory);
    };
    let Ok(material) = Bytes::from_slice(alloc, KEY_MATERIAL) else {
        return Err(Memory);
    };
    let mut names = Names::new(alloc);
    match names.push(name) {
        Ok(()) => {}
        Err(_) => return Err(Memory),
    }
    Ok(KeyDoc {
        id: KEY_ID,
        names,
        material,
        provider: Provider::Local,
    })
}

/// The document of that key.
fn written_key(alloc: Global) -> Result<Vec<u8>, Memory> {
    match named_key(alloc) {
        Ok(key) => write_key(alloc, &key, CREATED, CREATED, 0),
        Err(Memory) => Err(Memory),
    }
}

#[test]
fn a_key_is_written_as_elsewhere(rt: HostRuntime) {
    let bytes = written_key(rt.alloc()).expect(&rt, "no memory");
    assert!(rt; bytes.as_slice() == &TWO_KEYS[..NAMED]);
}

/// The key of a document, or its first fault; `None` where the bytes are no document.
fn read(alloc: Global, bytes: &[u8]) -> Option<Result<KeyDoc, KeyFault>> {
    if bytes.len() > 1000 {
        return None;
    }
    let document = check_bson(bytes).ok()?;
    Some(read_key(alloc, &document))
}

/// The key of a document without a fault.
fn key_of(alloc: Global, bytes: &[u8]) -> Option<KeyDoc> {
    read(alloc, bytes)?.ok()
}

#[test]
fn a_key_is_read(rt: HostRuntime) {
    let key = key_of(rt.alloc(), &TWO_KEYS[..NAMED]).expect(&rt, "no key");
    assert!(rt; key.id == KEY_ID && key.provider == Provider::Local && key.names.len() == 1);
    assert!(rt; matches!(key.names.name(0), Some(name) if name.as_slice() == b"hr-key".as_slice()));
    assert!(rt; key.material.as_slice() == KEY_MATERIAL.as_slice());
}

/// Whether this is the first fault of a document.
fn has_fault(alloc: Global, bytes: &[u8], fault: KeyFault) -> bool {
    matches!(read(alloc, bytes), Some(Err(found)) if found == fault)
}

#[test]
fn ids_are_judged_first(rt: HostRuntime) {
    let cases: &[(&[u8], KeyFault)] = &[
        (b"\x05\x00\x00\x00\x00", KeyFault::Id),
        (
            b"W\x00\x00\x00\x05_id\x00\x10\x00\x00\x00\x00\x00\x11\x223DUFw\x88\x99\xaa\xbb\xcc\xdd\
             \xee\xff\x05keyMaterial\x00\x02\x00\x00\x00\x00\x01\x02\x03masterKey\x00\x19\x00\x00\
             \x00\x02provider\x00\x06\x00\x00\x00local\x00\x00\x00",
            KeyFault::Id,
        ),
        (
            b"V\x00\x00\x00\x05_id\x00\x0f\x00\x00\x00\x04\x00\x11\x223DUFw\x88\x99\xaa\xbb\xcc\xdd\
             \xee\x05keyMaterial\x00\x02\x00\x00\x00\x00\x01\x02\x03masterKey\x00\x19\x00\x00\x00\
             \x02provider\x00\x06\x00\x00\x00local\x00\x00\x00",
            KeyFault::Id,
        ),
        (
            b"q\x00\x00\x00\x05_id\x00\x10\x00\x00\x00\x04\x00\x11\x223DUFw\x88\x99\xaa\xbb\xcc\xdd\
             \xee\xff\x05_id\x00\x10\x00\x00\x00\x04\x00\x11\x223DUFw\x88\x99\xaa\xbb\xcc\xdd\xee\
             \xff\x05keyMaterial\x00\x02\x00\x00\x00\x00\x01\x02\x03masterKey\x00\x19\x00\x00\x00\
             \x02provider\x00\x06\x00\x00\x00local\x00\x00\x00",
            KeyFault::Id,
        ),
    ];
    for (bytes, fault) in cases {
        assert!(rt; has_fault(rt.alloc(), bytes, *fault));
    }
}

#[test]
fn alternate_names_stand_once_in_an_array_of_strings(rt: HostRuntime) {
    let cases: &[(&[u8], KeyFault)] = &[
        (
            b"{\x00\x00\x00\x05_id\x00\x10\x00\x00\x00\x04\x00\x11\x223DUFw\x88\x99\xaa\xbb\xcc\xdd\
             \xee\xff\x04keyAltNames\x00\x05\x00\x00\x00\x00\x04keyAltNames\x00\x05\x00\x00\x00\x00\
             \x05keyMaterial\x00\x02\x00\x00\x00\x00\x01\x02\x03masterKey\x00\x19\x00\x00\x00\x02pro\
             vider\x00\x06\x00\x00\x00local\x00\x00\x00",
            KeyFault::AltNames,
        ),
        (
            b"p\x00\x00\x00\x05_id\x00\x10\x00\x00\x00\x04\x00\x11\x223DUFw\x88\x99\xaa\xbb\xcc\xdd\
             \xee\xff\x04keyAltNames\x00\x0c\x00\x00\x00\x100\x00\x00\x00\x00\x00\x00\x05keyMaterial\
             \x00\x02\x00\x00\x00\x00\x01\x02\x03masterKey\x00\x19\x00\x00\x00\x02provider\x00\x06\
             \x00\x00\x00local\x00\x00\x00",
            KeyFault::AltNames,
        ),
        (
            b"i\x00\x00\x00\x05_id\x00\x10\x00\x00\x00\x04\x00\x11\x223DUFw\x88\x99\xaa\xbb\xcc\xdd\
             \xee\xff\x03keyAltNames\x00\x05\x00\x00\x00\x00\x05keyMaterial\x00\x02\x00\x00\x00\x00\
             \x01\x02\x03masterKey\x00\x19\x00\x00\x00\x02provider\x00\x06\x00\x00\x00local\x00\x00\
             \x00",
            KeyFault::AltNames,
        ),
    ];
    for (bytes, fault) in cases {
        assert!(rt; has_fault(rt.alloc(), bytes, *fault));
    }
}

#[test]
fn material_is_judged_before_the_provider(rt: HostRuntime) {
    let cases: &[(&[u8], KeyFault)] = &[
        (
            b"C\x00\x00\x00\x05_id\x00\x10\x00\x00\x00\x04\x00\x11\x223DUFw\x88\x99\xaa\xbb\xcc\xdd\
             \xee\xff\x03masterKey\x00\x19\x00\x00\x00\x02provider\x00\x06\x00\x00\x00local\x00\x00\
             \x00",
            KeyFault::Material,
        ),
        (
            b"2\x00\x00\x00\x05_id\x00\x10\x00\x00\x00\x04\x00\x11\x223DUFw\x88\x99\xaa\xbb\xcc\xdd\
             \xee\xff\x05keyMaterial\x00\x01\x00\x00\x00\x04\x01\x00",
            KeyFault::Material,
        ),
        (
            b"3\x00\x00\x00\x05_id\x00\x10\x00\x00\x00\x04\x00\x11\x223DUFw\x88\x99\xaa\xbb\xcc\xdd\
             \xee\xff\x05keyMaterial\x00\x02\x00\x00\x00\x00\x01\x02\x00",
            KeyFault::Provider,
        ),
        (
            b"C\x00\x00\x00\x05_id\x00\x10\x00\x00\x00\x04\x00\x11\x223DUFw\x88\x99\xaa\xbb\xcc\xdd\
             \xee\xff\x05keyMaterial\x00\x02\x00\x00\x00\x00\x01\x02\x03masterKey\x00\x05\x00\x00\
             \x00\x00\x00",
            KeyFault::Provider,
        ),
        (
            b"Q\x00\x00\x00\x05_id\x00\x10\x00\x00\x00\x04\x00\x11\x223DUFw\x88\x99\xaa\xbb\xcc\xdd\
             \xee\xff\x05keyMaterial\x00\x02\x00\x00\x00\x00\x01\x02\x03masterKey\x00\x13\x00\x00\
             \x00\x10provider\x00\x00\x00\x00\x00\x00\x00",
            KeyFault::Provider,
        ),
    ];
    for (bytes, fault) in cases {
        assert!(rt; has_fault(rt.alloc(), bytes, *fault));
    }
}

#[test]
fn a_key_of_a_service_is_read(rt: HostRuntime) {
    let bytes: &[u8] =
        b"g\x00\x00\x00\x05_id\x00\x10\x00\x00\x00\x04\x00\x11\x223DUFw\x88\x99\xaa\xbb\xcc\xdd\xee\
         \xff\x04keyAltNames\x00\x05\x00\x00\x00\x00\x05keyMaterial\x00\x02\x00\x00\x00\x00\x01\x02\
         \x03masterKey\x00\x17\x00\x00\x00\x02provider\x00\x04\x00\x00\x00aws\x00\x00\x00";
    let key = key_of(rt.alloc(), bytes).expect(&rt, "no key");
    assert!(rt; key.provider == Provider::Other && key.names.len() == 0);
    assert!(rt; key.material.as_slice() == b"\x01\x02".as_slice());
}
