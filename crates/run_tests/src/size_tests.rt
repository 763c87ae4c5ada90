//! Whole runs over many levels of names, and over more keys than are kept open.

use crate::runs::{Run, document, joined, marking, opening, output, sealing, seals, stops, writes};
use fle_stream::Status;
use std::alloc::Global;
use std::process::Abort;

/// The element `$db: "hr"`.
const DB: &[u8] = b"\x02$db\x00\x03\x00\x00\x00hr\x00";

/// A schema: an int, deterministic.
const LEAF: &[u8] =
    b"\x84\x00\x00\x00\x03encrypt\x00v\x00\x00\x00\x04keyId\x00\x1d\x00\x00\x00\x050\x00\x10\x00\
     \x00\x00\x04\x00\x11\"3DUFw\x88\x99\xaa\xbb\xcc\xdd\xee\xff\x00\x02algorithm\x00,\x00\x00\x00A\
     EAD_AES_256_CBC_HMAC_SHA_512-Deterministic\x00\x02bsonType\x00\x04\x00\x00\x00int\x00\x00\x00";

/// The element `a: int 1`, sealed.
const SEALED_ONE: &[u8] =
    b"\x05a\x00R\x00\x00\x00\x06\x01\x00\x11\"3DUFw\x88\x99\xaa\xbb\xcc\xdd\xee\xff\x10\xe3l\xf4%\
     \xab\xb5\xe3auy\x1d&p\x08\xb9\xd921]\xe4\xd8[\x15b\xbdK\xcbL]\x1dRY%we\x1f\xa6\xd1\xce\x8de\
     \x90x\x16\x96\x04u\x89\xf65P\x1b'\xe5\xf0\xd6\xb9\xdc82\xbd\xe9\xfd&";

/// The info of a collection of this schema; `name` is its first element.
fn info_of(rt: &impl Abort, alloc: Global, name: &[u8], schema: &[u8]) -> Vec<u8> {
    let validator = document(rt, alloc, &[b"\x03$jsonSchema\x00", schema]);
    let options = document(rt, alloc, &[b"\x03validator\x00", &validator]);
    document(rt, alloc, &[name, b"\x03options\x00", &options])
}

/// The info of `deep`, whose schema has this many names `a`, each in the one before; the last is protected.
fn deep_info(rt: &impl Abort, alloc: Global, names: usize) -> Vec<u8> {
    let mut schema = joined(rt, alloc, &[LEAF]);
    for _ in 0..names {
        let inside = document(rt, alloc, &[b"\x03a\x00", &schema]);
        schema = document(rt, alloc, &[b"\x03properties\x00", &inside]);
    }
    info_of(rt, alloc, b"\x02name\x00\x05\x00\x00\x00deep\x00", &schema)
}

/// The command that inserts this document; `insert` is its first element.
fn inserted(rt: &impl Abort, alloc: Global, insert: &[u8], inner: &[u8]) -> Vec<u8> {
    let documents = document(rt, alloc, &[b"\x030\x00", inner]);
    document(rt, alloc, &[insert, b"\x04documents\x00", &documents, DB])
}

/// An insert into `deep` of 47 names `a`, each in the one before; this is the last element.
fn deep_insert(rt: &impl Abort, alloc: Global, last: &[u8]) -> Vec<u8> {
    let mut inner = document(rt, alloc, &[last]);
    for _ in 1..47 {
        inner = document(rt, alloc, &[b"\x03a\x00", &inner]);
    }
    inserted(rt, alloc, b"\x02insert\x00\x05\x00\x00\x00deep\x00", &inner)
}

#[test]
fn a_value_is_sealed_below_47_names(rt: HostRuntime) {
    let alloc = rt.alloc();
    let command = deep_insert(&rt, alloc, b"\x10a\x00\x01\x00\x00\x00");
    let sealed = deep_insert(&rt, alloc, SEALED_ONE);
    let info = deep_info(&rt, alloc, 47);
    let run = Run {
        infos: &[&info],
        ..sealing(&command)
    };
    seals(&rt, alloc, run, &sealed);
    let deeper = deep_info(&rt, alloc, 48);
    let run = Run {
        infos: &[&deeper],
        ..sealing(&command)
    };
    stops(&rt, alloc, run, Status::Setup, "fle: 4 2 30 1\n");
}

/// 65 keys: each of seven equal blocks, and an IV of bytes 09.
fn many_keys(rt: &impl Abort, alloc: Global) -> Vec<u8> {
    let mut vault = Vec::new(alloc);
    for i in 0..65 {
        let blocks = [
            [i; 16], [i; 16], [i; 16], [i; 16], [i; 16], [i; 16], [i; 16], [9; 16],
        ];
        let run = Run {
            words: &["keygen", "master"],
            blocks: &blocks,
            ..marking(b"")
        };
        let key = output(rt, alloc, run);
        vault.extend_from_slice(&key).expect(rt, "memory");
    }
    vault
}

/// The version 4 UUID that is made of a block of these bytes.
fn id_of(byte: u8) -> [u8; 16] {
    let mut id = [byte; 16];
    id[6] = id[6] & 0x0f | 0x40;
    id[8] = id[8] & 0x3f | 0x80;
    id
}

/// The name of two digits under `k`, with this tag before it.
fn name_of(tag: u8, i: u8) -> [u8; 5] {
    [tag, b'k', b'0' + i / 10 % 10, b'0' + i % 10, 0]
}

/// The info of `people` with 65 names, each an int, deterministic, under a key of its own.
fn many_rules(rt: &impl Abort, alloc: Global) -> Vec<u8> {
    let (head, tail) = LEAF.split_at(36);
    let (_, tail) = tail.split_at(16);
    let mut rules = Vec::new(alloc);
    for i in 0..65 {
        rules.extend_from_slice(&name_of(3, i)).expect(rt, "memory");
        rules.extend_from_slice(head).expect(rt, "memory");
        rules.extend_from_slice(&id_of(i)).expect(rt, "memory");
        rules.extend_from_slice(tail).expect(rt, "memory");
    }
    let properties = document(rt, alloc, &[&rules]);
    let schema = document(rt, alloc, &[b"\x03properties\x00", &properties]);
    info_of(
        rt,
        alloc,
        b"\x02name\x00\x07\x00\x00\x00people\x00",
        &schema,
    )
}

/// An insert into `people` of these elements.
pub(crate) fn insert_of(rt: &impl Abort, alloc: Global, elements: &[u8]) -> Vec<u8> {
    let inner = document(rt, alloc, &[elements]);
    inserted(
        rt,
        alloc,
        b"\x02insert\x00\x07\x00\x00\x00people\x00",
        &inner,
    )
}

/// An insert into `people` of an int under each of these names, twice.
fn many_values(rt: &impl Abort, alloc: Global) -> Vec<u8> {
    let mut elements = Vec::new(alloc);
    for i in 0..65 {
        elements
            .extend_from_slice(&name_of(0x10, i))
            .expect(rt, "memory");
        elements
            .extend_from_slice(&[i, 0, 0, 0])
            .expect(rt, "memory");
    }
    let command = insert_of(rt, alloc, &elements);
    joined(rt, alloc, &[&command, &command])
}

#[test]
fn more_keys_than_are_kept_open_seal_alike(rt: HostRuntime) {
    let alloc = rt.alloc();
    let keys = many_keys(&rt, alloc);
    let rules = many_rules(&rt, alloc);
    let input = many_values(&rt, alloc);
    let run = Run {
        keys: &keys,
        infos: &[&rules],
        ..sealing(&input)
    };
    let sealed = output(&rt, alloc, run);
    assert!(rt; input.len() == 1290 && sealed.len() == 12_080, "lengths");
    let (one, other) = sealed.split_at(sealed.len() / 2);
    assert!(rt; one == other, "outputs");
    let run = Run {
        keys: &keys,
        ..opening(&sealed)
    };
    writes(&rt, alloc, run, &input);
}
