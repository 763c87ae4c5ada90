//! Payloads that were made outside this repository, and what is refused; a marking byte for byte.
use bson_codec::{RawDoc, check_bson};
use bson_tree::Bytes;
use crypto_hooks::Tables;
use encrypt_schema::{Algorithm, Info, Infos, KeyRef};
use fle_aead::DataKey;
use fle_vectors::DATA_KEY;
use payload6::{
    DETERMINISTIC, PartsFault, PayloadFault, RANDOM, det_iv, marking, marking_named,
    open_payload_into, parts, payload_len, seal_payload_into,
};
use sample_documents::{KEY_ID, SSN_PAYLOAD};
use std::alloc::Global;
use std::process::Abort;

/// The string "123-45-6789" as BSON has it: its length, its bytes and 00.
const SSN: &[u8; 16] = b"\x0c\x00\x00\x00123-45-6789\x00";

/// A random payload of a string under a right tag, made in the same way, whose block opens to zeros.
const WRONGLY_PADDED: [u8; 82] = [
    0x02, 0x00, 0x11, 0x22, 0x33, 0x44, 0x55, 0x46, 0x77, 0x88, 0x99, 0xaa, 0xbb, 0xcc, 0xdd, 0xee,
    0xff, 0x02, 0x00, 0x01, 0x02, 0x03, 0x04, 0x05, 0x06, 0x07, 0x08, 0x09, 0x0a, 0x0b, 0x0c, 0x0d,
    0x0e, 0x0f, 0x9f, 0xd4, 0x2b, 0x08, 0xb2, 0x5d, 0xa6, 0x6f, 0x1d, 0x63, 0x59, 0xfd, 0xb0, 0x6f,
    0xc7, 0x4b, 0xe3, 0x48, 0x1a, 0x62, 0x67, 0x1b, 0xf5, 0x3f, 0xec, 0x6f, 0x34, 0x56, 0x3a, 0x11,
    0x73, 0x0e, 0xcc, 0xae, 0x39, 0x07, 0x87, 0xf9, 0x68, 0x2e, 0x3e, 0x27, 0x08, 0x83, 0xd9, 0x1e,
    0xf3, 0x8f,
];

#[test]
fn payloads_have_their_lengths(rt: HostRuntime) {
    for (n, len) in [(0, 82), (4, 82), (15, 82), (16, 98)] {
        assert!(rt; payload_len(n) == len);
    }
}

#[test]
fn bytes_of_no_payload_are_refused(rt: HostRuntime) {
    assert!(rt; parts(b"").err() == Some(PartsFault::Kind));
    assert!(rt; parts(&[0]).err() == Some(PartsFault::Kind));
    assert!(rt; parts(&[1, 2, 3]).err() == Some(PartsFault::Short));
    assert!(rt; parts(&[1; 66]).err() == Some(PartsFault::Short));
}

#[test]
fn a_payload_is_taken_apart(rt: HostRuntime) {
    match parts(&[2; 82]) {
        Ok(payload) => {
            assert!(rt; payload.kind == RANDOM && payload.tag == 2);
            assert!(rt; payload.key_id == [2; 16]);
            assert!(rt; payload.head.len() == 18 && payload.sealed.len() == 64);
        }
        Err(_) => assert!(rt; false),
    }
}

#[test]
fn a_value_is_sealed_as_elsewhere(rt: HostRuntime) {
    let key = DataKey::new(DATA_KEY);
    let iv = det_iv(&key, KEY_ID, 2, SSN);
    let mut out = [0; 98];
    seal_payload_into(&Tables, &key, DETERMINISTIC, KEY_ID, 2, iv, SSN, &mut out);
    assert!(rt; out == *SSN_PAYLOAD);
}

/// What the opening of a payload answers, of at most 98 bytes.
fn opened(bytes: &[u8], out: &mut [u8; 98]) -> Option<Result<usize, PayloadFault>> {
    if bytes.len() > 98 {
        return None;
    }
    match parts(bytes) {
        Ok(payload) => {
            let key = DataKey::new(DATA_KEY);
            Some(open_payload_into(&Tables, &key, &payload, 100, out))
        }
        Err(_) => None,
    }
}

#[test]
fn a_value_is_opened(rt: HostRuntime) {
    let mut out = [7; 98];
    assert!(rt; opened(SSN_PAYLOAD, &mut out) == Some(Ok(16)));
    assert!(rt; out.starts_with(SSN));
}

#[test]
fn a_wrong_padding_under_a_right_tag_is_refused(rt: HostRuntime) {
    let mut out = [7; 98];
    assert!(rt; opened(&WRONGLY_PADDED, &mut out) == Some(Err(PayloadFault::Padding)));
}

#[test]
fn a_changed_key_id_is_refused_by_the_tag(rt: HostRuntime) {
    let mut bytes = *SSN_PAYLOAD;
    bytes[1] = 1;
    let mut out = [7; 98];
    let answer = opened(&bytes, &mut out);
    assert!(rt; matches!(&answer, Some(Err(PayloadFault::Tag { .. }))));
    assert!(rt; out == [7; 98]);
}

/// The answer for a payload whose plain text is these zeros, sealed as a value of this type.
fn answer_for(tag: u8, plain: &[u8]) -> Option<Result<usize, PayloadFault>> {
    if plain.len() > 15 {
        return None;
    }
    let key = DataKey::new(DATA_KEY);
    let mut bytes = [0; 82];
    seal_payload_into(
        &Tables, &key, RANDOM, KEY_ID, tag, [9; 16], plain, &mut bytes,
    );
    let mut out = [0; 98];
    opened(&bytes, &mut out)
}

#[test]
fn what_spells_no_value_is_refused(rt: HostRuntime) {
    assert!(rt; answer_for(0x10, &[0; 4]) == Some(Ok(4)));
    assert!(rt; answer_for(0x10, &[0; 3]) == Some(Err(PayloadFault::Plain)));
    assert!(rt; answer_for(0x0A, b"") == Some(Err(PayloadFault::Plain)));
}

/// The info of `people`: `ssn` deterministic and a string.
const PEOPLE: &[u8] =
    b"\x0d\x01\x00\x00\x02name\x00\x07\x00\x00\x00people\x00\x02type\x00\x0b\x00\x00\x00collection\
     \x00\x03options\x00\xd9\x00\x00\x00\x03validator\x00\xc9\x00\x00\x00\x03$jsonSchema\x00\xb7\x00\
     \x00\x00\x02bsonType\x00\x07\x00\x00\x00object\x00\x03properties\x00\x91\x00\x00\x00\x03ssn\x00\
     \x87\x00\x00\x00\x03encrypt\x00y\x00\x00\x00\x04keyId\x00\x1d\x00\x00\x00\x050\x00\x10\x00\x00\
     \x00\x04\x00\x11\x223DUFw\x88\x99\xaa\xbb\xcc\xdd\xee\xff\x00\x02algorithm\x00,\x00\x00\x00AEAD\
     _AES_256_CBC_HMAC_SHA_512-Deterministic\x00\x02bsonType\x00\x07\x00\x00\x00string\x00\x00\x00\
     \x00\x00\x00\x00\x00";

/// The marking of `ssn`, 57 bytes.
const MARKING: &[u8] =
    b"\x008\x00\x00\x00\x02v\x00\x0c\x00\x00\x00123-45-6789\x00\x10a\x00\x01\x00\x00\x00\x05ki\x00\
     \x10\x00\x00\x00\x04\x00\x11\x223DUFw\x88\x99\xaa\xbb\xcc\xdd\xee\xff\x00";

/// `{ssn: "123-45-6789"}`.
const PERSON: &[u8] = b"\x1a\x00\x00\x00\x02ssn\x00\x0c\x00\x00\x00123-45-6789\x00\x00";

/// The marking of the only value of a document, under the first rule of a collection.
fn marked(rt: &impl Abort, alloc: Global, info: &Info, document: &RawDoc<'_>) -> Bytes {
    let policy = info.rows().policy(0).expect(rt, "a policy");
    let item = document.items().next().expect(rt, "an element");
    assert!(rt; item.value().len() < 100, "a test's value is too long");
    match &policy.key {
        KeyRef::Id(_) => marking(alloc, &item, policy).expect(rt, "memory"),
        KeyRef::Pointer(_) => panic!(rt; "a test's rule has a pointer"),
    }
}

#[test]
fn a_string_is_marked(rt: HostRuntime) {
    let infos = Infos::load(rt.alloc(), PEOPLE).expect(&rt, "infos");
    let info = infos.info_of(b"people").expect(&rt, "an info");
    let document = check_bson(PERSON).expect(&rt, "a document");
    let bytes = marked(&rt, rt.alloc(), info, &document);
    assert!(rt; bytes.as_slice() == MARKING);
}

/// `{note: 7}`.
const NOTE: &[u8] = b"\x0f\x00\x00\x00\x10note\x00\x07\x00\x00\x00\x00";

/// The marking of `note` for the key `hr-key`, 35 bytes.
const NAMED_MARKING: &[u8] =
    b"\x00\"\x00\x00\x00\x10v\x00\x07\x00\x00\x00\x10a\x00\x02\x00\x00\x00\x02ka\x00\
     \x07\x00\x00\x00hr-key\x00\x00";

#[test]
fn an_int_is_marked_for_a_key_by_its_alternate_name(rt: HostRuntime) {
    let document = check_bson(NOTE).expect(&rt, "a document");
    let item = document.items().next().expect(&rt, "an element");
    assert!(rt; item.value().len() < 100, "a test's value is too long");
    let bytes = marking_named(rt.alloc(), &item, Algorithm::Random, b"hr-key");
    assert!(rt; bytes.expect(&rt, "memory").as_slice() == NAMED_MARKING);
}
