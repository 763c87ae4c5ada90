//! A payload that was made outside this repository, with each of its bytes changed in turn.

use crate::documents::{document_of, whole};
use crate::rewrite::keyed::has_keys;
use crate::rewrite::opening_tests::{is_refused, key_of_tests, opens_to, refusal};
use crate::rewrite::samples::ONE_INT;
use doc_rewrite::find_payloads;
use encrypt_schema::Reason;
use std::alloc::Global;

/// The offset of the payload's value, and of its first byte.
const VALUE: u32 = 53;

const FIRST: usize = 58;

/// The sealed document with this byte of the payload changed.
fn changed(alloc: Global, i: usize, byte: u8) -> Option<Vec<u8>> {
    let mut bytes = whole(alloc, ONE_INT.sealed)?;
    if bytes.len() != 155 || i >= 82 {
        return None;
    }
    bytes[FIRST + i] = byte;
    Some(bytes)
}

/// Whether it is refused for its tag.
fn has_wrong_tag(alloc: Global, i: usize, byte: u8) -> bool {
    match changed(alloc, i, byte) {
        Some(bytes) => is_refused(alloc, &[&bytes], refusal(Reason::TagMismatch, VALUE)),
        None => false,
    }
}

/// Whether it opens to itself.
fn passes(alloc: Global, byte: u8) -> bool {
    match changed(alloc, 0, byte) {
        Some(bytes) => opens_to(alloc, &[&bytes], &[&bytes]),
        None => false,
    }
}

/// Whether the key of each payload of a document is that of the tests; `None` where that couldn't be tried.
fn is_keyed(alloc: Global, bytes: &[u8]) -> Option<bool> {
    let document = document_of(bytes)?;
    let found = find_payloads(&document).ok()?;
    let keys = key_of_tests(alloc)?;
    Some(has_keys(&found, &keys))
}

/// Whether it has a payload whose key isn't that of the id of the tests.
fn is_keyless(alloc: Global, i: usize, byte: u8) -> bool {
    match changed(alloc, i, byte) {
        Some(bytes) => is_keyed(alloc, &bytes) == Some(false),
        None => false,
    }
}

#[test]
fn the_number_of_the_other_algorithm_is_told_by_the_tag_and_any_third_one_passes(rt: HostRuntime) {
    assert!(rt; has_wrong_tag(rt.alloc(), 0, 1));
    assert!(rt; passes(rt.alloc(), 0));
    assert!(rt; passes(rt.alloc(), 3));
}

#[test]
fn a_changed_byte_of_the_id_names_another_key(rt: HostRuntime) {
    for i in 1..17 {
        assert!(rt; is_keyless(rt.alloc(), i, 0x5A));
    }
}

#[test]
fn a_changed_byte_behind_the_id_is_told_by_the_tag(rt: HostRuntime) {
    for i in 17..82 {
        assert!(rt; has_wrong_tag(rt.alloc(), i, 0x5A));
    }
}
