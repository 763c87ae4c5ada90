//! Markings in a reply: a binary of subtype 06 of 00 and a document of three fields, in whatever order.

use crate::checking::reply_samples::{
    differs_at, document_with, insert_with, is_right, reply_with,
};
use sample_documents::reply_parts::{A, KI, KJ, OLD_KI, OTHER_KI, SHORT_KI, V};
use sample_documents::reply_shapes::{FIELD_ORDERS, WRONG_FIELDS};
use std::alloc::Global;

/// What a marking begins with: its subtype and 00.
const HEAD: &[u8] = b"\x06\x00";

/// `ssn`, a binary: its subtype and first byte, a document of these fields, and what stands behind it.
fn ssn_with(alloc: Global, head: &[u8], fields: &[&[u8]], behind: &[u8]) -> Option<Vec<u8>> {
    let document = document_with(alloc, fields)?;
    if head.len() == 0 || head.len() > 9 || document.len() > 300 || behind.len() > 9 {
        return None;
    }
    let size = (head.len() + document.len() + behind.len()) as u32 - 1;
    let mut out = Vec::new(alloc);
    let is_whole = out.extend_from_slice(b"\x05ssn\x00").is_ok()
        && out.extend_from_slice(&size.to_le_bytes()).is_ok()
        && out.extend_from_slice(head).is_ok()
        && out.extend_from_slice(&document).is_ok()
        && out.extend_from_slice(behind).is_ok()
        && out.extend_from_slice(b"\x10n\x00\x01\x00\x00\x00").is_ok();
    if is_whole { Some(out) } else { None }
}

/// The reply to `INSERT` with such a binary.
fn reply_of(alloc: Global, head: &[u8], fields: &[&[u8]], behind: &[u8]) -> Option<Vec<u8>> {
    let elements = ssn_with(alloc, head, fields, behind)?;
    let result = insert_with(alloc, &elements)?;
    reply_with(alloc, &result)
}

/// Whether a marking of these fields is right.
fn are_right(alloc: Global, fields: &[&[u8]]) -> bool {
    match reply_of(alloc, HEAD, fields, b"") {
        Some(reply) => is_right(alloc, &reply),
        None => false,
    }
}

/// Whether the result differs where such a binary stands in the place of `ssn`.
fn differs(alloc: Global, head: &[u8], fields: &[&[u8]], behind: &[u8]) -> bool {
    match reply_of(alloc, head, fields, behind) {
        Some(reply) => differs_at(alloc, &reply, 67),
        None => false,
    }
}

#[test]
fn its_fields_stand_in_any_order(rt: HostRuntime) {
    for fields in FIELD_ORDERS {
        assert!(rt; are_right(rt.alloc(), fields));
    }
}

#[test]
fn each_of_its_fields_stands_once(rt: HostRuntime) {
    for fields in WRONG_FIELDS {
        assert!(rt; differs(rt.alloc(), HEAD, fields, b""));
    }
}

#[test]
fn it_holds_the_value_of_the_command(rt: HostRuntime) {
    let markings: &[&[&[u8]]] = &[
        &[b"\x02v\x00\x0c\x00\x00\x00123-45-6780\x00", A, KI],
        &[b"\x02v\x00\x0b\x00\x00\x00123-45-678\x00", A, KI],
        &[b"\x02v\x00\x0d\x00\x00\x00123-45-67890\x00", A, KI],
        &[b"\x0ev\x00\x0c\x00\x00\x00123-45-6789\x00", A, KI],
        &[b"\x02w\x00\x0c\x00\x00\x00123-45-6789\x00", A, KI],
        &[b"\x0av\x00", A, KI],
    ];
    for fields in markings {
        assert!(rt; differs(rt.alloc(), HEAD, fields, b""));
    }
}

#[test]
fn it_holds_the_algorithm_of_the_rule(rt: HostRuntime) {
    let markings: &[&[&[u8]]] = &[
        &[KI, b"\x10a\x00\x02\x00\x00\x00", V],
        &[KI, b"\x10a\x00\x01\x01\x00\x00", V],
        &[KI, b"\x12a\x00\x01\x00\x00\x00\x00\x00\x00\x00", V],
        &[KI, b"\x10b\x00\x01\x00\x00\x00", V],
    ];
    for fields in markings {
        assert!(rt; differs(rt.alloc(), HEAD, fields, b""));
    }
}

#[test]
fn it_holds_the_key_of_the_rule(rt: HostRuntime) {
    let markings: &[&[&[u8]]] = &[
        &[V, A, OTHER_KI],
        &[V, A, OLD_KI],
        &[V, A, SHORT_KI],
        &[V, A, KJ],
        &[V, A, b"\x02ka\x00\x07\x00\x00\x00hr-key\x00"],
    ];
    for fields in markings {
        assert!(rt; differs(rt.alloc(), HEAD, fields, b""));
    }
}

#[test]
fn nothing_stands_around_its_document(rt: HostRuntime) {
    let heads: &[(&[u8], &[u8])] = &[
        (b"\x00\x00", b""),
        (b"\x04\x00", b""),
        (b"\x06\x01", b""),
        (b"\x06", b""),
        (b"\x06\x00\x00", b""),
        (HEAD, b"\x00"),
    ];
    for (head, behind) in heads {
        assert!(rt; differs(rt.alloc(), head, &[V, A, KI], behind));
    }
}
