//! Whole runs of `encrypt-with` over markings (MongoDB Client Side Encryption): a binary of subtype 06 of 00 and a
//! document of three fields, in whatever order.

use crate::pair_samples::{RANDOM_A, answered, binary_of, reply_of};
use sample_documents::reply_parts::{A, KI, KJ, MARKED_SALARY, N, OLD_KI, OTHER_KI, SHORT_KI, V};
use sample_documents::reply_shapes::{FIELD_ORDERS, WRONG_FIELDS};
use std::alloc::Global;
use std::process::Abort;

/// What a marking begins with: its subtype and 00.
const HEAD: &[u8] = b"\x06\x00";

/// A reply to `INSERT` in which such a binary stands for `ssn` must end with this line, or be right where there is
/// none.
fn told(rt: &impl Abort, alloc: Global, head: &[u8], fields: &[&[u8]], behind: &[u8], line: &str) {
    let ssn = binary_of(rt, alloc, b"\x05ssn\x00", head, fields, behind);
    let reply = reply_of(rt, alloc, &[&ssn, N]);
    answered(rt, alloc, &reply, line);
}

/// A marking of these fields differs.
fn differs(rt: &impl Abort, alloc: Global, fields: &[&[u8]]) {
    told(rt, alloc, HEAD, fields, b"", "fle: 1 2 26 2\n");
}

#[test]
fn the_fields_of_a_marking_stand_in_any_order(rt: HostRuntime) {
    for fields in FIELD_ORDERS {
        told(&rt, rt.alloc(), HEAD, fields, b"", "");
    }
}

#[test]
fn each_field_stands_once_and_alone(rt: HostRuntime) {
    for fields in WRONG_FIELDS {
        differs(&rt, rt.alloc(), fields);
    }
}

#[test]
fn a_changed_value_differs(rt: HostRuntime) {
    let markings: &[&[&[u8]]] = &[
        &[b"\x02v\x00\x0c\x00\x00\x00123-45-6780\x00", A, KI],
        &[b"\x02v\x00\x0b\x00\x00\x00123-45-678\x00", A, KI],
        &[b"\x0ev\x00\x0c\x00\x00\x00123-45-6789\x00", A, KI],
        &[b"\x02w\x00\x0c\x00\x00\x00123-45-6789\x00", A, KI],
        &[KI, A, b"\x0av\x00"],
    ];
    for fields in markings {
        differs(&rt, rt.alloc(), fields);
    }
}

#[test]
fn a_changed_algorithm_differs(rt: HostRuntime) {
    let markings: &[&[&[u8]]] = &[
        &[V, RANDOM_A, KI],
        &[KI, RANDOM_A, V],
        &[V, b"\x10a\x00\x00\x00\x00\x00", KI],
        &[V, b"\x10a\x00\x01\x01\x00\x00", KI],
        &[V, b"\x12a\x00\x01\x00\x00\x00\x00\x00\x00\x00", KI],
        &[V, b"\x10b\x00\x01\x00\x00\x00", KI],
    ];
    for fields in markings {
        differs(&rt, rt.alloc(), fields);
    }
}

#[test]
fn a_changed_key_differs(rt: HostRuntime) {
    let markings: &[&[&[u8]]] = &[
        &[V, A, OTHER_KI],
        &[OTHER_KI, A, V],
        &[V, A, OLD_KI],
        &[V, A, SHORT_KI],
        &[V, A, KJ],
        &[V, A, b"\x02ka\x00\x07\x00\x00\x00hr-key\x00"],
    ];
    for fields in markings {
        differs(&rt, rt.alloc(), fields);
    }
}

#[test]
fn nothing_stands_around_the_document_of_a_marking(rt: HostRuntime) {
    let binaries: &[(&[u8], &[u8])] = &[
        (b"\x00\x00", b""),
        (b"\x04\x00", b""),
        (b"\x06\x01", b""),
        (b"\x06\x02", b""),
        (b"\x06", b""),
        (b"\x06\x00\x00", b""),
        (HEAD, b"\x00"),
    ];
    for (head, behind) in binaries {
        told(
            &rt,
            rt.alloc(),
            head,
            &[V, A, KI],
            behind,
            "fle: 1 2 26 2\n",
        );
    }
}

#[test]
fn the_binary_of_a_marking_holds_a_whole_one(rt: HostRuntime) {
    let binaries: &[&[u8]] = &[
        b"\x05ssn\x00\x00\x00\x00\x00\x06",
        b"\x05ssn\x00\x01\x00\x00\x00\x06\x00",
        b"\x05ssn\x00\x06\x00\x00\x00\x06\x00\x05\x00\x00\x00\x00",
        b"\x02ssn\x00\x02\x00\x00\x00v\x00",
        b"\x0assn\x00",
    ];
    for ssn in binaries {
        let reply = reply_of(&rt, rt.alloc(), &[*ssn, N]);
        answered(&rt, rt.alloc(), &reply, "fle: 1 2 26 2\n");
    }
}

#[test]
fn a_value_that_no_rule_concerns_has_no_marking(rt: HostRuntime) {
    let alloc = rt.alloc();
    let ssn = binary_of(&rt, alloc, b"\x05ssn\x00", HEAD, &[V, A, KI], b"");
    let number = b"\x10v\x00\x01\x00\x00\x00".as_slice();
    let marked = binary_of(&rt, alloc, b"\x05n\x00", HEAD, &[number, RANDOM_A, KI], b"");
    let right = reply_of(&rt, alloc, &[&ssn, N]);
    answered(&rt, alloc, &right, "");
    let one_more = reply_of(&rt, alloc, &[&ssn, &marked]);
    answered(&rt, alloc, &one_more, "fle: 1 2 26 2\n");
    let other_value = reply_of(&rt, alloc, &[MARKED_SALARY, N]);
    answered(&rt, alloc, &other_value, "fle: 1 2 26 2\n");
}
