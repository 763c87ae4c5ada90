use bson_codec::{check_bson, place_at};
use std::alloc::Global;
use std::process::Abort;

// {a: 1, b: {c: 2, d: [3]}, e: null}
const DOCUMENT: [u8; 45] = [
    0x2D, 0x00, 0x00, 0x00, // length
    0x10, b'a', 0x00, 0x01, 0x00, 0x00, 0x00, // a, its value at 7
    0x03, b'b', 0x00, 0x1B, 0x00, 0x00, 0x00, // b, its value at 14
    0x10, b'c', 0x00, 0x02, 0x00, 0x00, 0x00, // b.c, its value at 21
    0x04, b'd', 0x00, 0x0C, 0x00, 0x00, 0x00, // b.d, its value at 28
    0x10, b'0', 0x00, 0x03, 0x00, 0x00, 0x00, // b.d.0, its value at 35
    0x00, 0x00, // ends of b.d and b
    0x0A, b'e', 0x00, // e, its value at 44, of no bytes
    0x00,
];

/// The value that begins at this offset must have this place.
fn expect_place(rt: &impl Abort, alloc: Global, at: u32, steps: &[u32]) {
    let document = check_bson(&DOCUMENT).expect(rt, "a document");
    let place = place_at(alloc, &document, at).expect(rt, "memory");
    assert!(rt; place.as_slice() == steps);
}

#[test]
fn each_value_is_found_by_the_offset_at_which_it_begins(rt: HostRuntime) {
    let cases: &[(u32, &[u32])] = &[
        (7, &[0]),
        (14, &[1]),
        (21, &[1, 0]),
        (28, &[1, 1]),
        (35, &[1, 1, 0]),
        (44, &[2]),
    ];
    for (at, steps) in cases {
        expect_place(&rt, rt.alloc(), *at, steps);
    }
}

#[test]
fn an_offset_at_which_no_value_begins_is_that_of_the_document(rt: HostRuntime) {
    let offsets: &[u32] = &[0, 4, 18, 36, 45];
    for at in offsets {
        expect_place(&rt, rt.alloc(), *at, &[]);
    }
}
