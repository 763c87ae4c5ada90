//! The three elements of a reply that are read: each exactly once, of its type, in any order.

use crate::checking::reply_samples::{
    FIRST_NAME, OFF, PLAIN, differs_at, document_with, is_misshapen_at, is_right,
};
use sample_documents::reply_parts::{
    FIRST, FIRST_INT, FIRST_NULL, OK, RESULT, SECOND, SECOND_INT, SECOND_OFF, SECOND_TEXT,
};
use sample_documents::reply_shapes::{INCOMPLETE, ORDERS, WITH_OTHERS};
use std::alloc::Global;

/// `result: true`
const RESULT_BOOL: &[u8] = b"\x08result\x00\x01";

/// `result: []`
const RESULT_LIST: &[u8] = b"\x04result\x00\x05\x00\x00\x00\x00";

/// `result: {}`
const RESULT_EMPTY: &[u8] = b"\x03result\x00\x05\x00\x00\x00\x00";

/// Whether a reply of these elements is right.
fn are_right(alloc: Global, elements: &[&[u8]]) -> bool {
    match document_with(alloc, elements) {
        Some(reply) => is_right(alloc, &reply),
        None => false,
    }
}

/// Whether a reply of these elements differs at the element whose value begins there.
fn differ_at(alloc: Global, elements: &[&[u8]], place: u32) -> bool {
    match document_with(alloc, elements) {
        Some(reply) => differs_at(alloc, &reply, place),
        None => false,
    }
}

/// Whether the shape of a reply of these elements is wrong there.
fn are_misshapen_at(alloc: Global, elements: &[&[u8]], place: u32) -> bool {
    match document_with(alloc, elements) {
        Some(reply) => is_misshapen_at(alloc, &reply, place),
        None => false,
    }
}

#[test]
fn the_three_stand_in_any_order(rt: HostRuntime) {
    for elements in ORDERS {
        assert!(rt; are_right(rt.alloc(), elements));
    }
}

#[test]
fn other_elements_are_not_read(rt: HostRuntime) {
    for elements in WITH_OTHERS {
        assert!(rt; are_right(rt.alloc(), elements));
    }
}

#[test]
fn each_of_the_three_is_wanted(rt: HostRuntime) {
    for elements in INCOMPLETE {
        assert!(rt; are_misshapen_at(rt.alloc(), elements, 0));
    }
}

#[test]
fn a_second_one_is_told(rt: HostRuntime) {
    let replies: &[(&[&[u8]], u32)] = &[
        (&[FIRST, FIRST, SECOND, RESULT], 59),
        (&[FIRST, SECOND, RESULT, FIRST_NAME, OFF, OK], 228),
        (&[FIRST, SECOND, SECOND, RESULT], 85),
        (&[SECOND, OK, RESULT, SECOND_OFF, FIRST], 211),
        (&[FIRST, SECOND, RESULT, RESULT], 209),
        (&[RESULT_EMPTY, SECOND, RESULT, FIRST, RESULT], 52),
    ];
    for (elements, place) in replies {
        assert!(rt; are_misshapen_at(rt.alloc(), elements, *place));
    }
}

#[test]
fn another_type_is_told(rt: HostRuntime) {
    let replies: &[(&[&[u8]], u32)] = &[
        (&[FIRST_INT, SECOND, RESULT], 31),
        (&[OK, FIRST_NULL, SECOND, RESULT], 43),
        (&[FIRST, SECOND_INT, RESULT], 58),
        (&[FIRST, SECOND_TEXT, RESULT], 58),
        (&[FIRST, SECOND, RESULT_BOOL], 67),
        (&[FIRST, SECOND, RESULT_LIST], 67),
    ];
    for (elements, place) in replies {
        assert!(rt; are_misshapen_at(rt.alloc(), elements, *place));
    }
}

#[test]
fn the_first_wrong_shape_is_told_before_what_is_missing_or_differs(rt: HostRuntime) {
    let replies: &[(&[&[u8]], u32)] = &[
        (&[SECOND_INT, FIRST_INT], 30),
        (&[RESULT_BOOL, SECOND, SECOND, FIRST_INT], 12),
        (&[FIRST_NAME, OFF, SECOND_OFF, RESULT_LIST], 67),
        (&[FIRST_NAME, OFF, FIRST_INT, RESULT_BOOL], 59),
    ];
    for (elements, place) in replies {
        assert!(rt; are_misshapen_at(rt.alloc(), elements, *place));
    }
}

#[test]
fn the_first_flag_is_told_before_the_second_and_the_result(rt: HostRuntime) {
    let replies: &[(&[&[u8]], u32)] = &[
        (&[FIRST_NAME, OFF, SECOND, RESULT], 31),
        (&[FIRST, SECOND_OFF, RESULT], 58),
        (&[FIRST, SECOND, PLAIN], 67),
        (&[FIRST, SECOND, RESULT_EMPTY], 67),
        (&[FIRST_NAME, OFF, SECOND_OFF, PLAIN], 31),
        (&[SECOND_OFF, FIRST_NAME, OFF, RESULT], 58),
        (&[PLAIN, SECOND_OFF, FIRST], 126),
        (&[PLAIN, SECOND, FIRST], 12),
    ];
    for (elements, place) in replies {
        assert!(rt; differ_at(rt.alloc(), elements, *place));
    }
}
