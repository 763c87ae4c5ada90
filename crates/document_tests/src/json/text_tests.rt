//! Each type of BSON 1.1 as text. The expected texts are written by hand in Extended JSON, and are those that Python's
//! `json.dumps` gives without spaces.

use bson_codec::{RawDoc, check_bson};
use ext_json::{Shown, first_bad_text, show_text, write_text};
use fle_outside::MemSink;
use sample_documents::PING;
use std::alloc::Global;
use std::process::Abort;

/// How many bytes a sink takes a call.
const STEPS: &[usize] = &[1, 7, 200];

/// Whether this text is written where the sink takes so many bytes a call.
fn is_written(alloc: Global, document: &RawDoc<'_>, step: usize, text: &[u8]) -> bool {
    match MemSink::new(alloc, 200, step.max(1), Vec::new(alloc)) {
        Ok(mut out) => write_text(document, &mut out).is_ok() && out.written() == text,
        Err(_) => false,
    }
}

/// Whether it is shown.
fn is_shown(alloc: Global, document: &RawDoc<'_>, step: usize, text: &[u8]) -> bool {
    match MemSink::new(alloc, 200, step.max(1), Vec::new(alloc)) {
        Ok(mut out) => show_text(document, &mut out) == Shown::Written && out.written() == text,
        Err(_) => false,
    }
}

/// The document must have this text, however the sink cuts it.
fn expect_text(rt: &impl Abort, alloc: Global, bytes: &[u8], text: &[u8]) {
    assert!(rt; bytes.len() < 200);
    let document = check_bson(bytes).expect(rt, "no document");
    assert!(rt; first_bad_text(&document) == None);
    for step in STEPS {
        assert!(rt; is_written(alloc, &document, *step, text));
        assert!(rt; is_shown(alloc, &document, *step, text));
    }
}

// The 8 bytes of 1.0; the least int; the greatest long; 16 bytes of a decimal.
#[test]
fn numbers_stand_as_digits(rt: HostRuntime) {
    let cases: &[(&[u8], &[u8])] = &[
        (
            b"\x10\x00\x00\x00\x01a\x00\x00\x00\x00\x00\x00\x00\xF0?\x00",
            br#"{"a":{"$doubleBits":"000000000000f03f"}}"#,
        ),
        (
            b"\x0C\x00\x00\x00\x10a\x00\x00\x00\x00\x80\x00",
            br#"{"a":{"$numberInt":"-2147483648"}}"#,
        ),
        (
            b"\x10\x00\x00\x00\x12a\x00\xFF\xFF\xFF\xFF\xFF\xFF\xFF\x7F\x00",
            br#"{"a":{"$numberLong":"9223372036854775807"}}"#,
        ),
        (
            b"\x18\x00\x00\x00\x13a\x00\x00\x01\x02\x03\x04\x05\x06\x07\x08\x09\x0A\x0B\x0C\x0D\x0E\x0F\x00",
            br#"{"a":{"$decimalBits":"000102030405060708090a0b0c0d0e0f"}}"#,
        ),
    ];
    for (bytes, text) in cases {
        expect_text(&rt, rt.alloc(), bytes, text);
    }
}

// One millisecond before 1970; the greatest seconds, increment 42.
#[test]
fn times_are_longs_and_pairs(rt: HostRuntime) {
    let cases: &[(&[u8], &[u8])] = &[
        (
            b"\x10\x00\x00\x00\x09a\x00\xFF\xFF\xFF\xFF\xFF\xFF\xFF\xFF\x00",
            br#"{"a":{"$date":{"$numberLong":"-1"}}}"#,
        ),
        (
            b"\x10\x00\x00\x00\x11a\x00*\x00\x00\x00\xFF\xFF\xFF\xFF\x00",
            br#"{"a":{"$timestamp":{"t":4294967295,"i":42}}}"#,
        ),
    ];
    for (bytes, text) in cases {
        expect_text(&rt, rt.alloc(), bytes, text);
    }
}

// Booleans and null; undefined, the greatest and the least key.
#[test]
fn words_stand_for_values_without_bytes(rt: HostRuntime) {
    let cases: &[(&[u8], &[u8])] = &[
        (
            b"\x10\x00\x00\x00\x08a\x00\x00\x08b\x00\x01\x0Ac\x00\x00",
            br#"{"a":false,"b":true,"c":null}"#,
        ),
        (
            b"\x0E\x00\x00\x00\x06a\x00\x7Fb\x00\xFFc\x00\x00",
            br#"{"a":{"$undefined":true},"b":{"$maxKey":1},"c":{"$minKey":1}}"#,
        ),
    ];
    for (bytes, text) in cases {
        expect_text(&rt, rt.alloc(), bytes, text);
    }
}

// A string with each kind of escape; code and a symbol; a pattern with its options; code with a scope.
#[test]
fn texts_are_quoted(rt: HostRuntime) {
    let cases: &[(&[u8], &[u8])] = &[
        (
            b"\x16\x00\x00\x00\x02a\x00\x0A\x00\x00\x00\xC3\xA9\"\\/\x0A\x1F\x7F\x00\x00\x00",
            b"{\"a\":\"\xC3\xA9\\\"\\\\/\\u000a\\u001f\x7F\\u0000\"}",
        ),
        (
            b"\x18\x00\x00\x00\x0Da\x00\x04\x00\x00\x00f()\x00\x0Eb\x00\x01\x00\x00\x00\x00\x00",
            br#"{"a":{"$code":"f()"},"b":{"$symbol":""}}"#,
        ),
        (
            b"\x10\x00\x00\x00\x0Ba\x00^\\d\"\x00ix\x00\x00",
            br#"{"a":{"$regularExpression":{"pattern":"^\\d\"","options":"ix"}}}"#,
        ),
        (
            b"\x1E\x00\x00\x00\x0Fa\x00\x16\x00\x00\x00\x02\x00\x00\x00x\x00\x0C\x00\x00\x00\x10n\
             \x00\x07\x00\x00\x00\x00\x00",
            br#"{"a":{"$code":"x","$scope":{"n":{"$numberInt":"7"}}}}"#,
        ),
    ];
    for (bytes, text) in cases {
        expect_text(&rt, rt.alloc(), bytes, text);
    }
}

// None, three and one byte, of the subtypes 00, 80 and 06.
#[test]
fn binaries_are_in_base64(rt: HostRuntime) {
    let cases: &[(&[u8], &[u8])] = &[
        (
            b"\x0D\x00\x00\x00\x05a\x00\x00\x00\x00\x00\x00\x00",
            br#"{"a":{"$binary":{"base64":"","subType":"00"}}}"#,
        ),
        (
            b"\x10\x00\x00\x00\x05a\x00\x03\x00\x00\x00\x80\xFF\xFE\xFD\x00",
            br#"{"a":{"$binary":{"base64":"//79","subType":"80"}}}"#,
        ),
        (
            b"\x0E\x00\x00\x00\x05a\x00\x01\x00\x00\x00\x06\xFB\x00",
            br#"{"a":{"$binary":{"base64":"+w==","subType":"06"}}}"#,
        ),
    ];
    for (bytes, text) in cases {
        expect_text(&rt, rt.alloc(), bytes, text);
    }
}

// An object id; a pointer into a database.
#[test]
fn ids_are_in_hexadecimal(rt: HostRuntime) {
    let cases: &[(&[u8], &[u8])] = &[
        (
            b"\x14\x00\x00\x00\x07a\x00V\xE1\xFCr\xE0\xC9\x17\xE9\xC4qAa\x00",
            br#"{"a":{"$oid":"56e1fc72e0c917e9c4714161"}}"#,
        ),
        (
            b"\x1D\x00\x00\x00\x0Ca\x00\x05\x00\x00\x00db.c\x00V\xE1\xFCr\xE0\xC9\x17\xE9\xC4qAa\x00",
            br#"{"a":{"$dbPointer":{"$ref":"db.c","$id":{"$oid":"56e1fc72e0c917e9c4714161"}}}}"#,
        ),
    ];
    for (bytes, text) in cases {
        expect_text(&rt, rt.alloc(), bytes, text);
    }
}

// No element; a name twice, and an array whose elements have names that are left out.
#[test]
fn names_stand_in_documents_alone(rt: HostRuntime) {
    let cases: &[(&[u8], &[u8])] = &[
        (b"\x05\x00\x00\x00\x00", b"{}"),
        (
            b"/\x00\x00\x00\x03b\"\x00\x05\x00\x00\x00\x00\x04a\x00\x1A\x00\x00\x00\x0Ax\x00\x04y\
             \x00\x05\x00\x00\x00\x00\x03\x00\x08\x00\x00\x00\x08\x00\x01\x00\x00\x0Ab\"\x00\x00",
            br#"{"b\"":{},"a":[null,[],{"":true}],"b\"":null}"#,
        ),
    ];
    for (bytes, text) in cases {
        expect_text(&rt, rt.alloc(), bytes, text);
    }
}

// A ping; a key id.
#[test]
fn commands_have_their_text(rt: HostRuntime) {
    let cases: &[(&[u8], &[u8])] = &[
        (PING, br#"{"ping":{"$numberInt":"1"},"$db":"admin"}"#),
        (
            b"\x1D\x00\x00\x00\x05k\x00\x10\x00\x00\x00\x04\x00\x11\"3DUFw\x88\x99\xAA\xBB\xCC\xDD\xEE\xFF\x00",
            br#"{"k":{"$binary":{"base64":"ABEiM0RVRneImaq7zN3u/w==","subType":"04"}}}"#,
        ),
    ];
    for (bytes, text) in cases {
        expect_text(&rt, rt.alloc(), bytes, text);
    }
}

/// What showing a document answers to a sink with room for 200 bytes.
fn shown(alloc: Global, document: &RawDoc<'_>) -> Option<Shown> {
    let mut out = MemSink::new(alloc, 200, 200, Vec::new(alloc)).ok()?;
    Some(show_text(document, &mut out))
}

// A string; a name in an array, before the string behind it; options; a scope, at the value that holds it; a surrogate
// in a name space; a binary, which is no text.
#[test]
fn the_first_place_that_is_not_utf8_is_told(rt: HostRuntime) {
    let cases: &[(&[u8], Option<u32>)] = &[
        (
            b"\x0E\x00\x00\x00\x02s\x00\x02\x00\x00\x00\xFF\x00\x00",
            Some(7),
        ),
        (
            b"\x19\x00\x00\x00\x04a\x00\x11\x00\x00\x00\x0A\x80\x00\x020\x00\x02\x00\x00\x00\xFF\x00\x00\x00",
            Some(14),
        ),
        (
            b"\x0F\x00\x00\x00\x0An\x00\x0Br\x00a\x00\xC3\x00\x00",
            Some(10),
        ),
        (
            b"\x1E\x00\x00\x00\x0Fa\x00\x16\x00\x00\x00\x02\x00\x00\x00x\x00\x0C\x00\x00\x00\x10\xFF\
             \x00\x07\x00\x00\x00\x00\x00",
            Some(7),
        ),
        (
            b"\x1C\x00\x00\x00\x0Ca\x00\x04\x00\x00\x00\xED\xA0\x80\x00V\xE1\xFCr\xE0\xC9\x17\xE9\xC4qAa\x00",
            Some(7),
        ),
        (
            b"\x0E\x00\x00\x00\x05a\x00\x01\x00\x00\x00\x00\xFF\x00",
            None,
        ),
    ];
    for (bytes, at) in cases {
        assert!(rt; bytes.len() < 100);
        let document = check_bson(bytes).expect(&rt, "no document");
        assert!(rt; first_bad_text(&document) == *at);
        let expected = match at {
            Some(at) => Shown::Bad(*at),
            None => Shown::Written,
        };
        assert!(rt; shown(rt.alloc(), &document) == Some(expected));
    }
}

#[test]
fn a_full_sink_holds_a_front_of_the_text(rt: HostRuntime) {
    let document = check_bson(b"\x08\x00\x00\x00\x0Aa\x00\x00").expect(&rt, "no document");
    let mut out = MemSink::new(rt.alloc(), 9, 4, Vec::new(rt.alloc())).expect(&rt, "no memory");
    assert!(rt; write_text(&document, &mut out).is_err());
    assert!(rt; out.written() == br#"{"a":null"#.as_slice());
}

#[test]
fn a_full_sink_holds_a_front_of_what_is_shown(rt: HostRuntime) {
    let document = check_bson(b"\x08\x00\x00\x00\x0Aa\x00\x00").expect(&rt, "no document");
    let mut out = MemSink::new(rt.alloc(), 9, 4, Vec::new(rt.alloc())).expect(&rt, "no memory");
    assert!(rt; show_text(&document, &mut out) == Shown::Failed);
    assert!(rt; out.written() == br#"{"a":null"#.as_slice());
}
