//! Collection infos from JSON. The BSON of the tables was written by a plain program of the rules, outside this
//! repository's code.

ghost use Rattle.std.specs.Prelude.{◌≤◌};

use ext_json::{JsonFault, infos_from_json};
use std::alloc::{AllocError, Global};
use std::process::Abort;

/// The text must have this fault.
fn expect_fault(rt: &impl Abort, alloc: Global, text: &[u8], fault: JsonFault) {
    assert!(rt; infos_from_json(alloc, text).err() == Some(fault));
}

/// Whether the text gives infos of these bytes.
fn gives(alloc: Global, text: &[u8], bytes: &[u8]) -> bool {
    matches!(infos_from_json(alloc, text), Ok(infos) if infos.as_slice() == bytes)
}

// Words; integers at the edges of 32 and 64 signed bits, and numbers beyond; a text; arrays and documents.
#[test]
fn values_stand_for_their_types(rt: HostRuntime) {
    let cases: &[(&[u8], &[u8])] = &[
        (
            br#"[{"a":null,"b":true,"c":false}]"#,
            b"\x10\x00\x00\x00\x0Aa\x00\x08b\x00\x01\x08c\x00\x00\x00",
        ),
        (
            br#"[{"a":2147483647,"b":-2147483648,"c":2147483648,"d":-2147483649}]"#,
            b")\x00\x00\x00\x10a\x00\xFF\xFF\xFF\x7F\x10b\x00\x00\x00\x00\x80\x12c\x00\x00\x00\x00\
             \x80\x00\x00\x00\x00\x12d\x00\xFF\xFF\xFF\x7F\xFF\xFF\xFF\xFF\x00",
        ),
        (
            br#"[{"a":9223372036854775807,"b":-9223372036854775808,"c":9223372036854775808,"d":1.0,"e":1e2}]"#,
            b"$\x00\x00\x00\x12a\x00\xFF\xFF\xFF\xFF\xFF\xFF\xFF\x7F\x12b\x00\x00\x00\x00\x00\x00\
             \x00\x00\x80\x06c\x00\x06d\x00\x06e\x00\x00",
        ),
        (
            br#"[{"a":"\u00e9\n\u0000"}]"#,
            b"\x11\x00\x00\x00\x02a\x00\x05\x00\x00\x00\xC3\xA9\x0A\x00\x00\x00",
        ),
        (
            br#" [ { "a" : [ 1, [ ] , { } ] } , { } ] "#,
            b"$\x00\x00\x00\x04a\x00\x1C\x00\x00\x00\x100\x00\x01\x00\x00\x00\x041\x00\x05\x00\x00\
             \x00\x00\x032\x00\x05\x00\x00\x00\x00\x00\x00\x05\x00\x00\x00\x00",
        ),
        (b"[]", b""),
    ];
    for (text, bytes) in cases {
        assert!(rt; gives(rt.alloc(), text, bytes));
    }
}

// No byte, one byte in capital digits, an id in three forms; objects that are no wrappers.
#[test]
fn binaries_stand_in_wrappers(rt: HostRuntime) {
    let cases: &[(&[u8], &[u8])] = &[
        (
            br#"[{"a":{"$binary":{"base64":"","subType":"00"}}}]"#,
            b"\x0D\x00\x00\x00\x05a\x00\x00\x00\x00\x00\x00\x00",
        ),
        (
            br#"[{"a":{"$binary":{"subType":"fF","base64":"+w=="}}}]"#,
            b"\x0E\x00\x00\x00\x05a\x00\x01\x00\x00\x00\xFF\xFB\x00",
        ),
        (
            b"[{\"a\":{\"$uuid\":\"00112233-4455-4677-8899-aabbccddeeff\"},\
              \"b\":{\"$uuid\":\"{00112233-4455-4677-8899-AABBCCDDEEFF}\"}}]",
            b"5\x00\x00\x00\x05a\x00\x10\x00\x00\x00\x04\x00\x11\"3DUFw\x88\x99\xAA\xBB\xCC\xDD\xEE\
             \xFF\x05b\x00\x10\x00\x00\x00\x04\x00\x11\"3DUFw\x88\x99\xAA\xBB\xCC\xDD\xEE\xFF\x00",
        ),
        (
            br#"[{"a":{"$uuid":"00112233445546778899aabbccddeeff"}}]"#,
            b"\x1D\x00\x00\x00\x05a\x00\x10\x00\x00\x00\x04\x00\x11\"3DUFw\x88\x99\xAA\xBB\xCC\xDD\xEE\xFF\x00",
        ),
        (
            br#"[{"a":{"$uuid":1,"b":2},"b":{"$binary":1,"$uuid":2},"c":{"$oid":"x"}}]"#,
            b"S\x00\x00\x00\x03a\x00\x17\x00\x00\x00\x10$uuid\x00\x01\x00\x00\x00\x10b\x00\x02\x00\
             \x00\x00\x00\x03b\x00\x1D\x00\x00\x00\x10$binary\x00\x01\x00\x00\x00\x10$uuid\x00\x02\
             \x00\x00\x00\x00\x03c\x00\x11\x00\x00\x00\x02$oid\x00\x02\x00\x00\x00x\x00\x00\x00",
        ),
    ];
    for (text, bytes) in cases {
        assert!(rt; gives(rt.alloc(), text, bytes));
    }
}

// Names stand in the order of their bytes; of two equal names the last one's value counts.
#[test]
fn names_are_sorted(rt: HostRuntime) {
    let text = b"[{\"b\":1,\"a\":2,\"\xC3\xA9\":3,\"\":4,\"B\":5,\"b\":6}]";
    let bytes =
        b"(\x00\x00\x00\x10\x00\x04\x00\x00\x00\x10B\x00\x05\x00\x00\x00\x10a\x00\x02\x00\x00\x00\
         \x10b\x00\x06\x00\x00\x00\x10\xC3\xA9\x00\x03\x00\x00\x00\x00";
    assert!(rt; gives(rt.alloc(), text, bytes));
}

// No array; a member that is no object, or is a binary; a name with the character 0, inside an array too.
#[test]
fn the_first_member_that_is_no_document_is_told(rt: HostRuntime) {
    let cases: &[(&[u8], u32)] = &[
        (br#"{"a":1}"#, 0),
        (b"7", 0),
        (b"[1]", 1),
        (b"[{},[]]", 2),
        (
            br#"[{},{},{"$uuid":"00112233-4455-4677-8899-aabbccddeeff"}]"#,
            3,
        ),
        (br#"[{"a\u0000":1}]"#, 1),
        (br#"[{},{"a":[{"\u0000":1}]}]"#, 2),
    ];
    for (text, document) in cases {
        expect_fault(
            &rt,
            rt.alloc(),
            text,
            JsonFault::Form {
                document: *document,
            },
        );
    }
}

// No texts; no padding; a spare bit; one digit, three, and no digit; another name; no UUID.
#[test]
fn a_malformed_wrapper_is_told(rt: HostRuntime) {
    let cases: &[(&[u8], u32)] = &[
        (br#"[{"a":{"$binary":"AA=="}}]"#, 1),
        (br#"[{"a":{"$binary":{"base64":"AA","subType":"00"}}}]"#, 1),
        (
            br#"[{"a":{"$binary":{"base64":"AB==","subType":"00"}}}]"#,
            1,
        ),
        (
            br#"[{},{"a":{"$binary":{"base64":"AA==","subType":"0"}}}]"#,
            2,
        ),
        (
            br#"[{"a":{"$binary":{"base64":"AA==","subType":"000"}}}]"#,
            1,
        ),
        (
            br#"[{"a":{"$binary":{"base64":"AA==","subType":"0g"}}}]"#,
            1,
        ),
        (
            br#"[{"a":{"$binary":{"base64":"AA==","subType":"00","b":1}}}]"#,
            1,
        ),
        (br#"[{"a":{"$uuid":"00112233-4455"}}]"#, 1),
        (br#"[{"a":{"$uuid":4}}]"#, 1),
    ];
    for (text, document) in cases {
        expect_fault(
            &rt,
            rt.alloc(),
            text,
            JsonFault::Form {
                document: *document,
            },
        );
    }
}

// Cut short; text behind it; a comma too many; a number beyond a double; half of a surrogate pair; no UTF-8; and a
// member that is no document before a fault of the text.
#[test]
fn what_is_no_json_is_told(rt: HostRuntime) {
    let cases: &[&[u8]] = &[
        b"",
        b"[{]",
        b"[] []",
        b"[{},]",
        b"[1e999]",
        b"[\"\\ud800\"]",
        b"[\"\xFF\"]",
        b"[1,",
    ];
    for text in cases {
        expect_fault(&rt, rt.alloc(), text, JsonFault::Syntax);
    }
}

#[test]
fn faults_have_their_numbers(rt: HostRuntime) {
    let cases: &[(JsonFault, Option<u8>)] = &[
        (JsonFault::Syntax, Some(33)),
        (JsonFault::Form { document: 0 }, Some(34)),
        (JsonFault::Memory, None),
    ];
    for (fault, code) in cases {
        assert!(rt; fault.code() == *code);
    }
}

/// A text of arrays, each but the last with the next one inside, in a member.
fn nested(alloc: Global, arrays: usize) -> Result<Vec<u8>, AllocError>
    requires { arrays ≤ 200 }
{
    let mut text = Vec::from_slice(alloc, b"[{\"a\":")?;
    for _ in 0..arrays {
        text.push(b'[')?;
    }
    for _ in 0..arrays {
        text.push(b']')?;
    }
    text.extend_from_slice(b"}]")?;
    Ok(text)
}

#[test]
fn a_hundred_levels_are_read_and_no_more(rt: HostRuntime) {
    let cases: &[(usize, Option<JsonFault>)] = &[
        (99, None),
        (100, Some(JsonFault::Form { document: 1 })),
        (126, Some(JsonFault::Syntax)),
    ];
    for (arrays, fault) in cases {
        assert!(rt; *arrays <= 200);
        let text = nested(rt.alloc(), *arrays).expect(&rt, "no memory");
        assert!(rt; infos_from_json(rt.alloc(), &text).err() == *fault);
    }
}
