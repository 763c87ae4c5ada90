//! Whole replies: those that were worked out elsewhere, and those that stand inside another document.

use crate::checking::reply_samples::{
    FIRST_NAME, OFF, PLAIN, document, document_with, found, found_under,
};
use crate::documents::{document_of, rows_of};
use bson_codec::RawDoc;
use reply_check::WrongReply;
use sample_documents::reply_parts::{FIRST, OK, RESULT, SECOND, SECOND_OFF};
use sample_documents::{
    INSERT, NESTED, NESTED_REPLY, NOTES, NOTES_REPLY, PEOPLE_SCHEMA, REPLY, STAFF,
};
use std::alloc::Global;

/// The right result with the fields of its marking the other way round.
const TURNED: &[u8] =
    b"\x03result\x00\x86\x00\x00\x00\x02insert\x00\x07\x00\x00\x00people\x00\x04documents\x00W\
    \x00\x00\x00\x030\x00O\x00\x00\x00\x05ssn\x009\x00\x00\x00\x06\x008\x00\x00\x00\x05ki\x00\
    \x10\x00\x00\x00\x04\x00\x11\"3DUFw\x88\x99\xaa\xbb\xcc\xdd\xee\xff\x10a\x00\x01\x00\x00\
    \x00\x02v\x00\x0c\x00\x00\x00123-45-6789\x00\x00\x10n\x00\x01\x00\x00\x00\x00\x00\x02$db\
    \x00\x03\x00\x00\x00hr\x00\x00";

/// The right result with another algorithm in its marking.
const OTHER_ALGORITHM: &[u8] =
    b"\x03result\x00\x86\x00\x00\x00\x02insert\x00\x07\x00\x00\x00people\x00\x04documents\x00W\
    \x00\x00\x00\x030\x00O\x00\x00\x00\x05ssn\x009\x00\x00\x00\x06\x008\x00\x00\x00\x02v\x00\
    \x0c\x00\x00\x00123-45-6789\x00\x10a\x00\x02\x00\x00\x00\x05ki\x00\x10\x00\x00\x00\x04\x00\
    \x11\"3DUFw\x88\x99\xaa\xbb\xcc\xdd\xee\xff\x00\x10n\x00\x01\x00\x00\x00\x00\x00\x02$db\
    \x00\x03\x00\x00\x00hr\x00\x00";

/// `{insert: "people", documents: [{n: int 1}], $db: "hr"}`.
const UNPROTECTED: &[u8] =
    b"C\x00\x00\x00\x02insert\x00\x07\x00\x00\x00people\x00\x04documents\x00\x14\x00\x00\x00\x03\
    0\x00\x0c\x00\x00\x00\x10n\x00\x01\x00\x00\x00\x00\x00\x02$db\x00\x03\x00\x00\x00hr\x00\
    \x00";

/// That insert as a result.
const UNPROTECTED_RESULT: &[u8] =
    b"\x03result\x00C\x00\x00\x00\x02insert\x00\x07\x00\x00\x00people\x00\x04documents\x00\x14\
    \x00\x00\x00\x030\x00\x0c\x00\x00\x00\x10n\x00\x01\x00\x00\x00\x00\x00\x02$db\x00\x03\x00\
    \x00\x00hr\x00\x00";

/// The result of `NESTED`, with the fields of its marking in another order.
const NESTED_TURNED: &[u8] =
    b"\x03result\x00x\x00\x00\x00\x02insert\x00\x06\x00\x00\x00staff\x00\x04documents\x00J\x00\
    \x00\x00\x030\x00B\x00\x00\x00\x03a\x00:\x00\x00\x00\x05b\x00-\x00\x00\x00\x06\x00,\x00\
    \x00\x00\x05ki\x00\x10\x00\x00\x00\x04\x00\x11\"3DUFw\x88\x99\xaa\xbb\xcc\xdd\xee\xff\x10v\
    \x00\x01\x00\x00\x00\x10a\x00\x01\x00\x00\x00\x00\x00\x00\x00\x02$db\x00\x03\x00\x00\x00hr\
    \x00\x00";

/// The same bytes with an array around the marking.
const NESTED_LIST: &[u8] =
    b"\x03result\x00x\x00\x00\x00\x02insert\x00\x06\x00\x00\x00staff\x00\x04documents\x00J\x00\
    \x00\x00\x030\x00B\x00\x00\x00\x04a\x00:\x00\x00\x00\x05b\x00-\x00\x00\x00\x06\x00,\x00\
    \x00\x00\x05ki\x00\x10\x00\x00\x00\x04\x00\x11\"3DUFw\x88\x99\xaa\xbb\xcc\xdd\xee\xff\x10v\
    \x00\x01\x00\x00\x00\x10a\x00\x01\x00\x00\x00\x00\x00\x00\x00\x02$db\x00\x03\x00\x00\x00hr\
    \x00\x00";

/// `NESTED` itself.
const NESTED_PLAIN: &[u8] =
    b"\x03result\x00J\x00\x00\x00\x02insert\x00\x06\x00\x00\x00staff\x00\x04documents\x00\x1c\
    \x00\x00\x00\x030\x00\x14\x00\x00\x00\x03a\x00\x0c\x00\x00\x00\x10b\x00\x01\x00\x00\x00\
    \x00\x00\x00\x02$db\x00\x03\x00\x00\x00hr\x00\x00";

/// A schema without rules.
const NO_RULES: &[u8] = b"\x05\x00\x00\x00\x00";

/// What is found of a reply of these elements to a command under a schema; `None` where that couldn't be tried.
fn found_of(
    alloc: Global,
    schema: &[u8],
    command: &[u8],
    elements: &[&[u8]],
) -> Option<Result<(), WrongReply>> {
    let reply = document_with(alloc, elements)?;
    found_under(alloc, schema, command, &reply)
}

/// Whether a reply of these elements to a command under a schema differs at the element whose value begins there; for 0
/// whether it is right.
fn differs_at(
    alloc: Global,
    schema: &[u8],
    command: &[u8],
    elements: &[&[u8]],
    place: u32,
) -> bool {
    match found_of(alloc, schema, command, elements) {
        Some(Ok(())) => place == 0,
        Some(Err(WrongReply::Differs { at })) => at == place,
        _ => false,
    }
}

/// `{c: ..}` around a document, which then begins at 7.
fn around(alloc: Global, inner: &[u8]) -> Option<Vec<u8>> {
    document(alloc, b"\x03c\x00", inner, b"")
}

/// The document in the first field of one.
fn inside<'a>(outer: &RawDoc<'a>) -> Option<RawDoc<'a>> {
    let field = outer.items().next()?;
    field.child()
}

/// What is found of a reply to a command where both stand inside another document; `None` where that couldn't be tried.
fn found_inside(alloc: Global, command: &[u8], reply: &[u8]) -> Option<Result<(), WrongReply>> {
    let rows = rows_of(alloc, PEOPLE_SCHEMA)?;
    let command = inside(&document_of(command)?)?;
    let reply = inside(&document_of(reply)?)?;
    found(alloc, &rows, command, &reply)
}

/// What is found of a reply of these elements to `INSERT` where both begin at 7; `None` where that couldn't be tried.
fn found_at_7(alloc: Global, elements: &[&[u8]]) -> Option<Result<(), WrongReply>> {
    let reply = document_with(alloc, elements)?;
    let reply = around(alloc, &reply)?;
    let command = around(alloc, INSERT)?;
    found_inside(alloc, &command, &reply)
}

/// Whether that is this.
fn is_wrong_at_7(alloc: Global, elements: &[&[u8]], wanted: WrongReply) -> bool {
    matches!(found_at_7(alloc, elements), Some(Err(wrong)) if wrong == wanted)
}

#[test]
fn the_replies_of_marking_are_right(rt: HostRuntime) {
    let cases: &[(&[u8], &[u8], &[u8])] = &[
        (PEOPLE_SCHEMA, INSERT, REPLY),
        (STAFF, NESTED, NESTED_REPLY),
        (NO_RULES, NOTES, NOTES_REPLY),
    ];
    for (schema, command, reply) in cases {
        let found = found_under(rt.alloc(), schema, command, reply);
        assert!(rt; matches!(found, Some(Ok(()))));
    }
}

#[test]
fn the_replies_to_an_insert_are_told_apart(rt: HostRuntime) {
    let replies: &[(&[&[u8]], u32)] = &[
        (&[FIRST, SECOND, RESULT, OK], 0),
        (&[FIRST, SECOND, TURNED, OK], 0),
        (&[FIRST, SECOND_OFF, RESULT, OK], 58),
        (&[FIRST, SECOND, OTHER_ALGORITHM, OK], 67),
        (&[FIRST, SECOND, PLAIN, OK], 67),
    ];
    for (elements, place) in replies {
        assert!(rt; differs_at(rt.alloc(), PEOPLE_SCHEMA, INSERT, elements, *place));
    }
}

#[test]
fn the_flags_say_whether_a_value_is_marked_and_rules_concern_the_command(rt: HostRuntime) {
    let cases: &[(&[u8], &[u8], &[&[u8]], u32)] = &[
        (
            PEOPLE_SCHEMA,
            UNPROTECTED,
            &[FIRST_NAME, OFF, SECOND, UNPROTECTED_RESULT],
            0,
        ),
        (
            PEOPLE_SCHEMA,
            UNPROTECTED,
            &[FIRST, SECOND, UNPROTECTED_RESULT],
            31,
        ),
        (
            PEOPLE_SCHEMA,
            UNPROTECTED,
            &[FIRST_NAME, OFF, SECOND_OFF, UNPROTECTED_RESULT],
            58,
        ),
        (NO_RULES, INSERT, &[FIRST_NAME, OFF, SECOND_OFF, PLAIN], 0),
        (NO_RULES, INSERT, &[FIRST_NAME, OFF, SECOND, PLAIN], 58),
        (NO_RULES, INSERT, &[FIRST, SECOND_OFF, PLAIN], 31),
        (NO_RULES, INSERT, &[FIRST_NAME, OFF, SECOND_OFF, RESULT], 67),
    ];
    for (schema, command, elements, place) in cases {
        assert!(rt; differs_at(rt.alloc(), schema, command, elements, *place));
    }
}

#[test]
fn a_marking_stands_inside_a_document(rt: HostRuntime) {
    let replies: &[(&[&[u8]], u32)] = &[
        (&[FIRST, SECOND, NESTED_TURNED], 0),
        (&[FIRST, SECOND, NESTED_LIST], 67),
        (&[FIRST, SECOND, NESTED_PLAIN], 67),
    ];
    for (elements, place) in replies {
        assert!(rt; differs_at(rt.alloc(), STAFF, NESTED, elements, *place));
    }
}

#[test]
fn a_reply_inside_another_document_is_right(rt: HostRuntime) {
    let replies: &[&[&[u8]]] = &[&[FIRST, SECOND, RESULT, OK], &[TURNED, FIRST, SECOND]];
    for elements in replies {
        let found = found_at_7(rt.alloc(), elements);
        assert!(rt; matches!(found, Some(Ok(()))));
    }
}

#[test]
fn what_is_wrong_inside_another_document_is_told_from_its_beginning(rt: HostRuntime) {
    let replies: &[(&[&[u8]], WrongReply)] = &[
        (&[], WrongReply::Shape { at: 0 }),
        (&[SECOND, RESULT], WrongReply::Shape { at: 0 }),
        (&[FIRST, FIRST], WrongReply::Shape { at: 66 }),
        (
            &[FIRST_NAME, OFF, SECOND, RESULT],
            WrongReply::Differs { at: 38 },
        ),
        (&[FIRST, SECOND_OFF, RESULT], WrongReply::Differs { at: 65 }),
        (&[FIRST, SECOND, PLAIN], WrongReply::Differs { at: 74 }),
    ];
    for (elements, wrong) in replies {
        assert!(rt; is_wrong_at_7(rt.alloc(), elements, *wrong));
    }
}
