//! Replies to a command that no rule concerns: both flags are off, and the result is the command.

use crate::checking::reply_samples::{FIRST_NAME, OFF, document_with};
use crate::documents::document_of;
use reply_check::{WrongReply, check_passed};
use sample_documents::reply_parts::{FIRST, N, OK, SECOND, SECOND_OFF};
use sample_documents::{INSERT, NOTES, NOTES_REPLY, PING, REPLY};
use std::alloc::Global;

/// `PING` as a result, 38 bytes.
const RESULT: &[u8] =
    b"\x03result\x00\x1e\x00\x00\x00\x10ping\x00\x01\x00\x00\x00\x02$db\x00\x06\x00\x00\x00admin\
    \x00\x00";

/// The same with another value.
const OTHER_VALUE: &[u8] =
    b"\x03result\x00\x1e\x00\x00\x00\x10ping\x00\x02\x00\x00\x00\x02$db\x00\x06\x00\x00\x00admin\
    \x00\x00";

/// The same with another name.
const OTHER_NAME: &[u8] =
    b"\x03result\x00\x1e\x00\x00\x00\x10pinf\x00\x01\x00\x00\x00\x02$db\x00\x06\x00\x00\x00admin\
    \x00\x00";

/// The same with one field more.
const MORE: &[u8] =
    b"\x03result\x00%\x00\x00\x00\x10ping\x00\x01\x00\x00\x00\x02$db\x00\x06\x00\x00\x00admin\
    \x00\x10n\x00\x01\x00\x00\x00\x00";

/// The same bytes as an array.
const LIST: &[u8] =
    b"\x04result\x00\x1e\x00\x00\x00\x10ping\x00\x01\x00\x00\x00\x02$db\x00\x06\x00\x00\x00admin\
    \x00\x00";

/// What is found of a reply to a command that passes; `None` where that couldn't be tried.
fn found(command: &[u8], reply: &[u8]) -> Option<Result<(), WrongReply>> {
    let command = document_of(command)?;
    let reply = document_of(reply)?;
    Some(check_passed(&command, &reply))
}

/// What is found of a reply of these elements to `PING`; `None` where that couldn't be tried.
fn found_of(alloc: Global, elements: &[&[u8]]) -> Option<Result<(), WrongReply>> {
    let reply = document_with(alloc, elements)?;
    found(PING, &reply)
}

/// Whether this is wrong with a reply of these elements to `PING`.
fn is_wrong(alloc: Global, elements: &[&[u8]], wanted: WrongReply) -> bool {
    matches!(found_of(alloc, elements), Some(Err(wrong)) if wrong == wanted)
}

#[test]
fn the_command_is_the_result(rt: HostRuntime) {
    let replies: &[&[&[u8]]] = &[
        &[FIRST_NAME, OFF, SECOND_OFF, RESULT],
        &[SECOND_OFF, RESULT, OK, FIRST_NAME, OFF],
        &[RESULT, N, FIRST_NAME, OFF, N, SECOND_OFF],
    ];
    for elements in replies {
        let found = found_of(rt.alloc(), elements);
        assert!(rt; matches!(found, Some(Ok(()))));
    }
}

#[test]
fn another_reply_is_told(rt: HostRuntime) {
    let replies: &[(&[&[u8]], WrongReply)] = &[
        (&[FIRST, SECOND_OFF, RESULT], WrongReply::Differs { at: 31 }),
        (
            &[FIRST_NAME, OFF, SECOND, RESULT],
            WrongReply::Differs { at: 58 },
        ),
        (&[SECOND, FIRST, RESULT], WrongReply::Differs { at: 58 }),
        (
            &[FIRST_NAME, OFF, SECOND_OFF, OTHER_VALUE],
            WrongReply::Differs { at: 67 },
        ),
        (
            &[FIRST_NAME, OFF, SECOND_OFF, OTHER_NAME],
            WrongReply::Differs { at: 67 },
        ),
        (
            &[FIRST_NAME, OFF, SECOND_OFF, MORE],
            WrongReply::Differs { at: 67 },
        ),
        (
            &[MORE, SECOND_OFF, FIRST_NAME, OFF],
            WrongReply::Differs { at: 12 },
        ),
    ];
    for (elements, wrong) in replies {
        assert!(rt; is_wrong(rt.alloc(), elements, *wrong));
    }
}

#[test]
fn another_shape_is_told(rt: HostRuntime) {
    let replies: &[(&[&[u8]], WrongReply)] = &[
        (&[], WrongReply::Shape { at: 0 }),
        (&[SECOND_OFF, RESULT], WrongReply::Shape { at: 0 }),
        (&[FIRST, RESULT], WrongReply::Shape { at: 0 }),
        (
            &[FIRST_NAME, OFF, SECOND_OFF, OK],
            WrongReply::Shape { at: 0 },
        ),
        (&[FIRST, SECOND_OFF, LIST], WrongReply::Shape { at: 67 }),
        (
            &[FIRST_NAME, OFF, SECOND_OFF, RESULT, RESULT],
            WrongReply::Shape { at: 105 },
        ),
        (
            &[FIRST_NAME, OFF, SECOND_OFF, RESULT, SECOND_OFF],
            WrongReply::Shape { at: 123 },
        ),
    ];
    for (elements, wrong) in replies {
        assert!(rt; is_wrong(rt.alloc(), elements, *wrong));
    }
}

#[test]
fn the_reply_to_another_command_differs(rt: HostRuntime) {
    let cases: &[(&[u8], &[u8], WrongReply)] = &[
        (PING, NOTES_REPLY, WrongReply::Differs { at: 67 }),
        (INSERT, REPLY, WrongReply::Differs { at: 31 }),
    ];
    assert!(rt; matches!(found(NOTES, NOTES_REPLY), Some(Ok(()))));
    for (command, reply, wanted) in cases {
        assert!(rt; matches!(found(command, reply), Some(Err(wrong)) if wrong == *wanted));
    }
}
