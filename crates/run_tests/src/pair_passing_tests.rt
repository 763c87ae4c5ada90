//! Whole runs of `encrypt-with` over commands of which nothing is protected, or that are refused before their reply.

use crate::pair_samples::RESULT_NAME;
use crate::pair_tests::answers;
use crate::runs::document;
use crate::verdict_tests::unmarked;
use fle_stream::Status;
use sample_documents::reply_parts::{FIRST, FIRST_OFF, OK, SECOND, SECOND_OFF};
use sample_documents::{
    INSERT, INTO_UNKNOWN, INTO_VIEW, NOTES, NOTES_REPLY, NUMBER, PING, REPLY, SEALED_INSERT,
};
use std::alloc::Global;
use std::process::Abort;

/// A command and a reply of these elements must end with this line, and write nothing.
fn told(rt: &impl Abort, alloc: Global, command: &[u8], elements: &[&[u8]], line: &str) {
    let reply = document(rt, alloc, elements);
    answers(rt, alloc, &[command, &reply], Status::Refused, b"", line);
}

/// A command as its own result, behind a second flag of this byte, must let the command be written as it is.
fn passes(rt: &impl Abort, alloc: Global, command: &[u8], ruled: &[u8]) {
    let reply = unmarked(rt, alloc, ruled, command);
    answers(rt, alloc, &[command, &reply], Status::Done, command, "");
}

#[test]
fn a_command_without_protected_values_is_its_own_result(rt: HostRuntime) {
    let alloc = rt.alloc();
    // The second flag says whether the collection has rules.
    let cases: &[(&[u8], &[u8])] = &[
        (PING, b"\x00"),
        (INTO_UNKNOWN, b"\x00"),
        (NOTES, b"\x00"),
        (NUMBER, b"\x01"),
    ];
    for (command, ruled) in cases {
        passes(&rt, alloc, command, ruled);
    }
}

#[test]
fn a_reply_to_a_command_that_passes_is_checked(rt: HostRuntime) {
    let replies: &[(&[&[u8]], &str)] = &[
        (&[FIRST, SECOND_OFF, RESULT_NAME, PING], "fle: 1 2 26 0\n"),
        (&[FIRST_OFF, SECOND, RESULT_NAME, PING], "fle: 1 2 26 1\n"),
        (
            &[FIRST_OFF, SECOND_OFF, RESULT_NAME, NOTES],
            "fle: 1 2 26 2\n",
        ),
        (
            &[OK, RESULT_NAME, NOTES, SECOND, FIRST_OFF],
            "fle: 1 2 26 2\n",
        ),
        (&[FIRST_OFF, SECOND_OFF, OK], "fle: 1 2 25 -\n"),
        (
            &[FIRST_OFF, SECOND_OFF, b"\x04result\x00\x05\x00\x00\x00\x00"],
            "fle: 1 2 25 2\n",
        ),
        (
            &[FIRST_OFF, FIRST_OFF, SECOND_OFF, RESULT_NAME, PING],
            "fle: 1 2 25 1\n",
        ),
    ];
    for (elements, line) in replies {
        told(&rt, rt.alloc(), PING, elements, line);
    }
}

#[test]
fn the_second_flag_says_whether_rules_concern_the_collection(rt: HostRuntime) {
    let alloc = rt.alloc();
    let unknown: &[&[u8]] = &[FIRST_OFF, SECOND, RESULT_NAME, INTO_UNKNOWN];
    told(&rt, alloc, INTO_UNKNOWN, unknown, "fle: 1 2 26 1\n");
    let ruled: &[&[u8]] = &[FIRST_OFF, SECOND_OFF, RESULT_NAME, NUMBER];
    told(&rt, alloc, NUMBER, ruled, "fle: 1 2 26 1\n");
    let marked: &[&[u8]] = &[FIRST, SECOND, RESULT_NAME, NUMBER];
    told(&rt, alloc, NUMBER, marked, "fle: 1 2 26 0\n");
}

#[test]
fn a_command_into_a_view_is_refused_whatever_its_reply_is(rt: HostRuntime) {
    let alloc = rt.alloc();
    let right = unmarked(&rt, alloc, b"\x00", INTO_VIEW);
    answers(
        &rt,
        alloc,
        &[INTO_VIEW, &right],
        Status::Refused,
        b"",
        "fle: 1 1 4 0\n",
    );
    let replies: &[&[u8]] = &[b"", b"\x05", b"\x01l\xdc\x02", REPLY, NOTES_REPLY];
    for reply in replies {
        let first: &[&[u8]] = &[INTO_VIEW, *reply];
        answers(&rt, alloc, first, Status::Refused, b"", "fle: 1 1 4 0\n");
        let second: &[&[u8]] = &[INSERT, REPLY, INTO_VIEW, *reply];
        answers(
            &rt,
            alloc,
            second,
            Status::Refused,
            SEALED_INSERT,
            "fle: 1 3 4 0\n",
        );
    }
}
