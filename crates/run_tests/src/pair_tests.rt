//! Whole runs of `encrypt-with`: right replies let commands be sealed, wrong ones are told by their reason and element.

use crate::runs::{Run, expect, joined, marking, output, sealing, stops, writes};
use crate::seal_tests::{RANDOM, SEALED_RANDOM};
use fle_stream::Status;
use sample_documents::{INSERT, NOTES, NOTES_REPLY, NULL, PING, REPLY, SEALED_INSERT};
use std::alloc::Global;
use std::process::Abort;

/// The words of `encrypt-with`.
pub(crate) const ENCRYPT_WITH: [&str; 5] = ["encrypt-with", "hr", "keys", "infos", "master"];

/// The block of sixteen bytes 01.
pub(crate) const BLOCKS: [[u8; 16]; 1] = [[1; 16]];

/// The reply to `INSERT` with the second flag not set.
const SECOND_OFF: &[u8] =
    b"\xd6\x00\x00\x00\x08hasEncryptionPlaceholders\x00\x01\x08schemaRequiresEncryption\x00\x00\x03result\x00\x86\x00\
    \x00\x00\x02insert\x00\x07\x00\x00\x00people\x00\x04documents\x00W\x00\x00\x00\x030\x00O\x00\x00\x00\x05ssn\x009\
    \x00\x00\x00\x06\x008\x00\x00\x00\x02v\x00\x0c\x00\x00\x00123-45-6789\x00\x10a\x00\x01\x00\x00\x00\x05ki\x00\x10\
    \x00\x00\x00\x04\x00\x11\x223DUFw\x88\x99\xaa\xbb\xcc\xdd\xee\xff\x00\x10n\x00\x01\x00\x00\x00\x00\x00\x02$db\x00\
    \x03\x00\x00\x00hr\x00\x00\x01ok\x00\x00\x00\x00\x00\x00\x00\xf0?\x00";

/// With the other algorithm in the marking.
const OTHER_ALGORITHM: &[u8] =
    b"\xd6\x00\x00\x00\x08hasEncryptionPlaceholders\x00\x01\x08schemaRequiresEncryption\x00\x01\x03result\x00\x86\x00\
    \x00\x00\x02insert\x00\x07\x00\x00\x00people\x00\x04documents\x00W\x00\x00\x00\x030\x00O\x00\x00\x00\x05ssn\x009\
    \x00\x00\x00\x06\x008\x00\x00\x00\x02v\x00\x0c\x00\x00\x00123-45-6789\x00\x10a\x00\x02\x00\x00\x00\x05ki\x00\x10\
    \x00\x00\x00\x04\x00\x11\x223DUFw\x88\x99\xaa\xbb\xcc\xdd\xee\xff\x00\x10n\x00\x01\x00\x00\x00\x00\x00\x02$db\x00\
    \x03\x00\x00\x00hr\x00\x00\x01ok\x00\x00\x00\x00\x00\x00\x00\xf0?\x00";

/// With the command as it is for its result.
const PLAIN_RESULT: &[u8] =
    b"\xa8\x00\x00\x00\x08hasEncryptionPlaceholders\x00\x01\x08schemaRequiresEncryption\x00\x01\x03result\x00X\x00\x00\
    \x00\x02insert\x00\x07\x00\x00\x00people\x00\x04documents\x00)\x00\x00\x00\x030\x00!\x00\x00\x00\x02ssn\x00\x0c\
    \x00\x00\x00123-45-6789\x00\x10n\x00\x01\x00\x00\x00\x00\x00\x02$db\x00\x03\x00\x00\x00hr\x00\x00\x01ok\x00\x00\
    \x00\x00\x00\x00\x00\xf0?\x00";

/// With the fields of the marking in another order.
const OTHER_ORDER: &[u8] =
    b"\xd6\x00\x00\x00\x08hasEncryptionPlaceholders\x00\x01\x08schemaRequiresEncryption\x00\x01\x03result\x00\x86\x00\
    \x00\x00\x02insert\x00\x07\x00\x00\x00people\x00\x04documents\x00W\x00\x00\x00\x030\x00O\x00\x00\x00\x05ssn\x009\
    \x00\x00\x00\x06\x008\x00\x00\x00\x05ki\x00\x10\x00\x00\x00\x04\x00\x11\x223DUFw\x88\x99\xaa\xbb\xcc\xdd\xee\xff\
    \x10a\x00\x01\x00\x00\x00\x02v\x00\x0c\x00\x00\x00123-45-6789\x00\x00\x10n\x00\x01\x00\x00\x00\x00\x00\x02$db\x00\
    \x03\x00\x00\x00hr\x00\x00\x01ok\x00\x00\x00\x00\x00\x00\x00\xf0?\x00";

/// The empty document.
const EMPTY: &[u8] = b"\x05\x00\x00\x00\x00";

/// A stated length one above the limit of replies.
const HUGE: &[u8] = b"\x01l\xdc\x02";

/// A run of `encrypt-with` over this input, in which nothing fails and no block is drawn.
pub(crate) fn answering(input: &[u8]) -> Run<'_> {
    Run {
        words: &ENCRYPT_WITH,
        ..sealing(input)
    }
}

/// The run over these documents must write this, and end with this line, which is empty where it ends well.
pub(crate) fn answers(
    rt: &impl Abort,
    alloc: Global,
    pieces: &[&[u8]],
    status: Status,
    out: &[u8],
    line: &str,
) {
    let input = joined(rt, alloc, pieces);
    expect(rt, alloc, answering(&input), status, out, line);
}

#[test]
fn commands_with_right_replies_are_sealed(rt: HostRuntime) {
    let alloc = rt.alloc();
    let cases: &[(&[u8], &[u8], &[u8])] = &[
        (b"", b"", b""),
        (INSERT, REPLY, SEALED_INSERT),
        (INSERT, OTHER_ORDER, SEALED_INSERT),
        (NOTES, NOTES_REPLY, NOTES),
    ];
    for (command, reply, sealed) in cases {
        answers(&rt, alloc, &[*command, *reply], Status::Done, sealed, "");
    }
}

#[test]
fn replies_of_mark_are_right(rt: HostRuntime) {
    let alloc = rt.alloc();
    let reply = output(&rt, alloc, marking(RANDOM));
    let passed = output(&rt, alloc, marking(PING));
    let input = joined(&rt, alloc, &[RANDOM, &reply, PING, &passed]);
    let run = Run {
        blocks: &BLOCKS,
        ..answering(&input)
    };
    writes(&rt, alloc, run, &joined(&rt, alloc, &[SEALED_RANDOM, PING]));
}

#[test]
fn wrong_replies_are_told_by_their_element(rt: HostRuntime) {
    let alloc = rt.alloc();
    let cases: &[(&[u8], &str)] = &[
        (b"", "fle: 1 1 27 -\n"),
        (EMPTY, "fle: 1 2 25 -\n"),
        (INSERT, "fle: 1 2 25 -\n"),
        (SECOND_OFF, "fle: 1 2 26 1\n"),
        (OTHER_ALGORITHM, "fle: 1 2 26 2\n"),
        (PLAIN_RESULT, "fle: 1 2 26 2\n"),
        (NOTES_REPLY, "fle: 1 2 26 0\n"),
    ];
    for (reply, line) in cases {
        answers(&rt, alloc, &[INSERT, *reply], Status::Refused, b"", line);
    }
}

#[test]
fn a_refused_command_is_told_before_its_reply_is_read(rt: HostRuntime) {
    let alloc = rt.alloc();
    answers(
        &rt,
        alloc,
        &[NULL, b"\x05"],
        Status::Refused,
        b"",
        "fle: 1 1 5 1.0.0\n",
    );
    answers(
        &rt,
        alloc,
        &[INSERT, REPLY, NULL],
        Status::Refused,
        SEALED_INSERT,
        "fle: 1 3 5 1.0.0\n",
    );
}

#[test]
fn replies_have_a_limit_of_their_own(rt: HostRuntime) {
    let alloc = rt.alloc();
    answers(
        &rt,
        alloc,
        &[INSERT, HUGE],
        Status::Limit,
        b"",
        "fle: 9 2 1 -\n",
    );
    answers(
        &rt,
        alloc,
        &[INSERT, b"\x00l\xdc\x02"],
        Status::Malformed,
        b"",
        "fle: 3 2 1 4\n",
    );
    answers(
        &rt,
        alloc,
        &[b"\x01\x00\x00\x01"],
        Status::Limit,
        b"",
        "fle: 9 1 1 -\n",
    );
}

#[test]
fn a_failed_read_names_its_document_and_a_failed_write_the_command(rt: HostRuntime) {
    let alloc = rt.alloc();
    let input = joined(&rt, alloc, &[INSERT, REPLY, NOTES, NOTES_REPLY]);
    let lines: &[(u64, &[u8], &str)] = &[
        (0, b"", "fle: 5 1 0 -\n"),
        (1, b"", "fle: 5 1 0 -\n"),
        (2, b"", "fle: 5 2 0 -\n"),
        (3, b"", "fle: 5 2 0 -\n"),
        (4, SEALED_INSERT, "fle: 5 3 0 -\n"),
        (5, SEALED_INSERT, "fle: 5 3 0 -\n"),
        (6, SEALED_INSERT, "fle: 5 4 0 -\n"),
        (7, SEALED_INSERT, "fle: 5 4 0 -\n"),
    ];
    for (call, out, line) in lines {
        let run = Run {
            source: &[*call],
            ..answering(&input)
        };
        expect(&rt, alloc, run, Status::ReadFault, out, line);
    }
    let run = Run {
        sink: &[2],
        ..answering(&input)
    };
    expect(
        &rt,
        alloc,
        run,
        Status::WriteFault,
        SEALED_INSERT,
        "fle: 6 3 0 -\n",
    );
}

#[test]
fn without_a_block_the_command_is_named(rt: HostRuntime) {
    let alloc = rt.alloc();
    let mut input = joined(&rt, alloc, &[INSERT, REPLY, RANDOM]);
    let reply = output(&rt, alloc, marking(RANDOM));
    input.extend_from_slice(&reply).expect(&rt, "memory");
    expect(
        &rt,
        alloc,
        answering(&input),
        Status::EntropyFault,
        SEALED_INSERT,
        "fle: 7 3 0 -\n",
    );
}

#[test]
fn a_command_without_a_reply_is_named(rt: HostRuntime) {
    let alloc = rt.alloc();
    stops(
        &rt,
        alloc,
        answering(INSERT),
        Status::Refused,
        "fle: 1 1 27 -\n",
    );
}
