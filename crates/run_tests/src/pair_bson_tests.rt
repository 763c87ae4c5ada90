//! Whole runs of `encrypt-with` over commands and replies of as many levels as a document may have, or of one more, and
//! over those that are no BSON (bsonspec.org).

use crate::hostile_tests::nested;
use crate::pair_samples::{
    RANDOM_A, RESULT_NAME, SEALED_SSN, SSN, binary_of, reply_of, reply_with,
};
use crate::pair_tests::{BLOCKS, answering, answers};
use crate::runs::{Run, document, joined, marking, opening, output, sealing, writes};
use crate::size_tests::insert_of;
use fle_stream::Status;
use sample_documents::reply_parts::{FIRST, KI, MARKED_SSN, N, RESULT, SECOND};
use sample_documents::{INSERT, REPLY, SEALED_INSERT};
use std::alloc::Global;
use std::process::Abort;

/// An insert into `people` of this value of `ssn` beside so many documents, each in the one before.
fn deep(rt: &impl Abort, alloc: Global, ssn: &[u8], levels: usize) -> Vec<u8> {
    let beside = nested(rt, alloc, levels);
    let elements = joined(rt, alloc, &[ssn, b"\x03x\x00", &beside]);
    insert_of(rt, alloc, &elements)
}

#[test]
fn a_reply_of_100_levels_is_right(rt: HostRuntime) {
    let alloc = rt.alloc();
    // The command has 99 levels: three above those of `x`.
    let command = deep(&rt, alloc, SSN, 96);
    let reply = reply_with(&rt, alloc, &deep(&rt, alloc, MARKED_SSN, 96));
    writes(&rt, alloc, marking(&command), &reply);
    let input = joined(&rt, alloc, &[&command, &reply]);
    writes(
        &rt,
        alloc,
        answering(&input),
        &deep(&rt, alloc, SEALED_SSN, 96),
    );
}

#[test]
fn a_reply_of_101_levels_is_malformed(rt: HostRuntime) {
    let alloc = rt.alloc();
    let command = deep(&rt, alloc, SSN, 97);
    let reply = reply_with(&rt, alloc, &deep(&rt, alloc, MARKED_SSN, 97));
    // `mark` gives this reply to the command, which has 100 levels, and `encrypt` seals it.
    writes(&rt, alloc, marking(&command), &reply);
    writes(
        &rt,
        alloc,
        sealing(&command),
        &deep(&rt, alloc, SEALED_SSN, 97),
    );
    let line = "fle: 3 2 6 854\n";
    answers(
        &rt,
        alloc,
        &[&command, &reply],
        Status::Malformed,
        b"",
        line,
    );
    let deeper = deep(&rt, alloc, SSN, 98);
    let line = "fle: 3 1 6 748\n";
    answers(&rt, alloc, &[&deeper, &reply], Status::Malformed, b"", line);
}

/// The command that inserts this as `salary` into `people`, and its right reply.
fn salary_pair(rt: &impl Abort, alloc: Global, value: &[u8]) -> (Vec<u8>, Vec<u8>) {
    let plain = joined(rt, alloc, &[b"\x03salary\x00", value]);
    let inside = joined(rt, alloc, &[b"\x03v\x00", value]);
    let fields: &[&[u8]] = &[KI, &inside, RANDOM_A];
    let marked = binary_of(rt, alloc, b"\x05salary\x00", b"\x06\x00", fields, b"");
    (
        insert_of(rt, alloc, &plain),
        reply_of(rt, alloc, &[&marked]),
    )
}

#[test]
fn a_marking_has_no_levels(rt: HostRuntime) {
    let alloc = rt.alloc();
    // The command has 100 levels, 97 of them in its protected value; the reply has four.
    let value = nested(&rt, alloc, 97);
    let (command, reply) = salary_pair(&rt, alloc, &value);
    let run = Run {
        blocks: &BLOCKS,
        ..sealing(&command)
    };
    let sealed = output(&rt, alloc, run);
    assert!(rt; sealed.len() == 923, "length");
    let input = joined(&rt, alloc, &[&command, &reply]);
    let run = Run {
        blocks: &BLOCKS,
        ..answering(&input)
    };
    writes(&rt, alloc, run, &sealed);
    writes(&rt, alloc, opening(&sealed), &command);
}

#[test]
fn a_malformed_command_is_told_by_kind_and_offset(rt: HostRuntime) {
    let alloc = rt.alloc();
    let cases: &[(&[u8], &str, &str)] = &[
        (b"\x04\x00\x00\x00\x00", "fle: 3 1 2 0\n", "fle: 3 3 2 0\n"),
        (b"\x05\x00\x00\x00\x01", "fle: 3 1 4 4\n", "fle: 3 3 4 4\n"),
        (
            b"\x06\x00\x00\x00\x00\x00",
            "fle: 3 1 7 5\n",
            "fle: 3 3 7 5\n",
        ),
        (
            b"\x08\x00\x00\x00\x14a\x00\x00",
            "fle: 3 1 3 4\n",
            "fle: 3 3 3 4\n",
        ),
        (
            b"\x09\x00\x00\x00\x08a\x00\x02\x00",
            "fle: 3 1 5 7\n",
            "fle: 3 3 5 7\n",
        ),
    ];
    for (command, first, second) in cases {
        answers(
            &rt,
            alloc,
            &[*command, REPLY],
            Status::Malformed,
            b"",
            first,
        );
        let pieces: &[&[u8]] = &[INSERT, REPLY, *command, REPLY];
        answers(&rt, alloc, pieces, Status::Malformed, SEALED_INSERT, second);
    }
}

#[test]
fn a_malformed_reply_is_told_by_kind_and_offset(rt: HostRuntime) {
    let alloc = rt.alloc();
    let cases: &[(&[u8], &str)] = &[
        (b"\x04\x00\x00\x00\x00", "fle: 3 2 2 0\n"),
        (b"\xff\xff\xff\xff", "fle: 3 2 2 0\n"),
        (b"\x05\x00\x00\x00\x01", "fle: 3 2 4 4\n"),
        (b"\x06\x00\x00\x00\x00\x00", "fle: 3 2 7 5\n"),
        (b"\x08\x00\x00\x00\x14a\x00\x00", "fle: 3 2 3 4\n"),
        (b"\x08\x00\x00\x00\x0aab\x00", "fle: 3 2 4 7\n"),
        (b"\x0a\x00\x00\x00\x10a\x00\x01\x00\x00", "fle: 3 2 1 9\n"),
    ];
    for (reply, line) in cases {
        answers(&rt, alloc, &[INSERT, *reply], Status::Malformed, b"", line);
    }
}

#[test]
fn a_malformed_reply_is_told_before_its_elements_are_read(rt: HostRuntime) {
    let alloc = rt.alloc();
    let cases: &[(&[&[u8]], &str)] = &[
        (
            &[b"\x08hasEncryptionPlaceholders\x00\x02"],
            "fle: 3 2 5 31\n",
        ),
        (&[b"\x03result\x00\x04\x00\x00\x00\x00"], "fle: 3 2 2 12\n"),
        (
            &[FIRST, SECOND, RESULT_NAME, b"\x06\x00\x00\x00\x00\x00", N],
            "fle: 3 2 7 72\n",
        ),
        (&[FIRST, SECOND, RESULT, b"\x14ok\x00"], "fle: 3 2 3 201\n"),
    ];
    for (elements, line) in cases {
        let reply = document(&rt, alloc, elements);
        answers(&rt, alloc, &[INSERT, &reply], Status::Malformed, b"", line);
    }
}
