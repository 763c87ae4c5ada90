//! Whole runs of `encrypt-with` at the limits of size: of a command, of a reply, of a sealed command.

use crate::limit_tests::largest;
use crate::pair_samples::{RANDOM_A, binary_of, reply_of};
use crate::pair_tests::{answering, answers};
use crate::runs::{Run, document, expect, joined, writes};
use crate::size_tests::insert_of;
use crate::verdict_tests::unmarked;
use fle_stream::Status;
use sample_documents::reply_parts::{FIRST, KI, OK, RESULT, SECOND};
use sample_documents::{INSERT, NOTES, NOTES_REPLY, REPLY, SEALED_INSERT};
use std::alloc::Global;
use std::process::Abort;

#[test]
fn commands_and_replies_have_each_their_limit(rt: HostRuntime) {
    let alloc = rt.alloc();
    // 16,777,216 bytes and one more, 48,000,000 and one more, the greatest length.
    let cases: &[(&[&[u8]], Status, &[u8], &str)] = &[
        (
            &[b"\x00\x00\x00\x01"],
            Status::Malformed,
            b"",
            "fle: 3 1 1 4\n",
        ),
        (&[b"\x01\x00\x00\x01"], Status::Limit, b"", "fle: 9 1 1 -\n"),
        (
            &[INSERT, b"\x01\x00\x00\x01"],
            Status::Malformed,
            b"",
            "fle: 3 2 1 4\n",
        ),
        (
            &[INSERT, b"\x00l\xdc\x02"],
            Status::Malformed,
            b"",
            "fle: 3 2 1 4\n",
        ),
        (
            &[INSERT, b"\x01l\xdc\x02"],
            Status::Limit,
            b"",
            "fle: 9 2 1 -\n",
        ),
        (
            &[INSERT, b"\xff\xff\xff\x7f"],
            Status::Limit,
            b"",
            "fle: 9 2 1 -\n",
        ),
    ];
    for (pieces, status, out, line) in cases {
        answers(&rt, alloc, pieces, *status, out, line);
    }
}

#[test]
fn the_limits_of_a_second_pair_are_those_of_the_first(rt: HostRuntime) {
    let alloc = rt.alloc();
    let cases: &[(&[&[u8]], Status, &str)] = &[
        (
            &[INSERT, REPLY, b"\x00\x00\x00\x01"],
            Status::Malformed,
            "fle: 3 3 1 4\n",
        ),
        (
            &[INSERT, REPLY, b"\x01\x00\x00\x01"],
            Status::Limit,
            "fle: 9 3 1 -\n",
        ),
        (
            &[INSERT, REPLY, NOTES, b"\x00l\xdc\x02"],
            Status::Malformed,
            "fle: 3 4 1 4\n",
        ),
        (
            &[INSERT, REPLY, NOTES, b"\x01l\xdc\x02"],
            Status::Limit,
            "fle: 9 4 1 -\n",
        ),
    ];
    for (pieces, status, line) in cases {
        answers(&rt, alloc, pieces, *status, SEALED_INSERT, line);
    }
}

/// A right reply to `INSERT`, 222 bytes and this many in a binary that isn't read.
fn padded_reply(rt: &impl Abort, alloc: Global, padding: u32) -> Vec<u8> {
    let mut padded = joined(rt, alloc, &[b"\x05p\x00", &padding.to_le_bytes(), b"\x00"]);
    padded
        .resize(8 + padding as usize, 0x5a)
        .expect(rt, "memory");
    document(rt, alloc, &[FIRST, SECOND, RESULT, OK, &padded])
}

/// A run over these bytes that reads them in large pieces.
fn reading(input: &[u8]) -> Run<'_> {
    Run {
        step: 1_000_000,
        ..answering(input)
    }
}

#[test]
fn a_reply_has_at_most_48_million_bytes(rt: HostRuntime) {
    let alloc = rt.alloc();
    let reply = padded_reply(&rt, alloc, 47_999_778);
    assert!(rt; reply.len() == 48_000_000, "length");
    let input = joined(&rt, alloc, &[INSERT, &reply]);
    writes(&rt, alloc, reading(&input), SEALED_INSERT);
}

#[test]
fn a_reply_of_one_byte_more_is_told(rt: HostRuntime) {
    let alloc = rt.alloc();
    let reply = padded_reply(&rt, alloc, 47_999_779);
    assert!(rt; reply.len() == 48_000_001, "length");
    let input = joined(&rt, alloc, &[NOTES, NOTES_REPLY, INSERT, &reply]);
    expect(
        &rt,
        alloc,
        reading(&input),
        Status::Limit,
        NOTES,
        "fle: 9 4 1 -\n",
    );
}

#[test]
fn the_largest_command_has_a_reply(rt: HostRuntime) {
    let alloc = rt.alloc();
    let command = largest(&rt, alloc);
    let reply = unmarked(&rt, alloc, b"\x00", &command);
    let input = joined(&rt, alloc, &[&command, &reply]);
    let run = Run {
        room: 16_777_216,
        ..reading(&input)
    };
    writes(&rt, alloc, run, &command);
}

#[test]
fn a_sealed_command_that_is_too_long_is_told_with_the_commands_number(rt: HostRuntime) {
    let alloc = rt.alloc();
    let values = joined(&rt, alloc, &[b"\x08salary\x00\x01".as_slice(); 1_000]);
    let values = joined(&rt, alloc, &[values.as_slice(); 600]);
    let command = insert_of(&rt, alloc, &values);
    let value = b"\x08v\x00\x01".as_slice();
    let marked = binary_of(
        &rt,
        alloc,
        b"\x05salary\x00",
        b"\x06\x00",
        &[value, RANDOM_A, KI],
        b"",
    );
    let thousand = joined(&rt, alloc, &[marked.as_slice(); 1_000]);
    let reply = reply_of(&rt, alloc, &[thousand.as_slice(); 600]);
    assert!(rt;
        command.len() == 5_400_060 && reply.len() == 33_000_140,
        "lengths"
    );
    let input = joined(&rt, alloc, &[NOTES, NOTES_REPLY, &command, &reply]);
    expect(
        &rt,
        alloc,
        reading(&input),
        Status::Limit,
        NOTES,
        "fle: 9 3 2 -\n",
    );
}
