//! Whole runs of `mark` and of words without a form: the worked commands of an insert, each way to cut a stream.

use crate::runs::{Run, expect, joined, marking, sink_of, stops};
use fle_runner::{VERSION, tell};
use fle_stream::Status;
use sample_documents::{INSERT, NOTES, NOTES_REPLY, REPLY};

/// `{aggregate: int 1}`.
const UNKNOWN: &[u8] = b"\x14\x00\x00\x00\x10aggregate\x00\x01\x00\x00\x00\x00";

#[test]
fn each_input_has_its_end(rt: HostRuntime) {
    let cases: &[(&[u8], Status, &[u8], &str)] = &[
        (b"", Status::Done, b"", ""),
        (INSERT, Status::Done, REPLY, ""),
        (NOTES, Status::Done, NOTES_REPLY, ""),
        (UNKNOWN, Status::Refused, b"", "fle: 1 1 1 0\n"),
        (
            b"\x58\x00\x00\x00\x02in",
            Status::Malformed,
            b"",
            "fle: 3 1 1 7\n",
        ),
        (
            b"\xff\xff\xff\xff",
            Status::Malformed,
            b"",
            "fle: 3 1 2 0\n",
        ),
        (
            // {b: bool 2}
            b"\x09\x00\x00\x00\x08b\x00\x02\x00",
            Status::Malformed,
            b"",
            "fle: 3 1 5 7\n",
        ),
        (b"\x01\x00\x00\x01", Status::Limit, b"", "fle: 9 1 1 -\n"),
    ];
    for (input, status, out, line) in cases {
        expect(&rt, rt.alloc(), marking(input), *status, out, line);
    }
}

#[test]
fn a_stream_may_come_in_any_pieces(rt: HostRuntime) {
    let alloc = rt.alloc();
    let three = joined(&rt, alloc, &[INSERT, NOTES, UNKNOWN]);
    let replies = joined(&rt, alloc, &[REPLY, NOTES_REPLY]);
    for step in 1..=three.len() {
        let run = Run {
            step,
            ..marking(&three)
        };
        expect(&rt, alloc, run, Status::Refused, &replies, "fle: 1 3 1 0\n");
    }
}

#[test]
fn words_of_no_known_form_are_told_before_any_input(rt: HostRuntime) {
    let forms: &[&[&str]] = &[
        &[],
        &["seal", "hr", "infos"],
        &["mark", "hr"],
        &["mark", "", "infos"],
        &["mark", "hr", ""],
        &["encrypt", "hr"],
        &["encrypt", "hr", "keys", "infos"],
        &["encrypt", "", "keys", "infos", "master"],
        &["decrypt", "keys", ""],
        &["decrypt", "keys", "master", "more"],
        &["keys"],
        &["keygen", "master", "a", "a"],
        &["keygen", "master", ""],
    ];
    for words in forms {
        let run = Run {
            words,
            ..marking(INSERT)
        };
        stops(&rt, rt.alloc(), run, Status::Words, "fle: 2 0 0 -\n");
    }
}

#[test]
fn the_version_is_told_or_its_failure(rt: HostRuntime) {
    let alloc = rt.alloc();
    let mut out = sink_of(&rt, alloc, 100, &[]);
    let mut full = sink_of(&rt, alloc, 100, &[0]);
    let mut diag = sink_of(&rt, alloc, 100, &[]);
    assert!(rt; tell(&mut out, &mut diag, VERSION) == Status::Done);
    assert!(rt; out.written() == b"fle 0.2.0\n".as_slice());
    assert!(rt; tell(&mut full, &mut diag, VERSION) == Status::WriteFault);
    assert!(rt; diag.written() == b"fle: 6 0 0 -\n".as_slice());
}
