//! Whole runs that show documents.

use crate::runs::{Run, document, expect, marking, stops, writes};
use fle_stream::Status;
use std::alloc::Global;
use std::process::Abort;

/// A run that shows these documents.
fn shown(input: &[u8]) -> Run<'_> {
    Run {
        words: &["show"],
        ..marking(input)
    }
}

#[test]
fn each_document_is_shown_in_a_line(rt: HostRuntime) {
    // {ping: int 1, $db: "admin"}, {k: a UUID}
    let input =
        b"\x1e\x00\x00\x00\x10ping\x00\x01\x00\x00\x00\x02$db\x00\x06\x00\x00\x00admin\x00\x00\x1d\
         \x00\x00\x00\x05k\x00\x10\x00\x00\x00\x04\x00\x11\x223DUFw\x88\x99\xaa\xbb\xcc\xdd\xee\xff\
         \x00";
    let lines =
        b"{\"ping\":{\"$numberInt\":\"1\"},\"$db\":\"admin\"}\n{\"k\":{\"$binary\":{\"base64\":\"ABE\
         iM0RVRneImaq7zN3u/w==\",\"subType\":\"04\"}}}\n";
    writes(&rt, rt.alloc(), shown(input), lines);
}

#[test]
fn the_first_text_that_is_not_utf8_is_told_at_its_place(rt: HostRuntime) {
    // {s: the string of the byte FF}
    let input = b"\x0e\x00\x00\x00\x02s\x00\x02\x00\x00\x00\xff\x00\x00";
    let run = shown(input);
    stops(&rt, rt.alloc(), run, Status::Refused, "fle: 1 1 28 0\n");
}

/// The document {s: 70,000 times `x`, t: this byte}.
fn long_document(rt: &impl Abort, alloc: Global, last: u8) -> Vec<u8> {
    let mut text = Vec::new(alloc);
    text.resize(70_000, b'x').expect(rt, "memory");
    let front = b"\x02s\x00\x71\x11\x01\x00";
    let between = b"\x00\x02t\x00\x02\x00\x00\x00";
    document(rt, alloc, &[front, &text, between, &[last, 0]])
}

/// A run that shows a long document, whose output has this room.
fn long_shown(input: &[u8], room: usize) -> Run<'_> {
    Run {
        step: 100_000,
        room,
        ..shown(input)
    }
}

#[test]
fn a_text_longer_than_a_piece_is_shown_whole_or_in_front(rt: HostRuntime) {
    let alloc = rt.alloc();
    let input = long_document(&rt, alloc, b'y');
    let mut line = Vec::from_slice(alloc, b"{\"s\":\"").expect(&rt, "memory");
    line.resize(70_006, b'x').expect(&rt, "memory");
    line.extend_from_slice(b"\",\"t\":\"y\"}\n")
        .expect(&rt, "memory");
    writes(&rt, alloc, long_shown(&input, 100_000), &line);
    for room in [5usize, 66_000, 70_012] {
        let front = line.get(..room).unwrap_or(b"");
        let run = long_shown(&input, room);
        expect(&rt, alloc, run, Status::WriteFault, front, "fle: 6 1 0 -\n");
    }
}

#[test]
fn nothing_is_shown_of_a_long_document_without_a_text(rt: HostRuntime) {
    let input = long_document(&rt, rt.alloc(), 0xff);
    let run = long_shown(&input, 100_000);
    stops(&rt, rt.alloc(), run, Status::Refused, "fle: 1 1 28 1\n");
}
