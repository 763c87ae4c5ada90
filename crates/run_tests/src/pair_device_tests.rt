//! Whole runs of `encrypt-with` over two pairs whose input ends at each byte, or in which one call of an object outside
//! fails: each read of the input, each read of a file, each write, each draw.

use crate::pair_samples::{BOTH_REPLY, RANDOM_REPLY};
use crate::pair_tests::{answering, answers};
use crate::runs::{Run, expect, joined, next_block, stops, writes};
use crate::seal_tests::{RANDOM, SEALED_RANDOM};
use fle_stream::Status;
use sample_documents::{BOTH, INSERT, NOTES, NOTES_REPLY, REPLY, SEALED_BOTH, SEALED_INSERT};
use std::alloc::Global;
use std::process::Abort;

/// The blocks for `BOTH` and `RANDOM`.
const BLOCKS: [[u8; 16]; 3] = [[1; 16], [2; 16], [1; 16]];

/// Two pairs, and what is written for them: 175 bytes and 66.
fn two_pairs(rt: &impl Abort, alloc: Global) -> (Vec<u8>, Vec<u8>) {
    (
        joined(rt, alloc, &[INSERT, REPLY, NOTES, NOTES_REPLY]),
        joined(rt, alloc, &[SEALED_INSERT, NOTES]),
    )
}

/// Two pairs of which each draws blocks: two and one.
fn two_drawing(rt: &impl Abort, alloc: Global) -> Vec<u8> {
    joined(rt, alloc, &[BOTH, BOTH_REPLY, RANDOM, RANDOM_REPLY])
}

/// The input is cut at each byte inside this document, which has this number and stands behind these: it is malformed
/// at the cut, and what was written is this.
fn cut(rt: &impl Abort, alloc: Global, before: &[&[u8]], inside: &[u8], number: u32, out: &[u8]) {
    for left in 1..inside.len() {
        let mut input = joined(rt, alloc, before);
        input
            .extend_from_slice(&inside[..left])
            .expect(rt, "memory");
        let line = format!(in alloc; "fle: 3 {number} 1 {left}\n").expect(rt, "memory");
        expect(rt, alloc, answering(&input), Status::Malformed, out, &line);
    }
}

#[test]
fn a_first_pair_that_is_cut_is_malformed_there(rt: HostRuntime) {
    let alloc = rt.alloc();
    cut(&rt, alloc, &[], INSERT, 1, b"");
    cut(&rt, alloc, &[INSERT], REPLY, 2, b"");
}

#[test]
fn a_second_pair_that_is_cut_is_malformed_there(rt: HostRuntime) {
    let alloc = rt.alloc();
    cut(&rt, alloc, &[INSERT, REPLY], NOTES, 3, SEALED_INSERT);
    cut(
        &rt,
        alloc,
        &[INSERT, REPLY, NOTES],
        NOTES_REPLY,
        4,
        SEALED_INSERT,
    );
}

#[test]
fn an_input_ends_behind_a_reply(rt: HostRuntime) {
    let alloc = rt.alloc();
    let cases: &[(&[&[u8]], Status, &[u8], &str)] = &[
        (&[], Status::Done, b"", ""),
        (&[INSERT], Status::Refused, b"", "fle: 1 1 27 -\n"),
        (&[INSERT, REPLY], Status::Done, SEALED_INSERT, ""),
        (
            &[INSERT, REPLY, NOTES],
            Status::Refused,
            SEALED_INSERT,
            "fle: 1 3 27 -\n",
        ),
    ];
    for (pieces, status, out, line) in cases {
        answers(&rt, alloc, pieces, *status, out, line);
    }
}

#[test]
fn pairs_may_come_in_any_pieces(rt: HostRuntime) {
    let alloc = rt.alloc();
    let (input, sealed) = two_pairs(&rt, alloc);
    for step in 1..=input.len() {
        let run = Run {
            step,
            ..answering(&input)
        };
        writes(&rt, alloc, run, &sealed);
    }
}

#[test]
fn a_read_that_fails_names_the_document_that_is_read(rt: HostRuntime) {
    let alloc = rt.alloc();
    let (input, sealed) = two_pairs(&rt, alloc);
    // One byte a read: 88, 214, 66 and 146 of the four documents, and one read that finds the end.
    let cases: [(u64, u64, &[u8], &str); 5] = [
        (0, 88, b"", "fle: 5 1 0 -\n"),
        (88, 302, b"", "fle: 5 2 0 -\n"),
        (302, 368, SEALED_INSERT, "fle: 5 3 0 -\n"),
        (368, 514, SEALED_INSERT, "fle: 5 4 0 -\n"),
        (514, 515, &sealed, "fle: 5 5 0 -\n"),
    ];
    for (from, to, out, line) in cases {
        for call in from..to {
            let run = Run {
                step: 1,
                source: &[call],
                ..answering(&input)
            };
            expect(&rt, alloc, run, Status::ReadFault, out, line);
        }
    }
    let run = Run {
        step: 1,
        source: &[515],
        ..answering(&input)
    };
    writes(&rt, alloc, run, &sealed);
}

#[test]
fn a_file_that_fails_ends_the_run_before_any_input(rt: HostRuntime) {
    let alloc = rt.alloc();
    let (input, sealed) = two_pairs(&rt, alloc);
    // Each of the three files is read in two calls, the second of which finds its end.
    for call in 0..6 {
        let run = Run {
            folder: &[call],
            ..answering(&input)
        };
        stops(&rt, alloc, run, Status::ReadFault, "fle: 5 0 0 -\n");
    }
    let run = Run {
        folder: &[6],
        ..answering(&input)
    };
    writes(&rt, alloc, run, &sealed);
}

#[test]
fn an_output_that_is_full_has_the_front_of_what_was_to_come(rt: HostRuntime) {
    let alloc = rt.alloc();
    let (input, sealed) = two_pairs(&rt, alloc);
    for room in 0..sealed.len() {
        let line = if room < 175 {
            "fle: 6 1 0 -\n"
        } else {
            "fle: 6 3 0 -\n"
        };
        let run = Run {
            room,
            ..answering(&input)
        };
        expect(&rt, alloc, run, Status::WriteFault, &sealed[..room], line);
    }
}

#[test]
fn a_write_that_fails_names_the_command(rt: HostRuntime) {
    let alloc = rt.alloc();
    let (input, sealed) = two_pairs(&rt, alloc);
    // At most 100 bytes a write.
    let cases: &[(u64, usize, &str)] = &[
        (0, 0, "fle: 6 1 0 -\n"),
        (1, 100, "fle: 6 1 0 -\n"),
        (2, 175, "fle: 6 3 0 -\n"),
    ];
    for (call, written, line) in cases {
        let run = Run {
            sink: &[*call],
            ..answering(&input)
        };
        let front = &sealed[..(*written).min(sealed.len())];
        expect(&rt, alloc, run, Status::WriteFault, front, line);
    }
    let run = Run {
        sink: &[3],
        ..answering(&input)
    };
    writes(&rt, alloc, run, &sealed);
}

#[test]
fn a_draw_that_fails_names_the_command(rt: HostRuntime) {
    let alloc = rt.alloc();
    let input = two_drawing(&rt, alloc);
    let cases: &[(u64, &[u8], &str)] = &[
        (0, b"", "fle: 7 1 0 -\n"),
        (1, b"", "fle: 7 1 0 -\n"),
        (2, SEALED_BOTH, "fle: 7 3 0 -\n"),
    ];
    for (call, out, line) in cases {
        let run = Run {
            blocks: &BLOCKS,
            draws: &[*call],
            ..answering(&input)
        };
        expect(&rt, alloc, run, Status::EntropyFault, out, line);
    }
    let run = Run {
        blocks: &BLOCKS,
        draws: &[3],
        ..answering(&input)
    };
    writes(
        &rt,
        alloc,
        run,
        &joined(&rt, alloc, &[SEALED_BOTH, SEALED_RANDOM]),
    );
}

#[test]
fn blocks_that_run_out_name_the_command(rt: HostRuntime) {
    let alloc = rt.alloc();
    let input = two_drawing(&rt, alloc);
    let cases: &[(usize, &[u8], &str)] = &[
        (0, b"", "fle: 7 1 0 -\n"),
        (1, b"", "fle: 7 1 0 -\n"),
        (2, SEALED_BOTH, "fle: 7 3 0 -\n"),
    ];
    for (count, out, line) in cases {
        let run = Run {
            blocks: &BLOCKS[..(*count).min(3)],
            ..answering(&input)
        };
        expect(&rt, alloc, run, Status::EntropyFault, out, line);
    }
}

#[test]
fn no_block_is_drawn_for_a_wrong_reply(rt: HostRuntime) {
    let alloc = rt.alloc();
    let input = joined(&rt, alloc, &[RANDOM, RANDOM_REPLY, BOTH, RANDOM_REPLY]);
    let run = Run {
        blocks: &BLOCKS,
        ..answering(&input)
    };
    expect(
        &rt,
        alloc,
        run,
        Status::Refused,
        SEALED_RANDOM,
        "fle: 1 4 26 2\n",
    );
    assert!(rt; next_block(&rt, alloc, run) == Some([2; 16]));
}
