//! Whole runs over two updates in which one call of an object outside fails: each read of the input, each read of a
//! file, each write. What was written is whole outputs, or the front of them where the output failed.

use crate::runs::{Run, expect, joined, marking, sealing, stops, writes};
use crate::update_tests::{SEALED_SET, SEALED_SET_INSIDE, SET_INSIDE};
use fle_stream::Status;
use sample_documents::{NULL, SET};

#[test]
fn a_read_that_fails_ends_the_run_there(rt: HostRuntime) {
    let alloc = rt.alloc();
    let input = joined(&rt, alloc, &[SET, SET_INSIDE]);
    let sealed = joined(&rt, alloc, &[SEALED_SET, SEALED_SET_INSIDE]);
    // One byte a read: 93 of the first command, 99 of the second, and one read that finds the end.
    let cases: [(u64, u64, &[u8], &str); 3] = [
        (0, 93, b"", "fle: 5 1 0 -\n"),
        (93, 192, SEALED_SET, "fle: 5 2 0 -\n"),
        (192, 193, &sealed, "fle: 5 3 0 -\n"),
    ];
    for (from, to, out, line) in cases {
        for call in from..to {
            let run = Run {
                step: 1,
                source: &[call],
                ..sealing(&input)
            };
            expect(&rt, alloc, run, Status::ReadFault, out, line);
        }
    }
    let run = Run {
        step: 1,
        source: &[193],
        ..sealing(&input)
    };
    writes(&rt, alloc, run, &sealed);
}

#[test]
fn a_file_that_fails_ends_the_run_before_any_input(rt: HostRuntime) {
    let alloc = rt.alloc();
    // Each of the three files is read in two calls, the second of which finds its end.
    for call in 0..6 {
        let run = Run {
            folder: &[call],
            ..sealing(SET)
        };
        stops(&rt, alloc, run, Status::ReadFault, "fle: 5 0 0 -\n");
    }
    let run = Run {
        folder: &[6],
        ..sealing(SET)
    };
    writes(&rt, alloc, run, SEALED_SET);
}

#[test]
fn an_output_that_is_full_has_the_front_of_what_was_to_come(rt: HostRuntime) {
    let alloc = rt.alloc();
    let input = joined(&rt, alloc, &[SET, SET_INSIDE]);
    let sealed = joined(&rt, alloc, &[SEALED_SET, SEALED_SET_INSIDE]);
    for room in 0..sealed.len() {
        let line = if room < 176 {
            "fle: 6 1 0 -\n"
        } else {
            "fle: 6 2 0 -\n"
        };
        let run = Run {
            room,
            ..sealing(&input)
        };
        expect(&rt, alloc, run, Status::WriteFault, &sealed[..room], line);
    }
}

#[test]
fn a_write_that_fails_ends_the_run_there(rt: HostRuntime) {
    let alloc = rt.alloc();
    let input = joined(&rt, alloc, &[SET, SET_INSIDE]);
    let sealed = joined(&rt, alloc, &[SEALED_SET, SEALED_SET_INSIDE]);
    // At most 100 bytes a write.
    let cases: &[(u64, usize, &str)] = &[
        (0, 0, "fle: 6 1 0 -\n"),
        (1, 100, "fle: 6 1 0 -\n"),
        (2, 176, "fle: 6 2 0 -\n"),
        (3, 276, "fle: 6 2 0 -\n"),
    ];
    for (call, written, line) in cases {
        let run = Run {
            sink: &[*call],
            ..sealing(&input)
        };
        let front = &sealed[..(*written).min(sealed.len())];
        expect(&rt, alloc, run, Status::WriteFault, front, line);
    }
    let run = Run {
        sink: &[4],
        ..sealing(&input)
    };
    writes(&rt, alloc, run, &sealed);
}

#[test]
fn a_line_that_fails_leaves_the_status(rt: HostRuntime) {
    let run = Run {
        diag: &[0],
        ..sealing(NULL)
    };
    stops(&rt, rt.alloc(), run, Status::Refused, "");
    let lines: &[(usize, &str)] = &[
        (0, ""),
        (1, "f"),
        (5, "fle: "),
        (6, "fle: 1"),
        (16, "fle: 1 1 5 1.0.0"),
    ];
    for (room, line) in lines {
        let run = Run {
            diag_room: *room,
            ..marking(NULL)
        };
        stops(&rt, rt.alloc(), run, Status::Refused, line);
    }
}

#[test]
fn a_line_is_one_write(rt: HostRuntime) {
    let run = Run {
        diag: &[1],
        ..marking(NULL)
    };
    stops(&rt, rt.alloc(), run, Status::Refused, "fle: 1 1 5 1.0.0\n");
}
