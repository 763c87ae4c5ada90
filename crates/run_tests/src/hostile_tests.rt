//! Whole runs of `decrypt` over input that is cut, changed or nested too deep, and of `encrypt` over commands that
//! differ in what is protected alone.

use crate::runs::{document, joined, opening, output, sealing, stops, writes};
use fle_stream::Status;
use sample_documents::{INSERT, SEALED_INSERT};
use std::alloc::Global;
use std::process::Abort;

/// `INSERT` with another number.
const OTHER: &[u8] =
    b"X\x00\x00\x00\x02insert\x00\x07\x00\x00\x00people\x00\x04documents\x00)\x00\x00\x00\x030\x00!\
     \x00\x00\x00\x02ssn\x00\x0c\x00\x00\x00987-65-4321\x00\x10n\x00\x01\x00\x00\x00\x00\x00\x02$db\
     \x00\x03\x00\x00\x00hr\x00\x00";

/// `INSERT` with the text `x`.
const SHORTER: &[u8] =
    b"N\x00\x00\x00\x02insert\x00\x07\x00\x00\x00people\x00\x04documents\x00\x1f\x00\x00\x00\x030\
     \x00\x17\x00\x00\x00\x02ssn\x00\x02\x00\x00\x00x\x00\x10n\x00\x01\x00\x00\x00\x00\x00\x02$db\
     \x00\x03\x00\x00\x00hr\x00\x00";

/// What `INSERT` leaves where the lowest bit of one byte is turned: the byte's number, and the line. Byte 3 is told
/// apart, and with any other byte turned it is a document still.
const TURNED: &[(usize, &str)] = &[
    (0, "fle: 3 1 1 88\n"),
    (1, "fle: 3 1 1 88\n"),
    (2, "fle: 3 1 1 88\n"),
    (4, "fle: 3 1 3 16\n"),
    (11, "fle: 3 1 2 14\n"),
    (12, "fle: 3 1 4 21\n"),
    (13, "fle: 3 1 2 12\n"),
    (14, "fle: 3 1 2 12\n"),
    (15, "fle: 3 1 2 12\n"),
    (22, "fle: 3 1 4 22\n"),
    (23, "fle: 3 1 2 82\n"),
    (33, "fle: 3 1 2 36\n"),
    (34, "fle: 3 1 2 41\n"),
    (35, "fle: 3 1 2 34\n"),
    (36, "fle: 3 1 2 34\n"),
    (37, "fle: 3 1 2 34\n"),
    (38, "fle: 3 1 2 41\n"),
    (40, "fle: 3 1 2 43\n"),
    (41, "fle: 3 1 1 72\n"),
    (42, "fle: 3 1 2 41\n"),
    (43, "fle: 3 1 2 41\n"),
    (44, "fle: 3 1 2 41\n"),
    (45, "fle: 3 1 3 54\n"),
    (49, "fle: 3 1 2 52\n"),
    (50, "fle: 3 1 4 66\n"),
    (51, "fle: 3 1 2 50\n"),
    (52, "fle: 3 1 2 50\n"),
    (53, "fle: 3 1 2 50\n"),
    (65, "fle: 3 1 4 65\n"),
    (66, "fle: 3 1 1 73\n"),
    (68, "fle: 3 1 1 73\n"),
    (73, "fle: 3 1 4 73\n"),
    (74, "fle: 3 1 4 74\n"),
    (75, "fle: 3 1 2 80\n"),
    (79, "fle: 3 1 2 82\n"),
    (80, "fle: 3 1 4 85\n"),
    (81, "fle: 3 1 2 80\n"),
    (82, "fle: 3 1 2 80\n"),
    (83, "fle: 3 1 2 80\n"),
    (86, "fle: 3 1 4 86\n"),
    (87, "fle: 3 1 4 87\n"),
];

/// The line of `TURNED` for this byte, or the empty text.
fn turned_line(at: usize) -> &'static str {
    for (byte, line) in TURNED {
        if *byte == at {
            return *line;
        }
    }
    ""
}

#[test]
fn what_spells_no_document_is_told_by_kind_and_offset(rt: HostRuntime) {
    let cases: &[(&[u8], &str)] = &[
        (b"\x05\x00\x00", "fle: 3 1 1 3\n"),
        (b"\x05\x00\x00\x00", "fle: 3 1 1 4\n"),
        (b"\x04\x00\x00\x00\x00", "fle: 3 1 2 0\n"),
        (b"\x05\x00\x00\x00\x01", "fle: 3 1 4 4\n"),
        (b"\x06\x00\x00\x00\x00\x00", "fle: 3 1 7 5\n"),
        (b"\x08\x00\x00\x00\x14a\x00\x00", "fle: 3 1 3 4\n"),
        (b"\x08\x00\x00\x00\x0aab\x00", "fle: 3 1 4 7\n"),
        (b"\x09\x00\x00\x00\x08a\x00\x02\x00", "fle: 3 1 5 7\n"),
        (b"\x0a\x00\x00\x00\x10a\x00\x01\x00\x00", "fle: 3 1 1 9\n"),
        (
            b"\x0c\x00\x00\x00\x02a\x00\x00\x00\x00\x00\x00",
            "fle: 3 1 2 7\n",
        ),
        (
            b"\x0d\x00\x00\x00\x05a\x00\xff\xff\xff\xff\x00\x00",
            "fle: 3 1 2 7\n",
        ),
    ];
    for (input, line) in cases {
        stops(&rt, rt.alloc(), opening(input), Status::Malformed, line);
    }
}

#[test]
fn a_front_of_a_document_ends_too_early(rt: HostRuntime) {
    let alloc = rt.alloc();
    for n in 1..SEALED_INSERT.len() {
        let line = format!(in alloc; "fle: 3 1 1 {n}\n").expect(&rt, "memory");
        let run = opening(&SEALED_INSERT[..n]);
        stops(&rt, alloc, run, Status::Malformed, &line);
    }
}

#[test]
fn a_turned_bit_is_told_or_leaves_a_document(rt: HostRuntime) {
    let alloc = rt.alloc();
    for at in 0..INSERT.len() {
        let mut turned = *INSERT;
        turned[at] ^= 1;
        let run = opening(&turned);
        let line = turned_line(at);
        if at == 3 {
            // The length is above 16,777,216 bytes.
            stops(&rt, alloc, run, Status::Limit, "fle: 9 1 1 -\n");
        } else if line.is_empty() {
            writes(&rt, alloc, run, &turned);
        } else {
            stops(&rt, alloc, run, Status::Malformed, line);
        }
    }
}

/// This many documents named `a`, each in the one before.
pub(crate) fn nested(rt: &impl Abort, alloc: Global, levels: usize) -> Vec<u8> {
    let mut inner = document(rt, alloc, &[]);
    for _ in 1..levels {
        inner = document(rt, alloc, &[b"\x03a\x00", &inner]);
    }
    inner
}

#[test]
fn a_document_has_at_most_100_levels(rt: HostRuntime) {
    let alloc = rt.alloc();
    let deepest = nested(&rt, alloc, 100);
    let deeper = nested(&rt, alloc, 101);
    assert!(rt; deepest.len() == 797 && deeper.len() == 805, "lengths");
    writes(&rt, alloc, opening(&deepest), &deepest);
    let run = opening(&deeper);
    stops(&rt, alloc, run, Status::Malformed, "fle: 3 1 6 700\n");
}

/// The bytes of a sealed `INSERT` outside the value at 1.0.0, which ends at `end`, and outside the lengths around it.
fn beside(rt: &impl Abort, alloc: Global, sealed: &[u8], end: usize) -> Vec<u8> {
    assert!(rt;
        50 <= sealed.len() && end <= sealed.len(),
        "a test's output is too short"
    );
    let parts = [
        &sealed[4..34],
        &sealed[38..41],
        &sealed[45..50],
        &sealed[end..],
    ];
    joined(rt, alloc, &parts)
}

/// The same of a command that is sealed first.
fn beside_sealed(rt: &impl Abort, alloc: Global, command: &[u8], end: usize) -> Vec<u8> {
    let sealed = output(rt, alloc, sealing(command));
    beside(rt, alloc, &sealed, end)
}

#[test]
fn what_is_protected_shows_in_its_own_place_alone(rt: HostRuntime) {
    let one = beside_sealed(&rt, rt.alloc(), INSERT, 153);
    let other = beside_sealed(&rt, rt.alloc(), OTHER, 153);
    let shorter = beside_sealed(&rt, rt.alloc(), SHORTER, 137);
    assert!(rt; one == other && one == shorter);
}

#[test]
fn a_shorter_value_is_sealed_to_fewer_bytes_and_an_equally_long_one_to_others(rt: HostRuntime) {
    let one = output(&rt, rt.alloc(), sealing(INSERT));
    let other = output(&rt, rt.alloc(), sealing(OTHER));
    let shorter = output(&rt, rt.alloc(), sealing(SHORTER));
    assert!(rt; one.len() == 175 && other.len() == 175, "lengths");
    assert!(rt; one != other, "values");
    assert!(rt; shorter.len() == 159, "length");
}
