//! Whole runs of `encrypt-with` in which a right reply stands behind a command whose key is missing, of another
//! provider or damaged: the line has the command's number, and nothing of that pair is drawn or written.

use crate::keys_tests::VAULT;
use crate::pair_samples::{BOTH_REPLY, RANDOM_REPLY};
use crate::pair_tests::{BLOCKS, answering};
use crate::runs::{MASTER, Run, document, expect, joined, next_block, stops, writes};
use crate::seal_tests::RANDOM;
use fle_stream::Status;
use sample_documents::reply_parts::OK;
use sample_documents::{BOTH, INSERT, NOTES, NOTES_REPLY, REPLY};
use std::alloc::Global;
use std::process::Abort;

/// `INSERT` with its reply in this vault under this master key must end with the first line; the same behind a command
/// that needs no key with the second.
fn refused(rt: &impl Abort, alloc: Global, keys: &[u8], master: &[u8], lines: (&str, &str)) {
    let (first, second) = lines;
    let input = joined(rt, alloc, &[INSERT, REPLY]);
    let run = Run {
        keys,
        master,
        ..answering(&input)
    };
    stops(rt, alloc, run, Status::Refused, first);
    let input = joined(rt, alloc, &[NOTES, NOTES_REPLY, INSERT, REPLY]);
    let run = Run {
        keys,
        master,
        ..answering(&input)
    };
    expect(rt, alloc, run, Status::Refused, NOTES, second);
}

#[test]
fn a_missing_key_is_told_with_the_commands_number(rt: HostRuntime) {
    let lines = ("fle: 1 1 16 1.0.0\n", "fle: 1 3 16 1.0.0\n");
    refused(&rt, rt.alloc(), b"", MASTER, lines);
}

#[test]
fn a_key_of_another_provider_is_told_with_the_commands_number(rt: HostRuntime) {
    // The provider `vocal` in the place of `local`.
    let mut keys = *VAULT;
    keys[291] = b'v';
    let lines = ("fle: 1 1 17 1.0.0\n", "fle: 1 3 17 1.0.0\n");
    refused(&rt, rt.alloc(), &keys, MASTER, lines);
}

#[test]
fn a_damaged_key_is_told_with_the_commands_number(rt: HostRuntime) {
    let alloc = rt.alloc();
    let lines = ("fle: 1 1 18 1.0.0\n", "fle: 1 3 18 1.0.0\n");
    // The IV, the first sealed block, the last one, and the tag of its material.
    for at in [48, 64, 175, 207] {
        let mut damaged = *VAULT;
        damaged[at] ^= 1;
        refused(&rt, alloc, &damaged, MASTER, lines);
    }
    refused(&rt, alloc, VAULT, &[0x40; 96], lines);
}

#[test]
fn a_key_that_no_command_needs_may_be_missing(rt: HostRuntime) {
    let alloc = rt.alloc();
    let input = joined(&rt, alloc, &[NOTES, NOTES_REPLY, NOTES, NOTES_REPLY]);
    let run = Run {
        keys: b"",
        ..answering(&input)
    };
    writes(&rt, alloc, run, &joined(&rt, alloc, &[NOTES, NOTES]));
}

#[test]
fn the_first_value_that_needs_a_missing_key_is_told_before_any_block(rt: HostRuntime) {
    let alloc = rt.alloc();
    let cases: &[(&[u8], &[u8])] = &[(BOTH, BOTH_REPLY), (RANDOM, RANDOM_REPLY)];
    for (command, reply) in cases {
        let input = joined(&rt, alloc, &[*command, *reply]);
        let run = Run {
            keys: b"",
            blocks: &BLOCKS,
            ..answering(&input)
        };
        stops(&rt, alloc, run, Status::Refused, "fle: 1 1 16 1.0.0\n");
        assert!(rt; next_block(&rt, alloc, run) == Some(BLOCKS[0]));
    }
}

#[test]
fn a_wrong_reply_is_told_before_a_missing_key(rt: HostRuntime) {
    let alloc = rt.alloc();
    let shapeless = document(&rt, alloc, &[OK]);
    let cases: [(&[u8], Status, &str); 6] = [
        (b"", Status::Refused, "fle: 1 1 27 -\n"),
        (b"\x05\x00", Status::Malformed, "fle: 3 2 1 2\n"),
        (b"\x01l\xdc\x02", Status::Limit, "fle: 9 2 1 -\n"),
        (&shapeless, Status::Refused, "fle: 1 2 25 -\n"),
        (NOTES_REPLY, Status::Refused, "fle: 1 2 26 0\n"),
        (RANDOM_REPLY, Status::Refused, "fle: 1 2 26 2\n"),
    ];
    for (reply, status, line) in cases {
        let input = joined(&rt, alloc, &[INSERT, reply]);
        let run = Run {
            keys: b"",
            ..answering(&input)
        };
        stops(&rt, alloc, run, status, line);
    }
}
