//! Whole runs over vaults and two master keys in memory: the verb `rewrap`.

use crate::keys_tests::VAULT;
use crate::rewrap_samples::{DATED, DATED_RENEWED, FOREIGN, NEW_MASTER, RENEWED};
use crate::runs::{Run, expect, joined, marking, next_block, opening, sealing, stops, writes};
use fle_stream::Status;
use sample_documents::{INSERT, SEALED_INSERT};
use std::alloc::Global;
use std::process::Abort;

/// The words, from the master key of the other tests to the new one.
const WORDS: [&str; 4] = ["rewrap", "master", "other", "keys"];

/// The bytes C0 to CF.
const FIRST: [u8; 16] = *b"\xc0\xc1\xc2\xc3\xc4\xc5\xc6\xc7\xc8\xc9\xca\xcb\xcc\xcd\xce\xcf";

/// The bytes E0 to EF.
const SECOND: [u8; 16] = *b"\xe0\xe1\xe2\xe3\xe4\xe5\xe6\xe7\xe8\xe9\xea\xeb\xec\xed\xee\xef";

/// The bytes F0 to FF, the IV of `VAULT`.
const THIRD: [u8; 16] = *b"\xf0\xf1\xf2\xf3\xf4\xf5\xf6\xf7\xf8\xf9\xfa\xfb\xfc\xfd\xfe\xff";

/// The blocks to come for one key.
pub(crate) const ONE: [[u8; 16]; 2] = [SECOND, THIRD];

/// Those for two.
const TWO: [[u8; 16]; 3] = [FIRST, SECOND, THIRD];

/// A run of `rewrap` over this vault, at the time 1,800,000,000,000. Each read of the input fails, since there is none.
pub(crate) fn rewrapping<'a>(keys: &'a [u8], blocks: &'a [[u8; 16]]) -> Run<'a> {
    Run {
        words: &WORDS,
        keys,
        other: NEW_MASTER,
        time: 1_800_000_000_000,
        source: &[0],
        blocks,
        ..marking(INSERT)
    }
}

/// A local key with each kind of `updateDate`, one of another provider, and a local key: numbers 1 to 3.
fn three(rt: &impl Abort, alloc: Global) -> Vec<u8> {
    joined(rt, alloc, &[DATED, FOREIGN, VAULT])
}

/// The same under the new master key.
fn three_renewed(rt: &impl Abort, alloc: Global) -> Vec<u8> {
    joined(rt, alloc, &[DATED_RENEWED, FOREIGN, RENEWED])
}

#[test]
fn a_key_is_sealed_under_the_new_master_key_and_dated(rt: HostRuntime) {
    let alloc = rt.alloc();
    let run = rewrapping(VAULT, &ONE);
    writes(&rt, alloc, run, RENEWED);
    assert!(rt; next_block(&rt, alloc, run) == Some(THIRD));
}

#[test]
fn each_local_key_takes_a_block_and_all_else_stays(rt: HostRuntime) {
    let alloc = rt.alloc();
    let keys = three(&rt, alloc);
    let run = rewrapping(&keys, &TWO);
    writes(&rt, alloc, run, &three_renewed(&rt, alloc));
    assert!(rt; next_block(&rt, alloc, run) == Some(THIRD));
}

#[test]
fn a_rewrapped_vault_seals_and_opens_under_the_new_master_key_alone(rt: HostRuntime) {
    let alloc = rt.alloc();
    let run = Run {
        keys: RENEWED,
        master: NEW_MASTER,
        ..opening(SEALED_INSERT)
    };
    writes(&rt, alloc, run, INSERT);
    let run = Run {
        keys: RENEWED,
        master: NEW_MASTER,
        ..sealing(INSERT)
    };
    writes(&rt, alloc, run, SEALED_INSERT);
    let run = Run {
        keys: RENEWED,
        ..opening(SEALED_INSERT)
    };
    stops(&rt, alloc, run, Status::Refused, "fle: 1 1 18 1.0.0\n");
}

#[test]
fn a_vault_without_local_keys_stays(rt: HostRuntime) {
    let vaults: &[&[u8]] = &[b"", FOREIGN];
    for keys in vaults {
        writes(&rt, rt.alloc(), rewrapping(keys, &[]), keys);
    }
}

#[test]
fn old_and_new_may_be_one_file(rt: HostRuntime) {
    let alloc = rt.alloc();
    let run = Run {
        words: &["rewrap", "master", "master", "keys"],
        time: 1_700_000_000_000,
        ..rewrapping(VAULT, &[THIRD])
    };
    writes(&rt, alloc, run, VAULT);
}

/// `rewrap` of the keys in these pieces ends with this line before it draws or writes.
fn refuses_key(rt: &impl Abort, alloc: Global, words: &[&str], pieces: &[&[u8]], line: &str) {
    let keys = joined(rt, alloc, pieces);
    let run = Run {
        words,
        sink: &[0],
        ..rewrapping(&keys, &TWO)
    };
    stops(rt, alloc, run, Status::Refused, line);
    assert!(rt; next_block(rt, alloc, run) == Some(FIRST));
}

#[test]
fn the_first_key_that_does_not_open_is_told_before_any_block(rt: HostRuntime) {
    let alloc = rt.alloc();
    // The IV, the first sealed block, the last one, and the tag of its material.
    for at in [48, 64, 175, 207] {
        let mut damaged = *VAULT;
        damaged[at] ^= 1;
        let first = "fle: 1 1 18 -\n";
        refuses_key(&rt, alloc, &WORDS, &[&damaged], first);
        refuses_key(&rt, alloc, &WORDS, &[&damaged, DATED], first);
        refuses_key(
            &rt,
            alloc,
            &WORDS,
            &[DATED, FOREIGN, &damaged],
            "fle: 1 3 18 -\n",
        );
    }
}

#[test]
fn another_master_key_opens_no_key(rt: HostRuntime) {
    let alloc = rt.alloc();
    let words = ["rewrap", "other", "master", "keys"];
    let cases: &[(&[&[u8]], &str)] = &[
        (&[VAULT], "fle: 1 1 18 -\n"),
        (&[DATED, FOREIGN, VAULT], "fle: 1 1 18 -\n"),
        (&[FOREIGN, VAULT], "fle: 1 2 18 -\n"),
    ];
    for (pieces, line) in cases {
        refuses_key(&rt, alloc, &words, pieces, line);
    }
}

#[test]
fn each_draw_that_fails_leaves_nothing_written(rt: HostRuntime) {
    let alloc = rt.alloc();
    let keys = three(&rt, alloc);
    for call in 0..2 {
        let run = Run {
            draws: &[call],
            ..rewrapping(&keys, &TWO)
        };
        stops(&rt, alloc, run, Status::EntropyFault, "fle: 7 0 0 -\n");
    }
    let run = Run {
        draws: &[2],
        ..rewrapping(&keys, &TWO)
    };
    writes(&rt, alloc, run, &three_renewed(&rt, alloc));
    let cases: &[(&[u8], &[[u8; 16]])] = &[(VAULT, &[]), (DATED, &[])];
    for (keys, blocks) in cases {
        let run = rewrapping(keys, blocks);
        stops(&rt, alloc, run, Status::EntropyFault, "fle: 7 0 0 -\n");
    }
}

#[test]
fn an_output_that_is_full_has_the_front_of_the_vault(rt: HostRuntime) {
    let alloc = rt.alloc();
    for room in 0..RENEWED.len() {
        let run = Run {
            room,
            ..rewrapping(VAULT, &ONE)
        };
        let front = &RENEWED.as_slice()[..room];
        expect(&rt, alloc, run, Status::WriteFault, front, "fle: 6 0 0 -\n");
    }
    let run = Run {
        room: RENEWED.len(),
        ..rewrapping(VAULT, &ONE)
    };
    writes(&rt, alloc, run, RENEWED);
}

#[test]
fn a_write_that_fails_ends_the_run_after_its_draws(rt: HostRuntime) {
    let alloc = rt.alloc();
    // At most 100 bytes a write.
    for call in 0..3 {
        let run = Run {
            sink: &[call],
            ..rewrapping(VAULT, &ONE)
        };
        let front = &RENEWED.as_slice()[..call as usize * 100];
        expect(&rt, alloc, run, Status::WriteFault, front, "fle: 6 0 0 -\n");
        assert!(rt; next_block(&rt, alloc, run) == Some(THIRD));
    }
}

#[test]
fn each_file_is_read_once_before_any_block(rt: HostRuntime) {
    let alloc = rt.alloc();
    // Each of the three files is read in two calls, the second of which finds its end.
    for call in 0..6 {
        let run = Run {
            folder: &[call],
            ..rewrapping(VAULT, &ONE)
        };
        stops(&rt, alloc, run, Status::ReadFault, "fle: 5 0 0 -\n");
        assert!(rt; next_block(&rt, alloc, run) == Some(SECOND));
    }
    let run = Run {
        folder: &[6],
        ..rewrapping(VAULT, &ONE)
    };
    writes(&rt, alloc, run, RENEWED);
}

#[test]
fn the_words_are_three_files(rt: HostRuntime) {
    let forms: &[&[&str]] = &[
        &["rewrap"],
        &["rewrap", "master"],
        &["rewrap", "master", "other"],
        &["rewrap", "", "other", "keys"],
        &["rewrap", "master", "", "keys"],
        &["rewrap", "master", "other", ""],
        &["rewrap", "master", "other", "keys", "more"],
    ];
    for words in forms {
        let run = Run {
            words,
            ..rewrapping(VAULT, &ONE)
        };
        stops(&rt, rt.alloc(), run, Status::Words, "fle: 2 0 0 -\n");
    }
}

#[test]
fn a_missing_file_is_told_by_its_number(rt: HostRuntime) {
    let cases: &[(&[&str], &str)] = &[
        (&["rewrap", "none", "other", "keys"], "fle: 4 1 1 0\n"),
        (&["rewrap", "master", "none", "keys"], "fle: 4 2 1 0\n"),
        (&["rewrap", "master", "other", "none"], "fle: 4 3 1 0\n"),
        (&["rewrap", "none", "none", "none"], "fle: 4 1 1 0\n"),
        (&["rewrap", "master", "none", "none"], "fle: 4 2 1 0\n"),
    ];
    for (words, line) in cases {
        let run = Run {
            words,
            ..rewrapping(VAULT, &ONE)
        };
        stops(&rt, rt.alloc(), run, Status::Setup, line);
    }
}

/// 95 bytes, one too few for a master key.
const SHORT: &[u8] = &[7; 95];

/// 128 characters that are no base64 text of a key.
const EQUALS: &[u8] = &[b'='; 128];

#[test]
fn a_faulty_file_is_told_by_its_number_and_its_fault(rt: HostRuntime) {
    let cases: &[(&[u8], &[u8], &[u8], &str)] = &[
        (SHORT, NEW_MASTER, VAULT, "fle: 4 1 10 0\n"),
        (EQUALS, SHORT, b"", "fle: 4 1 11 0\n"),
        (NEW_MASTER, SHORT, VAULT, "fle: 4 2 10 0\n"),
        (NEW_MASTER, EQUALS, b"\x05\x00", "fle: 4 2 11 0\n"),
        (NEW_MASTER, NEW_MASTER, b"\x05\x00", "fle: 4 3 20 1\n"),
        (
            NEW_MASTER,
            NEW_MASTER,
            b"\x05\x00\x00\x00\x00",
            "fle: 4 3 21 1\n",
        ),
    ];
    for (master, other, keys, line) in cases {
        let run = Run {
            master,
            other,
            ..rewrapping(keys, &ONE)
        };
        stops(&rt, rt.alloc(), run, Status::Setup, line);
    }
    let twice = joined(&rt, rt.alloc(), &[VAULT, FOREIGN, VAULT]);
    let run = rewrapping(&twice, &TWO);
    stops(&rt, rt.alloc(), run, Status::Setup, "fle: 4 3 25 3\n");
}
