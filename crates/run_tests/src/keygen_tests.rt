//! Whole runs over master keys and blocks in memory: the verb `keygen`.

use crate::keys_tests::VAULT;
use crate::runs::{Run, marking, stops, writes};
use fle_stream::Status;
use sample_documents::TWO_KEYS;

/// How many bytes the first key has.
const FIRST: usize = 331;

/// 16 bytes that count from this one.
fn counted(first: u8) -> [u8; 16] {
    let mut block = [0; 16];
    for i in 0..16 {
        block[i] = first.wrapping_add(i as u8);
    }
    block
}

/// The blocks of a key: of its id, of its bytes that count from `key`, and of its IV.
fn blocks(id: [u8; 16], key: u8, iv: u8) -> [[u8; 16]; 8] {
    [
        id,
        counted(key),
        counted(key.wrapping_add(16)),
        counted(key.wrapping_add(32)),
        counted(key.wrapping_add(48)),
        counted(key.wrapping_add(64)),
        counted(key.wrapping_add(80)),
        counted(iv),
    ]
}

/// The blocks of the first key.
fn first_blocks() -> [[u8; 16]; 8] {
    let id = *b"\x00\x11\x22\x33\x44\x55\x66\x77\x88\x99\xaa\xbb\xcc\xdd\xee\xff";
    blocks(id, 0x80, 0xf0)
}

/// A run of these words, with the blocks to come.
fn making<'a>(words: &'a [&'a str], blocks: &'a [[u8; 16]]) -> Run<'a> {
    Run {
        words,
        blocks,
        ..marking(b"")
    }
}

#[test]
fn eight_blocks_make_a_key(rt: HostRuntime) {
    let alloc = rt.alloc();
    let first = first_blocks();
    let second = blocks(counted(0x10), 0x20, 0x80);
    let keys = TWO_KEYS.as_slice();
    let run = making(&["keygen", "master"], &first);
    writes(&rt, alloc, run, VAULT);
    let run = making(&["keygen", "master", "hr-key"], &first);
    writes(&rt, alloc, run, &keys[..FIRST]);
    let words = ["keygen", "master", "finance", "audit"];
    writes(&rt, alloc, making(&words, &second), &keys[FIRST..]);
}

#[test]
fn a_master_key_has_96_bytes(rt: HostRuntime) {
    let alloc = rt.alloc();
    let blocks = first_blocks();
    let cases: &[(&[u8], &str)] = &[
        (&[0; 95], "fle: 4 1 10 0\n"),
        (&[b'='; 128], "fle: 4 1 11 0\n"),
    ];
    for (master, line) in cases {
        let run = Run {
            master,
            ..making(&["keygen", "master"], &blocks)
        };
        stops(&rt, alloc, run, Status::Setup, line);
    }
}

#[test]
fn a_failing_draw_makes_no_key(rt: HostRuntime) {
    let alloc = rt.alloc();
    let blocks = first_blocks();
    for call in 0..8 {
        let run = Run {
            draws: &[call],
            ..making(&["keygen", "master"], &blocks)
        };
        stops(&rt, alloc, run, Status::EntropyFault, "fle: 7 0 0 -\n");
    }
}
