//! Whole runs over a block cipher of the caller's: how often it is called.

ghost use Rattle.std.specs.Prelude.{⊤};

use crate::runs::{Run, expect_with, joined, opening, sealing};
use aes_block::{Schedule, cipher, inv_cipher};
use crypto_hooks::Block256;
use fle_stream::Status;
use sample_documents::{INSERT, SEALED_INSERT};
use std::alloc::Global;
use std::cell::Cell;
use std::process::Abort;

/// The cipher of FIPS 197, and how many blocks it encrypted and decrypted.
#[derive(Drop)]
struct Counted {
    sealed: Cell<u32>,
    opened: Cell<u32>,
}

impl Counted {
    /// A cipher that wasn't called yet.
    fn new() -> Counted {
        Counted {
            sealed: Cell::new(0),
            opened: Cell::new(0),
        }
    }
}

impl Block256 for Counted {
    ghost answers = { λ _. ⊤ };

    fn seal_block(&self, schedule: &Schedule, block: [u8; 16]) -> [u8; 16] {
        self.sealed.set(self.sealed.get().saturating_add(1));
        cipher(schedule, block)
    }

    fn open_block(&self, schedule: &Schedule, block: [u8; 16]) -> [u8; 16] {
        self.opened.set(self.opened.get().saturating_add(1));
        inv_cipher(schedule, block)
    }
}

/// The run must end well, with this output and no line, and encrypt and decrypt so many blocks.
fn expect_calls(
    rt: &impl Abort,
    alloc: Global,
    run: Run<'_>,
    out: &[u8],
    sealed: u32,
    opened: u32,
) {
    let hooks = Counted::new();
    expect_with(rt, alloc, run, &hooks, Status::Done, out, "");
    assert!(rt; hooks.sealed.get() == sealed, "sealed");
    assert!(rt; hooks.opened.get() == opened, "opened");
}

#[test]
fn a_key_is_opened_once_a_run(rt: HostRuntime) {
    let alloc = rt.alloc();
    let input = joined(&rt, alloc, &[INSERT, INSERT]);
    let sealed = joined(&rt, alloc, &[SEALED_INSERT, SEALED_INSERT]);
    // The key has seven sealed blocks, each payload two.
    expect_calls(&rt, alloc, sealing(&input), &sealed, 4, 7);
    expect_calls(&rt, alloc, opening(&sealed), &input, 0, 11);
}
