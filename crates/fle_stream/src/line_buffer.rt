//! A line that is held before it is written.

ghost use Rattle.std.specs.Prelude.{◌≡◌, ◌-◌, ◌≤◌, Some, []};
ghost use Rattle.fle_outside.specs.Writes.{WriteWithin, WriteTakes, WriteCause, WriteAssured};

use arrayvec::ArrayVec;
use fle_outside::{Sink, WriteAnswer};
use std::marker::Model;

/// The longest line that is held. That of a place of 100 child numbers, each of ten digits, has 1,133 bytes at most.
const LONGEST: usize = 2048;

/// A sink in the value itself: it takes each piece whole, or fails where there is no room for it. Contracts see the
/// bytes that it took and how many pieces it didn't.
#[derive(Drop)]
pub(crate) struct LineBuffer {
    bytes: ArrayVec<u8, LONGEST>,
    faults: u64,
}

impl Model for LineBuffer {
    ghost use Rattle.fle_stream.specs.Held.{Held};

    ghost Value = { Held };

    ghost view = { λ s. record { bytes = s.bytes.items; faults = s.faults } };
}

impl LineBuffer {
    /// No byte so far.
    pub fn new() -> LineBuffer
        ensures begins { result ≡ record { bytes = []; faults = 0 } }
    {
        LineBuffer {
            bytes: ArrayVec::new(),
            faults: 0,
        }
    }

    /// What it took.
    pub fn bytes(&self) -> &[u8]
        ensures bytes { result.now ≡ self.now.bytes }
    {
        self.bytes.as_slice()
    }
}

impl Sink for LineBuffer {
    ghost seen = { λ s. record { told = Some s.bytes; faults = s.faults; assured = 0 } };

    fn write(&mut self, piece: &[u8]) -> WriteAnswer {
        if self.bytes.try_extend_from_slice(piece).is_err() {
            self.faults = self.faults.saturating_add(1);
            return WriteAnswer::Failed;
        }
        WriteAnswer::Took(piece.len())
    }
}
