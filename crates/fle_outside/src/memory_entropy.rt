//! A source of random blocks in memory.

ghost use Rattle.std.specs.Prelude.{◌≡◌, IfOk, Some, []};
ghost use Rattle.fle_outside.specs.Blocks.{DrawTakes, DrawCause, DrawAssured, IsBlock};
ghost use Rattle.fle_outside.specs.Memory.{DrawIs, after_draw, blocks_assured, entropy_seen};

use crate::answers::Failed;
use crate::counts::call_fails;
use crate::entropy::{Entropy, as_block};
use std::marker::Model;

/// Blocks in memory, handed out one after another, and whose draws fail where a list says so.
/// Contracts see the blocks to come, the numbers of the calls that are to fail, the number of the
/// next call and the count of faults.
#[derive(Drop)]
pub struct MemEntropy {
    blocks: Vec<[u8; 16]>,
    at: usize,
    failing: Vec<u64>,
    calls: u64,
    faults: u64,
}

impl Model for MemEntropy {
    ghost use Rattle.std.specs.Prelude.{◌≤◌, vec_len, drop};
    ghost use Rattle.fle_outside.specs.Memory.{EntropyState};

    ghost Value = { EntropyState };

    ghost view = { λ s. record {
      left = drop s.at s.blocks.items;
      failing = s.failing.items;
      calls = s.calls;
      faults = s.faults;
    } };

    ghost invariant = { λ s. s.at ≤ vec_len s.blocks };
}

impl MemEntropy {
    /// A source of these blocks, in order. The calls of the numbers in `failing`, counted from 0,
    /// fail, and so does each call once no block is left. It is assured of its blocks where that
    /// list is empty.
    pub fn new(blocks: Vec<[u8; 16]>, failing: Vec<u64>) -> MemEntropy
        ensures begins { result ≡ record { left = blocks.items; failing = failing.items; calls = 0; faults = 0 } }
    {
        MemEntropy {
            blocks,
            at: 0,
            failing,
            calls: 0,
            faults: 0,
        }
    }
}

impl Entropy for MemEntropy {
    ghost seen = { entropy_seen };

    fn block(&mut self) -> Result<[u8; 16], Failed>
        ensures block { IfOk result IsBlock }
        ensures takes { DrawTakes (Some self.old.left) (Some self.new.left) result }
        ensures cause { DrawCause self.old.faults self.new.faults result }
        ensures sure { DrawAssured (blocks_assured self.old) (blocks_assured self.new) result }
        ensures exact { DrawIs self.old result }
        ensures state { self.new ≡ after_draw self.old result }
    {
        let fails = call_fails(&self.failing, self.calls);
        self.calls = self.calls.saturating_add(1);
        if fails || self.blocks.len() <= self.at {
            self.faults = self.faults.saturating_add(1);
            return Err(Failed);
        }
        let block = as_block(self.blocks[self.at]);
        self.at += 1;
        Ok(block)
    }
}
