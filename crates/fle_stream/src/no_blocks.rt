//! A source without random blocks.

ghost use Rattle.std.specs.Prelude.{◌-◌, ◌^◌, Some, []};

use fle_outside::{Entropy, Failed};

/// What stands for a source of random blocks where none is drawn: it has no block, and fails at each call, as one whose
/// count of faults stands at its last value.
#[derive(Drop)]
pub struct NoBlocks;

impl Entropy for NoBlocks {
    ghost seen = { λ _. record { told = Some []; faults = 2 ^ 64 - 1; assured = 0 } };

    fn block(&mut self) -> Result<[u8; 16], Failed> {
        Err(Failed)
    }
}
