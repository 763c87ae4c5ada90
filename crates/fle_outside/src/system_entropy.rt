//! The system's random bytes.

ghost use Rattle.std.specs.Prelude.{◌≡◌, None};

use crate::answers::Failed;
use crate::entropy::{Entropy, as_block};
use std::random::RandomSource;

/// How many blocks one call of the system fills.
const BATCH: usize = 16;

/// Random blocks as the system's runtime gives them, sixteen for each of its calls, and each of them handed out once.
/// It tells nothing and is assured of nothing; no clause speaks of how random they are.
#[derive(Drop)]
pub struct SystemEntropy<'a, R> {
    runtime: &'a R,
    faults: u64,
    batch: [u8; 16 * BATCH],
    next: usize,
}

impl<'a, R: RandomSource> SystemEntropy<'a, R> {
    /// A source of blocks over this runtime, with no fault so far.
    pub fn new(runtime: &'a R) -> SystemEntropy<'a, R>
        ensures faultless { result.faults ≡ 0 }
    {
        SystemEntropy {
            runtime,
            faults: 0,
            batch: [0; 16 * BATCH],
            next: BATCH,
        }
    }
}

impl<R: RandomSource> Entropy for SystemEntropy<'_, R> {
    ghost seen = { λ s. record { told = None; faults = s.faults; assured = 0 } };

    fn block(&mut self) -> Result<[u8; 16], Failed> {
        if BATCH <= self.next {
            if self.runtime.fill_bytes(&mut self.batch).is_err() {
                self.faults = self.faults.saturating_add(1);
                return Err(Failed);
            }
            self.next = 0;
        }
        let mut block = [0u8; 16];
        block.copy_from_slice(&self.batch[16 * self.next..16 * self.next + 16]);
        self.next += 1;
        Ok(as_block(block))
    }
}
