//! Documents with protected values sealed, and sealed ones opened, some times over (MongoDB Client Side Encryption).

ghost use Rattle.std.specs.Prelude.{◌≡◌, ◌≤◌, length, replicate, IfSome, Some};
ghost use Rattle.fle_bench.specs.Documents.{the_keys};
ghost use Rattle.fle_bench.specs.declared.payload.TheConstants.{IV as given};

use crate::job::Direction;
use crate::opening::run_opening;
use crate::payload::{IV, KEY_ID};
use crate::sealing::run_sealing;
use doc_rewrite::KeyTable;
use fle_aead::DataKey;
use fle_outside::{Entropy, Failed};
use fle_vectors::DATA_KEY;
use std::alloc::Global;

/// Seals a command or opens a document, some times over, and gives the checksum of what was written last.
pub fn run(alloc: Global, direction: Direction, bytes: &[u8], turns: u32) -> Option<u32>
    requires { length bytes.now ≤ 67108864 }
{
    match direction {
        Direction::Seal => run_sealing(alloc, bytes, turns),
        Direction::Open => run_opening(alloc, bytes, turns),
    }
}

/// The data key alone.
pub fn keys(alloc: Global) -> Option<KeyTable>
    ensures keys { IfSome result (λ keys. keys ≡ the_keys) }
{
    let mut keys = KeyTable::new(alloc);
    match keys.add(KEY_ID, DataKey::new(DATA_KEY)) {
        Ok(()) => Some(keys),
        Err(_) => None,
    }
}

/// A source of so many blocks, each of them the IV of a random payload.
#[derive(Drop)]
pub struct SameBlock {
    /// How many are left.
    pub left: usize,
    /// How many draws failed.
    pub faults: u64,
}

impl Entropy for SameBlock {
    ghost seen = { λ s. record { told = Some (replicate s.left given); faults = s.faults; assured = s.left } };

    fn block(&mut self) -> Result<[u8; 16], Failed> {
        if self.left == 0 {
            self.faults = self.faults.saturating_add(1);
            return Err(Failed);
        }
        self.left -= 1;
        Ok(IV)
    }
}
