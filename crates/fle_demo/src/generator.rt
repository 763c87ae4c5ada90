//! A generator of numbers that look random, and of blocks made of them (Knuth, "The Art of Computer Programming",
//! volume 2, section 3.2.1). Whoever knows the number that it starts at knows all: it is for the demo alone.

ghost use Rattle.std.specs.Prelude.{◌≡◌, ◌++◌};
ghost use Rattle.std.specs.Int.{to_le_bytes, w64};
ghost use Rattle.fle_outside.specs.Blocks.{IsBlock};
ghost use Rattle.fle_demo.specs.Generator.{generated, next_output};

use fle_outside::{Entropy, Failed};

/// By what a number is multiplied.
const MULTIPLIER: u128 = 6_364_136_223_846_793_005;

/// What is added to it.
const INCREMENT: u128 = 1_442_695_040_888_963_407;

/// Numbers are below 2^64.
const MODULUS: u128 = 18_446_744_073_709_551_616;

/// The number behind `x`, which is the next output too.
#[tactic(auto, unfolding(crate::specs::Generator::next_output))]
pub fn next_output(x: u64) -> u64
    ensures next { result ≡ next_output x }
{
    ((x as u128 * MULTIPLIER + INCREMENT) % MODULUS) as u64
}

/// A source of blocks, so many of them, each made of two outputs. It fails where none is left.
#[derive(Drop)]
pub struct Generated {
    x: u64,
    left: u64,
    faults: u64,
}

impl Generated {
    /// The first `blocks` blocks behind `x`.
    pub fn new(x: u64, blocks: u64) -> Generated
        ensures seen { ⟦<Generated as Entropy>⟧.seen result ≡ generated blocks x 0 }
    {
        Generated {
            x,
            left: blocks,
            faults: 0,
        }
    }
}

impl Entropy for Generated {
    ghost seen = { λ s. generated s.left s.x s.faults };

    fn block(&mut self) -> Result<[u8; 16], Failed> {
        if self.left == 0 {
            self.faults = self.faults.saturating_add(1);
            return Err(Failed);
        }
        let first = next_output(self.x);
        let second = next_output(first);
        self.x = second;
        self.left -= 1;
        Ok(block_of(first, second))
    }
}

/// Two outputs as a block.
fn block_of(first: u64, second: u64) -> [u8; 16]
    ensures block { IsBlock result }
    ensures bytes { result ≡ to_le_bytes w64 first ++ to_le_bytes w64 second }
{
    let mut block = [0; 16];
    let (front, back) = block.split_at_mut(8);
    front.copy_from_slice(&first.to_le_bytes());
    back.copy_from_slice(&second.to_le_bytes());
    block
}
