//! Random blocks that a caller hands in as bytes.

ghost use Rattle.std.specs.Prelude.{◌≡◌, Some, length};
ghost use Rattle.fle_c.specs.Blocks.{blocks_in, handed_seen};
ghost use Rattle.fle_outside.specs.Blocks.{DrawAssured, DrawCause, DrawTakes, IsBlock};

use fle_outside::{Entropy, Failed};

/// The bytes of a block.
pub(crate) const BLOCK: usize = 16;

/// Blocks of 16 bytes, in order; what is left of the bytes behind the last whole one is none.
#[derive(Drop)]
pub struct Blocks<'a> {
    bytes: &'a [u8],
    faults: u64,
}

impl<'a> Blocks<'a> {
    /// A source of the blocks that these bytes are, which gives each of them for certain.
    pub fn new(bytes: &'a [u8]) -> Blocks<'a>
        ensures seen { handed_seen result.bytes.now result.faults ≡ handed_seen bytes.entry.now 0 }
    {
        Blocks { bytes, faults: 0 }
    }

    /// How many bytes are left.
    pub fn left(&self) -> usize
        ensures left { result ≡ length self.now.bytes.now }
    {
        self.bytes.len()
    }
}

impl Entropy for Blocks<'_> {
    ghost seen = { λ s. handed_seen s.bytes.now s.faults };

    fn block(&mut self) -> Result<[u8; 16], Failed> {
        if self.bytes.len() < BLOCK {
            self.faults = self.faults.saturating_add(1);
            return Err(Failed);
        }
        let (first, rest) = self.bytes.split_at(BLOCK);
        self.bytes = rest;
        Ok(as_block(first))
    }
}

/// 16 bytes as a block.
pub(crate) fn as_block(bytes: &[u8]) -> [u8; 16]
    requires long { length bytes.now ≡ 16 }
    ensures same { result ≡ bytes.now }
    ensures block { IsBlock result }
{
    let mut block = [0u8; 16];
    block.copy_from_slice(bytes);
    block
}
