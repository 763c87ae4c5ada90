//! Random blocks that are drawn one by one.

ghost use Rattle.std.specs.Prelude.{◌≡◌, ◌<◌, IfOk, IsOk, OnErr, [], ◌∷◌};
ghost use Rattle.fle_outside.specs.Blocks.{DrawTakes, DrawCause, DrawAssured, IsBlock};
ghost use Rattle.fle_outside.specs.Counts.{Rose};
ghost use Rattle.fle_outside.specs.Seen.{Draws, EntropySeen};

use crate::answers::Failed;

/// A source of random blocks.
pub trait Entropy {
    /// What contracts see of it: `told`, the blocks to come, where the object tells them; `faults`,
    /// how many of its calls failed, up to 2^64 - 1; `assured`, the number of blocks that it gives
    /// for certain before it may fail, told or not.
    ghost seen: { Self → EntropySeen };

    /// Draws the next block of 16 bytes.
    fn block(&mut self) -> Result<[u8; 16], Failed>
        ensures block { IfOk result IsBlock }
        ensures takes { DrawTakes (seen self.old).told (seen self.new).told result }
        ensures cause { DrawCause (seen self.old).faults (seen self.new).faults result }
        ensures sure { DrawAssured (seen self.old).assured (seen self.new).assured result };
}

/// Draws one block.
pub fn draw_block<N: Entropy>(entropy: &mut N) -> Result<[u8; 16], Failed>
    ensures drawn { IfOk result (λ block. Draws (N.seen entropy.old) (N.seen entropy.new) (block ∷ [])) }
    ensures undrawn { OnErr result ((N.seen entropy.new).told ≡ (N.seen entropy.old).told) }
    ensures cause { OnErr result (Rose (N.seen entropy.old).faults (N.seen entropy.new).faults) }
    ensures sure { 0 < (N.seen entropy.old).assured → IsOk result }
{
    entropy.block()
}

/// The same 16 bytes; contracts then see that they are bytes.
pub(crate) fn as_block(bytes: [u8; 16]) -> [u8; 16]
    ensures same { result ≡ bytes }
    ensures block { IsBlock result }
{
    bytes
}
