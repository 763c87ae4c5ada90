//! Why a command gets no reply.

use fle_outside::Memory;

/// Why a command gets no reply.
#[derive(Clone, Copy, Debug, PartialEq, Eq)]
pub enum ReplyFault {
    /// The reply would have more than 48,000,000 bytes.
    TooLong,
    /// There was no memory for the reply. It may come at any time.
    Memory,
}

impl From<Memory> for ReplyFault {
    ghost use Rattle.command_marker.specs.declared.stop.ReplyFault.TheVariants as faults;
    ghost use Rattle.std.specs.Prelude.{◌≡◌};

    ghost from_gives = { λ _ e. e ≡ faults.Memory };

    fn from(_memory: Memory) -> ReplyFault {
        ReplyFault::Memory
    }
}
