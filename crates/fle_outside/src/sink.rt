//! A place for bytes that are written.

ghost use Rattle.std.specs.Prelude.{◌<◌, length};
ghost use Rattle.fle_outside.specs.Seen.{SinkSeen};
ghost use Rattle.fle_outside.specs.Writes.{WriteWithin, WriteTakes, WriteCause, WriteAssured};

use crate::answers::WriteAnswer;

/// What takes the bytes that a program writes.
pub trait Sink {
    /// What contracts see of it: `told`, the bytes that it took so far, where the sink tells them;
    /// `faults`, how many of its calls failed, up to 2^64 - 1; `assured`, the number of bytes that it
    /// takes for certain before it may fail, told or not.
    ghost seen: { Self → SinkSeen };

    /// Takes bytes from the front of `piece`.
    fn write(&mut self, piece: &[u8]) -> WriteAnswer
        requires { 0 < length piece.now }
        ensures within { WriteWithin result (length piece.now) }
        ensures bytes { WriteTakes (seen self.old).told (seen self.new).told result piece.now }
        ensures cause { WriteCause (seen self.old).faults (seen self.new).faults result }
        ensures sure { WriteAssured (seen self.old).assured (seen self.new).assured result };
}
