//! Bytes that are read once, from the front.

ghost use Rattle.std.specs.Prelude.{◌≡◌, ◌<◌, true, length};
ghost use Rattle.fle_outside.specs.Reads.{ReadWithin, ReadTakes, ReadCause, taken_by};
ghost use Rattle.fle_outside.specs.Seen.{SourceSeen};

use crate::answers::ReadAnswer;

/// A stream of bytes.
pub trait Source {
    /// What contracts see of it: `told`, the bytes that are left, where the source tells them;
    /// `taken`, how many it handed out, and `faults`, how many of its calls failed, both up to
    /// 2^64 - 1; `assured`, that it never fails, told or not.
    ghost seen: { Self → SourceSeen };

    /// Reads the next bytes into the front of `piece`.
    fn read(&mut self, piece: &mut [u8]) -> ReadAnswer
        requires { 0 < length piece.old }
        ensures within { ReadWithin result (length piece.new) }
        ensures bytes { ReadTakes (seen self.old).told (seen self.new).told result piece.new }
        ensures counts { (seen self.new).taken ≡ taken_by (seen self.old).taken result }
        ensures cause { ReadCause (seen self.old).faults (seen self.new).faults result }
        ensures sure { (seen self.old).assured ≡ true
            → (result ≡ ReadAnswer.Failed → ⊥) × ((seen self.new).assured ≡ true) };
}
