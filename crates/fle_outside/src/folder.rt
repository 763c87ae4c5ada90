//! Files that are read by name, from any place.

ghost use Rattle.std.specs.Prelude.{◌≡◌, ◌<◌, true, length};
ghost use Rattle.fle_outside.specs.Seen.{FolderSeen};
ghost use Rattle.fle_outside.specs.Files.{FileAsked, FileWithin, FileGives, FileCause};

use crate::answers::FileAnswer;

/// A set of named files that nobody changes.
pub trait Folder {
    /// What contracts see of it: `told`, the files by their names, where the folder tells them;
    /// `asked`, the names that it was asked for, the last one first, where it tells them; `faults`,
    /// how many of its calls failed, up to 2^64 - 1; `assured`, that it never fails, told or not.
    ghost seen: { Self → FolderSeen };

    /// Reads bytes of the file `name` that stand at the place `at` and behind it.
    fn read_at(&mut self, name: &str, at: u64, piece: &mut [u8]) -> FileAnswer
        requires { 0 < length piece.old }
        ensures within { FileWithin result (length piece.new) }
        ensures bytes { FileGives (seen self.old).told name.now at result piece.new }
        ensures same { (seen self.new).told ≡ (seen self.old).told }
        ensures asked { FileAsked (seen self.old).asked (seen self.new).asked name.now }
        ensures cause { FileCause (seen self.old).faults (seen self.new).faults result }
        ensures sure { (seen self.old).assured ≡ true
            → (result ≡ FileAnswer.Failed → ⊥) × ((seen self.new).assured ≡ true) };
}
