//! Who wants each payload of a document, as an object that is told of it.

ghost use Rattle.doc_rewrite.specs.declared.found.FoundAt.{FoundAt};

use crate::found::FoundAt;

/// An object that is told of the payloads of a document, one after the other, in reading order.
///
/// It can neither refuse one nor end the walk: what it has no room for, it keeps a note of.
pub trait Listener {
    /// From one state to the other it was told of this payload.
    ghost tells: { Self → Self → FoundAt → Type 0 };

    /// The next payload stands here.
    fn tell(&mut self, payload: FoundAt)
        ensures told { tells self.old self.new payload };
}
