//! What takes the places of values, as an object that writes it.

ghost use Rattle.std.specs.Prelude.{◌≡◌, ◌+◌, ◌<◌, ◌≤◌, ◌^◌, [], List, length, MatchOption};
ghost use Rattle.bson_splice.specs.Spans.{Span, IsNextAt, most_next};
ghost use Rattle.bson_splice.specs.Splices.{Put};
ghost use Rattle.bson_splice.specs.Splicing.{TellsPut};

use bson_codec::RawItem;

/// Nothing is put in, for a reason that the object knows.
#[derive(Clone, Copy, Debug, PartialEq, Eq)]
pub struct Stopped;

/// An object that writes values into a document, in reading order, each with its element.
pub trait Putter {
    /// The values whose places are still to be taken.
    ghost spans: { Self → List Span };

    /// From one state to the other this was put in.
    ghost puts: { Self → Self → Put → Type 0 };

    /// From one state to the other the next one was refused.
    ghost stops: { Self → Self → Type 0 };

    /// What each step needs, such as that a block cipher answers by its standard.
    ghost ready: { Self → Type 0 };

    /// Where the next value begins; `None` where no place is left to be taken.
    fn next_start(&self) -> Option<usize>
        ensures next { MatchOption result (spans self.now ≡ []) (λ at. IsNextAt (spans self.now) at) };

    /// Puts the element at offset `at` of `out`, with what takes the place of its value; the offset behind it.
    fn put_next(&mut self, item: &RawItem<'_>, out: &mut [u8], at: usize) -> Result<usize, Stopped>
        requires ready { ready self.old }
        requires next { IsNextAt (spans self.old) item.now.start }
        requires small { length out.old < 2 ^ 31 }
        requires room { at + 2 + length item.now.name + most_next (spans self.old) item.now.tree ≤ length out.old }
        ensures ready { ready self.new }
        ensures size { length out.new ≡ length out.old }
        ensures put { TellsPut puts stops spans item.now self.old self.new out.old out.new at result };
}
