//! What becomes of an element while its document is spliced.

ghost use Rattle.std.specs.Prelude.{List, Option};
ghost use Rattle.bson_splice.specs.Spans.{AreFits};
ghost use Rattle.bson_splice.specs.Splices.{Put};
ghost use Rattle.bson_splice.specs.Steps.{IsOwn, StepsAs, StepsBy};

use crate::putter::Putter;
use bson_codec::{RawDoc, RawItem};

/// What becomes of an element.
pub enum Step<'a> {
    /// It stays as it is.
    Keep,
    /// Its value's place is taken.
    Put,
    /// A place inside its document is taken.
    Open(RawDoc<'a>),
}

/// What becomes of an element, by where the next value begins whose place is taken; `None` where none is left.
pub fn step_by<'a>(next_start: Option<usize>, item: &RawItem<'a>) -> Step<'a>
    ensures step { StepsBy next_start item.now result }
{
    let first = match next_start {
        Some(first) => first,
        None => return Step::Keep,
    };
    if first == item.start() {
        return Step::Put;
    }
    let end = item.start() + item.value().len();
    match item.child() {
        Some(document) => if first < end {
            Step::Open(document)
        } else {
            Step::Keep
        },
        None => Step::Keep,
    }
}

/// What becomes of an element, by the next value whose place is taken.
pub(crate) fn step_of<'a, P: Putter>(putter: &P, item: &RawItem<'a>) -> Step<'a>
    ensures step { (ps : List Put) → AreFits (P.spans putter.now) ps → StepsAs item.now ps result }
    ensures own { IsOwn (P.spans putter.now) item.now result }
{
    step_by(putter.next_start(), item)
}
