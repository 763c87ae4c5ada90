//! The loop of every verb that reads the input.

ghost use Rattle.std.specs.Prelude.{true, ◌≡◌, ◌^◌, ◌<◌, ◌≤◌, length};
ghost use Rattle.bson_tree.specs.Spelling.{doc_bytes};
ghost use Rattle.fle_outside.specs.Seen.{FolderSeen};
ghost use Rattle.fle_stream.specs.Acted.{Acted, AreAny, objects};
ghost use Rattle.fle_stream.specs.Task.{Task, pace_of, reads_input};
ghost use Rattle.fle_stream.specs.Turn.{EndsBy, EndsOfStream, IsOfStream, Progresses, TookBehind, TurnTook, turn_by};
ghost use Rattle.fle_stream.specs.Turned.{Has, HasRead, TurnDid, devices};

use crate::end::End;
use crate::next::{Next, next_document};
use crate::why::{Bound, Cut, Finish, Number, Why};
use bson_codec::{RawDoc, check_bson};
use bson_tree::Place;
use fle_outside::{Entropy, Sink, Source};
use std::alloc::Global;

/// A document is begun only where fewer bytes than this were taken before: 2^40.
pub(crate) const STREAM_LIMIT: u64 = 1_099_511_627_776;

/// The largest first document of a turn, in bytes.
const DOCUMENT_LIMIT: u32 = 16_777_216;

/// What one turn of a verb did.
#[derive(Drop)]
pub enum Turn {
    /// It wrote one output.
    Wrote {
        /// From so many bytes of the input.
        bytes: usize,
        /// They are so many documents.
        documents: u64,
    },
    /// It ended the run.
    Ended {
        /// The number of the document that it was at.
        number: u64,
        /// Why it ended.
        why: Why,
    },
}

/// A turn that ended the run at the document of this number.
pub(crate) fn ended(number: u64, why: Why) -> Turn
    ensures by { result ≡ Turn.Ended number why }
{
    Turn::Ended { number, why }
}

/// A turn that ended the run since the document of this number is refused, for a reason, at a place.
pub(crate) fn refused(number: u64, reason: Number, place: Place) -> Turn
    ensures by { result ≡ Turn.Ended number (Why.Finished (Finish.Refused reason place)) }
{
    ended(number, Why::Finished(Finish::Refused(reason, place)))
}

/// What a turn did that wrote an output of so many bytes of the input and so many documents from this number on, or why
/// it wrote none.
pub(crate) fn turn_of(wrote: Result<(), Why>, number: u64, bytes: usize, documents: u64) -> Turn
    ensures by { result ≡ turn_by number bytes documents wrote }
{
    match wrote {
        Ok(()) => Turn::Wrote { bytes, documents },
        Err(why) => Turn::Ended { number, why },
    }
}

/// The first document of a turn.
#[derive(Drop)]
pub struct First<'a> {
    /// The document.
    pub document: RawDoc<'a>,
    /// Its bytes.
    pub size: usize,
    /// Its number in the input.
    pub number: u64,
    /// The bytes of the input that were taken before it.
    pub taken: u64,
}

/// A verb that reads the input, and writes one output a turn.
pub trait Verb {
    /// What a run comes to, which documents one turn reads, and how many bytes they have at most.
    ghost task: { Self → Task };

    /// What each turn needs, such as that the block cipher of its hooks answers by its standard.
    ghost ready: { Self → Type 0 };

    /// That no turn draws a block.
    ghost quiet: { Self → Type 0 };

    /// Goes on with a turn whose first document was read: reads what else it needs, and writes the output.
    fn go_on<S: Source, O: Sink, N: Entropy>(
        &mut self,
        alloc: Global,
        first: &First<'_>,
        input: &mut S,
        out: &mut O,
        entropy: &mut N,
    ) -> Turn
        requires ready { ready self.old }
        requires short { length (doc_bytes first.now.document.tree) ≤ 2 ^ 24 }
        requires whole { first.now.document.start ≡ 0 }
        requires begun { first.now.taken < 2 ^ 40 }
        requires least { 5 ≤ first.now.size }
        requires most { first.now.size ≤ 2 ^ 24 }
        requires small { first.now.number < 2 ^ 41 }
        ensures ready { ready self.new }
        ensures same { task self.new ≡ task self.old }
        ensures progress { Progresses (pace_of (task self.old)) first.now.taken result }
        ensures kind { EndsOfStream result }
        ensures took { TookBehind (pace_of (task self.old)) first.now.size first.now.number (S.seen input.old).taken
            (S.seen input.new).taken result }
        ensures did { TurnDid (task self.old) first.now.number first.now.taken
            (HasRead (task self.old) first.now.size first.now.document.tree (S.seen input.old))
            (devices (S.seen input.old) (O.seen out.old) (N.seen entropy.old))
            (devices (S.seen input.new) (O.seen out.new) (N.seen entropy.new)) result }
        ensures undrawn { quiet self.old → (EndsBy Cut.Entropy result → ⊥) × quiet self.new };
}

/// Takes one turn of a verb: reads its first document, with which the verb goes on.
fn take_turn<T: Verb, S: Source, O: Sink, N: Entropy>(
    alloc: Global,
    verb: &mut T,
    number: u64,
    taken: u64,
    input: &mut S,
    out: &mut O,
    entropy: &mut N,
) -> Turn
    requires ready { T.ready verb.old }
    requires reads { reads_input (T.task verb.old) ≡ true }
    requires some { 0 < number }
    requires small { number < 2 ^ 41 }
    ensures ready { T.ready verb.new }
    ensures same { T.task verb.new ≡ T.task verb.old }
    ensures progress { Progresses (pace_of (T.task verb.old)) taken result }
    ensures kind { EndsOfStream result }
    ensures took { TurnTook (pace_of (T.task verb.old)) number (S.seen input.old).taken (S.seen input.new).taken
        result }
    ensures did { TurnDid (T.task verb.old) number taken (Has (S.seen input.old))
        (devices (S.seen input.old) (O.seen out.old) (N.seen entropy.old))
        (devices (S.seen input.new) (O.seen out.new) (N.seen entropy.new)) result }
    ensures undrawn { T.quiet verb.old → (EndsBy Cut.Entropy result → ⊥) × T.quiet verb.new }
{
    if STREAM_LIMIT <= taken {
        return ended(number, Why::Finished(Finish::Limit(Bound::Stream)));
    }
    match next_document(alloc, input, DOCUMENT_LIMIT) {
        Next::Framed(bytes) => match check_bson(&bytes) {
            Ok(document) => {
                let size = bytes.len();
                let first = First {
                    document,
                    size,
                    number,
                    taken,
                };
                verb.go_on(alloc, &first, input, out, entropy)
            }
            Err(fault) => ended(number, Why::Finished(Finish::Malformed(fault))),
        },
        Next::Nothing => ended(number, Why::Finished(Finish::Done)),
        Next::Stops(why) => ended(number, why),
    }
}

/// Takes turns of a verb until one ends the run.
pub fn run_turns<T: Verb, S: Source, O: Sink, N: Entropy>(
    alloc: Global,
    verb: &mut T,
    input: &mut S,
    out: &mut O,
    entropy: &mut N,
) -> End
    requires ready { T.ready verb.old }
    requires reads { reads_input (T.task verb.old) ≡ true }
    // What a run is, over any folder, which it doesn't read.
    ensures run { (files : FolderSeen) → Acted AreAny (λ _. T.task verb.old) (pace_of (T.task verb.old))
        (objects (S.seen input.old) files (O.seen out.old) (N.seen entropy.old))
        (objects (S.seen input.new) files (O.seen out.new) (N.seen entropy.new)) result }
    ensures kind { IsOfStream result.why }
    ensures numbered { 0 < result.number }
    ensures undrawn { T.quiet verb.old → result.why ≡ Why.Cut Cut.Entropy → ⊥ }
{
    let mut taken: u64 = 0;
    let mut number: u64 = 1;
    loop {
        match take_turn(alloc, verb, number, taken, input, out, entropy) {
            Turn::Wrote { bytes, documents } => {
                taken += bytes as u64;
                number += documents;
            }
            Turn::Ended { number, why } => return End { number, why },
        }
    }
}
