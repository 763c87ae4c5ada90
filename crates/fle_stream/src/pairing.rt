//! Verbs that judge the documents of the input pair by pair: a document, and the one behind it, which answers it.

ghost use Rattle.std.specs.Prelude.{◌≡◌, ◌<◌, ◌≤◌, ◌^◌, None, length};
ghost use Rattle.bson_tree.specs.Spelling.{doc_bytes};
ghost use Rattle.fle_stream.specs.Check.{CheckIs};
ghost use Rattle.fle_stream.specs.Judge.{JudgeIs};
ghost use Rattle.fle_stream.specs.Pairs.{Pairing};
ghost use Rattle.fle_stream.specs.Plan.{DrawsNone};
ghost use Rattle.fle_stream.specs.Task.{pairs, two_documents};
ghost use Rattle.fle_stream.specs.Turn.{EndsBy, EndsOfStream, Progresses, TookBehind};
ghost use Rattle.fle_stream.specs.Turned.{HasRead, TurnDid, devices};

use crate::judging::{Judged, write_judged};
use crate::next::{Next, next_document};
use crate::turning::{First, STREAM_LIMIT, Turn, Verb, ended, refused, turn_of};
use crate::why::{Bound, Cut, Finish, Number, Why};
use bson_codec::{RawDoc, check_bson};
use bson_tree::Place;
use fle_outside::{Entropy, Sink, Source};
use std::alloc::Global;

/// The largest second document of a pair, in bytes.
const ANSWER_LIMIT: u32 = 48_000_000;

/// What a check says of a document.
#[derive(Drop)]
pub enum Checked {
    /// It isn't refused.
    Passes,
    /// It is refused, for a reason, at a place.
    Refused(Number, Place),
    /// There was no memory.
    Memory,
}

/// What checks the documents of a pair, and then makes an output of the first, or refuses it.
pub trait PairJudge {
    /// Which first documents are refused by themselves, which second ones as answers to them, and what a first document
    /// comes to whose answer isn't refused.
    ghost pairing: { Self → Pairing };

    /// What each judgement needs, such as that the block cipher of its hooks answers by its standard.
    ghost ready: { Self → Type 0 };

    /// The number of the reason where there is no second document.
    fn missing(&self) -> Number
        ensures missing { result ≡ (pairing self.now).missing };

    /// Checks a first document by itself.
    fn open(&self, alloc: Global, document: &RawDoc<'_>) -> Checked
        requires whole { document.now.start ≡ 0 }
        ensures checked { CheckIs ((pairing self.now).opens document.now.tree) result };

    /// Checks a second document as an answer to a first one that isn't refused by itself.
    fn answer(&self, alloc: Global, document: &RawDoc<'_>, answer: &RawDoc<'_>) -> Checked
        requires whole { document.now.start ≡ 0 }
        requires front { answer.now.start ≡ 0 }
        requires opened { (pairing self.now).opens document.now.tree ≡ None }
        ensures checked { CheckIs ((pairing self.now).answers document.now.tree answer.now.tree) result };

    /// Judges a first document whose answer isn't refused.
    fn judge<N: Entropy>(&mut self, alloc: Global, document: &RawDoc<'_>, entropy: &mut N) -> Judged
        requires small { length (doc_bytes document.now.tree) ≤ 2 ^ 24 }
        requires whole { document.now.start ≡ 0 }
        requires opened { (pairing self.old).opens document.now.tree ≡ None }
        requires ready { ready self.old }
        ensures ready { ready self.new }
        ensures same { pairing self.new ≡ pairing self.old }
        ensures judged { JudgeIs ((pairing self.old).comes document.now.tree) (N.seen entropy.old)
            (N.seen entropy.new) result };
}

/// The verb of such a judge: two documents a turn.
#[derive(Drop)]
pub struct PairJudging<J> {
    /// What judges the pairs.
    pub judge: J,
}

impl<J: PairJudge> Verb for PairJudging<J> {
    ghost task = { λ s. pairs (J.pairing s.judge) };

    ghost ready = { λ s. J.ready s.judge };

    ghost quiet = { λ s. DrawsNone (J.pairing s.judge).comes };

    fn go_on<S: Source, O: Sink, N: Entropy>(
        &mut self,
        alloc: Global,
        first: &First<'_>,
        input: &mut S,
        out: &mut O,
        entropy: &mut N,
    ) -> Turn {
        match self.judge.open(alloc, &first.document) {
            Checked::Passes => judge_pair(alloc, &mut self.judge, first, input, out, entropy),
            Checked::Refused(reason, place) => refused(first.number, reason, place),
            Checked::Memory => ended(first.number, Why::Cut(Cut::Memory)),
        }
    }
}

/// Reads the answer to a first document that isn't refused by itself, checks it, judges the first document, and writes
/// its output.
fn judge_pair<J: PairJudge, S: Source, O: Sink, N: Entropy>(
    alloc: Global,
    judge: &mut J,
    first: &First<'_>,
    input: &mut S,
    out: &mut O,
    entropy: &mut N,
) -> Turn
    requires ready { J.ready judge.old }
    requires short { length (doc_bytes first.now.document.tree) ≤ 2 ^ 24 }
    requires whole { first.now.document.start ≡ 0 }
    requires begun { first.now.taken < 2 ^ 40 }
    requires least { 5 ≤ first.now.size }
    requires most { first.now.size ≤ 2 ^ 24 }
    requires small { first.now.number < 2 ^ 41 }
    requires opened { (J.pairing judge.old).opens first.now.document.tree ≡ None }
    ensures ready { J.ready judge.new }
    ensures same { J.pairing judge.new ≡ J.pairing judge.old }
    ensures progress { Progresses two_documents first.now.taken result }
    ensures kind { EndsOfStream result }
    ensures took { TookBehind two_documents first.now.size first.now.number (S.seen input.old).taken
        (S.seen input.new).taken result }
    ensures did { TurnDid (pairs (J.pairing judge.old)) first.now.number first.now.taken
        (HasRead (pairs (J.pairing judge.old)) first.now.size first.now.document.tree (S.seen input.old))
        (devices (S.seen input.old) (O.seen out.old) (N.seen entropy.old))
        (devices (S.seen input.new) (O.seen out.new) (N.seen entropy.new)) result }
    ensures undrawn { DrawsNone (J.pairing judge.old).comes
        → (EndsBy Cut.Entropy result → ⊥) × DrawsNone (J.pairing judge.new).comes }
{
    let number = first.number;
    let begun = first.taken + first.size as u64;
    if STREAM_LIMIT <= begun {
        return ended(number + 1, Why::Finished(Finish::Limit(Bound::Stream)));
    }
    match next_document(alloc, input, ANSWER_LIMIT) {
        Next::Framed(bytes) => match check_bson(&bytes) {
            Ok(answer) => match judge.answer(alloc, &first.document, &answer) {
                Checked::Passes => {
                    let judged = judge.judge(alloc, &first.document, entropy);
                    turn_of(
                        write_judged(judged, out),
                        number,
                        first.size + bytes.len(),
                        2,
                    )
                }
                Checked::Refused(reason, place) => refused(number + 1, reason, place),
                Checked::Memory => ended(number, Why::Cut(Cut::Memory)),
            },
            Err(fault) => ended(number + 1, Why::Finished(Finish::Malformed(fault))),
        },
        Next::Nothing => refused(number, judge.missing(), Place::from_vec(Vec::new(alloc))),
        Next::Stops(why) => ended(number + 1, why),
    }
}
