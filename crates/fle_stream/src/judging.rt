//! Judges: what makes an output of each document in memory, or refuses it.

ghost use Rattle.std.specs.Prelude.{◌≡◌, ◌^◌, ◌≤◌, length};
ghost use Rattle.bson_tree.specs.Spelling.{doc_bytes};
ghost use Rattle.bson_tree.specs.Tree.{Items};
ghost use Rattle.fle_outside.specs.Seen.{EntropySeen};
ghost use Rattle.fle_stream.specs.Judge.{JudgeIs};
ghost use Rattle.fle_stream.specs.Plan.{Verdict};
ghost use Rattle.fle_stream.specs.Write.{WriteIs};

use crate::one_by_one::DocumentWriter;
use crate::why::{Bound, Cut, Finish, Number, Why};
use bson_codec::RawDoc;
use bson_tree::Place;
use fle_outside::{Entropy, Failed, Sink, write_whole};
use std::alloc::Global;

/// What a judge says of a document.
#[derive(Drop)]
pub enum Judged {
    /// The output document.
    Written(Vec<u8>),
    /// The document is refused, for a reason, at a place.
    Refused(Number, Place),
    /// The output would be above its limit.
    TooLong,
    /// A random block couldn't be drawn.
    Undrawn,
    /// There was no memory.
    Memory,
}

/// What makes an output of each document, or refuses it.
pub trait Judge {
    /// What a document comes to.
    ghost verdict: { Self → Items → Verdict };

    /// What each judgement needs, such as that the block cipher of its hooks answers by its standard.
    ghost ready: { Self → Type 0 };

    /// Judges a document, whose offsets are from 0; that it is one, its `bytes()` tells.
    fn judge<N: Entropy>(&mut self, alloc: Global, document: &RawDoc<'_>, entropy: &mut N) -> Judged
        requires small { length (doc_bytes document.now.tree) ≤ 2 ^ 24 }
        requires whole { document.now.start ≡ 0 }
        requires ready { ready self.old }
        ensures ready { ready self.new }
        ensures same { verdict self.new ≡ verdict self.old }
        ensures judged { JudgeIs (verdict self.old document.now.tree) (N.seen entropy.old)
            (N.seen entropy.new) result };
}

/// The writer of a judge's outputs, each written whole.
#[derive(Drop)]
pub struct Judging<J> {
    /// What judges the documents.
    pub judge: J,
}

impl<J: Judge> DocumentWriter for Judging<J> {
    ghost verdict = { λ s. J.verdict s.judge };

    ghost ready = { λ s. J.ready s.judge };

    fn write_document<O: Sink, N: Entropy>(
        &mut self,
        alloc: Global,
        document: &RawDoc<'_>,
        out: &mut O,
        entropy: &mut N,
    ) -> Result<(), Why> {
        write_judged(self.judge.judge(alloc, document, entropy), out)
    }
}

/// Writes the output that was made of a document whole, or says why the run ends there.
pub(crate) fn write_judged<O: Sink>(judged: Judged, out: &mut O) -> Result<(), Why>
    ensures wrote { (v : Verdict) (before now : EntropySeen) → JudgeIs v before now judged
        → WriteIs v before now (O.seen out.old) (O.seen out.new) result }
{
    match judged {
        Judged::Written(output) => match write_whole(out, &output) {
            Ok(()) => Ok(()),
            Err(Failed) => Err(Why::Cut(Cut::Output)),
        },
        Judged::Refused(reason, place) => Err(Why::Finished(Finish::Refused(reason, place))),
        Judged::TooLong => Err(Why::Finished(Finish::Limit(Bound::Output))),
        Judged::Undrawn => Err(Why::Cut(Cut::Entropy)),
        Judged::Memory => Err(Why::Cut(Cut::Memory)),
    }
}
