//! Verbs that read the documents of the input one by one, and write an output of each.

ghost use Rattle.std.specs.Prelude.{◌≡◌, ◌^◌, ◌≤◌, length};
ghost use Rattle.bson_tree.specs.Spelling.{doc_bytes};
ghost use Rattle.bson_tree.specs.Tree.{Items};
ghost use Rattle.fle_stream.specs.Plan.{Verdict, DrawsNone};
ghost use Rattle.fle_stream.specs.Task.{each};
ghost use Rattle.fle_stream.specs.Write.{WriteIs};

use crate::turning::{First, Turn, Verb, turn_of};
use crate::why::Why;
use bson_codec::RawDoc;
use fle_outside::{Entropy, Sink, Source};
use std::alloc::Global;

/// What writes the output of each document, or says why the run ends there.
pub trait DocumentWriter {
    /// What a document comes to.
    ghost verdict: { Self → Items → Verdict };

    /// What each output needs, such as that the block cipher of its hooks answers by its standard.
    ghost ready: { Self → Type 0 };

    /// Writes the output of a document, whose offsets are from 0; that it is one, its `bytes()` tells.
    fn write_document<O: Sink, N: Entropy>(
        &mut self,
        alloc: Global,
        document: &RawDoc<'_>,
        out: &mut O,
        entropy: &mut N,
    ) -> Result<(), Why>
        requires small { length (doc_bytes document.now.tree) ≤ 2 ^ 24 }
        requires whole { document.now.start ≡ 0 }
        requires ready { ready self.old }
        ensures ready { ready self.new }
        ensures same { verdict self.new ≡ verdict self.old }
        ensures wrote { WriteIs (verdict self.old document.now.tree) (N.seen entropy.old) (N.seen entropy.new)
            (O.seen out.old) (O.seen out.new) result };
}

/// The verb of such a writer: one document a turn.
#[derive(Drop)]
pub struct OneByOne<W> {
    /// What writes the outputs.
    pub writer: W,
}

impl<W: DocumentWriter> Verb for OneByOne<W> {
    ghost task = { λ s. each (W.verdict s.writer) };

    ghost ready = { λ s. W.ready s.writer };

    ghost quiet = { λ s. DrawsNone (W.verdict s.writer) };

    fn go_on<S: Source, O: Sink, N: Entropy>(
        &mut self,
        alloc: Global,
        first: &First<'_>,
        _input: &mut S,
        out: &mut O,
        entropy: &mut N,
    ) -> Turn {
        let wrote = self
            .writer
            .write_document(alloc, &first.document, out, entropy);
        turn_of(wrote, first.number, first.size, 1)
    }
}
