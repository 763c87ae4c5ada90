//! Verbs that write an output of each document of the input.

ghost use Rattle.std.specs.Prelude.{◌≡◌, ◌<◌};
ghost use Rattle.fle_outside.specs.Seen.{EntropySeen, FolderSeen};
ghost use Rattle.fle_stream.specs.Acted.{Acted, AreAny, objects};
ghost use Rattle.fle_stream.specs.Plan.{DrawsNone};
ghost use Rattle.fle_stream.specs.Task.{each, one_document, pairs, two_documents};
ghost use Rattle.fle_stream.specs.Turn.{IsOfStream};

use crate::end::End;
use crate::judging::{Judge, Judging};
use crate::no_blocks::NoBlocks;
use crate::one_by_one::{DocumentWriter, OneByOne};
use crate::pairing::{PairJudge, PairJudging};
use crate::turning::run_turns;
use crate::why::{Cut, Why};
use fle_outside::{Entropy, Sink, Source};
use std::alloc::Global;

/// Writes the output of each document of the input, until one ends the run.
pub fn write_stream<W: DocumentWriter + Drop, S: Source, O: Sink, N: Entropy>(
    alloc: Global,
    writer: W,
    input: &mut S,
    out: &mut O,
    entropy: &mut N,
) -> End
    requires ready { W.ready writer }
    ensures run { (files : FolderSeen) → Acted AreAny (λ _. each (W.verdict writer)) one_document
        (objects (S.seen input.old) files (O.seen out.old) (N.seen entropy.old))
        (objects (S.seen input.new) files (O.seen out.new) (N.seen entropy.new)) result }
    ensures kind { IsOfStream result.why }
    ensures numbered { 0 < result.number }
    ensures undrawn { DrawsNone (W.verdict writer) → result.why ≡ Why.Cut Cut.Entropy → ⊥ }
{
    let mut verb = OneByOne { writer };
    run_turns(alloc, &mut verb, input, out, entropy)
}

/// The same by a writer that draws no block, and asks no source of blocks: what was done is so whatever blocks are to
/// come.
pub fn write_without_blocks<W: DocumentWriter + Drop, S: Source, O: Sink>(
    alloc: Global,
    writer: W,
    input: &mut S,
    out: &mut O,
) -> End
    requires ready { W.ready writer }
    requires quiet { DrawsNone (W.verdict writer) }
    ensures run { (files : FolderSeen) (e : EntropySeen) → Acted AreAny (λ _. each (W.verdict writer)) one_document
        (objects (S.seen input.old) files (O.seen out.old) e) (objects (S.seen input.new) files (O.seen out.new) e)
        result }
    ensures kind { IsOfStream result.why }
    ensures numbered { 0 < result.number }
    ensures undrawn { result.why ≡ Why.Cut Cut.Entropy → ⊥ }
{
    write_stream(alloc, writer, input, out, &mut NoBlocks)
}

/// Judges each document of the input, and writes its output, until one ends the run.
pub fn judge_stream<J: Judge + Drop, S: Source, O: Sink, N: Entropy>(
    alloc: Global,
    judge: J,
    input: &mut S,
    out: &mut O,
    entropy: &mut N,
) -> End
    requires ready { J.ready judge }
    ensures run { (files : FolderSeen) → Acted AreAny (λ _. each (J.verdict judge)) one_document
        (objects (S.seen input.old) files (O.seen out.old) (N.seen entropy.old))
        (objects (S.seen input.new) files (O.seen out.new) (N.seen entropy.new)) result }
    ensures kind { IsOfStream result.why }
    ensures numbered { 0 < result.number }
    ensures undrawn { DrawsNone (J.verdict judge) → result.why ≡ Why.Cut Cut.Entropy → ⊥ }
{
    write_stream(alloc, Judging { judge }, input, out, entropy)
}

/// The same by a judge that draws no block.
pub fn judge_without_blocks<J: Judge + Drop, S: Source, O: Sink>(
    alloc: Global,
    judge: J,
    input: &mut S,
    out: &mut O,
) -> End
    requires ready { J.ready judge }
    requires quiet { DrawsNone (J.verdict judge) }
    ensures run { (files : FolderSeen) (e : EntropySeen) → Acted AreAny (λ _. each (J.verdict judge)) one_document
        (objects (S.seen input.old) files (O.seen out.old) e) (objects (S.seen input.new) files (O.seen out.new) e)
        result }
    ensures kind { IsOfStream result.why }
    ensures numbered { 0 < result.number }
    ensures undrawn { result.why ≡ Why.Cut Cut.Entropy → ⊥ }
{
    write_without_blocks(alloc, Judging { judge }, input, out)
}

/// Judges the documents of the input pair by pair, each first one after its answer, and writes its output, until one
/// ends the run.
pub fn judge_pairs<J: PairJudge + Drop, S: Source, O: Sink, N: Entropy>(
    alloc: Global,
    judge: J,
    input: &mut S,
    out: &mut O,
    entropy: &mut N,
) -> End
    requires ready { J.ready judge }
    ensures run { (files : FolderSeen) → Acted AreAny (λ _. pairs (J.pairing judge)) two_documents
        (objects (S.seen input.old) files (O.seen out.old) (N.seen entropy.old))
        (objects (S.seen input.new) files (O.seen out.new) (N.seen entropy.new)) result }
    ensures kind { IsOfStream result.why }
    ensures numbered { 0 < result.number }
    ensures undrawn { DrawsNone (J.pairing judge).comes → result.why ≡ Why.Cut Cut.Entropy → ⊥ }
{
    let mut verb = PairJudging { judge };
    run_turns(alloc, &mut verb, input, out, entropy)
}
