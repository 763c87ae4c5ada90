//! `show`: the text of each document, after MongoDB Extended JSON v2, and a line feed.

ghost use Rattle.std.specs.Prelude.{⊤, ◌≡◌, ◌<◌};
ghost use Rattle.fle_outside.specs.Seen.{EntropySeen, FolderSeen};
ghost use Rattle.fle_runner.specs.Show.{show_task, show_verdict};
ghost use Rattle.fle_stream.specs.Acted.{Acted, AreAny, objects};
ghost use Rattle.fle_stream.specs.Task.{one_document};
ghost use Rattle.fle_stream.specs.Turn.{IsOfStream};

use bson_codec::{RawDoc, place_at};
use ext_json::{NOT_TEXT, Piece, Shown, show_whole};
use fle_outside::{Entropy, Memory, Sink, Source};
use fle_stream::{Cut, DocumentWriter, End, Finish, Number, Why, write_without_blocks};
use std::alloc::Global;

/// What shows documents: the piece in which their texts are written.
#[derive(Drop)]
struct Shower {
    /// The piece, which holds nothing between two documents that has a meaning.
    piece: Piece,
}

impl DocumentWriter for Shower {
    ghost verdict = { λ _. show_verdict };

    ghost ready = { λ _. ⊤ };

    fn write_document<O: Sink, N: Entropy>(
        &mut self,
        alloc: Global,
        document: &RawDoc<'_>,
        out: &mut O,
        _entropy: &mut N,
    ) -> Result<(), Why> {
        match show_whole(document, b"\n", &mut self.piece, out) {
            Shown::Written => Ok(()),
            Shown::Bad(at) => match place_at(alloc, document, at) {
                Ok(place) => Err(Why::Finished(Finish::Refused(Number { value: NOT_TEXT }, place))),
                Err(Memory) => Err(Why::Cut(Cut::Memory)),
            },
            Shown::Failed => Err(Why::Cut(Cut::Output)),
        }
    }
}

/// Shows each document of the input. It reads no file and draws no block.
#[tactic(auto, using(crate::proofs::Shows::show_draws))]
pub fn show<S: Source, O: Sink>(alloc: Global, input: &mut S, out: &mut O) -> End
    ensures run { (files : FolderSeen) (e : EntropySeen) → Acted AreAny (λ _. show_task) one_document
        (objects (S.seen input.old) files (O.seen out.old) e) (objects (S.seen input.new) files (O.seen out.new) e)
        result }
    ensures kind { IsOfStream result.why }
    ensures numbered { 0 < result.number }
    ensures undrawn { result.why ≡ Why.Cut Cut.Entropy → ⊥ }
{
    let shower = Shower {
        piece: Piece::new(alloc),
    };
    write_without_blocks(alloc, shower, input, out)
}
