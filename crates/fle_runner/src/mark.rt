//! `mark DB SCHEMAS`: the marking reply to each command.

ghost use Rattle.std.specs.Prelude.{true, ◌≡◌, ◌<◌, ◌≤◌, List, ℕ, Some, [], ◌∷◌};
ghost use Rattle.fle_outside.specs.Counts.{Rose};
ghost use Rattle.fle_outside.specs.Files.{Files, file_of};
ghost use Rattle.fle_outside.specs.Seen.{AsksOnly, EntropySeen};
ghost use Rattle.fle_runner.specs.Mark.{mark_task};
ghost use Rattle.fle_stream.specs.Acted.{Acted, AreTold, objects};
ghost use Rattle.fle_stream.specs.Codes.{status_of};
ghost use Rattle.fle_stream.specs.Ended.{IsUnread};
ghost use Rattle.fle_stream.specs.Task.{one_document};

use crate::judging::Marking;
use fle_engine::Marker;
use fle_files::load_infos;
use fle_outside::{Folder, Memory, Sink, Source};
use fle_stream::{Cut, End, Finish, Why, judge_without_blocks};
use std::alloc::Global;

/// Marks each command of the input. It draws no block.
#[tactic(auto, using(crate::proofs::Marks::mark_draws))]
pub fn mark<S: Source, F: Folder, O: Sink>(
    alloc: Global,
    db: &str,
    schemas: &str,
    input: &mut S,
    files: &mut F,
    out: &mut O,
) -> End
    ensures run { (e : EntropySeen) → Acted AreTold (λ all. mark_task db.now (file_of all schemas.now)) one_document
        (objects (S.seen input.old) (F.seen files.old) (O.seen out.old) e)
        (objects (S.seen input.new) (F.seen files.new) (O.seen out.new) e) result }
    ensures asked { AsksOnly (schemas.now ∷ []) (F.seen files.old) (F.seen files.new) }
    ensures formed { result.why ≡ Why.Finished Finish.Words → ⊥ }
    ensures untouched { IsUnread (status_of result.why) → (input.new ≡ input.old) × (out.new ≡ out.old) }
    ensures undrawn { result.why ≡ Why.Cut Cut.Entropy → ⊥ }
{
    let infos = match load_infos(alloc, files, 1, schemas) {
        Ok(infos) => infos,
        Err(why) => return End::unread(why),
    };
    match Marker::new(alloc, db.as_bytes(), infos) {
        Ok(marker) => judge_without_blocks(alloc, Marking { marker }, input, out),
        Err(Memory) => End::unread(Why::Cut(Cut::Memory)),
    }
}
