//! `demo DB N`: a key and N commands are made by generators, each command is sealed and opened again, and a line sums
//! it up.

ghost use Rattle.std.specs.Prelude.{◌≤◌, length};
ghost use Rattle.fle_outside.specs.Seen.{EntropySeen, FolderSeen, SourceSeen};
ghost use Rattle.fle_runner.specs.Demo.{demo_task};
ghost use Rattle.fle_runner.specs.Keys.{IsOfText};
ghost use Rattle.fle_stream.specs.Acted.{Acted, AreAny, objects};
ghost use Rattle.fle_stream.specs.Task.{one_document};

use crypto_hooks::Block256;
use fle_demo::demo_line;
use fle_outside::{Memory, Sink};
use fle_stream::{Cut, End, Why, write_made};
use std::alloc::Global;

/// Writes the line of N commands. It reads nothing, and draws no block.
pub fn demo<O: Sink, B: Block256>(alloc: Global, db: &str, n: u32, out: &mut O, hooks: &B) -> End
    requires hooks { B.answers hooks.now }
    requires short { length db.now ≤ 63 }
    requires few { n ≤ 100000 }
    ensures run { (input : SourceSeen) (files : FolderSeen) (e : EntropySeen) → Acted AreAny (λ _. demo_task db.now n)
        one_document (objects input files (O.seen out.old) e) (objects input files (O.seen out.new) e) result }
    ensures kind { IsOfText result.why }
{
    match demo_line(alloc, db.as_bytes(), n, hooks) {
        Ok(text) => write_made(out, &text),
        Err(Memory) => End::unread(Why::Cut(Cut::Memory)),
    }
}
