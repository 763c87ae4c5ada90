//! What a library asks a server for before it sends a command: the info of the command's collection, and the keys that
//! a vault lacks.

ghost use Rattle.std.specs.Prelude.{◌≡◌};
ghost use Rattle.context_machine.specs.Ready.{values_of};
ghost use Rattle.doc_rewrite.specs.Sites.{draws_of};
ghost use Rattle.encrypt_schema.specs.Commands.Targets.{rows_in, rows_of};
ghost use Rattle.fle_engine.specs.Answers.{AnswerIs};
ghost use Rattle.fle_engine.specs.Asked.{TellsDraws, asks, command_draws};
ghost use Rattle.fle_engine.specs.More.{more_contents, more_info_ruling, more_keys_ruling};
ghost use Rattle.fle_outside.specs.Seen.{EntropySeen};

use crate::answer::Answer;
use crate::asking::{Asked, ask_keys};
use crate::refusing::refuse_fault;
use crate::starting::{Started, begin_more, start_more};
use bson_codec::RawDoc;
use context_machine::{Begun, NeedMarkings};
use encrypt_schema::Infos;
use fle_outside::Memory;
use key_vault::Vault;
use std::alloc::Global;

/// The filter of the collection's infos that a command needs which a library sends to this database, by its fields
/// alone; no byte where it passes.
pub(crate) fn ask_for_more_info(alloc: Global, db: &[u8], command: &RawDoc<'_>) -> Answer
    requires whole { command.now.start ≡ 0 }
    ensures answers { (e : EntropySeen)
        → AnswerIs (more_info_ruling db.now command.now.tree) command.now.tree e e result }
{
    match begin_more(db, command) {
        Ok(Begun::Pass(_)) => Answer::Made(Vec::new(alloc)),
        Ok(Begun::Ask(state)) => match state.op(alloc) {
            Ok(bytes) => Answer::Made(bytes),
            Err(Memory) => Answer::Memory,
        },
        Err(fault) => refuse_fault(alloc, command, fault),
    }
}

/// The keys that a command needs which a library sends to this database: its fields by themselves, then its
/// collection, its contents and what a library refuses beyond these.
pub(crate) fn ask_for_more(
    alloc: Global,
    db: &[u8],
    infos: &Infos,
    keys: &Vault,
    command: &RawDoc<'_>,
) -> Asked
    requires whole { command.now.start ≡ 0 }
    ensures answers { (e : EntropySeen)
        → AnswerIs (more_keys_ruling keys.now infos.now db.now command.now.tree) command.now.tree e e
        result.answer }
    ensures draws { TellsDraws (command_draws (rows_of infos.now command.now.tree) command.now.tree)
        result.answer result.draws }
{
    match start_more(db, infos, command) {
        Ok(Started::Passing) => Asked {
            answer: Answer::Made(Vec::new(alloc)),
            draws: 0,
        },
        Ok(Started::Marking(state)) => ask_by_more(alloc, state, keys),
        Err(fault) => Asked {
            answer: refuse_fault(alloc, command, fault),
            draws: 0,
        },
    }
}

/// The keys that such a command needs by its contents, under the rules of its collection.
fn ask_by_more(alloc: Global, state: NeedMarkings<'_>, keys: &Vault) -> Asked
    requires whole { state.command.start ≡ 0 }
    ensures answers { (e : EntropySeen)
        → AnswerIs (more_contents (asks keys.now) (rows_in state.entry.info) state.entry.command.tree)
        state.entry.command.tree e e result.answer }
    ensures draws { TellsDraws (draws_of (values_of state.entry.info state.entry.command)) result.answer result.draws }
{
    match state.mark_more(alloc) {
        Ok(state) => ask_keys(alloc, &state, keys),
        Err((state, fault)) => Asked {
            answer: refuse_fault(alloc, state.command(), fault),
            draws: 0,
        },
    }
}
