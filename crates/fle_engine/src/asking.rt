//! What a caller asks a server for, as filters: the infos of a command's collection, and the keys that a command needs,
//! and a document that is to be opened, and that a vault lacks.

ghost use Rattle.std.specs.Prelude.{◌≡◌};
ghost use Rattle.bson_tree.specs.Spelling.{doc_bytes};
ghost use Rattle.bson_tree.specs.Tree.{Items};
ghost use Rattle.command_marker.specs.Commands.{collection_in};
ghost use Rattle.context_machine.specs.Asks.{collection_filter};
ghost use Rattle.context_machine.specs.Needs.{first_needs};
ghost use Rattle.context_machine.specs.Ready.{values_of};
ghost use Rattle.context_machine.specs.Rings.{needs_in};
ghost use Rattle.context_machine.specs.Waiting.{wanted_of};
ghost use Rattle.doc_rewrite.specs.Sites.{draws_of};
ghost use Rattle.encrypt_schema.specs.Commands.Targets.{rows_in, rows_of};
ghost use Rattle.fle_engine.specs.Answers.{AnswerIs};
ghost use Rattle.fle_engine.specs.Asked.{TellsDraws, asks, command_draws, filter_ruling, info_ruling, key_ruling};
ghost use Rattle.fle_engine.specs.Asked.{keys_ruling, payloads_ruling};
ghost use Rattle.fle_engine.specs.Rulings.{contents_with, makes, plain_plan};
ghost use Rattle.fle_outside.specs.Seen.{EntropySeen};
ghost use Rattle.payload6.specs.Needs.{need_seen};

use crate::answer::Answer;
use crate::refusing::refuse_fault;
use crate::starting::{Started, begin, start};
use bson_codec::RawDoc;
use context_machine::{
    Begun, DecryptNeedKeys, Need, NeedAt, NeedCollInfo, NeedKeys, NeedMarkings, filter_beside,
};
use encrypt_schema::Infos;
use fle_outside::Memory;
use key_vault::Vault;
use std::alloc::Global;

/// The filter of the collection's infos that a command of this database needs, by its fields alone; no byte where it
/// passes.
pub fn ask_for_info(alloc: Global, db: &[u8], command: &RawDoc<'_>) -> Answer
    requires whole { command.now.start ≡ 0 }
    ensures answers { (e : EntropySeen)
        → AnswerIs (info_ruling db.now command.now.tree) command.now.tree e e result }
{
    match begin(db, command) {
        Ok(Begun::Pass(_)) => Answer::Made(Vec::new(alloc)),
        Ok(Begun::Ask(state)) => match state.op(alloc) {
            Ok(bytes) => Answer::Made(bytes),
            Err(Memory) => Answer::Memory,
        },
        Err(fault) => refuse_fault(alloc, command, fault),
    }
}

/// The keys of a command that a vault lacks, and how many blocks the command draws.
#[derive(Drop)]
pub struct Asked {
    /// Their filter, no byte where none is lacking; or why there is none.
    pub answer: Answer,
    /// How many random blocks are drawn as the command is sealed; 0 where there is no filter.
    pub draws: usize,
}

/// The keys that a command of a database needs: its fields by themselves, then its collection, its contents.
pub fn ask_for_command(
    alloc: Global,
    db: &[u8],
    infos: &Infos,
    keys: &Vault,
    command: &RawDoc<'_>,
) -> Asked
    requires whole { command.now.start ≡ 0 }
    ensures answers { (e : EntropySeen)
        → AnswerIs (keys_ruling keys.now infos.now db.now command.now.tree) command.now.tree e e
        result.answer }
    ensures draws { TellsDraws (command_draws (rows_of infos.now command.now.tree) command.now.tree)
        result.answer result.draws }
{
    match start(db, infos, command) {
        Ok(Started::Passing) => Asked {
            answer: Answer::Made(Vec::new(alloc)),
            draws: 0,
        },
        Ok(Started::Marking(state)) => ask_by_contents(alloc, state, keys),
        Err(fault) => Asked {
            answer: refuse_fault(alloc, command, fault),
            draws: 0,
        },
    }
}

/// The keys that a command needs by its contents, under the rules of its collection.
fn ask_by_contents(alloc: Global, state: NeedMarkings<'_>, keys: &Vault) -> Asked
    requires whole { state.command.start ≡ 0 }
    ensures answers { (e : EntropySeen)
        → AnswerIs (contents_with (asks keys.now) (rows_in state.entry.info) state.entry.command.tree)
        state.entry.command.tree e e result.answer }
    ensures draws { TellsDraws (draws_of (values_of state.entry.info state.entry.command)) result.answer result.draws }
{
    match state.mark_here(alloc) {
        Ok(state) => ask_keys(alloc, &state, keys),
        Err((state, fault)) => Asked {
            answer: refuse_fault(alloc, state.command(), fault),
            draws: 0,
        },
    }
}

/// The keys that a command needs which isn't refused.
pub(crate) fn ask_keys(alloc: Global, state: &NeedKeys<'_>, keys: &Vault) -> Asked
    ensures answers { (c : Items) (e : EntropySeen)
        → AnswerIs (filter_ruling keys.now (wanted_of state.now.info state.now.command)) c e e result.answer }
    ensures draws { TellsDraws (draws_of (values_of state.now.info state.now.command)) result.answer result.draws }
{
    match state.op_beside(alloc, keys) {
        Ok(bytes) => Asked {
            answer: Answer::Made(bytes),
            draws: state.draws(),
        },
        Err(Memory) => Asked {
            answer: Answer::Memory,
            draws: 0,
        },
    }
}

/// The keys that a document needs which is to be opened: the lengths of its payloads, then their keys.
pub fn ask_for_document(alloc: Global, keys: &Vault, document: &RawDoc<'_>) -> Answer
    requires whole { document.now.start ≡ 0 }
    ensures answers { (e : EntropySeen)
        → AnswerIs (payloads_ruling keys.now document.now.tree) document.now.tree e e result }
{
    match DecryptNeedKeys::begin(alloc, document.again()) {
        Ok(state) => ask_ids(alloc, &state, keys),
        Err(fault) => refuse_fault(alloc, document, fault),
    }
}

/// The keys that a document needs whose payloads have the lengths of payloads.
fn ask_ids(alloc: Global, state: &DecryptNeedKeys<'_>, keys: &Vault) -> Answer
    ensures answers { (d : Items) (e : EntropySeen)
        → AnswerIs (filter_ruling keys.now (first_needs (needs_in state.now.document))) d e e result }
{
    match state.op_beside(alloc, keys) {
        Ok(bytes) => Answer::Made(bytes),
        Err(Memory) => Answer::Memory,
    }
}

/// The key that an id or an alternate name leads to, where a vault lacks it.
pub fn ask_for_key(alloc: Global, keys: &Vault, need: Need<'_>) -> Answer
    ensures answers { (d : Items) (e : EntropySeen)
        → AnswerIs (key_ruling keys.now (need_seen need.entry)) d e e result }
{
    match filter_beside(alloc, &[NeedAt { need, at: 0 }], keys) {
        Ok(bytes) => Answer::Made(bytes),
        Err(Memory) => Answer::Memory,
    }
}
