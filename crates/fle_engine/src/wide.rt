//! Commands that a library sends, marked and sealed, and what is asked for before: a clear one passes with its own
//! fields; any other is judged under the rules of its collection.

ghost use Rattle.std.specs.Prelude.{◌≡◌};
ghost use Rattle.bson_tree.specs.Spelling.{doc_bytes};
ghost use Rattle.context_machine.specs.Rings.{finder};
ghost use Rattle.fle_engine.specs.Answers.{AnswerIs};
ghost use Rattle.fle_engine.specs.Asked.{TellsDraws};
ghost use Rattle.fle_engine.specs.Replies.{sized};
ghost use Rattle.fle_engine.specs.Wide.{wide_draws, wide_info_ruling, wide_keys_ruling, wide_marking, wide_ruling};
ghost use Rattle.fle_outside.specs.Seen.{EntropySeen};

use crate::answer::Answer;
use crate::asking::Asked;
use crate::marker::answer_reply;
use crate::more::{reply_to_more, seal_more};
use crate::more_asking::{ask_for_more, ask_for_more_info};
use crate::opener::Opener;
use crate::refusing::refuse;
use bson_codec::RawDoc;
use clear_commands::{ClearVerdict, judge_clear};
use command_marker::reply_clear;
use crypto_hooks::Block256;
use encrypt_schema::Infos;
use fle_outside::Entropy;
use key_vault::Vault;
use std::alloc::Global;

/// The most bytes of a command that passes.
const MOST: usize = 48_000_000;

/// The command of a database with its protected values sealed, as `Engine::seal_more`: its fields by themselves, then
/// its collection, its contents and what a library refuses beyond these, its keys. A clear one stays as it is.
pub fn seal_wide<B: Block256, N: Entropy>(
    alloc: Global,
    db: &[u8],
    infos: &Infos,
    opener: &mut Opener,
    hooks: &B,
    command: &RawDoc<'_>,
    entropy: &mut N,
) -> Answer
    requires hooks { B.answers hooks.now }
    requires whole { command.now.start ≡ 0 }
    ensures same { (opener.new.keys ≡ opener.old.keys) × (opener.new.cache.master ≡ opener.old.cache.master) }
    ensures answers { AnswerIs
        (wide_ruling (finder opener.old.keys opener.old.cache.master) infos.now db.now command.now.tree)
        command.now.tree (N.seen entropy.old) (N.seen entropy.new) result }
{
    match judge_clear(command) {
        ClearVerdict::NotClear => seal_more(alloc, db, infos, opener, hooks, command, entropy),
        ClearVerdict::Clear => copy_command(alloc, command),
        ClearVerdict::Refused { reason, at } => refuse(alloc, command, reason, at),
    }
}

/// A command that stays as it is.
fn copy_command(alloc: Global, command: &RawDoc<'_>) -> Answer
    requires whole { command.now.start ≡ 0 }
    ensures answers { (e : EntropySeen)
        → AnswerIs (sized (doc_bytes command.now.tree)) command.now.tree e e result }
{
    let bytes = command.bytes();
    if MOST < bytes.len() {
        return Answer::TooLong;
    }
    match Vec::from_slice(alloc, bytes) {
        Ok(bytes) => Answer::Made(bytes),
        Err(_) => Answer::Memory,
    }
}

/// The marking reply to a command of a database, as `Marker::mark_more`.
pub fn reply_to_wide(alloc: Global, db: &[u8], infos: &Infos, command: &RawDoc<'_>) -> Answer
    requires whole { command.now.start ≡ 0 }
    ensures answers { (e : EntropySeen)
        → AnswerIs (wide_marking infos.now db.now command.now.tree) command.now.tree e e result }
{
    match judge_clear(command) {
        ClearVerdict::NotClear => reply_to_more(alloc, db, infos, command),
        ClearVerdict::Clear => answer_reply(reply_clear(alloc, command)),
        ClearVerdict::Refused { reason, at } => refuse(alloc, command, reason, at),
    }
}

/// The filter of the collection's infos that a command needs which a library sends to this database, by its fields
/// alone; no byte where it needs none.
pub fn ask_for_wide_info(alloc: Global, db: &[u8], command: &RawDoc<'_>) -> Answer
    requires whole { command.now.start ≡ 0 }
    ensures answers { (e : EntropySeen)
        → AnswerIs (wide_info_ruling db.now command.now.tree) command.now.tree e e result }
{
    match judge_clear(command) {
        ClearVerdict::NotClear => ask_for_more_info(alloc, db, command),
        ClearVerdict::Clear => Answer::Made(Vec::new(alloc)),
        ClearVerdict::Refused { reason, at } => refuse(alloc, command, reason, at),
    }
}

/// The keys that a command needs which a library sends to this database: its fields by themselves, then its
/// collection, its contents and what a library refuses beyond these. A clear one needs none.
pub fn ask_for_wide(
    alloc: Global,
    db: &[u8],
    infos: &Infos,
    keys: &Vault,
    command: &RawDoc<'_>,
) -> Asked
    requires whole { command.now.start ≡ 0 }
    ensures answers { (e : EntropySeen)
        → AnswerIs (wide_keys_ruling keys.now infos.now db.now command.now.tree) command.now.tree e e
        result.answer }
    ensures draws { TellsDraws (wide_draws infos.now command.now.tree) result.answer result.draws }
{
    match judge_clear(command) {
        ClearVerdict::NotClear => ask_for_more(alloc, db, infos, keys, command),
        ClearVerdict::Clear => Asked {
            answer: Answer::Made(Vec::new(alloc)),
            draws: 0,
        },
        ClearVerdict::Refused { reason, at } => Asked {
            answer: refuse(alloc, command, reason, at),
            draws: 0,
        },
    }
}
