//! Commands that a library sends, marked and sealed: more of them than insert, update, delete and find, and each
//! refused for what says a value where none belongs.

ghost use Rattle.std.specs.Prelude.{◌≡◌};
ghost use Rattle.context_machine.specs.Rings.{finder};
ghost use Rattle.encrypt_schema.specs.Commands.Targets.{rows_in};
ghost use Rattle.fle_engine.specs.Answers.{AnswerIs};
ghost use Rattle.fle_engine.specs.Replies.{replies};
ghost use Rattle.fle_engine.specs.Sealing.{seal_under};
ghost use Rattle.fle_engine.specs.More.{more_contents, more_marking, more_ruling};
ghost use Rattle.fle_outside.specs.Seen.{EntropySeen};

use crate::answer::Answer;
use crate::marker::answer_reply;
use crate::opener::Opener;
use crate::refusing::{refuse_fault, refuse_reply};
use crate::sealing::{pass_command, seal_marked};
use crate::starting::{Started, start_more};
use bson_codec::RawDoc;
use command_marker::reply_clear;
use context_machine::NeedMarkings;
use crypto_hooks::Block256;
use encrypt_schema::Infos;
use fle_outside::Entropy;
use key_vault::{KeyCache, Vault};
use std::alloc::Global;

/// The command of a database with its protected values sealed, as `Engine::seal_more`: its fields by themselves, then
/// its collection, its contents and what a library refuses beyond these, its keys.
pub(crate) fn seal_more<B: Block256, N: Entropy>(
    alloc: Global,
    db: &[u8],
    infos: &Infos,
    opener: &mut Opener,
    hooks: &B,
    command: &RawDoc<'_>,
    entropy: &mut N,
) -> Answer
    requires hooks { B.answers hooks.now }
    requires whole { command.now.start ≡ 0 }
    ensures same { (opener.new.keys ≡ opener.old.keys) × (opener.new.cache.master ≡ opener.old.cache.master) }
    ensures answers { AnswerIs
        (more_ruling (finder opener.old.keys opener.old.cache.master) infos.now db.now command.now.tree)
        command.now.tree (N.seen entropy.old) (N.seen entropy.new) result }
{
    match start_more(db, infos, command) {
        Ok(Started::Passing) => pass_command(alloc, command),
        Ok(Started::Marking(state)) => seal_contents(
            alloc,
            state,
            &opener.keys,
            &mut opener.cache,
            hooks,
            entropy,
        ),
        Err(fault) => refuse_fault(alloc, command, fault),
    }
}

/// Seals such a command by its contents, under the rules of its collection.
fn seal_contents<B: Block256, N: Entropy>(
    alloc: Global,
    state: NeedMarkings<'_>,
    keys: &Vault,
    cache: &mut KeyCache,
    hooks: &B,
    entropy: &mut N,
) -> Answer
    requires hooks { B.answers hooks.now }
    requires whole { state.command.start ≡ 0 }
    ensures master { cache.new.master ≡ cache.old.master }
    ensures answers { AnswerIs
        (more_contents (seal_under (finder keys.now cache.old.master)) (rows_in state.entry.info)
        state.entry.command.tree)
        state.entry.command.tree (N.seen entropy.old) (N.seen entropy.new) result }
{
    match state.mark_more(alloc) {
        Ok(state) => seal_marked(alloc, state, keys, cache, hooks, entropy),
        Err((state, fault)) => refuse_fault(alloc, state.command(), fault),
    }
}

/// The marking reply to a command of a database, as `Marker::mark_more`.
pub(crate) fn reply_to_more(alloc: Global, db: &[u8], infos: &Infos, command: &RawDoc<'_>) -> Answer
    requires whole { command.now.start ≡ 0 }
    ensures answers { (e : EntropySeen)
        → AnswerIs (more_marking infos.now db.now command.now.tree) command.now.tree e e result }
{
    match start_more(db, infos, command) {
        Ok(Started::Passing) => answer_reply(reply_clear(alloc, command)),
        Ok(Started::Marking(state)) => reply_contents(alloc, &state),
        Err(fault) => refuse_fault(alloc, command, fault),
    }
}

/// The reply to such a command by its contents, under the rules of its collection.
fn reply_contents(alloc: Global, state: &NeedMarkings<'_>) -> Answer
    requires whole { state.now.command.start ≡ 0 }
    ensures answers { (e : EntropySeen)
        → AnswerIs (more_contents replies (rows_in state.now.info) state.now.command.tree) state.now.command.tree e e
        result }
{
    match state.reply_more(alloc) {
        Ok(bytes) => Answer::Made(bytes),
        Err(stop) => refuse_reply(alloc, state.command(), stop),
    }
}
