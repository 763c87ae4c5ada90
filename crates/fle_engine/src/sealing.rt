//! Commands sealed: from state to state, each with what is left to be done.

ghost use Rattle.std.specs.Prelude.{true, ◌≡◌, List, None, Some};
ghost use Rattle.command_marker.specs.Commands.{passes};
ghost use Rattle.context_machine.specs.Rings.{AreOpened, Finder, finder, needs_of};
ghost use Rattle.doc_rewrite.specs.Sites.{sites_of};
ghost use Rattle.encrypt_schema.specs.Commands.Targets.{rows_in};
ghost use Rattle.encrypt_schema.specs.Commands.Visits.{roles};
ghost use Rattle.encrypt_schema.specs.Language.Row.{Row};
ghost use Rattle.fle_engine.specs.Answers.{AnswerIs};
ghost use Rattle.fle_engine.specs.Rulings.{at_front, makes};
ghost use Rattle.fle_engine.specs.Sealing.{seal_contents, seal_ruling, seal_under, sealed_plan, wanted_by};
ghost use Rattle.fle_outside.specs.Seen.{EntropySeen};

use crate::answer::{Answer, Wanted};
use crate::opener::Opener;
use crate::refusing::{refuse_fault, refuse_stop};
use crate::starting::{Started, start};
use bson_codec::RawDoc;
use context_machine::{NeedKeys, NeedMarkings, Ready};
use crypto_hooks::Block256;
use encrypt_schema::Infos;
use fle_outside::{Entropy, Failed};
use key_vault::{KeyCache, Vault};
use std::alloc::Global;

/// The most bytes that a sealed command may have.
const MOST: usize = 48_000_000;

/// The command of a database with its protected values sealed, as `Engine::seal`: its fields by themselves, then its
/// collection, its contents, its keys.
pub fn seal_command<B: Block256, N: Entropy>(
    alloc: Global,
    db: &[u8],
    infos: &Infos,
    opener: &mut Opener,
    hooks: &B,
    command: &RawDoc<'_>,
    entropy: &mut N,
) -> Answer
    requires hooks { B.answers hooks.now }
    requires whole { command.now.start ≡ 0 }
    ensures same { (opener.new.keys ≡ opener.old.keys) × (opener.new.cache.master ≡ opener.old.cache.master) }
    ensures answers { AnswerIs
        (seal_ruling (finder opener.old.keys opener.old.cache.master) infos.now db.now command.now.tree)
        command.now.tree (N.seen entropy.old) (N.seen entropy.new) result }
{
    match start(db, infos, command) {
        Ok(Started::Passing) => pass_command(alloc, command),
        Ok(Started::Marking(state)) => seal_by_contents(
            alloc,
            state,
            &opener.keys,
            &mut opener.cache,
            hooks,
            entropy,
        ),
        Err(fault) => refuse_fault(alloc, command, fault),
    }
}

/// A command that passes stays as it is.
pub(crate) fn pass_command(alloc: Global, command: &RawDoc<'_>) -> Answer
    requires whole { command.now.start ≡ 0 }
    requires passes { passes command.now.tree ≡ true }
    ensures answers { (keys : Finder) (rows : List Row) (e : EntropySeen)
        → AnswerIs (seal_under keys rows command.now.tree) command.now.tree e e result }
{
    let bytes = command.bytes();
    if MOST < bytes.len() {
        return Answer::TooLong;
    }
    match Vec::from_slice(alloc, bytes) {
        Ok(bytes) => Answer::Made(bytes),
        Err(_) => Answer::Memory,
    }
}

/// Seals a command by its contents, under the rules of its collection.
fn seal_by_contents<B: Block256, N: Entropy>(
    alloc: Global,
    state: NeedMarkings<'_>,
    keys: &Vault,
    cache: &mut KeyCache,
    hooks: &B,
    entropy: &mut N,
) -> Answer
    requires hooks { B.answers hooks.now }
    requires whole { state.command.start ≡ 0 }
    ensures master { cache.new.master ≡ cache.old.master }
    ensures answers { AnswerIs
        (seal_contents (finder keys.now cache.old.master) (rows_in state.entry.info) state.entry.command.tree)
        state.entry.command.tree (N.seen entropy.old) (N.seen entropy.new) result }
{
    match state.mark_here(alloc) {
        Ok(state) => seal_marked(alloc, state, keys, cache, hooks, entropy),
        Err((state, fault)) => refuse_fault(alloc, state.command(), fault),
    }
}

/// Seals a command whose contents aren't refused: its keys and its length.
pub(crate) fn seal_marked<B: Block256, N: Entropy>(
    alloc: Global,
    state: NeedKeys<'_>,
    keys: &Vault,
    cache: &mut KeyCache,
    hooks: &B,
    entropy: &mut N,
) -> Answer
    requires hooks { B.answers hooks.now }
    requires whole { state.command.start ≡ 0 }
    ensures master { cache.new.master ≡ cache.old.master }
    ensures answers { AnswerIs
        (seal_under (finder keys.now cache.old.master) (rows_in state.entry.info) state.entry.command.tree)
        state.entry.command.tree (N.seen entropy.old) (N.seen entropy.new) result }
{
    match state.done_from_vault(alloc, keys, cache, hooks) {
        Ok(state) => seal_ready(state, hooks, entropy),
        Err((state, stop)) => refuse_stop(alloc, state.command(), stop),
    }
}

/// Seals a command whose keys are there.
fn seal_ready<B: Block256, N: Entropy>(state: Ready<'_>, hooks: &B, entropy: &mut N) -> Answer
    requires hooks { B.answers hooks.now }
    requires whole { state.command.start ≡ 0 }
    ensures answers { (keys : Finder)
        → AreOpened keys (needs_of (rows_in state.entry.info) state.entry.command) state.entry.table
        → AnswerIs (makes (sealed_plan keys (sites_of (rows_in state.entry.info) (at_front state.entry.command.tree)
        (roles (rows_in state.entry.info) 0 state.entry.command.tree)) state.entry.command.tree))
        state.entry.command.tree (N.seen entropy.old) (N.seen entropy.new) result }
{
    match state.finalize(hooks, entropy) {
        Ok(done) => Answer::Made(done.into_bytes()),
        Err((state, Failed)) => Answer::Undrawn(wanted_by(&state)),
    }
}

/// What a command wants whose keys are there.
fn wanted_by(state: &Ready<'_>) -> Wanted
    ensures wanted { result ≡ wanted_by state.now.info state.now.command }
{
    Wanted {
        size: state.output_len(),
        draws: state.draws(),
    }
}
