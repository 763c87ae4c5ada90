//! Documents opened: the lengths of their payloads, then their keys, then each payload.

ghost use Rattle.std.specs.Prelude.{◌≡◌, None, length};
ghost use Rattle.bson_tree.specs.Spelling.{doc_bytes};
ghost use Rattle.context_machine.specs.Rings.{AreOpened, by_ids, needs_in, ring};
ghost use Rattle.doc_rewrite.specs.Founds.{payloads_of};
ghost use Rattle.doc_rewrite.specs.Opened.{Keyring, first_wrong, misshapen};
ghost use Rattle.fle_engine.specs.Answers.{AnswerIs, HasAtMost};
ghost use Rattle.fle_engine.specs.Opening.{open_ruling};
ghost use Rattle.fle_outside.specs.Seen.{EntropySeen};

use crate::answer::Answer;
use crate::refusing::{refuse, refuse_fault, refuse_stop};
use bson_codec::RawDoc;
use context_machine::{DecryptNeedKeys, DecryptReady};
use crypto_hooks::Block256;
use key_vault::{KeyCache, Vault};
use std::alloc::Global;

/// Opens a document: the lengths of its payloads, then their keys, then each payload.
pub fn open_document<B: Block256>(
    alloc: Global,
    document: RawDoc<'_>,
    keys: &Vault,
    cache: &mut KeyCache,
    hooks: &B,
) -> Answer
    requires hooks { B.answers hooks.now }
    requires whole { document.start ≡ 0 }
    ensures master { cache.new.master ≡ cache.old.master }
    ensures answers { (e : EntropySeen)
        → AnswerIs (open_ruling (ring keys.now cache.old.master) document.entry.tree) document.entry.tree e e
        result }
    ensures short { HasAtMost (length (doc_bytes document.entry.tree)) result }
{
    match DecryptNeedKeys::begin(alloc, document.again()) {
        Ok(state) => open_shaped(alloc, state, keys, cache, hooks),
        Err(fault) => refuse_fault(alloc, &document, fault),
    }
}

/// Opens a document whose payloads have the lengths of payloads.
fn open_shaped<B: Block256>(
    alloc: Global,
    state: DecryptNeedKeys<'_>,
    keys: &Vault,
    cache: &mut KeyCache,
    hooks: &B,
) -> Answer
    requires hooks { B.answers hooks.now }
    requires whole { state.document.start ≡ 0 }
    requires shaped { first_wrong misshapen (payloads_of state.document) ≡ None }
    ensures master { cache.new.master ≡ cache.old.master }
    ensures answers { (e : EntropySeen)
        → AnswerIs (open_ruling (ring keys.now cache.old.master) state.entry.document.tree)
        state.entry.document.tree e e result }
    ensures short { HasAtMost (length (doc_bytes state.entry.document.tree)) result }
{
    match state.done_from_vault(alloc, keys, cache, hooks) {
        Ok(state) => open_ready(alloc, state, hooks),
        Err((state, stop)) => refuse_stop(alloc, state.document(), stop),
    }
}

/// Opens a document whose keys are there.
fn open_ready<B: Block256>(alloc: Global, state: DecryptReady<'_>, hooks: &B) -> Answer
    requires hooks { B.answers hooks.now }
    requires whole { state.document.start ≡ 0 }
    ensures answers { (keys : Keyring) (e : EntropySeen)
        → AreOpened (by_ids keys) (needs_in state.entry.document) state.entry.table
        → AnswerIs (open_ruling keys state.entry.document.tree) state.entry.document.tree e e result }
    ensures short { HasAtMost (length (doc_bytes state.entry.document.tree)) result }
{
    let document = state.document().again();
    match state.finalize(hooks) {
        Ok(done) => Answer::Made(done.into_bytes()),
        Err(spot) => refuse(alloc, &document, spot.reason, spot.at),
    }
}
