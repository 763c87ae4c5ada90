//! A sealed command of the demo, opened again through the states of client-side field level encryption.

ghost use Rattle.std.specs.Prelude.{◌≡◌, ◌≤◌, ◌∷◌, [], ℕ, List, IfOk, None, length};
ghost use Rattle.bson_codec.specs.Borrowed.{At};
ghost use Rattle.context_machine.specs.Decrypting.{IsMisshapen};
ghost use Rattle.context_machine.specs.Rings.{AreOpened, by_ids, needs_in, ring};
ghost use Rattle.context_machine.specs.Tables.{KeysFail};
ghost use Rattle.doc_rewrite.specs.Founds.{payloads_of};
ghost use Rattle.doc_rewrite.specs.Opened.{Keyring, first_wrong, misshapen, opened};
ghost use Rattle.fle_demo.specs.Sums.{equal_to, equals};
ghost use Rattle.fle_demo.specs.States.{bit};

use bson_codec::{RawDoc, check_bson};
use context_machine::laws::{kept_answer, kept_rings, keyless_stops, table_opens};
use context_machine::{DecryptNeedKeys, DecryptReady, KeysStop};
use crypto_hooks::Block256;
use data_key::KeyDoc;
use encrypt_schema::MarkFault;
use fle_outside::Memory;
use key_vault::KeyCache;
use std::alloc::Global;

/// Whether sealed bytes open to these bytes under the only key.
#[tactic(auto, unfolding(crate::specs::Sums::equals))]
pub fn opens_to<B: Block256>(
    alloc: Global,
    sealed: &[u8],
    bytes: &[u8],
    key: &KeyDoc,
    cache: &mut KeyCache,
    hooks: &B,
) -> Result<bool, Memory>
    requires hooks { B.answers hooks.now }
    requires short { length sealed.now ≤ 48000000 }
    ensures master { cache.new.master ≡ cache.old.master }
    ensures equal { IfOk result (λ same. bit same
        ≡ equals (ring (key.now ∷ []) cache.old.master) bytes.now sealed.now) }
{
    match check_bson(sealed) {
        Ok(document) => open_document(alloc, document, bytes, key, cache, hooks),
        Err(_) => Ok(false),
    }
}

/// The same of a document.
fn open_document<B: Block256>(
    alloc: Global,
    document: RawDoc<'_>,
    bytes: &[u8],
    key: &KeyDoc,
    cache: &mut KeyCache,
    hooks: &B,
) -> Result<bool, Memory>
    requires hooks { B.answers hooks.now }
    ensures master { cache.new.master ≡ cache.old.master }
    ensures equal { IfOk result (λ same. bit same
        ≡ equal_to bytes.now (opened (ring (key.now ∷ []) cache.old.master) document.entry)) }
{
    match DecryptNeedKeys::begin(alloc, document) {
        Ok(wants) => open_with(alloc, wants, bytes, key, cache, hooks),
        Err(fault) => unshaped(fault),
    }
}

/// A document of which a payload has a length that none has isn't opened.
fn unshaped(fault: MarkFault) -> Result<bool, Memory>
    ensures equal { (keys : Keyring) (d : At) (bytes : List ℕ) → IsMisshapen d fault
        → IfOk result (λ same. bit same ≡ equal_to bytes (opened keys d)) }
{
    keyless_stops();
    match fault {
        MarkFault::Refused { .. } => Ok(false),
        MarkFault::Memory => Err(Memory),
    }
}

/// A document that needs keys.
fn open_with<'a, B: Block256>(
    alloc: Global,
    wants: DecryptNeedKeys<'a>,
    bytes: &[u8],
    key: &'a KeyDoc,
    cache: &mut KeyCache,
    hooks: &B,
) -> Result<bool, Memory>
    requires hooks { B.answers hooks.now }
    requires fresh { wants.kept ≡ [] }
    requires shaped { first_wrong misshapen (payloads_of wants.document) ≡ None }
    ensures master { cache.new.master ≡ cache.old.master }
    ensures equal { IfOk result (λ same. bit same
        ≡ equal_to bytes.now (opened (ring (key.entry.now ∷ []) cache.old.master) wants.entry.document)) }
{
    kept_answer();
    kept_rings();
    let mut wants = wants;
    wants.feed(key);
    match wants.done_cached(alloc, cache, hooks) {
        Ok(ready) => Ok(is_opened(ready, bytes, hooks)),
        Err((_, stop)) => unopened(stop),
    }
}

/// A document isn't opened whose key isn't to be had.
fn unopened(stop: KeysStop) -> Result<bool, Memory>
    ensures equal { (keys : Keyring) (d : At) (bytes : List ℕ) → first_wrong misshapen (payloads_of d) ≡ None
        → KeysFail (by_ids keys) (needs_in d) stop → IfOk result (λ same. bit same ≡ equal_to bytes (opened keys d)) }
{
    keyless_stops();
    match stop {
        KeysStop::Refused { .. } => Ok(false),
        KeysStop::TooLong => Ok(false),
        KeysStop::Memory => Err(Memory),
    }
}

/// Whether a document whose keys are there opens to these bytes.
fn is_opened<B: Block256>(ready: DecryptReady<'_>, bytes: &[u8], hooks: &B) -> bool
    requires hooks { B.answers hooks.now }
    ensures equal { (keys : Keyring) → AreOpened (by_ids keys) (needs_in ready.entry.document) ready.entry.table
        → bit result ≡ equal_to bytes.now (opened keys ready.entry.document) }
{
    table_opens();
    match ready.finalize(hooks) {
        Ok(done) => done.bytes() == bytes,
        Err(_) => false,
    }
}
