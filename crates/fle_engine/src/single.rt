//! One value sealed by itself, under a key that is named.

ghost use Rattle.std.specs.Prelude.{◌≡◌, Err, MatchOption, MatchResult, Ok, Some, false};
ghost use Rattle.bson_tree.specs.Tree.{Items};
ghost use Rattle.context_machine.specs.Rings.{finder, found_key};
ghost use Rattle.fle_engine.specs.Answers.{AnswerIs};
ghost use Rattle.encrypt_schema.specs.Commands.Offences.{is_never_allowed};
ghost use Rattle.encrypt_schema.specs.Commands.Visits.{holds_payload};
ghost use Rattle.fle_engine.specs.Explicit.{IsOnly, is_deterministic, is_only, is_uncompared, value_plan, value_reason};
ghost use Rattle.fle_engine.specs.Explicit.{value_ruling};
ghost use Rattle.fle_engine.specs.Rulings.{sized_plan};
ghost use Rattle.payload6.specs.Needs.{need_seen};

use crate::answer::{Answer, Wanted};
use crate::opener::Opener;
use crate::refusing::refuse;
use bson_codec::{RawDoc, RawItem};
use bson_tree::{subtypes, types};
use context_machine::{Need, key_by};
use crypto_hooks::Block256;
use data_key::{KeyDoc, Provider};
use doc_rewrite::seal_single;
use encrypt_schema::{Algorithm, Reason};
use fle_aead::DataKey;
use fle_outside::{Entropy, Failed};
use key_vault::KeyCache;
use payload6::payload_len;
use std::alloc::Global;

/// The most bytes that a sealed document may have.
const MOST: usize = 48_000_000;

/// Seals the value of a document of one element, under the key that an id or an alternate name leads to.
pub fn seal_value<B: Block256, N: Entropy>(
    alloc: Global,
    opener: &mut Opener,
    hooks: &B,
    need: Need<'_>,
    algorithm: Algorithm,
    document: &RawDoc<'_>,
    entropy: &mut N,
) -> Answer
    requires hooks { B.answers hooks.now }
    requires whole { document.now.start ≡ 0 }
    ensures same { (opener.new.keys ≡ opener.old.keys) × (opener.new.cache.master ≡ opener.old.cache.master) }
    ensures answers { AnswerIs
        (value_ruling (finder opener.old.keys opener.old.cache.master) (need_seen need.entry) algorithm
        document.now.tree) document.now.tree (N.seen entropy.old) (N.seen entropy.new) result }
{
    let Some(item) = only_item(document) else {
        return refuse(alloc, document, Reason::BadField, 0);
    };
    if let Some(reason) = value_reason(algorithm, &item) {
        return refuse(alloc, document, reason, item.start() as u32);
    }
    let Some(key) = key_by(&opener.keys, need) else {
        return refuse(alloc, document, Reason::KeyMissing, item.start() as u32);
    };
    let id = key.id;
    match open_found(hooks, &mut opener.cache, key) {
        Ok(data_key) => seal_found(alloc, hooks, &data_key, id, algorithm, &item, entropy),
        Err(reason) => refuse(alloc, document, reason, item.start() as u32),
    }
}

/// The element of a document that has one, and no other.
fn only_item<'a>(document: &RawDoc<'a>) -> Option<RawItem<'a>>
    requires whole { document.now.start ≡ 0 }
    ensures only { MatchOption result (is_only document.now.tree ≡ false) (λ e. IsOnly document.now.tree e) }
{
    let mut items = document.items();
    match items.next() {
        Some(item) => match items.next() {
            Some(_) => None,
            None => Some(item),
        },
        None => None,
    }
}

/// Why no value of its type is sealed by this algorithm; or it is a payload already.
fn value_reason(algorithm: Algorithm, item: &RawItem<'_>) -> Option<Reason>
    ensures reason { result ≡ value_reason algorithm item.now.tree }
{
    let tag = item.tag();
    if is_never(tag) {
        return Some(Reason::TypeNotAllowed);
    }
    if is_deterministic(algorithm) && is_uncompared(tag) {
        return Some(Reason::TypeNotAllowed);
    }
    if is_payload(item) {
        return Some(Reason::AlreadyEncrypted);
    }
    None
}

/// Whether no value of this type is sealed: undefined, null, maxKey, minKey.
fn is_never(tag: u8) -> bool
    ensures { result ≡ is_never_allowed tag }
{
    tag == types::UNDEFINED || tag == types::NULL || tag == types::MAX_KEY || tag == types::MIN_KEY
}

/// Whether the algorithm is the deterministic one.
fn is_deterministic(algorithm: Algorithm) -> bool
    ensures { result ≡ is_deterministic algorithm }
{
    match algorithm {
        Algorithm::Deterministic => true,
        Algorithm::Random => false,
    }
}

/// Whether the deterministic algorithm doesn't seal this type: double, document, array, bool, code with scope,
/// decimal128.
fn is_uncompared(tag: u8) -> bool
    ensures { result ≡ is_uncompared tag }
{
    tag == 1 || tag == 3 || tag == 4 || tag == 8 || tag == 15 || tag == 19
}

/// Whether the value is a binary of subtype 06.
#[tactic(auto, using(crate::proofs::Explicits::payload_found, crate::proofs::Explicits::no_payload))]
fn is_payload(item: &RawItem<'_>) -> bool
    ensures payload { result ≡ holds_payload item.now.tree }
{
    let Some((subtype, _)) = item.binary() else {
        return false;
    };
    subtype == subtypes::ENCRYPTED
}

/// The data key of a key document; or the reason for which there is none.
fn open_found<B: Block256>(hooks: &B, cache: &mut KeyCache, key: &KeyDoc) -> Result<DataKey, Reason>
    requires hooks { B.answers hooks.now }
    ensures master { cache.new.master ≡ cache.old.master }
    ensures found { MatchResult result
        (λ k. found_key cache.old.master (Some key.now) ≡ Ok (record { id = key.now.id; key = k }))
        (λ r. found_key cache.old.master (Some key.now) ≡ Err r) }
{
    match key.provider {
        Provider::Local => match cache.data_key(hooks, key) {
            Ok(data_key) => Ok(data_key),
            Err(_) => Err(Reason::KeyDamaged),
        },
        Provider::Other => Err(Reason::KeyNotLocal),
    }
}

/// Seals a value that may be sealed, under its data key.
fn seal_found<B: Block256, N: Entropy>(
    alloc: Global,
    hooks: &B,
    key: &DataKey,
    id: [u8; 16],
    algorithm: Algorithm,
    item: &RawItem<'_>,
    entropy: &mut N,
) -> Answer
    requires hooks { B.answers hooks.now }
    ensures answers { (d : Items) → AnswerIs
        (sized_plan (value_plan (record { id = id; key = key.now }) algorithm item.now.name item.now.tree)) d
        (N.seen entropy.old) (N.seen entropy.new) result }
{
    let size = 12 + item.name().len() + payload_len(item.value().len());
    if MOST < size {
        return Answer::TooLong;
    }
    match vec![in alloc; 0; size] {
        Ok(mut out) => match seal_single(hooks, key, id, algorithm, item, entropy, &mut out) {
            Ok(()) => Answer::Made(out),
            Err(Failed) => Answer::Undrawn(Wanted { size, draws: 1 }),
        },
        Err(_) => Answer::Memory,
    }
}
