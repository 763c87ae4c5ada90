//! One value sealed by one client, under a key that is named.

ghost use Rattle.fle_c.specs.Calls.{SameClient, opener_of};
ghost use Rattle.fle_c.specs.Values.{ByKey, SealsUnder, SealsValueAs, WantsKey, algorithm_of};
ghost use Rattle.payload6.specs.Needs.{need_seen};
ghost use Rattle.std.specs.Prelude.{◌≡◌};

use crate::blocks::{BLOCK, Blocks, as_block};
use crate::told::{Told, random_of, tell};
use bson_codec::check_bson;
use context_machine::Need;
use crypto_hooks::Tables;
use encrypt_schema::Algorithm;
use fle_client::{Client, Keys};
use fle_engine::{Opener, ask_for_key as ask_by_key};
use key_vault::Vault;
use std::alloc::Global;

/// A document has at most this many bytes.
const DOCUMENT_LIMIT: usize = 16_777_216;

/// Seals the value of a document of one element, under the key of an alternate name or of an id.
pub(crate) fn seal_value(
    alloc: Global,
    client: &mut Client,
    named: bool,
    key: &[u8],
    random: bool,
    document: &[u8],
    blocks: &[u8],
    out: &mut [u8],
) -> Told
    ensures same { SameClient client.old client.new }
    ensures sealed { SealsValueAs (opener_of client.old.keys) named key.now random document.now blocks.now out.old
        out.new result }
{
    let algorithm = algorithm_of(random);
    match &mut client.keys {
        Keys::Mastered(opener) => seal_by(
            alloc, opener, named, key, algorithm, document, blocks, out,
        ),
        Keys::Unmastered(_) => Told::not_open(),
    }
}

/// The same under keys with their master key, by this algorithm.
fn seal_by(
    alloc: Global,
    opener: &mut Opener,
    named: bool,
    key: &[u8],
    algorithm: Algorithm,
    document: &[u8],
    blocks: &[u8],
    out: &mut [u8],
) -> Told
    ensures same { (opener.new.keys ≡ opener.old.keys) × (opener.new.cache.master ≡ opener.old.cache.master) }
    ensures sealed { ByKey (SealsUnder opener.old algorithm document.now blocks.now out.old out.new result)
        named key.now out.old out.new result }
{
    if named {
        let need = Need::Name(key);
        return seal_under(alloc, opener, need, algorithm, document, blocks, out);
    }
    if key.len() == BLOCK {
        let need = Need::Id(as_block(key));
        return seal_under(alloc, opener, need, algorithm, document, blocks, out);
    }
    Told::no_id()
}

/// The random algorithm, or the deterministic one.
fn algorithm_of(random: bool) -> Algorithm
    ensures algorithm { result ≡ algorithm_of random }
{
    if random {
        Algorithm::Random
    } else {
        Algorithm::Deterministic
    }
}

/// Seals the value of a document of one element, under the key that this leads to.
fn seal_under(
    alloc: Global,
    opener: &mut Opener,
    need: Need<'_>,
    algorithm: Algorithm,
    document: &[u8],
    blocks: &[u8],
    out: &mut [u8],
) -> Told
    ensures same { (opener.new.keys ≡ opener.old.keys) × (opener.new.cache.master ≡ opener.old.cache.master) }
    ensures sealed { SealsUnder opener.old algorithm document.now blocks.now out.old out.new result
        (need_seen need.entry) }
{
    if DOCUMENT_LIMIT < document.len() {
        return Told::passed(1);
    }
    match check_bson(document) {
        Ok(document) => {
            let mut entropy = Blocks::new(blocks);
            let answer = opener.seal_value(
                alloc,
                &Tables,
                need,
                algorithm,
                &document,
                &mut entropy,
            );
            let random = random_of(&answer, blocks.len(), entropy.left());
            tell(&answer, random, out)
        }
        Err(fault) => Told::malformed(fault),
    }
}

/// The key of a value, where it isn't among these.
pub(crate) fn ask_for_key(
    alloc: Global,
    keys: &Vault,
    named: bool,
    key: &[u8],
    out: &mut [u8],
) -> Told
    ensures asked { ByKey (WantsKey keys.now out.old out.new result) named key.now out.old out.new result }
{
    if named {
        return ask_under(alloc, keys, Need::Name(key), out);
    }
    if key.len() == BLOCK {
        let need = Need::Id(as_block(key));
        return ask_under(alloc, keys, need, out);
    }
    Told::no_id()
}

/// The key that this leads to, where it isn't among these.
fn ask_under(alloc: Global, keys: &Vault, need: Need<'_>, out: &mut [u8]) -> Told
    ensures asked { WantsKey keys.now out.old out.new result (need_seen need.entry) }
{
    let answer = ask_by_key(alloc, keys, need);
    tell(&answer, 0, out)
}
