//! Commands sealed state by state, as elsewhere.

use crate::documents::document_of;
use crate::machine::decrypting_samples::master;
use crate::machine::fed_keys::{Fed, keys};
use crate::machine::filters::{is_filter_of_one, is_filter_of_people};
use crate::machine::sealing_samples::{
    SECOND_ID, infos, is_one_string_sealed, is_two_documents_sealed, is_two_keys_sealed,
    one_string, ping, two_documents, unknown,
};
use context_machine::{Begun, EncryptStart, Need, NeedCollInfo, NeedKeys, NeedMarkings, Ready};
use crypto_hooks::Tables;
use data_key::KeyDoc;
use encrypt_schema::{Infos, MarkFault};
use fle_outside::MemEntropy;
use key_vault::KeyCache;
use sample_documents::KEY_ID;
use std::alloc::Global;

/// The state in which the info of a command's collection is asked for; `None` where it isn't.
pub(crate) fn asks(command: &[u8]) -> Option<NeedCollInfo<'_>> {
    match EncryptStart::new(b"hr", document_of(command)?).begin() {
        Ok(Begun::Ask(asks)) => Some(asks),
        _ => None,
    }
}

/// The state in which the marks of a command are asked for, with the info of this name handed in; or why it isn't
/// reached. `None` where there is no such info, or none is asked for.
pub(crate) fn told<'a>(
    infos: &'a Infos,
    command: &'a [u8],
    name: &[u8],
) -> Option<Result<NeedMarkings<'a>, MarkFault>> {
    let mut asks = asks(command)?;
    asks.feed(infos.info_of(name)?);
    Some(asks.done())
}

/// The state in which the marks of a command are asked for, with the info of its collection, where there is one;
/// `None` where it isn't reached.
pub(crate) fn marks<'a>(infos: &'a Infos, command: &'a [u8]) -> Option<NeedMarkings<'a>> {
    let mut asks = asks(command)?;
    if let Some(info) = infos.info_of(asks.collection()) {
        asks.feed(info);
    }
    asks.done().ok()
}

/// What a caller has: infos and keys.
#[derive(Drop)]
pub(crate) struct Held {
    infos: Infos,
    keys: Vec<KeyDoc>,
}

/// These infos, and these keys; `None` where there was no memory.
pub(crate) fn holding(alloc: Global, infos: Infos, fed: &[Fed]) -> Option<Held> {
    let keys = keys(alloc, fed)?;
    Some(Held { infos, keys })
}

/// Infos, where the key of `salary` has this id, and these keys; `None` where there was no memory.
pub(crate) fn having(alloc: Global, id: [u8; 16], fed: &[Fed]) -> Option<Held> {
    holding(alloc, infos(alloc, id)?, fed)
}

/// The state in which the keys of a command are asked for, with all that a caller has fed; `None` where it isn't
/// reached.
pub(crate) fn fed<'a>(alloc: Global, held: &'a Held, command: &'a [u8]) -> Option<NeedKeys<'a>> {
    let mut waits = marks(&held.infos, command)?.mark_here(alloc).ok()?;
    for key in &held.keys {
        waits.feed(key);
    }
    Some(waits)
}

/// The state in which the keys are there; `None` where it isn't reached.
fn ready<'a>(alloc: Global, waits: NeedKeys<'a>) -> Option<Ready<'a>> {
    waits.done(alloc, &master(), &Tables).ok()
}

/// A source of these blocks.
fn entropy_of(alloc: Global, blocks: &[[u8; 16]]) -> Option<MemEntropy> {
    let blocks = Vec::from_slice(alloc, blocks).ok()?;
    Some(MemEntropy::new(blocks, Vec::new(alloc)))
}

/// The sealed command, with blocks from this source; `None` where there are too few.
fn finished(ready: Ready<'_>, entropy: &mut MemEntropy) -> Option<Vec<u8>> {
    match ready.finalize(&Tables, entropy) {
        Ok(done) => Some(done.into_bytes()),
        Err(_) => None,
    }
}

/// The sealed command, once its keys are there, with the blocks of 01 and of 02; `None` where it isn't reached.
pub(crate) fn sealed(alloc: Global, waits: NeedKeys<'_>) -> Option<Vec<u8>> {
    let mut entropy = entropy_of(alloc, &[[1; 16], [2; 16]])?;
    finished(ready(alloc, waits)?, &mut entropy)
}

/// The sealed command where the key of `salary` has this id and these keys are fed; `None` where it isn't reached.
pub(crate) fn sealed_with(
    alloc: Global,
    id: [u8; 16],
    keys: &[Fed],
    command: &[u8],
) -> Option<Vec<u8>> {
    let held = having(alloc, id, keys)?;
    sealed(alloc, fed(alloc, &held, command)?)
}

#[test]
fn the_collection_is_asked_for_by_its_name(rt: HostRuntime) {
    let asks = asks(one_string()).expect(&rt, "no info is asked for");
    assert!(rt; asks.collection() == b"people".as_slice());
    assert!(rt; matches!(&asks.op(rt.alloc()), Ok(f) if is_filter_of_people(f)));
}

/// Whether what is needed is this id.
fn is_id(need: Option<Need<'_>>, id: [u8; 16]) -> bool {
    matches!(need, Some(Need::Id(found)) if found == id)
}

/// Whether the key of this id alone is asked for, first at this offset.
fn needs_alone(waits: &NeedKeys<'_>, id: [u8; 16], at: u32) -> bool {
    for n in waits.needs() {
        if !is_id(Some(n.need), id) || n.at != at {
            return false;
        }
    }
    is_id(waits.needed(0), id) && waits.needed(1).is_none()
}

#[test]
fn the_keys_are_asked_for_by_their_ids(rt: HostRuntime) {
    let held = having(rt.alloc(), KEY_ID, &[]).expect(&rt, "no memory");
    let waits = fed(rt.alloc(), &held, two_documents()).expect(&rt, "no keys are asked for");
    assert!(rt; matches!(&waits.op(rt.alloc()), Ok(f) if is_filter_of_one(f)));
    assert!(rt; needs_alone(&waits, KEY_ID, 53));
}

#[test]
fn one_value_is_sealed_as_elsewhere(rt: HostRuntime) {
    let bytes = sealed_with(rt.alloc(), KEY_ID, &[Fed::Right], one_string());
    assert!(rt; matches!(&bytes, Some(b) if is_one_string_sealed(b)));
}

#[test]
fn random_values_are_sealed_with_a_block_each(rt: HostRuntime) {
    let bytes = sealed_with(rt.alloc(), KEY_ID, &[Fed::Right], two_documents());
    assert!(rt; matches!(&bytes, Some(b) if is_two_documents_sealed(b)));
}

/// The sealed command of a state, by a cache, without blocks; `None` where it isn't reached.
fn finished_by(alloc: Global, cache: &mut KeyCache, waits: NeedKeys<'_>) -> Option<Vec<u8>> {
    let mut none = entropy_of(alloc, &[])?;
    let ready = waits.done_cached(alloc, cache, &Tables).ok()?;
    finished(ready, &mut none)
}

/// The command of one value, sealed by a cache; `None` where it isn't.
fn sealed_by(alloc: Global, cache: &mut KeyCache) -> Option<Vec<u8>> {
    let held = having(alloc, KEY_ID, &[Fed::Right])?;
    finished_by(alloc, cache, fed(alloc, &held, one_string())?)
}

/// Whether it is sealed as elsewhere.
fn is_sealed_by(alloc: Global, cache: &mut KeyCache) -> bool {
    matches!(&sealed_by(alloc, cache), Some(b) if is_one_string_sealed(b))
}

#[test]
fn keys_that_a_cache_opened_seal_the_same(rt: HostRuntime) {
    let mut cache = KeyCache::new(rt.alloc(), master()).expect(&rt, "no cache");
    assert!(rt; is_sealed_by(rt.alloc(), &mut cache));
    assert!(rt; cache.len() == 1);
    assert!(rt; is_sealed_by(rt.alloc(), &mut cache));
}

#[test]
fn a_command_without_protected_values_needs_no_key(rt: HostRuntime) {
    let held = having(rt.alloc(), KEY_ID, &[]).expect(&rt, "no memory");
    let waits = fed(rt.alloc(), &held, unknown()).expect(&rt, "it isn't marked");
    assert!(rt; waits.needed(0).is_none());
    let bytes = sealed(rt.alloc(), waits);
    assert!(rt; matches!(&bytes, Some(b) if b.as_slice() == unknown().as_slice()));
}

#[test]
fn other_commands_pass(rt: HostRuntime) {
    let command = document_of(ping()).expect(&rt, "no document");
    let begun = EncryptStart::new(b"hr", command).begin();
    assert!(rt; matches!(&begun, Ok(Begun::Pass(c)) if c.bytes() == ping().as_slice()));
}

#[test]
fn keys_are_fed_in_any_order_and_number(rt: HostRuntime) {
    let fed_keys = &[Fed::Unneeded, Fed::Right, Fed::Second, Fed::Right];
    let held = having(rt.alloc(), SECOND_ID, fed_keys).expect(&rt, "no memory");
    let waits = fed(rt.alloc(), &held, two_documents()).expect(&rt, "no keys are asked for");
    assert!(rt; is_id(waits.needed(0), SECOND_ID) && is_id(waits.needed(1), KEY_ID));
    assert!(rt; matches!(&sealed(rt.alloc(), waits), Some(b) if is_two_keys_sealed(b)));
}

/// The state that comes back where this source has too few blocks; `None` where it has enough.
fn failed<'a>(ready: Ready<'a>, entropy: &mut MemEntropy) -> Option<Ready<'a>> {
    match ready.finalize(&Tables, entropy) {
        Ok(_) => None,
        Err((again, _)) => Some(again),
    }
}

/// The sealed command with the blocks of 01 and of 02, after one block wasn't enough; `None` where it isn't reached.
fn sealed_anew(alloc: Global, ready: Ready<'_>) -> Option<Vec<u8>> {
    let mut one = entropy_of(alloc, &[[9; 16]])?;
    let mut two = entropy_of(alloc, &[[1; 16], [2; 16]])?;
    finished(failed(ready, &mut one)?, &mut two)
}

#[test]
fn after_a_failed_draw_all_blocks_are_drawn_anew(rt: HostRuntime) {
    let held = having(rt.alloc(), KEY_ID, &[Fed::Right]).expect(&rt, "no memory");
    let waits = fed(rt.alloc(), &held, two_documents()).expect(&rt, "no keys are asked for");
    let ready = ready(rt.alloc(), waits).expect(&rt, "not ready");
    assert!(rt; matches!(&sealed_anew(rt.alloc(), ready), Some(b) if is_two_documents_sealed(b)));
}
