//! Documents opened state by state: which keys are asked for, which are kept, and what is refused.

use crate::documents::document_of;
use crate::machine::decrypting_samples::{
    OTHER_ID, is_filter_of_two, is_opened, is_three_opened, master, sealed, three_sealed,
};
use crate::machine::fed_keys::{Fed, keys};
use crate::machine::filters::is_filter_of_one;
use context_machine::{DecryptNeedKeys, DecryptReady, KeysStop, Need};
use crypto_hooks::Tables;
use data_key::KeyDoc;
use doc_rewrite::Spot;
use encrypt_schema::{MarkFault, Reason};
use key_vault::KeyCache;
use sample_documents::KEY_ID;
use std::alloc::Global;

/// The state in which a document asks for its keys, with these fed; `None` where it isn't reached.
fn fed<'a>(alloc: Global, bytes: &'a [u8], keys: &'a [KeyDoc]) -> Option<DecryptNeedKeys<'a>> {
    let mut asking = DecryptNeedKeys::begin(alloc, document_of(bytes)?).ok()?;
    for key in keys {
        asking.feed(key);
    }
    Some(asking)
}

/// Why the keys that were kept don't do, with the state that comes back; `None` where they do.
fn stopped<'a>(
    alloc: Global,
    asking: DecryptNeedKeys<'a>,
) -> Option<(DecryptNeedKeys<'a>, KeysStop)> {
    asking.done(alloc, &master(), &Tables).err()
}

/// The state in which the keys are there; `None` where it isn't reached.
fn ready<'a>(alloc: Global, asking: DecryptNeedKeys<'a>) -> Option<DecryptReady<'a>> {
    asking.done(alloc, &master(), &Tables).ok()
}

/// The bytes of the opened document; `None` where it isn't opened.
fn opened(alloc: Global, asking: DecryptNeedKeys<'_>) -> Option<Vec<u8>> {
    match ready(alloc, asking)?.finalize(&Tables) {
        Ok(done) => Some(done.into_bytes()),
        Err(_) => None,
    }
}

/// The bytes of a document that is opened under these keys; `None` where it isn't.
fn opened_by(alloc: Global, bytes: &[u8], fed_keys: &[Fed]) -> Option<Vec<u8>> {
    let keys = keys(alloc, fed_keys)?;
    opened(alloc, fed(alloc, bytes, &keys)?)
}

/// Why these keys don't do for a document; `None` where they do, or are never asked for.
fn stop(alloc: Global, bytes: &[u8], fed_keys: &[Fed]) -> Option<KeysStop> {
    let keys = keys(alloc, fed_keys)?;
    let (_, stop) = stopped(alloc, fed(alloc, bytes, &keys)?)?;
    Some(stop)
}

/// Whether these keys don't do for a document, for this reason at this offset.
fn stops(alloc: Global, bytes: &[u8], fed_keys: &[Fed], reason: Reason, at: u32) -> bool {
    stop(alloc, bytes, fed_keys) == Some(KeysStop::Refused { reason, at })
}

/// Whether the keys of these ids are asked for, in this order, and no others.
fn needs(asking: &DecryptNeedKeys<'_>, ids: &[[u8; 16]]) -> bool {
    for i in 0..ids.len() {
        let found = matches!(asking.needed(i), Some(Need::Id(id)) if id == ids[i]);
        if !found {
            return false;
        }
    }
    asking.needed(ids.len()).is_none()
}

#[test]
fn a_document_asks_for_its_key(rt: HostRuntime) {
    let bytes = sealed();
    let asking = fed(rt.alloc(), &bytes, &[]).expect(&rt, "no keys are asked for");
    assert!(rt; needs(&asking, &[KEY_ID]));
    assert!(rt; matches!(&asking.op(rt.alloc()), Ok(f) if is_filter_of_one(f)));
}

#[test]
fn a_document_asks_once_for_each_key_in_order_of_first_use(rt: HostRuntime) {
    let bytes = three_sealed();
    let asking = fed(rt.alloc(), &bytes, &[]).expect(&rt, "no keys are asked for");
    assert!(rt; needs(&asking, &[OTHER_ID, KEY_ID]));
    assert!(rt; matches!(&asking.op(rt.alloc()), Ok(f) if is_filter_of_two(f)));
}

/// Why the keys that were kept don't do, and what the document opens to once these are fed, too; `None` where they do
/// or nothing is opened.
fn fed_again<'a>(
    alloc: Global,
    asking: DecryptNeedKeys<'a>,
    keys: &'a [KeyDoc],
) -> Option<(KeysStop, Vec<u8>)> {
    let (mut again, stop) = stopped(alloc, asking)?;
    for key in keys {
        again.feed(key);
    }
    Some((stop, opened(alloc, again)?))
}

#[test]
fn after_a_missing_key_the_same_state_is_fed_and_opens(rt: HostRuntime) {
    let bytes = sealed();
    let right = keys(rt.alloc(), &[Fed::Right]).expect(&rt, "no memory");
    let asking = fed(rt.alloc(), &bytes, &[]).expect(&rt, "no keys are asked for");
    let (stop, out) = fed_again(rt.alloc(), asking, &right).expect(&rt, "it isn't opened");
    assert!(rt;
        matches!(
            stop,
            KeysStop::Refused {
                reason: Reason::KeyMissing,
                at: 50
            }
        )
    );
    assert!(rt; is_opened(&out));
}

#[test]
fn a_key_of_another_provider_is_told(rt: HostRuntime) {
    assert!(rt;
        stops(
            rt.alloc(),
            &sealed(),
            &[Fed::Foreign],
            Reason::KeyNotLocal,
            50
        )
    );
}

#[test]
fn the_first_key_of_an_id_stays(rt: HostRuntime) {
    let right_first = opened_by(rt.alloc(), &sealed(), &[Fed::Right, Fed::Damaged]);
    assert!(rt; matches!(&right_first, Some(out) if is_opened(out)));
    let damaged_first = &[Fed::Damaged, Fed::Right];
    assert!(rt; stops(rt.alloc(), &sealed(), damaged_first, Reason::KeyDamaged, 50));
}

#[test]
fn keys_are_fed_in_any_order(rt: HostRuntime) {
    let fed_keys = &[Fed::Unneeded, Fed::Right, Fed::Other];
    let out = opened_by(rt.alloc(), &three_sealed(), fed_keys);
    assert!(rt; matches!(&out, Some(out) if is_three_opened(out)));
}

#[test]
fn the_first_payload_without_a_key_is_told(rt: HostRuntime) {
    let cases: &[(Fed, u32)] = &[(Fed::Right, 7), (Fed::Other, 97)];
    for (key, at) in cases {
        assert!(rt;
            stops(
                rt.alloc(),
                &three_sealed(),
                &[*key],
                Reason::KeyMissing,
                *at
            )
        );
    }
}

/// Whether a state is ready by a cache.
fn is_ready(alloc: Global, cache: &mut KeyCache, asking: DecryptNeedKeys<'_>) -> bool {
    asking.done_cached(alloc, cache, &Tables).is_ok()
}

/// Whether this key does for the document of one payload, by a cache; `None` where it is never asked for.
fn does(alloc: Global, cache: &mut KeyCache, key: Fed) -> Option<bool> {
    let keys = keys(alloc, &[key])?;
    let bytes = sealed();
    Some(is_ready(alloc, cache, fed(alloc, &bytes, &keys)?))
}

#[test]
fn a_cache_answers_for_the_material_that_is_fed(rt: HostRuntime) {
    let mut cache = KeyCache::new(rt.alloc(), master()).expect(&rt, "no cache");
    assert!(rt; does(rt.alloc(), &mut cache, Fed::Right) == Some(true));
    assert!(rt; cache.len() == 1);
    assert!(rt; does(rt.alloc(), &mut cache, Fed::Damaged) == Some(false));
}

#[test]
fn a_payload_too_short_is_told_before_any_key(rt: HostRuntime) {
    let bytes = b"\x11\x00\x00\x00\x05a\x00\x04\x00\x00\x00\x06\x01\x02\x03\x04\x00";
    let document = document_of(bytes).expect(&rt, "no document");
    let fault = DecryptNeedKeys::begin(rt.alloc(), document).err();
    assert!(rt;
        matches!(
            fault,
            Some(MarkFault::Refused {
                reason: Reason::PayloadShape,
                at: 7
            })
        )
    );
}

/// Which payload of a document isn't opened, once its keys are there; `None` where they aren't, or it is opened.
fn unopened(alloc: Global, bytes: &[u8], fed_keys: &[Fed]) -> Option<Spot> {
    let keys = keys(alloc, fed_keys)?;
    let ready = ready(alloc, fed(alloc, bytes, &keys)?)?;
    ready.finalize(&Tables).err()
}

#[test]
fn a_changed_byte_is_told_by_the_tag(rt: HostRuntime) {
    let mut bytes = sealed();
    bytes[100] ^= 1;
    let spot = unopened(rt.alloc(), &bytes, &[Fed::Right]);
    assert!(rt; matches!(spot, Some(s) if s.reason == Reason::TagMismatch && s.at == 50));
}
