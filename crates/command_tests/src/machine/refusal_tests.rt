//! Commands that are refused, each at its place, and the states that come back and go on.

use crate::documents::document_of;
use crate::machine::decrypting_samples::master;
use crate::machine::fed_keys::{Fed, keys};
use crate::machine::sealing_samples::{
    SECOND_ID, infos, into_a_view, is_two_documents_sealed, is_two_keys_sealed, null_stored,
    one_string, two_documents, wrong_db,
};
use crate::machine::sealing_tests::{fed, having, marks, sealed, sealed_with, told};
use context_machine::{EncryptStart, KeysStop, NeedKeys};
use crypto_hooks::Tables;
use data_key::KeyDoc;
use encrypt_schema::{MarkFault, Reason};
use key_vault::KeyCache;
use sample_documents::KEY_ID;
use std::alloc::Global;

/// Whether a fault is this refusal.
fn is_refusal(fault: &MarkFault, why: Reason, place: u32) -> bool {
    match fault {
        MarkFault::Refused { reason, at } => *reason == why && *at == place,
        MarkFault::Memory => false,
    }
}

/// Why the keys that were kept don't do, with the state that comes back; `None` where they do.
fn stopped<'a>(alloc: Global, waits: NeedKeys<'a>) -> Option<(NeedKeys<'a>, KeysStop)> {
    waits.done(alloc, &master(), &Tables).err()
}

/// The refusal for this reason at this offset.
fn refused(reason: Reason, at: u32) -> KeysStop {
    KeysStop::Refused { reason, at }
}

/// Why these keys don't do for the command of two documents; `None` where they do, or are never asked for.
fn stop(alloc: Global, keys: &[Fed]) -> Option<KeysStop> {
    let held = having(alloc, KEY_ID, keys)?;
    let (_, stop) = stopped(alloc, fed(alloc, &held, two_documents())?)?;
    Some(stop)
}

/// Whether that command is refused with these keys, for this reason at its first value.
fn stops(alloc: Global, keys: &[Fed], reason: Reason) -> bool {
    stop(alloc, keys) == Some(refused(reason, 53))
}

#[test]
fn a_field_that_is_wrong_by_itself_is_refused_at_once(rt: HostRuntime) {
    let command = document_of(wrong_db()).expect(&rt, "no document");
    let begun = EncryptStart::new(b"hr", command).begin();
    assert!(rt; matches!(&begun, Err(fault) if is_refusal(fault, Reason::WrongDb, 44)));
}

#[test]
fn a_view_is_refused_at_the_first_field(rt: HostRuntime) {
    let infos = infos(rt.alloc(), KEY_ID).expect(&rt, "no infos");
    let told = told(&infos, into_a_view(), b"v");
    assert!(rt; matches!(&told, Some(Err(fault)) if is_refusal(fault, Reason::View, 12)));
}

#[test]
fn an_info_of_another_collection_isnt_kept(rt: HostRuntime) {
    let infos = infos(rt.alloc(), KEY_ID).expect(&rt, "no infos");
    assert!(rt; matches!(&told(&infos, one_string(), b"v"), Some(Ok(_))));
}

#[test]
fn a_value_that_isnt_allowed_is_refused_where_it_stands(rt: HostRuntime) {
    let infos = infos(rt.alloc(), KEY_ID).expect(&rt, "no infos");
    let marks = marks(&infos, null_stored()).expect(&rt, "no marks are asked for");
    let back = marks.mark_here(rt.alloc()).err();
    let (marks, fault) = back.expect(&rt, "it isn't refused");
    assert!(rt; is_refusal(&fault, Reason::TypeNotAllowed, 50));
    assert!(rt; marks.op() == null_stored().as_slice());
}

#[test]
fn a_key_that_isnt_to_be_had_is_told_at_the_first_value(rt: HostRuntime) {
    let cases: &[(Fed, Reason)] = &[
        (Fed::Second, Reason::KeyMissing),
        (Fed::Foreign, Reason::KeyNotLocal),
        (Fed::Damaged, Reason::KeyDamaged),
    ];
    for (key, reason) in cases {
        assert!(rt; stops(rt.alloc(), &[*key], *reason));
    }
}

#[test]
fn the_first_key_of_an_id_seals(rt: HostRuntime) {
    let bytes = sealed_with(
        rt.alloc(),
        KEY_ID,
        &[Fed::Right, Fed::Damaged],
        two_documents(),
    );
    assert!(rt; matches!(&bytes, Some(b) if is_two_documents_sealed(b)));
}

#[test]
fn a_damaged_key_isnt_replaced_by_a_later_one(rt: HostRuntime) {
    assert!(rt; stops(rt.alloc(), &[Fed::Damaged, Fed::Right], Reason::KeyDamaged));
}

/// Why a state isn't ready, and what it seals once these keys are fed, too; `None` where it is ready or seals nothing.
fn fed_again<'a>(
    alloc: Global,
    waits: NeedKeys<'a>,
    keys: &'a [KeyDoc],
) -> Option<(KeysStop, Vec<u8>)> {
    let (mut again, stop) = stopped(alloc, waits)?;
    for key in keys {
        again.feed(key);
    }
    Some((stop, sealed(alloc, again)?))
}

#[test]
fn a_refused_state_keeps_its_keys_and_goes_on(rt: HostRuntime) {
    let held = having(rt.alloc(), SECOND_ID, &[Fed::Second]).expect(&rt, "no memory");
    let right = keys(rt.alloc(), &[Fed::Right]).expect(&rt, "no memory");
    let waits = fed(rt.alloc(), &held, two_documents()).expect(&rt, "no keys are asked for");
    let (stop, bytes) = fed_again(rt.alloc(), waits, &right).expect(&rt, "it doesn't go on");
    assert!(rt; stop == refused(Reason::KeyMissing, 70));
    assert!(rt; is_two_keys_sealed(&bytes));
}

/// Why a state isn't ready by a cache, if it isn't.
fn cached_stop(alloc: Global, cache: &mut KeyCache, waits: NeedKeys<'_>) -> Option<KeysStop> {
    match waits.done_cached(alloc, cache, &Tables) {
        Ok(_) => None,
        Err((_, stop)) => Some(stop),
    }
}

/// Whether the command of one value is ready by a cache with this key alone, at `None`, or isn't, for this.
fn caches(alloc: Global, cache: &mut KeyCache, key: Fed, stop: Option<KeysStop>) -> bool {
    let Some(held) = having(alloc, KEY_ID, &[key]) else {
        return false;
    };
    match fed(alloc, &held, one_string()) {
        Some(waits) => cached_stop(alloc, cache, waits) == stop,
        None => false,
    }
}

#[test]
fn a_cache_refuses_what_it_didnt_open(rt: HostRuntime) {
    let mut cache = KeyCache::new(rt.alloc(), master()).expect(&rt, "no cache");
    let cases: &[(Fed, Option<KeysStop>)] = &[
        (Fed::Right, None),
        (Fed::Damaged, Some(refused(Reason::KeyDamaged, 50))),
        (Fed::Foreign, Some(refused(Reason::KeyNotLocal, 50))),
    ];
    for (key, stop) in cases {
        assert!(rt; caches(rt.alloc(), &mut cache, *key, *stop));
    }
}
