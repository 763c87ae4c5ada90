//! Documents with payloads that were made outside this repository: what they open to, and what is refused.

use crate::documents::{document_of, whole};
use crate::rewrite::deep_samples::{DEEP, DEEP_OPENED, TOO_DEEP, UNDER_47_NAMES};
use crate::rewrite::keyed::has_keys;
use crate::rewrite::payload_samples::{
    HELD, HOLDING, OTHER_IV, OTHER_IV_OPENED, REPLY, SHORT, TAG_AND_SHAPE, WRONG_PADDING,
    WRONG_PLAIN,
};
use crate::rewrite::samples::{
    DOTTED, EQUAL_NAMES, FROM_A_DRIVER, IN_LIST, NESTED, ONE_INT, ONE_STRING, Sample, TWO_DOCUMENTS,
};
use bson_codec::RawDoc;
use crypto_hooks::Tables;
use doc_rewrite::{FindFault, KeyTable, Spot, find_payloads, open_through};
use encrypt_schema::Reason;
use fle_aead::DataKey;
use fle_vectors::DATA_KEY;
use sample_documents::KEY_ID;
use std::alloc::Global;

/// Why a document isn't opened.
#[derive(Clone, Copy, PartialEq, Eq)]
pub(crate) enum Refused {
    Shape(u32),
    At(Spot),
}

/// The refusal for this reason at this offset.
pub(crate) fn refusal(reason: Reason, at: u32) -> Refused {
    Refused::At(Spot { reason, at })
}

/// The data key of the tests, alone.
pub(crate) fn key_of_tests(alloc: Global) -> Option<KeyTable> {
    let mut keys = KeyTable::new(alloc);
    keys.add(KEY_ID, DataKey::new(DATA_KEY)).ok()?;
    Some(keys)
}

/// What a document opens to, or why it doesn't; `None` where that couldn't be tried.
fn open(alloc: Global, document: &RawDoc<'_>) -> Option<Result<Vec<u8>, Refused>> {
    let found = match find_payloads(document) {
        Ok(found) => found,
        Err(FindFault { at }) => return Some(Err(Refused::Shape(at))),
    };
    let keys = key_of_tests(alloc)?;
    if !has_keys(&found, &keys) {
        return None;
    }
    let Ok(mut out) = vec![in alloc; 0; found.room(document)] else {
        return None;
    };
    match open_through(&found, document, &keys, &Tables, &mut out) {
        Ok(n) => {
            out.truncate(n);
            Some(Ok(out))
        }
        Err(spot) => Some(Err(Refused::At(spot))),
    }
}

/// The same of bytes that are given in parts.
fn opened(alloc: Global, parts: &[&[u8]]) -> Option<Result<Vec<u8>, Refused>> {
    let bytes = whole(alloc, parts)?;
    let document = document_of(&bytes)?;
    open(alloc, &document)
}

/// Whether the document of these parts opens to that of those.
pub(crate) fn opens_to(alloc: Global, parts: &[&[u8]], command: &[&[u8]]) -> bool {
    match whole(alloc, command) {
        Some(command) => opened(alloc, parts) == Some(Ok(command)),
        None => false,
    }
}

/// Whether the document of these parts isn't opened, for this.
pub(crate) fn is_refused(alloc: Global, parts: &[&[u8]], why: Refused) -> bool {
    opened(alloc, parts) == Some(Err(why))
}

/// Whether what a sample is sealed to opens to its command.
fn opens_again(alloc: Global, sample: &Sample) -> bool {
    opens_to(alloc, sample.sealed, sample.command)
}

#[test]
fn sealed_commands_open_to_the_commands(rt: HostRuntime) {
    let samples: &[&Sample] = &[&ONE_STRING, &ONE_INT, &TWO_DOCUMENTS, &EQUAL_NAMES];
    for sample in samples {
        assert!(rt; opens_again(rt.alloc(), sample));
    }
}

#[test]
fn filters_updates_and_an_insert_from_a_driver_open_again(rt: HostRuntime) {
    let samples: &[&Sample] = &[&IN_LIST, &DOTTED, &NESTED, &FROM_A_DRIVER];
    for sample in samples {
        assert!(rt; opens_again(rt.alloc(), sample));
    }
}

#[test]
fn at_level_47_a_value_of_53_levels_opens_and_one_of_54_is_refused(rt: HostRuntime) {
    assert!(rt; opens_to(rt.alloc(), DEEP, DEEP_OPENED));
    assert!(rt; is_refused(rt.alloc(), TOO_DEEP, refusal(Reason::Plain, 282)));
    assert!(rt; opens_again(rt.alloc(), &UNDER_47_NAMES));
}

#[test]
fn what_was_opened_is_not_looked_into(rt: HostRuntime) {
    assert!(rt; opens_to(rt.alloc(), HOLDING, HELD));
    assert!(rt; is_refused(rt.alloc(), HELD, Refused::Shape(60)));
}

#[test]
fn a_marking_is_no_payload(rt: HostRuntime) {
    assert!(rt; opens_to(rt.alloc(), REPLY, REPLY));
}

#[test]
fn an_iv_need_not_be_the_derived_one(rt: HostRuntime) {
    assert!(rt; opens_to(rt.alloc(), OTHER_IV, OTHER_IV_OPENED));
}

#[test]
fn shapes_come_before_tags(rt: HostRuntime) {
    assert!(rt; is_refused(rt.alloc(), TAG_AND_SHAPE, Refused::Shape(153)));
    assert!(rt; is_refused(rt.alloc(), SHORT, Refused::Shape(47)));
}

#[test]
fn a_wrong_padding_and_a_wrong_value_are_told(rt: HostRuntime) {
    assert!(rt; is_refused(rt.alloc(), WRONG_PADDING, refusal(Reason::Padding, 47)));
    assert!(rt; is_refused(rt.alloc(), WRONG_PLAIN, refusal(Reason::Plain, 47)));
}

#[test]
fn a_changed_byte_is_told_by_the_tag_and_another_number_passes(rt: HostRuntime) {
    let mut bytes = whole(rt.alloc(), ONE_STRING.sealed).expect(&rt, "no memory");
    assert!(rt; bytes.len() == 175);
    bytes[72] = 0x0E;
    assert!(rt; is_refused(rt.alloc(), &[&bytes], refusal(Reason::TagMismatch, 50)));
    bytes[55] = 3;
    assert!(rt; opens_to(rt.alloc(), &[&bytes], &[&bytes]));
}
