//! Commands that were sealed outside this repository.

use crate::documents::{document_of, whole};
use crate::rewrite::deep_samples::UNDER_47_NAMES;
use crate::rewrite::payload_samples::{OF_A_DOCUMENT, TWO_DOCUMENTS_ANEW};
use crate::rewrite::samples::{
    DOTTED, EMPTY_LIST, EQUAL_NAMES, FROM_A_DRIVER, IN_LIST, NESTED, ONE_INT, ONE_STRING, Sample,
    TWO_DOCUMENTS,
};
use crate::rewrite::standing::{keys_there, stand};
use bson_codec::RawDoc;
use crypto_hooks::Tables;
use doc_rewrite::{KeyTable, plan_clear, plan_seal, seal_through};
use encrypt_schema::{Infos, Mark, Marks, Rows};
use fle_aead::DataKey;
use fle_outside::{Failed, MemEntropy};
use fle_vectors::DATA_KEY;
use sample_documents::{KEY_ID, PEOPLE, STAFF_INFO};
use std::alloc::Global;

/// The data key of the tests behind another one.
fn keys_of_tests(alloc: Global) -> Option<KeyTable> {
    let mut keys = KeyTable::new(alloc);
    keys.add([7; 16], DataKey::new([0; 96])).ok()?;
    keys.add(KEY_ID, DataKey::new(DATA_KEY)).ok()?;
    Some(keys)
}

/// The marks of a sample.
fn marks_of(alloc: Global, list: &[Mark]) -> Option<Marks> {
    let mut marks = Marks::new(alloc);
    for mark in list {
        marks.add(*mark).ok()?;
    }
    Some(marks)
}

/// A source of these blocks, of which the draws of these numbers fail.
fn entropy_of(alloc: Global, blocks: &[[u8; 16]], failing: &[u64]) -> Option<MemEntropy> {
    let blocks = Vec::from_slice(alloc, blocks).ok()?;
    let failing = Vec::from_slice(alloc, failing).ok()?;
    Some(MemEntropy::new(blocks, failing))
}

/// The document sealed at these marks, or that a draw failed; `None` where that couldn't be tried.
fn seal(
    alloc: Global,
    rows: &Rows,
    document: &RawDoc<'_>,
    marks: &Marks,
    keys: &KeyTable,
    entropy: &mut MemEntropy,
) -> Option<Result<Vec<u8>, Failed>> {
    if !stand(document, marks, rows) {
        return None;
    }
    let Ok(plan) = plan_seal(document, marks, rows) else {
        return None;
    };
    if !keys_there(&plan, keys) {
        return None;
    }
    let Ok(mut out) = vec![in alloc; 0; plan.output_len()] else {
        return None;
    };
    match seal_through(&plan, document, keys, &Tables, entropy, &mut out) {
        Ok(()) => Some(Ok(out)),
        Err(failed) => Some(Err(failed)),
    }
}

/// The same of a sample whose rules and bytes these are.
fn seal_sample(
    alloc: Global,
    rows: &Rows,
    document: &RawDoc<'_>,
    sample: &Sample,
    entropy: &mut MemEntropy,
) -> Option<Result<Vec<u8>, Failed>> {
    let marks = marks_of(alloc, sample.marks)?;
    let keys = keys_of_tests(alloc)?;
    seal(alloc, rows, document, &marks, &keys, entropy)
}

/// The infos of `people` (`ssn` deterministic, `salary` random) and of `staff` (`a.b` deterministic).
fn infos(alloc: Global) -> Option<Infos> {
    let file = whole(alloc, &[PEOPLE, STAFF_INFO])?;
    if file.len() > 10_000 {
        return None;
    }
    Infos::load(alloc, &file).ok()
}

/// What a sample is sealed to, or that a draw failed; `None` where that couldn't be tried.
fn sealed_by(
    alloc: Global,
    sample: &Sample,
    entropy: &mut MemEntropy,
) -> Option<Result<Vec<u8>, Failed>> {
    let infos = infos(alloc)?;
    let info = infos.info_of(sample.collection)?;
    let bytes = whole(alloc, sample.command)?;
    let document = document_of(&bytes)?;
    seal_sample(alloc, info.rows(), &document, sample, entropy)
}

/// Whether a sample is sealed to these parts, with blocks from this source.
fn seals_to(alloc: Global, sample: &Sample, entropy: &mut MemEntropy, parts: &[&[u8]]) -> bool {
    match whole(alloc, parts) {
        Some(sealed) => sealed_by(alloc, sample, entropy) == Some(Ok(sealed)),
        None => false,
    }
}

/// Whether a sample isn't sealed, since a draw from this source fails.
fn falls_short(alloc: Global, sample: &Sample, entropy: &mut MemEntropy) -> bool {
    sealed_by(alloc, sample, entropy) == Some(Err(Failed))
}

/// Whether a sample is sealed as elsewhere, with the blocks of 01 and of 02.
fn is_sealed(alloc: Global, sample: &Sample) -> bool {
    match entropy_of(alloc, &[[1; 16], [2; 16]], &[]) {
        Some(mut entropy) => seals_to(alloc, sample, &mut entropy, sample.sealed),
        None => false,
    }
}

/// What a document becomes of which nothing is sealed.
fn copied(alloc: Global, bytes: &[u8]) -> Option<Vec<u8>> {
    let document = document_of(bytes)?;
    let Ok(plan) = plan_clear(&document) else {
        return None;
    };
    let Ok(mut out) = vec![in alloc; 0; plan.output_len()] else {
        return None;
    };
    let keys = KeyTable::new(alloc);
    let mut none = MemEntropy::new(Vec::new(alloc), Vec::new(alloc));
    match seal_through(&plan, &document, &keys, &Tables, &mut none, &mut out) {
        Ok(()) => Some(out),
        Err(_) => None,
    }
}

#[test]
fn commands_are_sealed_as_elsewhere(rt: HostRuntime) {
    let samples: &[&Sample] = &[
        &ONE_STRING,
        &ONE_INT,
        &TWO_DOCUMENTS,
        &EQUAL_NAMES,
        &IN_LIST,
        &DOTTED,
        &NESTED,
        &FROM_A_DRIVER,
    ];
    for sample in samples {
        assert!(rt; is_sealed(rt.alloc(), sample));
    }
}

#[test]
fn documents_and_values_at_many_levels_are_sealed_as_elsewhere(rt: HostRuntime) {
    let samples: &[&Sample] = &[&OF_A_DOCUMENT, &UNDER_47_NAMES, &EMPTY_LIST];
    for sample in samples {
        assert!(rt; is_sealed(rt.alloc(), sample));
    }
}

/// Whether a sample isn't sealed where the draw of this number fails, and then, by the blocks that are left, to these
/// parts.
fn is_sealed_anew(alloc: Global, sample: &Sample, failing: u64, parts: &[&[u8]]) -> bool {
    match entropy_of(alloc, &[[1; 16], [2; 16], [3; 16]], &[failing]) {
        Some(mut entropy) => {
            falls_short(alloc, sample, &mut entropy) && seals_to(alloc, sample, &mut entropy, parts)
        }
        None => false,
    }
}

#[test]
fn sealing_after_a_failed_draw_draws_anew(rt: HostRuntime) {
    assert!(rt; is_sealed_anew(rt.alloc(), &ONE_INT, 0, ONE_INT.sealed));
    assert!(rt; is_sealed_anew(rt.alloc(), &TWO_DOCUMENTS, 1, TWO_DOCUMENTS_ANEW));
}

#[test]
fn two_random_values_need_two_blocks(rt: HostRuntime) {
    let mut one = entropy_of(rt.alloc(), &[[1; 16]], &[]).expect(&rt, "no memory");
    assert!(rt; falls_short(rt.alloc(), &TWO_DOCUMENTS, &mut one));
    let mut two = entropy_of(rt.alloc(), &[[1; 16], [2; 16]], &[]).expect(&rt, "no memory");
    assert!(rt; seals_to(rt.alloc(), &TWO_DOCUMENTS, &mut two, TWO_DOCUMENTS.sealed));
}

#[test]
fn a_document_of_which_nothing_is_sealed_is_copied(rt: HostRuntime) {
    let whole = whole(rt.alloc(), FROM_A_DRIVER.command).expect(&rt, "no memory");
    assert!(rt; matches!(&copied(rt.alloc(), &whole), Some(copy) if *copy == whole));
}
