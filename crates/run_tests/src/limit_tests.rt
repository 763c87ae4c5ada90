//! Whole runs over documents and a vault at the limits of size.

use crate::keys_tests::VAULT;
use crate::rewrap_samples::{FOREIGN, RENEWED};
use crate::rewrap_tests::{ONE, rewrapping};
use crate::runs::{Run, joined, sealing, stops, writes};
use crate::size_tests::insert_of;
use fle_stream::Status;
use std::alloc::Global;
use std::process::Abort;

/// The front of `{insert: "notes", documents: [{p: a binary of 16,777,149 bytes}], $db: "hr"}`, 16,777,216 bytes.
const FRONT: &[u8] =
    b"\x00\x00\x00\x01\x02insert\x00\x06\x00\x00\x00notes\x00\x04documents\x00\xd2\xff\xff\x00\x030\
     \x00\xca\xff\xff\x00\x05p\x00\xbd\xff\xff\x00\x00";

/// Its end.
const BACK: &[u8] = b"\x00\x00\x02$db\x00\x03\x00\x00\x00hr\x00\x00";

/// The command that begins and ends so.
pub(crate) fn largest(rt: &impl Abort, alloc: Global) -> Vec<u8> {
    let mut largest = Vec::with_capacity(alloc, 16_777_216).expect(rt, "memory");
    largest.extend_from_slice(FRONT).expect(rt, "memory");
    largest.resize(16_777_201, 0x5a).expect(rt, "memory");
    largest.extend_from_slice(BACK).expect(rt, "memory");
    largest
}

#[test]
fn a_document_has_at_most_16_mebibytes(rt: HostRuntime) {
    let alloc = rt.alloc();
    let command = largest(&rt, alloc);
    let run = Run {
        step: 1_000_000,
        room: 16_777_216,
        ..sealing(&command)
    };
    writes(&rt, alloc, run, &command);
    let run = sealing(b"\x01\x00\x00\x01rest");
    stops(&rt, alloc, run, Status::Limit, "fle: 9 1 1 -\n");
}

#[test]
fn a_sealed_command_has_at_most_48_million_bytes(rt: HostRuntime) {
    let alloc = rt.alloc();
    let thousand = joined(&rt, alloc, &[b"\x08salary\x00\x01".as_slice(); 1_000]);
    let elements = joined(&rt, alloc, &[thousand.as_slice(); 600]);
    let command = insert_of(&rt, alloc, &elements);
    assert!(rt; command.len() == 5_400_060, "length");
    let run = Run {
        step: 1_000_000,
        ..sealing(&command)
    };
    stops(&rt, alloc, run, Status::Limit, "fle: 9 1 2 -\n");
}

/// A vault of 65,536 keys, the most that it may have: this one stands behind 65,535 of another provider, each of which
/// has its number in its id.
fn full_vault(rt: &impl Abort, alloc: Global, last: &[u8]) -> Vec<u8> {
    let (front, behind) = FOREIGN.as_slice().split_at(14);
    let (_, back) = behind.split_at(4);
    let mut vault = Vec::new(alloc);
    for number in 0..65_535_u32 {
        vault.extend_from_slice(front).expect(rt, "memory");
        vault
            .extend_from_slice(&number.to_le_bytes())
            .expect(rt, "memory");
        vault.extend_from_slice(back).expect(rt, "memory");
    }
    vault.extend_from_slice(last).expect(rt, "memory");
    vault
}

#[test]
fn the_last_key_of_a_full_vault_is_rewrapped(rt: HostRuntime) {
    let alloc = rt.alloc();
    let keys = full_vault(&rt, alloc, VAULT);
    let run = Run {
        room: 7_000_000,
        ..rewrapping(&keys, &ONE)
    };
    writes(&rt, alloc, run, &full_vault(&rt, alloc, RENEWED));
}

#[test]
fn a_vault_has_at_most_65536_keys(rt: HostRuntime) {
    let alloc = rt.alloc();
    let full = full_vault(&rt, alloc, VAULT);
    let keys = joined(&rt, alloc, &[&full, FOREIGN]);
    let run = rewrapping(&keys, &ONE);
    stops(&rt, alloc, run, Status::Setup, "fle: 4 3 27 65537\n");
}
