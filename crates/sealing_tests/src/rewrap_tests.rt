//! Vaults under a new master key.

use crate::rewrap_samples::{FIRST_MATERIAL, MIXED, ONE_MATERIAL, THIRD_MATERIAL};
use crypto_hooks::Tables;
use fle_outside::{Entropy, MemEntropy};
use key_vault::{Keyless, Vault, open_key};
use local_kms::MasterKey;
use rewrap_keys::{RewrapFault, rewrap_vault};
use sample_documents::TWO_KEYS;
use std::alloc::Global;
use std::process::Abort;

/// When keys are sealed anew, in milliseconds since 1970.
const NOW: i64 = 1_800_000_000_000;

/// The same as a date of BSON.
const DATE: &[u8; 8] = b"\x00P\\\x18\xa3\x01\x00\x00";

/// The master key of 96 bytes that count up from this one.
fn master(first: u8) -> MasterKey {
    let mut bytes = [0; 96];
    for i in 0..96 {
        bytes[i] = first.wrapping_add(i as u8);
    }
    MasterKey::new(bytes)
}

/// A source of the blocks E0 to EF and C0 to CF, of which the calls of these numbers fail.
fn blocks(rt: &impl Abort, alloc: Global, failing: Vec<u64>) -> MemEntropy {
    let mut first = [0; 16];
    let mut second = [0; 16];
    for i in 0..16 {
        first[i] = 0xE0 + i as u8;
        second[i] = 0xC0 + i as u8;
    }
    let blocks = vec![in alloc; first, second].expect(rt, "memory");
    MemEntropy::new(blocks, failing)
}

/// The file of a vault under another master key; each is named by its first byte.
fn rewrapped(
    rt: &impl Abort,
    alloc: Global,
    file: &[u8],
    from: u8,
    to: u8,
    entropy: &mut MemEntropy,
) -> Result<Vec<u8>, RewrapFault> {
    assert!(rt; file.len() <= 30_000_000, "a test's file is too long");
    let vault = Vault::load(alloc, file).expect(rt, "a vault");
    rewrap_vault(
        alloc,
        file,
        &vault,
        &master(from),
        &master(to),
        NOW,
        &Tables,
        entropy,
    )
}

/// The file under the master key of the bytes 40 to 9F, of keys under that of the bytes 00 to 5F.
fn renewed(rt: &impl Abort, alloc: Global, file: &[u8]) -> Vec<u8> {
    let mut entropy = blocks(rt, alloc, Vec::new(alloc));
    rewrapped(rt, alloc, file, 0, 0x40, &mut entropy).expect(rt, "a file")
}

/// These pieces, one after another.
fn joined(rt: &impl Abort, alloc: Global, pieces: &[&[u8]]) -> Vec<u8> {
    let mut all = Vec::new(alloc);
    for piece in pieces {
        all.extend_from_slice(piece).expect(rt, "memory");
    }
    all
}

/// A vault of one key, 299 bytes: the first one of `TWO_KEYS` without its name.
fn one(rt: &impl Abort, alloc: Global) -> Vec<u8> {
    let file = TWO_KEYS.as_slice();
    assert!(rt; file.len() == 676);
    joined(rt, alloc, &[b"+\x01\x00\x00", &file[4..30], &file[62..331]])
}

/// Whether the key of this id opens to the bytes 80 to DF.
fn opens(vault: &Vault, first: u8, id: &[u8; 16]) -> Result<bool, Keyless> {
    let key = open_key(&Tables, &master(first), vault.by_id(id))?;
    for i in 0..96 {
        if key.bytes()[i] != 0x80 + i as u8 {
            return Ok(false);
        }
    }
    Ok(true)
}

/// The file of `one` under the master key of the bytes 40 to 9F.
fn one_renewed(rt: &impl Abort, alloc: Global, old: &[u8]) -> Vec<u8> {
    assert!(rt; old.len() >= 250);
    let front = &old[0..48];
    let between = &old[208..242];
    let behind = &old[250..];
    joined(rt, alloc, &[front, ONE_MATERIAL, between, DATE, behind])
}

#[test]
fn material_and_date_of_a_key_change(rt: HostRuntime) {
    let alloc = rt.alloc();
    let old = one(&rt, alloc);
    let wanted = one_renewed(&rt, alloc, &old);
    assert!(rt; renewed(&rt, alloc, &old).as_slice() == wanted.as_slice());
}

#[test]
fn local_keys_alone_change_and_each_date_of_theirs(rt: HostRuntime) {
    let alloc = rt.alloc();
    let old = MIXED.as_slice();
    assert!(rt; old.len() == 725);
    let pieces: &[&[u8]] = &[
        &old[..22],
        FIRST_MATERIAL,
        &old[182..194],
        DATE,
        &old[202..316],
        DATE,
        &old[324..479],
        THIRD_MATERIAL,
        &old[639..],
    ];
    let wanted = joined(&rt, alloc, pieces);
    assert!(rt; renewed(&rt, alloc, old).as_slice() == wanted.as_slice());
}

#[test]
fn a_key_opens_under_the_new_master_key_alone(rt: HostRuntime) {
    let id = b"\x00\x11\x22\x33DUFw\x88\x99\xaa\xbb\xcc\xdd\xee\xff";
    let file = renewed(&rt, rt.alloc(), &one(&rt, rt.alloc()));
    assert!(rt; file.len() <= 1_000);
    let vault = Vault::load(rt.alloc(), &file).expect(&rt, "a vault");
    assert!(rt; opens(&vault, 0x40, id) == Ok(true));
    assert!(rt; opens(&vault, 0, id) == Err(Keyless::Damaged));
}

#[test]
fn the_first_key_that_doesnt_open_is_told(rt: HostRuntime) {
    let alloc = rt.alloc();
    let mut third = *MIXED;
    third[638] ^= 1;
    let first = one(&rt, alloc);
    let cases: &[(&[u8], u8, u32)] = &[(&first, 0x40, 1), (MIXED, 0x40, 1), (&third, 0, 3)];
    for (file, from, document) in cases {
        let mut entropy = blocks(&rt, alloc, Vec::new(alloc));
        let answer = rewrapped(&rt, alloc, file, *from, 0x40, &mut entropy);
        let wanted = RewrapFault::Damaged {
            document: *document,
        };
        assert!(rt; answer.err() == Some(wanted));
        assert!(rt; matches!(entropy.block(), Ok(block) if block[0] == 0xE0));
    }
}

#[test]
fn an_empty_vault_stays_empty(rt: HostRuntime) {
    assert!(rt; renewed(&rt, rt.alloc(), b"").is_empty());
}

#[test]
fn each_draw_that_fails_is_told(rt: HostRuntime) {
    let alloc = rt.alloc();
    let first = one(&rt, alloc);
    let cases: &[(&[u8], u64)] = &[(&first, 0), (MIXED, 0), (MIXED, 1)];
    for (file, call) in cases {
        let failing = vec![in alloc; *call].expect(&rt, "memory");
        let mut entropy = blocks(&rt, alloc, failing);
        let answer = rewrapped(&rt, alloc, file, 0, 0x40, &mut entropy);
        assert!(rt; answer.err() == Some(RewrapFault::EntropyFailed));
    }
}

/// How many keys a vault of many keys has.
const MANY: u32 = 1_024;

/// Such a vault. Each key is the one of `one` but for its id, whose first four bytes are its number.
fn many(rt: &impl Abort, alloc: Global) -> Vec<u8> {
    let key = one(rt, alloc);
    let bytes = key.as_slice();
    assert!(rt; bytes.len() == 299);
    let mut file = Vec::new(alloc);
    for number in 0..MANY {
        file.extend_from_slice(&bytes[..14]).expect(rt, "memory");
        file.extend_from_slice(&number.to_le_bytes())
            .expect(rt, "memory");
        file.extend_from_slice(&bytes[18..]).expect(rt, "memory");
    }
    file
}

#[test]
fn a_vault_of_many_keys_is_rewrapped(rt: HostRuntime) {
    let alloc = rt.alloc();
    let file = many(&rt, alloc);
    let ivs = vec![in alloc; [0xE0; 16]; MANY as usize].expect(&rt, "memory");
    let mut entropy = MemEntropy::new(ivs, Vec::new(alloc));
    let renewed = rewrapped(&rt, alloc, &file, 0, 0x40, &mut entropy).expect(&rt, "a file");
    assert!(rt; renewed.len() == 299 * MANY as usize);
    let vault = Vault::load(alloc, &renewed).expect(&rt, "a vault");
    assert!(rt; vault.len() == MANY as usize);
    let last = b"\xff\x03\x00\x00DUFw\x88\x99\xaa\xbb\xcc\xdd\xee\xff";
    assert!(rt; opens(&vault, 0x40, last) == Ok(true));
}
