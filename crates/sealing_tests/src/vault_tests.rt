//! Vaults, and keys that are opened from them.

use crypto_hooks::Tables;
use key_vault::{Keyless, Vault, VaultFault, VaultKind, open_key};
use local_kms::MasterKey;
use sample_documents::TWO_KEYS;
use std::alloc::Global;
use std::process::Abort;

/// The first key's id, the UUID 00112233-4455-4677-8899-aabbccddeeff.
const ID: &[u8; 16] = b"\x00\x11\x22\x33\x44\x55\x46\x77\x88\x99\xaa\xbb\xcc\xdd\xee\xff";

/// How many bytes a key with the names `a` and `b` and without material has.
const SMALL: usize = 121;

/// Such a key, written in the same way.
const AB: &[u8; SMALL] =
    b"y\x00\x00\x00\x05_id\x00\x10\x00\x00\x00\x04\x01\x01\x01\x01\x01\x01\x01\x01\x01\x01\x01\x01\
    \x01\x01\x01\x01\x04keyAltNames\x00\x17\x00\x00\x00\x020\x00\x02\x00\x00\x00a\x00\x021\x00\x02\
    \x00\x00\x00b\x00\x00\x05keyMaterial\x00\x00\x00\x00\x00\x00\x03masterKey\x00\x19\x00\x00\x00\
    \x02provider\x00\x06\x00\x00\x00local\x00\x00\x00";

/// The key of this id with these two names.
fn named(id: u8, first: u8, second: u8) -> [u8; SMALL] {
    let mut key = *AB;
    key[14] = id;
    key[54] = first;
    key[63] = second;
    key
}

/// The master key, the bytes 00 to 5F.
fn master() -> MasterKey {
    let mut bytes = [0; 96];
    for i in 0..96 {
        bytes[i] = i as u8;
    }
    MasterKey::new(bytes)
}

/// The number of the faulty document of a file of two parts, and what is wrong with it.
fn fault_of(rt: &impl Abort, alloc: Global, front: &[u8], back: &[u8]) -> Option<(u32, VaultKind)> {
    let mut file = Vec::from_slice(alloc, front).expect(rt, "memory");
    file.extend_from_slice(back).expect(rt, "memory");
    assert!(rt; file.len() <= 10_000, "a test's file is too long");
    match Vault::load(alloc, &file) {
        Ok(_) => None,
        Err(VaultFault::Bad { document, kind }) => Some((document, kind)),
        Err(VaultFault::Memory) => panic!(rt; "memory"),
    }
}

#[test]
fn keys_are_found_by_id_and_by_name(rt: HostRuntime) {
    let vault = Vault::load(rt.alloc(), TWO_KEYS).expect(&rt, "a vault");
    assert!(rt; vault.len() == 2);
    assert!(rt; matches!(vault.by_id(ID), Some(k) if k.names.len() == 1));
    assert!(rt; matches!(vault.by_name(b"audit"), Some(k) if k.names.len() == 2));
    assert!(rt; vault.by_name(b"hr").is_none());
}

#[test]
fn documents_are_judged_in_order(rt: HostRuntime) {
    let cases: &[(&[u8], &[u8], Option<(u32, VaultKind)>)] = &[
        (TWO_KEYS, b"", None),
        (TWO_KEYS, TWO_KEYS, Some((3, VaultKind::IdTwice))),
        (b"\x05\x00\x00\x00\x00", b"\x05", Some((1, VaultKind::Id))),
        (TWO_KEYS, b"\x05", Some((3, VaultKind::Bson))),
    ];
    for (front, back, fault) in cases {
        assert!(rt; fault_of(&rt, rt.alloc(), front, back) == *fault);
    }
}

#[test]
fn a_name_stands_once(rt: HostRuntime) {
    let cases: &[(u8, Option<(u32, VaultKind)>)] = &[
        (b'd', None),
        (b'b', Some((2, VaultKind::NameTwice))),
        (b'c', Some((2, VaultKind::NameTwice))),
    ];
    for (name, fault) in cases {
        let keys = (named(1, b'a', b'b'), named(2, b'c', *name));
        assert!(rt; fault_of(&rt, rt.alloc(), &keys.0, &keys.1) == *fault);
    }
}

#[test]
fn a_key_is_opened(rt: HostRuntime) {
    let vault = Vault::load(rt.alloc(), TWO_KEYS).expect(&rt, "a vault");
    let key = open_key(&Tables, &master(), vault.by_id(ID));
    assert!(rt; matches!(&key, Ok(k) if k.bytes()[0] == 0x80 && k.bytes()[95] == 0xdf));
}

#[test]
fn a_key_that_isnt_opened_is_told_why(rt: HostRuntime) {
    let vault = Vault::load(rt.alloc(), TWO_KEYS).expect(&rt, "a vault");
    let other = MasterKey::new([0; 96]);
    assert!(rt; open_key(&Tables, &other, vault.by_id(ID)).err() == Some(Keyless::Damaged));
    assert!(rt; open_key(&Tables, &other, None).err() == Some(Keyless::Missing));
}
