//! Tables of more keys than are looked through, and keys by alternate names.

use bson_tree::Bytes;
use doc_rewrite::KeyTable;
use fle_aead::{DataKey, SharedKey};
use std::alloc::Global;

/// The id of this number.
fn id_of(number: u8) -> [u8; 16] {
    [
        number, 0x11, 0x22, 0x33, 0x44, 0x55, 0x46, 0x77, 0x88, 0x99, 0xaa, 0xbb, 0xcc, 0xdd, 0xee,
        0xff,
    ]
}

/// Adds a key whose id has this number, shared where the number is even; whether there was memory.
fn add(alloc: Global, keys: &mut KeyTable, number: u8) -> bool {
    let key = DataKey::new([number; 96]);
    if number % 2 != 0 {
        return keys.add(id_of(number), key).is_ok();
    }
    match SharedKey::new(alloc, key) {
        Ok(key) => keys.add_shared(id_of(number), key).is_ok(),
        Err(_) => false,
    }
}

/// Whether a key whose id has this number is found.
fn has(keys: &KeyTable, number: u8) -> bool {
    keys.find(&id_of(number)).is_some()
}

#[test]
fn keys_are_found_wherever_they_stand(rt: HostRuntime) {
    let numbers: &[u8] = &[
        1, 2, 3, 4, 5, 6, 7, 8, 9, 10, 11, 12, 13, 14, 15, 16, 17, 18, 19, 9, 1,
    ];
    let mut keys = KeyTable::new(rt.alloc());
    for number in numbers {
        assert!(rt; add(rt.alloc(), &mut keys, *number));
    }
    for number in numbers {
        assert!(rt; has(&keys, *number));
    }
    assert!(rt; !has(&keys, 0) && !has(&keys, 20));
}

/// Adds a key whose id has this number by this name, shared where the number is even; whether there was memory.
fn add_named(alloc: Global, keys: &mut KeyTable, name: &[u8], number: u8) -> bool {
    let Ok(name) = Bytes::from_slice(alloc, name) else {
        return false;
    };
    let key = DataKey::new([number; 96]);
    if number % 2 != 0 {
        return keys.add_named(name, id_of(number), key).is_ok();
    }
    match SharedKey::new(alloc, key) {
        Ok(key) => keys.add_named_shared(name, id_of(number), key).is_ok(),
        Err(_) => false,
    }
}

/// Whether a key whose id has this number is found by this name.
fn leads(keys: &KeyTable, name: &[u8], number: u8) -> bool {
    match keys.find_named(name) {
        Some((id, _)) => *id == id_of(number),
        None => false,
    }
}

#[test]
fn keys_are_found_by_their_names(rt: HostRuntime) {
    let named: &[(&[u8], u8)] = &[
        (b"hr-key", 1),
        (b"", 2),
        (b"hr-key", 3),
        (b"hr", 4),
        (b"\xff", 5),
    ];
    let mut keys = KeyTable::new(rt.alloc());
    for (name, number) in named {
        assert!(rt; add_named(rt.alloc(), &mut keys, name, *number));
    }
    let found: &[(&[u8], u8)] = &[(b"hr-key", 1), (b"", 2), (b"hr", 4), (b"\xff", 5)];
    for (name, number) in found {
        assert!(rt; leads(&keys, name, *number));
        assert!(rt; !has(&keys, *number));
    }
    assert!(rt; keys.find_named(b"hr-ke").is_none() && keys.find_named(b"x").is_none());
}
