//! Caches beside plain lists.

ghost use Rattle.std.specs.Prelude.{⊤};

use aes_block::{Schedule, cipher, inv_cipher};
use bson_tree::{Bytes, Names};
use crypto_hooks::{Block256, Tables};
use data_key::{KeyDoc, Provider};
use fle_aead::DataKey;
use key_vault::{KeyCache, OpenStop};
use local_kms::{MasterKey, UnwrapFault, wrap_key};
use std::alloc::Global;
use std::cell::Cell;
use std::num::NonZeroUsize;
use std::process::Abort;

/// The most keys that `KeyCache::new` keeps.
const MOST: usize = 64;

/// The cipher of FIPS 197, and how many blocks it decrypted.
#[derive(Drop)]
struct Counted {
    opened: Cell<u32>,
}

impl Block256 for Counted {
    ghost answers = { λ _. ⊤ };

    fn seal_block(&self, schedule: &Schedule, block: [u8; 16]) -> [u8; 16] {
        cipher(schedule, block)
    }

    fn open_block(&self, schedule: &Schedule, block: [u8; 16]) -> [u8; 16] {
        self.opened.set(self.opened.get().saturating_add(1));
        inv_cipher(schedule, block)
    }
}

/// A cache and the list of the bytes whose keys it has to keep, the most recently used first.
#[derive(Drop)]
struct Beside {
    cache: KeyCache,
    list: Vec<u8>,
    most: usize,
    hooks: Counted,
}

/// A key whose data key is this byte, 96 times; where it is `damaged`, the last byte of its tag is another.
fn key_of(rt: &impl Abort, alloc: Global, byte: u8, damaged: bool) -> KeyDoc {
    let master = MasterKey::new([7; 96]);
    let mut material = wrap_key(&Tables, &master, [byte; 16], &DataKey::new([byte; 96]));
    if damaged {
        material[159] ^= 1;
    }
    KeyDoc {
        id: [byte; 16],
        names: Names::new(alloc),
        material: Bytes::from_vec(Vec::from_slice(alloc, &material).expect(rt, "memory")),
        provider: Provider::Local,
    }
}

/// The master key of every cache.
fn master() -> MasterKey {
    MasterKey::new([7; 96])
}

/// A cache without keys.
fn no_keys(rt: &impl Abort, alloc: Global) -> KeyCache {
    KeyCache::new(alloc, master()).expect(rt, "memory")
}

/// A cache without keys that keeps at most this many, beside an empty list.
fn none_of(rt: &impl Abort, alloc: Global, most: usize) -> Beside {
    let capacity = NonZeroUsize::new(most).expect(rt, "no capacity");
    Beside {
        cache: KeyCache::with_capacity(alloc, master(), capacity).expect(rt, "memory"),
        list: Vec::new(alloc),
        most,
        hooks: Counted {
            opened: Cell::new(0),
        },
    }
}

/// The next of Marsaglia's 64-bit xorshift numbers.
fn next(x: u64) -> u64 {
    let x = x ^ (x << 13);
    let x = x ^ (x >> 7);
    x ^ (x << 17)
}

/// The list with this byte in front, of at most so many.
fn fronted(rt: &impl Abort, alloc: Global, byte: u8, list: &[u8], most: usize) -> Vec<u8> {
    let mut fronted = vec![in alloc; byte].expect(rt, "memory");
    for other in list {
        if *other != byte && fronted.len() < most {
            fronted.push(*other).expect(rt, "memory");
        }
    }
    fronted
}

/// The data key that a cache answers, asked for it by `open` or by `data_key`; `None` where the material doesn't open.
fn answer(
    rt: &impl Abort,
    cache: &mut KeyCache,
    hooks: &Counted,
    key: &KeyDoc,
    shared: bool,
) -> Option<[u8; 96]> {
    if shared {
        match cache.open(hooks, key) {
            Ok(key) => Some(*key.key().bytes()),
            Err(OpenStop::Unopened(_)) => None,
            Err(OpenStop::Memory) => {
                assert!(rt; false, "memory");
                None
            }
        }
    } else {
        match cache.data_key(hooks, key) {
            Ok(key) => Some(*key.bytes()),
            Err(_) => None,
        }
    }
}

/// Whether the answer is the data key of this byte; or none, where its material is damaged.
fn is_right(answer: Option<[u8; 96]>, byte: u8, damaged: bool) -> bool {
    match answer {
        Some(key) => !damaged && key == [byte; 96],
        None => damaged,
    }
}

/// Asks for the key of this byte, and puts it in front of the list where it opens or the list has it. Whether the
/// answer is right, and no block was decrypted where the list had the byte.
fn agree(
    rt: &impl Abort,
    alloc: Global,
    beside: &mut Beside,
    byte: u8,
    damaged: bool,
    shared: bool,
) -> bool {
    let key = key_of(rt, alloc, byte, damaged);
    let listed = beside.list.contains(&byte);
    let before = beside.hooks.opened.get();
    let answered = is_right(
        answer(rt, &mut beside.cache, &beside.hooks, &key, shared),
        byte,
        damaged,
    );
    if !damaged || listed {
        beside.list = fronted(rt, alloc, byte, &beside.list, beside.most);
    }
    answered
        && (damaged || listed) == (beside.hooks.opened.get() == before)
        && beside.cache.len() == beside.list.len()
}

/// Looks up so many random keys, every eleventh or so damaged.
fn look_up(rt: &impl Abort, alloc: Global, most: usize, times: u32) {
    let mut beside = none_of(rt, alloc, most);
    let mut x = 88172645463325252;
    for _ in 0..times {
        x = next(x);
        let byte = (x % 100) as u8;
        assert!(rt; agree(rt, alloc, &mut beside, byte, x % 11 == 0, x % 3 == 0));
    }
    assert!(rt; beside.cache.len() == most.min(100));
}

#[test]
fn a_cache_keeps_what_a_plain_list_keeps(rt: HostRuntime) {
    look_up(&rt, rt.alloc(), MOST, 10_000);
}

#[test]
fn a_cache_keeps_as_many_keys_as_it_may(rt: HostRuntime) {
    for most in [1, 2, 65, 4_096] {
        look_up(&rt, rt.alloc(), most, 1_000);
    }
}

/// Whether the data key of this byte was answered; or no key, where its material is damaged.
fn is_answer(answer: Result<DataKey, UnwrapFault>, byte: u8, damaged: bool) -> bool {
    match answer {
        Ok(key) => !damaged && *key.bytes() == [byte; 96],
        Err(_) => damaged,
    }
}

/// Whether the answer is that the tag is wrong.
fn has_wrong_tag(answer: Result<DataKey, UnwrapFault>) -> bool {
    matches!(answer, Err(UnwrapFault::Tag { .. }))
}

#[test]
fn a_kept_key_doesnt_answer_for_other_material(rt: HostRuntime) {
    let key = key_of(&rt, rt.alloc(), 9, false);
    let damaged = key_of(&rt, rt.alloc(), 9, true);
    let mut cache = no_keys(&rt, rt.alloc());
    assert!(rt; is_answer(cache.data_key(&Tables, &key), 9, false));
    assert!(rt; has_wrong_tag(cache.data_key(&Tables, &damaged)));
    assert!(rt; is_answer(cache.data_key(&Tables, &key), 9, false));
    assert!(rt; cache.len() == 1);
}

#[test]
fn a_new_cache_keeps_64_keys(rt: HostRuntime) {
    let mut cache = no_keys(&rt, rt.alloc());
    for byte in 0..65 {
        let key = key_of(&rt, rt.alloc(), byte, false);
        assert!(rt; is_answer(cache.data_key(&Tables, &key), byte, false));
    }
    assert!(rt; cache.len() == MOST);
}

#[test]
fn the_key_used_least_recently_goes_first(rt: HostRuntime) {
    let mut beside = none_of(&rt, rt.alloc(), 3);
    // 1 goes for 3, since 0 was used after it, and 2 for 1.
    for byte in [0, 1, 2, 0, 3, 1, 0, 3] {
        assert!(rt; agree(&rt, rt.alloc(), &mut beside, byte, false, true));
    }
    assert!(rt; beside.list.as_slice() == [3, 0, 1].as_slice());
}
