//! A bounded cache of opened keys.

ghost use Rattle.std.specs.Prelude.{◌≡◌, [], map, length, bytes_eq, Some, Ok, IfOk, IfSome, OnErr};
ghost use Rattle.std.specs.NonZero.{non_zero_usize_get};
ghost use Rattle.lru.specs.LruCache.{lru_cache, promoted};
ghost use Rattle.local_kms.specs.Wrapped.{Unwraps};
ghost use Rattle.key_vault.specs.Cached.{AreOpened, entry_of, Keeps, KeepsOpened, kept_key, key_from, Opens};
ghost use Rattle.key_vault.specs.Cached.{used_first};

use crate::kept_key::KeptKey;
use crate::open_stop::OpenStop;
use crypto_hooks::Block256;
use data_key::KeyDoc;
use fle_aead::{DataKey, SharedKey};
use fle_outside::Memory;
use local_kms::{MasterKey, UnwrapFault, unwrap_key};
use lru::LruCache;
use std::alloc::Global;
use std::marker::Model;
use std::num::NonZeroUsize;

/// How many keys are kept where a caller names no number.
const CAPACITY: usize = 64;

/// How many bytes of material a key that opened has.
const MATERIAL: usize = 160;

/// A key that was opened, with the material that it was opened from.
#[derive(Drop)]
pub(crate) struct Opened {
    material: [u8; 160],
    key: KeptKey,
}

/// A master key and the keys that were opened under it, the most recently used first, no more than a capacity.
#[derive(Drop)]
pub struct KeyCache {
    alloc: Global,
    master: MasterKey,
    kept: LruCache<[u8; 16], Opened>,
}

impl Model for KeyCache {
    ghost use Rattle.std.specs.Prelude.{List, map};
    ghost use Rattle.key_vault.specs.Cached.{AreOpened, Cached, coded_cached, entry_of};

    ghost Value = { Cached };

    ghost coded = { coded_cached };

    ghost view = { λ c. record { master = c.master; capacity = c.kept.cap; entries = map entry_of c.kept.entries } };

    ghost invariant = { λ c. AreOpened c.master c.kept.entries };
}

impl KeyCache {
    /// No key yet, of at most 64. `Memory` where there is none for it.
    pub fn new(alloc: Global, master: MasterKey) -> Result<KeyCache, Memory>
        ensures empty { IfOk result (λ c. c ≡ record { master = master; capacity = 64; entries = [] }) }
    {
        let Some(capacity) = NonZeroUsize::new(CAPACITY) else {
            unreachable!()
        };
        KeyCache::with_capacity(alloc, master, capacity)
    }

    /// No key yet, of at most this many, for which there is room from the start. `Memory` where there is none for it.
    pub fn with_capacity(
        alloc: Global,
        master: MasterKey,
        capacity: NonZeroUsize,
    ) -> Result<KeyCache, Memory>
        ensures empty { IfOk result (λ c. c ≡ record {
          master = master;
          capacity = non_zero_usize_get capacity;
          entries = [];
        }) }
    {
        match LruCache::new(alloc, capacity) {
            Ok(kept) => Ok(KeyCache {
                alloc,
                master,
                kept,
            }),
            Err(_) => Err(Memory),
        }
    }

    /// The master key.
    pub fn master(&self) -> &MasterKey
        ensures master { result.now ≡ self.now.master }
    {
        &self.master
    }

    /// How many keys are kept.
    pub fn len(&self) -> usize
        ensures number { result ≡ length self.now.entries }
    {
        self.kept.len()
    }

    /// The data key of a key under the cache's master key, shared: found where it is kept with this material, else
    /// opened and kept. What is kept under the key's id counts as used, also where it has other material or the key
    /// isn't answered. A key that isn't opened isn't kept. Where there is no memory to keep one, it is answered all
    /// the same.
    pub fn open<B: Block256>(&mut self, hooks: &B, key: &KeyDoc) -> Result<SharedKey, OpenStop>
        requires hooks { B.answers hooks.now }
        ensures master { self.new.master ≡ self.old.master }
        ensures capacity { self.new.capacity ≡ self.old.capacity }
        ensures answer { Opens self.old.master key.now.material result }
        ensures kept { Keeps self.old.capacity key.now self.old.entries self.new.entries result }
    {
        match self.kept_key(key) {
            Ok(Some(shared)) => Ok(shared),
            Ok(None) => self.open_new(hooks, key),
            Err(Memory) => Err(OpenStop::Memory),
        }
    }

    /// The same, not shared. It allocates only to keep the key.
    pub fn data_key<B: Block256>(&mut self, hooks: &B, key: &KeyDoc) -> Result<DataKey, UnwrapFault>
        requires hooks { B.answers hooks.now }
        ensures master { self.new.master ≡ self.old.master }
        ensures capacity { self.new.capacity ≡ self.old.capacity }
        ensures answer { Unwraps self.old.master key.now.material result }
        ensures kept { Keeps self.old.capacity key.now self.old.entries self.new.entries result }
    {
        match self.open(hooks, key) {
            Ok(shared) => Ok(again(shared.key())),
            Err(OpenStop::Unopened(fault)) => Err(fault),
            Err(OpenStop::Memory) => self.open_alone(hooks, key),
        }
    }

    /// Opens a key, and keeps it shared.
    fn open_new<B: Block256>(&mut self, hooks: &B, key: &KeyDoc) -> Result<SharedKey, OpenStop>
        requires hooks { B.answers hooks.now }
        ensures master { self.new.master ≡ self.old.master }
        ensures capacity { self.new.capacity ≡ self.old.capacity }
        ensures answer { Opens self.old.master key.now.material result }
        ensures kept { IfOk result (λ k. KeepsOpened self.old.capacity key.now k self.old.entries self.new.entries) }
        ensures refused { OnErr result (self.new.entries ≡ self.old.entries) }
    {
        match unwrap_key(hooks, &self.master, key.material.as_slice()) {
            Ok(opened) => match SharedKey::new(self.alloc, opened) {
                Ok(shared) => {
                    keep(&mut self.kept, &self.master, key, KeptKey::of(&shared));
                    Ok(shared)
                }
                Err(_) => Err(OpenStop::Memory),
            },
            Err(fault) => Err(OpenStop::Unopened(fault)),
        }
    }

    /// Opens a key, and keeps its bytes.
    fn open_alone<B: Block256>(&mut self, hooks: &B, key: &KeyDoc) -> Result<DataKey, UnwrapFault>
        requires hooks { B.answers hooks.now }
        ensures master { self.new.master ≡ self.old.master }
        ensures capacity { self.new.capacity ≡ self.old.capacity }
        ensures answer { Unwraps self.old.master key.now.material result }
        ensures kept { IfOk result (λ k. KeepsOpened self.old.capacity key.now k self.old.entries self.new.entries) }
        ensures refused { OnErr result (self.new.entries ≡ self.old.entries) }
    {
        match unwrap_key(hooks, &self.master, key.material.as_slice()) {
            Ok(opened) => {
                keep(&mut self.kept, &self.master, key, KeptKey::alone(&opened));
                Ok(opened)
            }
            Err(fault) => Err(fault),
        }
    }

    /// The data key, shared, where it is kept under the key's id with its material; `None` exactly where it isn't.
    /// What is kept under the id is the most recently used from then on. `Memory` where there is none to share it.
    fn kept_key(&mut self, key: &KeyDoc) -> Result<Option<SharedKey>, Memory>
        ensures master { self.new.master ≡ self.old.master }
        ensures capacity { self.new.capacity ≡ self.old.capacity }
        ensures found { IfOk result (λ k. k ≡ kept_key key.now self.old.entries) }
        ensures opened { IfOk result (λ k. IfSome k (λ x. Unwraps self.old.master key.now.material (Ok x))) }
        ensures used { self.new.entries ≡ used_first key.now.id self.old.entries }
    {
        found(&mut self.kept, self.alloc, key)
    }
}

/// The same key.
fn again(key: &DataKey) -> DataKey
    ensures same { result ≡ key.now }
{
    match key.clone() {
        Ok(key) => key,
        Err(_) => unreachable!(),
    }
}

/// The data key, shared, where it is kept under the key's id with its material. What is kept under the id goes before
/// the others. The most recently used is looked at first, for which the id isn't hashed.
fn found(
    kept: &mut LruCache<[u8; 16], Opened>,
    alloc: Global,
    key: &KeyDoc,
) -> Result<Option<SharedKey>, Memory>
    ensures found { IfOk result (λ k. k ≡ kept_key key.now (map entry_of kept.old.entries)) }
    ensures used { kept.new ≡ lru_cache (promoted (bytes_eq key.now.id) kept.old.entries) kept.old.cap }
{
    match kept.peek_mru() {
        Some((first, opened)) => {
            if key.id == *first {
                share_of(opened, alloc, key)
            } else {
                looked_up(kept, alloc, key)
            }
        }
        None => Ok(None),
    }
}

/// The same by the id's hash.
fn looked_up(
    kept: &mut LruCache<[u8; 16], Opened>,
    alloc: Global,
    key: &KeyDoc,
) -> Result<Option<SharedKey>, Memory>
    ensures found { IfOk result (λ k. k ≡ kept_key key.now (map entry_of kept.old.entries)) }
    ensures used { kept.new ≡ lru_cache (promoted (bytes_eq key.now.id) kept.old.entries) kept.old.cap }
{
    match kept.get(&key.id) {
        Some(opened) => share_of(opened, alloc, key),
        None => Ok(None),
    }
}

/// The data key that is kept, shared, where it is of the key's material.
fn share_of(opened: &Opened, alloc: Global, key: &KeyDoc) -> Result<Option<SharedKey>, Memory>
    ensures found { IfOk result (λ k. k ≡ key_from key.now.material (Some (entry_of (key.now.id, opened.now)))) }
{
    if is_material(&opened.material, key.material.as_slice()) {
        match opened.key.share(alloc) {
            Ok(shared) => Ok(Some(shared)),
            Err(Memory) => Err(Memory),
        }
    } else {
        Ok(None)
    }
}

/// Whether this material is the one that is kept.
fn is_material(kept: &[u8; 160], material: &[u8]) -> bool
    ensures same { result ≡ bytes_eq kept.now material.now }
{
    kept.as_slice() == material
}

/// The material, which has 160 bytes.
fn array_of(material: &[u8]) -> [u8; 160]
    requires { length material.now ≡ 160 }
    ensures { result ≡ material.now }
{
    let mut array = [0; MATERIAL];
    array.copy_from_slice(material);
    array
}

/// Keeps a key that was opened, before the others. Where there is no memory for it, it isn't kept.
fn keep(kept: &mut LruCache<[u8; 16], Opened>, master: &MasterKey, key: &KeyDoc, opened: KeptKey)
    requires opened { AreOpened master.now kept.old.entries }
    requires right { Unwraps master.now key.now.material (Ok opened) }
    ensures opened { AreOpened master.now kept.new.entries }
    ensures capacity { kept.new.cap ≡ kept.old.cap }
    ensures kept { KeepsOpened kept.old.cap key.now opened (map entry_of kept.old.entries)
        (map entry_of kept.new.entries) }
{
    let _ = master;
    let material = array_of(key.material.as_slice());
    let _ = kept.put(
        key.id,
        Opened {
            material,
            key: opened,
        },
    );
}
