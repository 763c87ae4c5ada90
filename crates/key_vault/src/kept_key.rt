//! A data key as a cache keeps it.

ghost use Rattle.std.specs.Prelude.{◌≡◌, IfOk};
ghost use Rattle.key_vault.specs.Held.{held_bytes};

use fle_aead::{DataKey, SharedKey};
use fle_outside::Memory;
use std::alloc::Global;
use std::marker::Model;

/// How a data key is held.
#[derive(Drop)]
pub(crate) enum Held {
    /// With what it makes of its bytes, which others may own too.
    Shared(SharedKey),
    /// By its bytes alone, where there was no memory to share it.
    Alone([u8; 96]),
}

/// A data key that is kept, seen as the data key.
#[derive(Drop)]
pub(crate) struct KeptKey {
    held: Held,
}

impl Model for KeptKey {
    ghost use Rattle.std.specs.Prelude.{ℕ, List};
    ghost use Rattle.key_vault.specs.Held.{held_bytes};

    ghost Value = { List ℕ };

    ghost view = { λ k. held_bytes k.held };
}

impl KeptKey {
    /// A share of this key, kept; its bytes, where there is no memory for a share.
    pub(crate) fn of(key: &SharedKey) -> KeptKey
        ensures key { result ≡ key.now }
    {
        match key.clone() {
            Ok(share) => KeptKey {
                held: Held::Shared(share),
            },
            Err(_) => KeptKey::alone(key.key()),
        }
    }

    /// The bytes of this key, kept. It allocates nothing.
    pub(crate) fn alone(key: &DataKey) -> KeptKey
        ensures key { result ≡ key.now }
    {
        KeptKey {
            held: Held::Alone(*key.bytes()),
        }
    }

    /// The same key, shared. `Memory` for want of memory alone.
    pub(crate) fn share(&self, alloc: Global) -> Result<SharedKey, Memory>
        ensures key { IfOk result (λ s. s ≡ self.now) }
    {
        match &self.held {
            Held::Shared(key) => match key.clone() {
                Ok(share) => Ok(share),
                Err(_) => Err(Memory),
            },
            Held::Alone(bytes) => match SharedKey::new(alloc, DataKey::new(*bytes)) {
                Ok(share) => Ok(share),
                Err(_) => Err(Memory),
            },
        }
    }
}
