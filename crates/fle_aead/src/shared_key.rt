//! Data keys with several owners.

ghost use Rattle.std.specs.Prelude.{◌≡◌, IfOk};

use crate::key::DataKey;
use std::alloc::{AllocError, Global};
use std::marker::Model;
use std::sync::Arc;

/// A data key that several tables or caches own, on any threads, seen as the data key. A copy of it is another owner
/// of the same key, and costs none of its 1,152 bytes.
#[derive(Drop)]
pub struct SharedKey {
    key: Arc<DataKey>,
}

impl Model for SharedKey {
    ghost use Rattle.std.specs.Prelude.{ℕ, List};

    ghost Value = { List ℕ };

    ghost view = { λ s. s.key.value };
}

impl Clone for SharedKey {
    ghost use Rattle.std.specs.Prelude.{◌≡◌};

    ghost is_clone = { λ x y. y ≡ x };

    fn clone(&self) -> Result<SharedKey, AllocError> {
        Ok(SharedKey {
            key: self.key.clone()?,
        })
    }
}

impl SharedKey {
    /// A key with one owner. Fails for want of memory alone.
    pub fn new(alloc: Global, key: DataKey) -> Result<SharedKey, AllocError>
        ensures key { IfOk result (λ s. s ≡ key) }
    {
        match Arc::new(alloc, key) {
            Ok(key) => Ok(SharedKey { key }),
            Err(_) => Err(AllocError),
        }
    }

    /// The data key.
    pub fn key(&self) -> &DataKey
        ensures key { result.now ≡ self.now }
    {
        &self.key
    }
}
