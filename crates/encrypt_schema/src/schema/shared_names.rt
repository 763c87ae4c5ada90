//! Names with several owners.

ghost use Rattle.std.specs.Prelude.{◌≡◌, IfOk};

use bson_tree::{Bytes, Names};
use fle_outside::Memory;
use std::alloc::{AllocError, Global};
use std::marker::Model;
use std::sync::Arc;

/// The names of a pointer that several rules own, on any threads, seen as the names. A copy is another owner of the
/// same names, and costs none of them.
#[derive(Drop)]
pub struct SharedNames {
    names: Arc<Names>,
}

impl Model for SharedNames {
    ghost use Rattle.std.specs.Prelude.{ℕ, List};

    ghost Value = { List (List ℕ) };

    ghost view = { λ s. s.names.value };
}

impl Clone for SharedNames {
    ghost use Rattle.std.specs.Prelude.{◌≡◌};

    ghost is_clone = { λ x y. y ≡ x };

    fn clone(&self) -> Result<SharedNames, AllocError> {
        Ok(SharedNames {
            names: self.names.clone()?,
        })
    }
}

impl SharedNames {
    /// Names with one owner.
    pub fn new(alloc: Global, names: Names) -> Result<SharedNames, Memory>
        ensures same { IfOk result (λ s. s ≡ names) }
    {
        match Arc::new(alloc, names) {
            Ok(names) => Ok(SharedNames { names }),
            Err(_) => Err(Memory),
        }
    }

    /// The names in order.
    pub fn as_slice(&self) -> &[Bytes]
        ensures same { result.now ≡ self.now }
    {
        self.names.as_slice()
    }
}
