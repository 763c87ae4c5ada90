//! Lists of names.

ghost use Rattle.std.specs.Prelude.{◌≡◌, [], ◌∷◌, ◌++◌, length, option_copied, OnOk, OnErr, IfErr};
ghost use Rattle.std.specs.List.{slice_get};

use crate::bytes::Bytes;
use std::alloc::Global;
use std::marker::Model;

/// A list of names in order. A name may stand twice.
#[derive(Drop)]
pub struct Names {
    names: Vec<Bytes>,
}

impl Model for Names {
    ghost use Rattle.std.specs.Prelude.{ℕ, List};

    ghost Value = { List (List ℕ) };

    ghost view = { λ n. n.names.items };
}

impl Names {
    /// The empty list; it allocates nothing.
    pub fn new(alloc: Global) -> Names
        ensures empty { result ≡ [] }
    {
        Names {
            names: Vec::new(alloc),
        }
    }

    /// The names of a `Vec`, which allocates nothing.
    pub fn from_vec(names: Vec<Bytes>) -> Names
        ensures same { result ≡ names.items }
    {
        Names { names }
    }

    /// The names as a `Vec`, which allocates nothing.
    pub fn into_vec(self) -> Vec<Bytes>
        ensures same { result.items ≡ self }
    {
        self.names
    }

    /// Appends a name. Where there is no memory for it, the name comes back and the list is as before.
    pub fn push(&mut self, name: Bytes) -> Result<(), Bytes>
        ensures appended { OnOk result (self.new ≡ self.old ++ name ∷ []) }
        ensures back { IfErr result (λ back. back ≡ name) }
        ensures same { OnErr result (self.new ≡ self.old) }
    {
        match self.names.push(name) {
            Ok(()) => Ok(()),
            Err(failed) => Err(failed.value),
        }
    }

    /// How many names there are.
    pub fn len(&self) -> usize
        ensures number { result ≡ length self.now }
    {
        self.names.len()
    }

    /// Name number `i`, from 0: `None` exactly where `i` isn't below `len`.
    pub fn name(&self, i: usize) -> Option<&Bytes>
        ensures found { option_copied result ≡ slice_get self.now i }
    {
        self.names.get(i)
    }

    /// The names in order.
    pub fn as_slice(&self) -> &[Bytes]
        ensures same { result.now ≡ self.now }
    {
        &self.names
    }
}
