//! Byte lists: names, and the bytes of raw values.

ghost use Rattle.std.specs.Prelude.{◌≡◌, IfOk};

use fle_outside::Memory;
use std::alloc::Global;
use std::marker::Model;

/// A list of bytes that owns its memory.
#[derive(Drop)]
pub struct Bytes {
    bytes: Vec<u8>,
}

impl Model for Bytes {
    ghost use Rattle.std.specs.Prelude.{ℕ, List};

    ghost Value = { List ℕ };

    ghost view = { λ b. b.bytes.items };
}

impl Bytes {
    /// A copy of the bytes. `Memory` where there is none for it.
    pub fn from_slice(alloc: Global, bytes: &[u8]) -> Result<Bytes, Memory>
        ensures copy { IfOk result (λ b. b ≡ bytes.now) }
    {
        let mut copy = Vec::new(alloc);
        match copy.extend_from_slice(bytes) {
            Ok(()) => Ok(Bytes { bytes: copy }),
            Err(_) => Err(Memory),
        }
    }

    /// The bytes of a `Vec`, which allocates nothing.
    pub fn from_vec(bytes: Vec<u8>) -> Bytes
        ensures same { result ≡ bytes.items }
    {
        Bytes { bytes }
    }

    /// The bytes as a `Vec`, which allocates nothing.
    pub fn into_vec(self) -> Vec<u8>
        ensures same { result.items ≡ self }
    {
        self.bytes
    }

    /// The bytes.
    pub fn as_slice(&self) -> &[u8]
        ensures same { result.now ≡ self.now }
    {
        &self.bytes
    }
}
