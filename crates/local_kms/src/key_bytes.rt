//! Data keys as they are sealed: 96 bytes, and nothing made of them.

ghost use Rattle.std.specs.Prelude.{◌≡◌};

use fle_aead::DataKey;
use std::marker::Model;

/// The 96 bytes of a data key. Neither a schedule nor the state of a MAC is made of them, since a key that goes from
/// one master key to another seals nothing itself.
#[derive(Drop)]
pub struct KeyBytes {
    bytes: [u8; 96],
}

impl Model for KeyBytes {
    ghost use Rattle.std.specs.Prelude.{ℕ, List};

    ghost Value = { List ℕ };

    ghost view = { λ k. k.bytes };
}

impl KeyBytes {
    /// A key of these bytes.
    pub fn new(bytes: [u8; 96]) -> KeyBytes
        ensures bytes { result ≡ bytes }
    {
        KeyBytes { bytes }
    }

    /// The 96 bytes.
    pub fn bytes(&self) -> &[u8; 96]
        ensures bytes { result.now ≡ self.now }
    {
        &self.bytes
    }

    /// The data key of these bytes, which seals and opens.
    pub fn data_key(&self) -> DataKey
        ensures key { result ≡ self.now }
    {
        DataKey::new(self.bytes)
    }
}
