//! Keys as they are kept.

use bson_tree::{Bytes, Names};
use fle_outside::Memory;

/// Who holds the master key under which a data key is sealed.
#[derive(Clone, Copy, Debug, PartialEq, Eq)]
pub enum Provider {
    /// The user, in a file of 96 bytes.
    Local,
    /// A key service.
    Other,
}

/// A data key as a key document keeps it.
#[derive(Drop)]
pub struct KeyDoc {
    /// The UUID under which rules and payloads name it.
    pub id: [u8; 16],
    /// Its alternate names.
    pub names: Names,
    /// The key itself, sealed under the master key.
    pub material: Bytes,
    /// Who holds the master key.
    pub provider: Provider,
}

/// The first field of a key document that is faulty, in the order in which they are judged; or memory ran out.
#[derive(Clone, Copy, Debug, PartialEq, Eq)]
pub enum KeyFault {
    /// `_id` isn't one binary of subtype 04 with 16 bytes.
    Id,
    /// `keyAltNames` stands twice, or isn't an array of strings.
    AltNames,
    /// `keyMaterial` isn't one binary of subtype 00.
    Material,
    /// `masterKey` isn't one document, or its `provider` isn't one string.
    Provider,
    /// There was no memory for the key. It may come at any time.
    Memory,
}

impl From<Memory> for KeyFault {
    ghost use Rattle.data_key.specs.declared.key_doc.KeyFault.TheVariants as faults;
    ghost use Rattle.std.specs.Prelude.{◌≡◌};

    ghost from_gives = { λ _ e. e ≡ faults.Memory };

    fn from(_memory: Memory) -> KeyFault {
        KeyFault::Memory
    }
}
