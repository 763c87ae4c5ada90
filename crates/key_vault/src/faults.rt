//! Why a vault is refused.

use thiserror::Error;

/// What is wrong with a document of a vault, in the order in which it is judged.
#[derive(Clone, Copy, Debug, PartialEq, Eq)]
pub enum VaultKind {
    /// What is left of the file begins with no BSON document.
    Bson,
    /// It is document 65,537.
    TooMany,
    /// `_id` isn't one binary of subtype 04 with 16 bytes.
    Id,
    /// `keyAltNames` stands twice, or isn't an array of strings.
    AltNames,
    /// `keyMaterial` isn't one binary of subtype 00.
    Material,
    /// `masterKey` isn't one document, or its `provider` isn't one string.
    Provider,
    /// A key before has the same id.
    IdTwice,
    /// A key before has one of its names, or the key has one twice.
    NameTwice,
}

/// Why a vault is refused.
#[derive(Debug, Drop, Error)]
#[error("key vault refused")]
pub enum VaultFault {
    /// The first faulty document.
    Bad {
        /// Its number in the file, from 1.
        document: u32,
        /// What is wrong with it.
        kind: VaultKind,
    },
    /// There was no memory for the vault. It may come at any time.
    Memory,
}

/// Why a key isn't put.
#[derive(Debug, Drop, Error)]
#[error("key refused")]
pub enum PutFault {
    /// Its document is faulty, or it can't stand behind the keys that there are. They stay as they are.
    Bad(VaultKind),
    /// There was no memory for the key. It may come at any time; the keys stay as they are.
    Memory,
}
