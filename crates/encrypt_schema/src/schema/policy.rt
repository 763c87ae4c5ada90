//! What a rule says of a field: the algorithm, the key and the types, as the MongoDB Client Side
//! Encryption specification names them.

ghost use Rattle.std.specs.Prelude.{◌≡◌, ◌≤◌, ◌==◌, length, IfOk};
ghost use Rattle.std.specs.List.{list_any};
ghost use Rattle.encrypt_schema.specs.Language.Policies.{are_types_of, is_same_key, is_same_policy};
ghost use Rattle.encrypt_schema.specs.Paths.Classes.{is_same_path};

use crate::schema::names::is_named;
use crate::schema::shared_names::SharedNames;
use bson_tree::Bytes;
use fle_outside::Memory;
use std::marker::Model;

/// How a value is sealed.
#[derive(Clone, Copy, Debug, PartialEq, Eq)]
pub enum Algorithm {
    /// `AEAD_AES_256_CBC_HMAC_SHA_512-Deterministic`: equal values give equal payloads.
    Deterministic,
    /// `AEAD_AES_256_CBC_HMAC_SHA_512-Random`: each payload has a random IV.
    Random,
}

/// Which data key seals a value.
#[derive(Drop)]
pub enum KeyRef {
    /// The key with this id, a UUID.
    Id([u8; 16]),
    /// The key with the alternate name that stands in the stored document at this path, the names of a JSON pointer
    /// (RFC 6901).
    Pointer(SharedNames),
}

impl KeyRef {
    /// Whether the two name a key in the same way.
    pub fn is_same(&self, other: &KeyRef) -> bool
        ensures same { result ≡ is_same_key self.now other.now }
    {
        match (self, other) {
            (KeyRef::Id(id), KeyRef::Id(other)) => id == other,
            (KeyRef::Pointer(names), KeyRef::Pointer(others)) => {
                are_same(names.as_slice(), others.as_slice())
            }
            _ => false,
        }
    }

    /// The same key; the names of a pointer get another owner and aren't copied.
    pub(crate) fn share(&self) -> Result<KeyRef, Memory>
        ensures same { IfOk result (λ key. key ≡ self.now) }
    {
        match self {
            KeyRef::Id(id) => Ok(KeyRef::Id(*id)),
            KeyRef::Pointer(names) => match names.clone() {
                Ok(names) => Ok(KeyRef::Pointer(names)),
                Err(_) => Err(Memory),
            },
        }
    }
}

/// Whether two lists have the same names in the same order.
#[tactic(auto, using(crate::proofs::Paths::Paths::other_length))]
fn are_same(names: &[Bytes], others: &[Bytes]) -> bool
    ensures same { result ≡ is_same_path names.now others.now }
{
    if names.len() != others.len() {
        return false;
    }
    for i in 0..names.len() {
        if !is_named(names[i].as_slice(), others[i].as_slice()) {
            return false;
        }
    }
    true
}

/// The BSON types that a rule protects, seen as their type bytes; at most 17, as many as can be protected.
#[derive(Drop)]
pub struct TypeSet {
    types: Bytes,
}

impl Model for TypeSet {
    ghost use Rattle.std.specs.Prelude.{ℕ, List, ◌≤◌, length};

    ghost Value = { List ℕ };

    ghost view = { λ s. s.types };

    ghost invariant = { λ s. length s.types ≤ 17 };
}

impl TypeSet {
    /// The set of these type bytes.
    pub(crate) fn new(types: Bytes) -> TypeSet
        requires few { length types ≤ 17 }
        ensures same { result ≡ types }
    {
        TypeSet { types }
    }

    /// Whether the set has the type with this type byte.
    pub fn has(&self, tag: u8) -> bool
        ensures member { result ≡ list_any (λ t. t == tag) self.now }
    {
        self.types.as_slice().iter().any(|t| *t == tag)
    }

    /// Whether each type of the set is one of the other's.
    pub fn is_subset(&self, other: &TypeSet) -> bool
        ensures subset { result ≡ are_types_of self.now other.now }
    {
        self.types.as_slice().iter().all(|tag| other.has(*tag))
    }
}

/// The rule of a field.
#[derive(Drop)]
pub struct Policy {
    /// How its values are sealed.
    pub algorithm: Algorithm,
    /// The key that seals them.
    pub key: KeyRef,
    /// The types that they may have.
    pub types: TypeSet,
}

impl Policy {
    /// Whether the two say the same: one algorithm, one key, and the same types, in whatever order.
    #[tactic(auto, unfolding(crate::specs::Language::Policies::is_same_policy))]
    pub fn is_same(&self, other: &Policy) -> bool
        ensures same { result ≡ is_same_policy self.now other.now }
    {
        self.algorithm == other.algorithm
            && self.key.is_same(&other.key)
            && self.types.is_subset(&other.types)
            && other.types.is_subset(&self.types)
    }
}

/// The same policy under this key, of which it becomes another owner.
pub(crate) fn under_key(policy: Policy, key: &KeyRef) -> Result<Policy, Memory>
    ensures under { IfOk result (λ p. p
        ≡ record { algorithm = policy.algorithm; key = key.now; types = policy.types }) }
{
    let key = key.share()?;
    Ok(Policy {
        algorithm: policy.algorithm,
        key,
        types: policy.types,
    })
}
