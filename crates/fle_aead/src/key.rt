//! Data keys of 96 bytes.

ghost use Rattle.std.specs.Prelude.{◌≡◌, ◌+◌, ◌≤◌, ◌^◌, ◌<◌, ◌++◌, drop, length, take};
ghost use Rattle.hmac_sha512.specs.Hmac.{hmac};
ghost use Rattle.fle_aead.specs.Key.{iv_key, mac_key, schedule};
ghost use Rattle.fle_aead.specs.Sealed.{bit_length, derived_iv, tag};

use aes_block::{Schedule, expand};
use hmac_sha512::KeyedMac;
use std::alloc::AllocError;
use std::marker::Model;

/// A data key: the key of the tag, that of the cipher and that of derived IVs,
/// 32 bytes each. It keeps what the three make of their keys, so that a value costs none of it.
#[derive(Drop)]
pub struct DataKey {
    bytes: [u8; 96],
    schedule: Schedule,
    mac: KeyedMac,
    iv: KeyedMac,
}

impl Model for DataKey {
    ghost use Rattle.std.specs.Prelude.{◌≡◌, ℕ, List};
    ghost use Rattle.hmac_sha512.specs.States.{HasKey};
    ghost use Rattle.fle_aead.specs.Key as part;

    ghost Value = { List ℕ };

    ghost view = { λ k. k.bytes };

    ghost invariant = { λ k. (k.schedule ≡ part.schedule k.bytes)
        × ∥ HasKey k.mac (part.mac_key k.bytes) ∥₁ × ∥ HasKey k.iv (part.iv_key k.bytes) ∥₁ };
}

impl Clone for DataKey {
    ghost use Rattle.std.specs.Prelude.{◌≡◌, ⊤};

    ghost is_clone = { λ x y. y ≡ x };

    ghost is_infallible = { λ _. ⊤ };

    fn clone(&self) -> Result<DataKey, AllocError> {
        Ok(DataKey {
            bytes: self.bytes,
            schedule: self.schedule.clone()?,
            mac: self.mac.clone()?,
            iv: self.iv.clone()?,
        })
    }
}

impl DataKey {
    /// The key of these bytes.
    pub fn new(bytes: [u8; 96]) -> DataKey
        ensures bytes { result ≡ bytes }
    {
        DataKey {
            schedule: expand(&part_at(&bytes, 32)),
            mac: KeyedMac::new(&part_at(&bytes, 0)),
            iv: KeyedMac::new(&part_at(&bytes, 64)),
            bytes,
        }
    }

    /// The 96 bytes of the key.
    pub fn bytes(&self) -> &[u8; 96]
        ensures bytes { result.now ≡ self.now }
    {
        &self.bytes
    }

    /// The key schedule of the cipher's key.
    pub(crate) fn schedule(&self) -> &Schedule
        ensures { result.now ≡ schedule self.now }
    {
        &self.schedule
    }

    /// The tag of associated data and what stands before the tag.
    pub(crate) fn tag(&self, aad: &[u8], body: &[u8]) -> [u8; 32]
        requires { length aad.now < 2 ^ 31 }
        ensures { result ≡ tag self.now aad.now body.now }
    {
        first_32(&self.mac.compute(aad, body, &bit_length(aad)))
    }

    /// The IV of associated data and a message.
    pub(crate) fn derived_iv(&self, aad: &[u8], plain: &[u8]) -> [u8; 16]
        requires { length aad.now < 2 ^ 31 }
        ensures { result ≡ derived_iv self.now aad.now plain.now }
    {
        first_16(&self.iv.compute(aad, &bit_length(aad), plain))
    }
}

/// The 32 bytes of a key from a place on.
fn part_at(bytes: &[u8; 96], at: usize) -> [u8; 32]
    requires { at + 32 ≤ 96 }
    ensures { result ≡ take 32 (drop at bytes.now) }
{
    let mut part = [0; 32];
    part.copy_from_slice(&bytes[at..at + 32]);
    part
}

/// The number of bits of associated data, high byte first.
fn bit_length(aad: &[u8]) -> [u8; 8]
    requires { length aad.now < 2 ^ 31 }
    ensures { result ≡ bit_length aad.now }
{
    (8 * aad.len() as u64).to_be_bytes()
}

/// The first half of a MAC.
fn first_32(mac: &[u8; 64]) -> [u8; 32]
    ensures { result ≡ take 32 mac.now }
{
    let mut front = [0; 32];
    front.copy_from_slice(&mac[..32]);
    front
}

/// The first quarter of a MAC.
fn first_16(mac: &[u8; 64]) -> [u8; 16]
    ensures { result ≡ take 16 mac.now }
{
    let mut front = [0; 16];
    front.copy_from_slice(&mac[..16]);
    front
}
