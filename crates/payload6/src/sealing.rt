//! Payloads made from values.

ghost use Rattle.std.specs.Prelude.{◌≡◌, ◌+◌, ◌*◌, ◌/◌, ◌^◌, ◌<◌, length};
ghost use Rattle.encrypt_schema.specs.declared.schema.policy.Algorithm.{Algorithm};
ghost use Rattle.fle_aead.specs.Sealed.{derived_iv};
ghost use Rattle.payload6.specs.Payload.{algorithm_number, head, IsKind};
ghost use Rattle.payload6.specs.Payload.{IsPayload, IsSealedPayload, IsIv};

use crate::payload::{DETERMINISTIC, HEAD};
use crypto_hooks::Block256;
use fle_aead::{DataKey, derive_iv, seal_into, sealed_len};

/// The length of the payload of a value of n bytes, fewer than 2^31.
pub fn payload_len(n: usize) -> usize
    requires { n < 2 ^ 31 }
    ensures len { result ≡ 66 + 16 * (n / 16 + 1) }
{
    HEAD + sealed_len(n)
}

/// The IV of a deterministic payload: the one that the key, its id, the original
/// type and the value's bytes determine.
pub fn det_iv(key: &DataKey, key_id: [u8; 16], tag: u8, plain: &[u8]) -> [u8; 16]
    ensures iv { result ≡ derived_iv key.now (head 1 key_id tag) plain.now }
{
    derive_iv(key, &head_of(DETERMINISTIC, key_id, tag), plain)
}

/// Writes the payload of a value into `out`, which has exactly the length of it: of kind 1
/// (deterministic, under the IV of `det_iv`) or 2 (random), under the key of this id, of a value
/// of the BSON type `tag` that has the bytes `plain`.
pub fn seal_payload_into<B: Block256>(
    hooks: &B,
    key: &DataKey,
    kind: u8,
    key_id: [u8; 16],
    tag: u8,
    iv: [u8; 16],
    plain: &[u8],
    out: &mut [u8],
)
    requires hooks { B.answers hooks.now }
    requires kind { IsKind kind }
    requires room { length out.old ≡ 66 + 16 * (length plain.now / 16 + 1) }
    ensures sealed { IsSealedPayload kind key_id key.now tag iv plain.now out.new }
    ensures payload { (algorithm : Algorithm) → kind ≡ algorithm_number algorithm
        → IsIv algorithm key.now (head kind key_id tag) plain.now iv
        → IsPayload algorithm key_id key.now tag plain.now out.new }
{
    let (front, sealed) = out.split_at_mut(HEAD);
    put_head(kind, key_id, tag, front);
    seal_into(hooks, key, front, iv, plain, sealed);
}

/// The first 18 bytes of a payload.
fn head_of(kind: u8, key_id: [u8; 16], tag: u8) -> [u8; 18]
    ensures { result ≡ head kind key_id tag }
{
    let mut head = [0; HEAD];
    put_head(kind, key_id, tag, &mut head);
    head
}

/// Writes them where they are to stand. Put together elsewhere and copied at once, they would be read by wider loads
/// than they were stored by, and the processor would wait for all that was stored before.
fn put_head(kind: u8, key_id: [u8; 16], tag: u8, out: &mut [u8])
    requires room { length out.old ≡ 18 }
    ensures { out.new ≡ head kind key_id tag }
{
    let (first, behind) = out.split_at_mut(1);
    let (id, last) = behind.split_at_mut(16);
    first.copy_from_slice(&[kind]);
    id.copy_from_slice(&key_id);
    last.copy_from_slice(&[tag]);
}
