//! Sealing (draft-mcgrew-aead-aes-cbc-hmac-sha2, 2.1).

ghost use Rattle.std.specs.Prelude.{◌≡◌, ◌+◌, ◌*◌, ◌/◌, ◌^◌, ◌<◌, length};
ghost use Rattle.fle_aead.specs.Sealed.{body, derived_iv, IsSealed};

use crate::key::DataKey;
use cbc_mode::{cbc_seal_into, padded_len};
use crypto_hooks::Block256;

/// The length of an IV in bytes.
pub(crate) const IV: usize = 16;

/// The length of a tag in bytes.
pub(crate) const TAG: usize = 32;

/// The length of a sealed message of n bytes.
pub fn sealed_len(n: usize) -> usize
    requires { n < 2 ^ 31 }
    ensures len { result ≡ 48 + 16 * (n / 16 + 1) }
{
    IV + padded_len(n) + TAG
}

/// The IV that the key, the associated data and the message determine: equal
/// values under it become equal bytes.
pub fn derive_iv(key: &DataKey, aad: &[u8], plain: &[u8]) -> [u8; 16]
    requires { length aad.now < 2 ^ 31 }
    ensures iv { result ≡ derived_iv key.now aad.now plain.now }
{
    key.derived_iv(aad, plain)
}

/// Seals a message with associated data into `out`, which has exactly the sealed length.
pub fn seal_into<B: Block256>(
    hooks: &B,
    key: &DataKey,
    aad: &[u8],
    iv: [u8; 16],
    plain: &[u8],
    out: &mut [u8],
)
    requires hooks { B.answers hooks.now }
    requires aad { length aad.now < 2 ^ 31 }
    requires room { length out.old ≡ 48 + 16 * (length plain.now / 16 + 1) }
    ensures sealed { IsSealed key.now aad.now iv plain.now out.new }
{
    let (body, tag) = out.split_at_mut(out.len() - TAG);
    seal_body(hooks, key, iv, plain, body);
    tag.copy_from_slice(&key.tag(aad, body));
}

/// Writes the IV and the encrypted message.
fn seal_body<B: Block256>(hooks: &B, key: &DataKey, iv: [u8; 16], plain: &[u8], out: &mut [u8])
    requires hooks { B.answers hooks.now }
    requires room { length out.old ≡ 16 + 16 * (length plain.now / 16 + 1) }
    ensures { out.new ≡ body key.now iv plain.now }
{
    let (front, blocks) = out.split_at_mut(IV);
    front.copy_from_slice(&iv);
    cbc_seal_into(hooks, key.schedule(), iv, plain, blocks);
}
