//! Opening (draft-mcgrew-aead-aes-cbc-hmac-sha2, 2.2).

ghost use Rattle.std.specs.Prelude.{◌≡◌, ◌≢◌, ◌+◌, ◌-◌, ◌*◌, ◌^◌, ◌<◌, ◌≤◌, ◌↔◌};
ghost use Rattle.std.specs.Prelude.{drop, IfNone, IfOk, IfSome, IsTrue, length, List, MatchResult, None, Some, take, ℕ};
ghost use Rattle.cbc_mode.specs.Padding.{pad};
ghost use Rattle.fle_aead.specs.Sealed.{iv_of, IsSealed, IsSealedLength, IsTagged};
ghost use Rattle.fle_aead.specs.Sealed.{IsWronglyPadded, IsWronglyTagged, opened, opened_body, opened_message};

use crate::key::DataKey;
use crate::sealing::{IV, TAG};
use cbc_mode::{CbcFault, cbc_open_into};
use crypto_hooks::Block256;
use std::fmt;

/// The length of a block in bytes.
const BLOCK: usize = 16;

/// The least length of a sealed message: an IV, a block and a tag.
const LEAST: usize = IV + BLOCK + TAG;

/// Why a sealed message isn't opened, in the order in which it is judged. Its `Debug` has no tag, since whoever
/// reads the right one can forge the message.
#[derive(Clone, Copy, PartialEq, Eq)]
pub enum OpenFault {
    /// The length isn't 48 and one or more blocks of 16.
    Short,
    /// The last 32 bytes aren't the tag of the rest and the associated data.
    Tag {
        /// What the tag would have to be.
        computed: [u8; 32],
        /// What stands there.
        found: [u8; 32],
    },
    /// The tag is right and the padding isn't.
    Padding,
}

impl fmt::Debug for OpenFault {
    fn fmt<W: fmt::Write>(&self, f: &mut fmt::Formatter<W>) -> fmt::Result {
        f.write_str(match self {
            OpenFault::Short => "Short",
            OpenFault::Tag { .. } => "Tag",
            OpenFault::Padding => "Padding",
        })
    }
}

/// Opens a sealed message with associated data into `out`, which is at least as long, and answers
/// how many bytes of `out` are the message.
///
/// With `Short` and `Tag` nothing of `out` is changed. With `Padding` the opened blocks stand in
/// `out`, padding included, as they do otherwise. What lies behind them is never changed.
pub fn open_into<B: Block256>(
    hooks: &B,
    key: &DataKey,
    aad: &[u8],
    sealed: &[u8],
    out: &mut [u8],
) -> Result<usize, OpenFault>
    requires hooks { B.answers hooks.now }
    requires aad { length aad.now < 2 ^ 31 }
    requires room { length sealed.now ≤ length out.old }
    ensures ok { IfOk result (λ n. IsSealed key.now aad.now (iv_of sealed.now) (take n out.new)
        sealed.now) }
    ensures opens { (iv p : List ℕ) → IsSealed key.now aad.now iv p sealed.now
        → result ≡ Ok (length p) }
    ensures message { MatchResult result
        (λ n. opened_message key.now aad.now sealed.now ≡ Some (take n out.new))
        (λ _. opened_message key.now aad.now sealed.now ≡ None) }
    ensures short { (result ≡ Err OpenFault.Short) ↔ (¬ IsSealedLength (length sealed.now)) }
    ensures tag { (computed found : List ℕ) → (result ≡ Err (OpenFault.Tag computed found))
        ↔ IsWronglyTagged key.now aad.now sealed.now computed found }
    ensures padding { (result ≡ Err OpenFault.Padding)
        ↔ IsWronglyPadded key.now aad.now sealed.now }
    ensures short_unchanged { result ≡ Err OpenFault.Short → out.new ≡ out.old }
    ensures tag_unchanged { (computed found : List ℕ)
        → result ≡ Err (OpenFault.Tag computed found) → out.new ≡ out.old }
    ensures blocks { IsTagged key.now aad.now sealed.now
        → take (length sealed.now - 48) out.new ≡ opened key.now sealed.now }
    ensures behind { drop (length sealed.now - 48) out.new
        ≡ drop (length sealed.now - 48) out.old }
{
    if !is_sealed_len(sealed.len()) {
        return Err(OpenFault::Short);
    }
    let (body, tag) = sealed.split_at(sealed.len() - TAG);
    let computed = key.tag(aad, body);
    let found = tag_in(tag);
    if !tags_agree(&computed, &found) {
        return Err(OpenFault::Tag { computed, found });
    }
    match open_body(hooks, key, body, out) {
        Some(n) => Ok(n),
        None => Err(OpenFault::Padding),
    }
}

/// Whether a length is that of an IV, one or more blocks and a tag.
fn is_sealed_len(n: usize) -> bool
    ensures { IsTrue result ↔ IsSealedLength n }
{
    n >= LEAST && n % BLOCK == 0
}

/// Whether the tag found is the one computed. All bytes are read, and no branch depends on one of them.
fn tags_agree(computed: &[u8; 32], found: &[u8; 32]) -> bool
    ensures { IsTrue result ↔ (found.now ≡ computed.now) }
{
    let mut differences = 0;
    for i in 0..TAG {
        differences |= found[i] ^ computed[i];
    }
    differences == 0
}

/// The tag, which is all of these bytes.
fn tag_in(bytes: &[u8]) -> [u8; 32]
    requires { length bytes.now ≡ 32 }
    ensures { result ≡ bytes.now }
{
    let mut tag = [0; TAG];
    tag.copy_from_slice(bytes);
    tag
}

/// The IV, which is all of these bytes.
fn iv_in(bytes: &[u8]) -> [u8; 16]
    requires { length bytes.now ≡ 16 }
    ensures { result ≡ bytes.now }
{
    let mut iv = [0; IV];
    iv.copy_from_slice(bytes);
    iv
}

/// Decrypts what stands before the tag, and answers how many bytes are the message, or None where
/// the padding is wrong.
fn open_body<B: Block256>(hooks: &B, key: &DataKey, body: &[u8], out: &mut [u8]) -> Option<usize>
    requires hooks { B.answers hooks.now }
    requires whole { (k : ℕ) × (0 < k) × (length body.now ≡ 16 + 16 * k) }
    requires room { length body.now ≤ length out.old }
    ensures plain { IfSome result (λ n. opened_body key.now body.now ≡ pad (take n out.new)) }
    ensures shorter { IfSome result (λ n. n < length body.now) }
    ensures wrong { IfNone result ((p : List ℕ) → opened_body key.now body.now ≢ pad p) }
    ensures opened { take (length body.now - 16) out.new ≡ opened_body key.now body.now }
    ensures behind { drop (length body.now - 16) out.new ≡ drop (length body.now - 16) out.old }
{
    let (iv, blocks) = body.split_at(IV);
    match cbc_open_into(hooks, key.schedule(), iv_in(iv), blocks, out) {
        Ok(n) => Some(n),
        Err(CbcFault::Padding) => None,
        Err(CbcFault::Blocks) => unreachable!(),
    }
}
