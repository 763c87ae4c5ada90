//! Values from payloads.

ghost use Rattle.std.specs.Prelude.{◌≡◌, ◌+◌, ◌-◌, ◌^◌, ◌<◌, ◌≤◌, ◌++◌, ◌↔◌};
ghost use Rattle.std.specs.Prelude.{drop, IfOk, IsTrue, length, List, Ok, Err, take, ℕ};
ghost use Rattle.fle_aead.specs.Sealed.{iv_of, IsTagged, IsWronglyPadded, IsWronglyTagged, opened};
ghost use Rattle.payload6.specs.Opening.{is_single as single, IsNoOriginal, IsOriginal};
ghost use Rattle.payload6.specs.Payload.{IsSealedPayload};
ghost use Rattle.payload6.specs.Verdicts.{JudgesAs};

use crate::payload::Payload;
use bson_codec::check_value;
use bson_tree::types;
use crypto_hooks::Block256;
use fle_aead::{DataKey, OpenFault, open_into};
use std::fmt;

/// Why a payload isn't opened, in the order in which it is judged. Its `Debug` has no tag, since whoever reads the
/// right one can forge the payload.
#[derive(Clone, Copy, PartialEq, Eq)]
pub enum PayloadFault {
    /// The last 32 bytes aren't the tag of the rest.
    Tag {
        /// What the tag would have to be.
        computed: [u8; 32],
        /// What stands there.
        found: [u8; 32],
    },
    /// The tag is right and the padding isn't.
    Padding,
    /// Both are right, and the original type is 06, 0A, 7F, FF or no BSON type, or the bytes spell no
    /// value of it that adds at most the levels that are left.
    Plain,
}

impl fmt::Debug for PayloadFault {
    fn fmt<W: fmt::Write>(&self, f: &mut fmt::Formatter<W>) -> fmt::Result {
        f.write_str(match self {
            PayloadFault::Tag { .. } => "Tag",
            PayloadFault::Padding => "Padding",
            PayloadFault::Plain => "Plain",
        })
    }
}

/// Opens a payload of fewer than 2^31 bytes into `out`, which is at least as long as its sealed bytes,
/// and answers how many bytes of `out` are the value. It may add `levels` levels of nesting, at most
/// 100.
///
/// With `Tag` nothing of `out` is changed. Otherwise the opened blocks stand in `out`, padding
/// included. What lies behind them is never changed.
pub fn open_payload_into<B: Block256>(
    hooks: &B,
    key: &DataKey,
    payload: &Payload<'_>,
    levels: u32,
    out: &mut [u8],
) -> Result<usize, PayloadFault>
    requires hooks { B.answers hooks.now }
    requires short { 18 + length payload.now.sealed.now < 2 ^ 31 }
    requires room { length payload.now.sealed.now ≤ length out.old }
    requires levels { levels ≤ 100 }
    ensures ok { IfOk result (λ n. IsSealedPayload payload.now.kind payload.now.key_id key.now payload.now.tag
        (iv_of payload.now.sealed.now) (take n out.new)
        (payload.now.head.now ++ payload.now.sealed.now)) }
    ensures original { IfOk result (λ n. IsOriginal levels payload.now.tag (take n out.new)) }
    ensures opens { (iv p : List ℕ) → IsSealedPayload payload.now.kind payload.now.key_id key.now payload.now.tag
        iv p (payload.now.head.now ++ payload.now.sealed.now) → IsOriginal levels payload.now.tag p
        → (result ≡ Ok (length p)) × (take (length p) out.new ≡ p) }
    ensures tag { (computed found : List ℕ) → (result ≡ Err (PayloadFault.Tag computed found))
        ↔ IsWronglyTagged key.now payload.now.head.now payload.now.sealed.now computed found }
    ensures padding { (result ≡ Err PayloadFault.Padding)
        ↔ IsWronglyPadded key.now payload.now.head.now payload.now.sealed.now }
    ensures plain { (result ≡ Err PayloadFault.Plain) ↔ IsNoOriginal levels payload.now.tag key.now
        payload.now.head.now payload.now.sealed.now }
    ensures judged { JudgesAs key.now levels (payload.now.head.now ++ payload.now.sealed.now) out.new result }
    ensures tag_unchanged { (computed found : List ℕ)
        → result ≡ Err (PayloadFault.Tag computed found) → out.new ≡ out.old }
    ensures blocks { IsTagged key.now payload.now.head.now payload.now.sealed.now
        → take (length payload.now.sealed.now - 48) out.new ≡ opened key.now payload.now.sealed.now }
    ensures behind { drop (length payload.now.sealed.now - 48) out.new
        ≡ drop (length payload.now.sealed.now - 48) out.old }
{
    match open_into(hooks, key, payload.head, payload.sealed, out) {
        Err(OpenFault::Tag { computed, found }) => Err(PayloadFault::Tag { computed, found }),
        Err(OpenFault::Padding) => Err(PayloadFault::Padding),
        Err(OpenFault::Short) => unreachable!(),
        Ok(n) => {
            if is_original(payload.tag, &out[..n], levels) {
                Ok(n)
            } else {
                Err(PayloadFault::Plain)
            }
        }
    }
}

/// Whether the bytes spell a value of a type that may be sealed, which adds at most so many levels.
fn is_original(tag: u8, plain: &[u8], levels: u32) -> bool
    ensures { IsTrue result ↔ IsOriginal levels tag plain.now }
{
    !is_single(tag) && check_value(tag, plain, levels)
}

/// Whether a type has a single value: undefined, null, maximal and minimal key.
fn is_single(tag: u8) -> bool
    ensures { result ≡ single tag }
{
    tag == types::UNDEFINED || tag == types::NULL || tag == types::MAX_KEY || tag == types::MIN_KEY
}
