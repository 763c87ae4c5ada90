//! One payload opened, written into a slice.

ghost use Rattle.std.specs.Prelude.{◌≡◌, ◌+◌, ◌<◌, ◌≤◌, ◌^◌, ◌++◌, length};
ghost use Rattle.doc_rewrite.specs.Opening.{ValueOpens};

use crypto_hooks::Block256;
use encrypt_schema::Reason;
use fle_aead::DataKey;
use payload6::{Payload, PayloadFault, open_payload_into};

/// A payload that isn't opened, and why.
#[derive(Clone, Copy, Debug, PartialEq, Eq)]
pub struct Spot {
    /// `TagMismatch`, `Padding` or `Plain`.
    pub reason: Reason,
    /// The offset of the payload's value.
    pub at: u32,
}

/// Opens a payload into the buffer behind `at`, where `start` is the offset of its value.
pub(crate) fn open_value<B: Block256>(
    hooks: &B,
    key: &DataKey,
    payload: &Payload<'_>,
    levels: u32,
    start: u32,
    out: &mut [u8],
    at: usize,
) -> Result<usize, Spot>
    requires hooks { B.answers hooks.now }
    requires levels { levels ≤ 99 }
    requires room { at + length payload.now.sealed.now ≤ length out.old }
    requires small { 18 + length payload.now.sealed.now < 2 ^ 31 }
    ensures size { length out.new ≡ length out.old }
    ensures opened { ValueOpens key.now levels (payload.now.head.now ++ payload.now.sealed.now) start out.old out.new at
        (length payload.now.sealed.now) result }
{
    let (_, rest) = out.split_at_mut(at);
    match open_payload_into(hooks, key, payload, levels, rest) {
        Ok(n) => Ok(at + n),
        Err(PayloadFault::Tag { .. }) => Err(Spot {
            reason: Reason::TagMismatch,
            at: start,
        }),
        Err(PayloadFault::Padding) => Err(Spot {
            reason: Reason::Padding,
            at: start,
        }),
        Err(PayloadFault::Plain) => Err(Spot {
            reason: Reason::Plain,
            at: start,
        }),
    }
}
