//! Encryption (SP 800-38A, 6.2).

ghost use Rattle.std.specs.Prelude.{◌≡◌, ◌+◌, ◌*◌, ◌/◌, length};
ghost use Rattle.cbc_mode.specs.Cbc.{cbc_sealed};
ghost use Rattle.cbc_mode.specs.Padding.{pad};

use crate::blocks::{BLOCK, put, xored};
use crate::padding::padded_block;
use aes_block::Schedule;
use crypto_hooks::Block256;

/// Pads the plain bytes and encrypts them into `out`, which has exactly the padded length.
pub fn cbc_seal_into<B: Block256>(
    hooks: &B,
    schedule: &Schedule,
    iv: [u8; 16],
    plain: &[u8],
    out: &mut [u8],
)
    requires hooks { B.answers hooks.now }
    requires room { length out.old ≡ 16 * (length plain.now / 16 + 1) }
    ensures sealed { out.new ≡ cbc_sealed schedule.now iv (pad plain.now) }
{
    let mut before = iv;
    for i in 0..out.len() / BLOCK {
        let mixed = xored(padded_block(plain, BLOCK * i), before);
        let sealed = hooks.seal_block(schedule, mixed);
        put(out, BLOCK * i, sealed);
        before = sealed;
    }
}
