// The round keys of encryption by look-ups (FIPS 197, 5.1.4).

ghost use Rattle.std.specs.Prelude.{◌≡◌, ◌≤◌, map, bit_xor};
ghost use Rattle.aes_block.specs.Sealing.{AreSealingKeys, keyed, others, placed, places};
ghost use Rattle.aes_block.specs.Steps.{round_key};

use crate::lookups::in_basis;
use crate::steps::round_key;
use crate::tables::{PLACES_0, PLACES_1, PLACES_2, PLACES_3, TURN_4};
use std::simd::prelude::*;

/// The round keys in the basis of the look-ups, at the places of the state's bytes, those of the middle rounds as
/// the sum of the other three bytes of each column: MixColumns makes of it the key.
#[derive(Clone, Copy)]
pub(crate) struct SealingKeys {
    pub(crate) keys: [[u8; 16]; 15],
}

// The sum of the other three bytes of each column.
fn others(x: u8x16) -> u8x16
    ensures { result ≡ others x }
{
    let a = x.swizzle(TURN_4);
    let b = a.swizzle(TURN_4);
    let c = b.swizzle(TURN_4);
    (a ^ b) ^ c
}

// The key with the constant 63 of the S-box.
fn with_63(x: u8x16) -> u8x16
    ensures { result ≡ map (λ b. bit_xor b 0x63) x }
{
    x ^ u8x16::splat(0x63)
}

// The schedule's key r before MixColumns: with 63, in the basis, the sum of the other bytes of each column.
fn middle_key(w: &[u32; 60], r: usize) -> u8x16
    requires { r ≤ 14 }
    ensures { result ≡ keyed (round_key w.now r) }
{
    others(in_basis(with_63(u8x16::from_array(round_key(w, r)))))
}

// The keys of encryption for 60 words.
pub(crate) fn sealing_keys(w: &[u32; 60]) -> SealingKeys
    ensures { AreSealingKeys result.keys w.now }
{
    SealingKeys {
        keys: [
            in_basis(u8x16::from_array(round_key(w, 0))).to_array(),
            placed_1(middle_key(w, 1)),
            placed_2(middle_key(w, 2)),
            placed_3(middle_key(w, 3)),
            placed_0(middle_key(w, 4)),
            placed_1(middle_key(w, 5)),
            placed_2(middle_key(w, 6)),
            placed_3(middle_key(w, 7)),
            placed_0(middle_key(w, 8)),
            placed_1(middle_key(w, 9)),
            placed_2(middle_key(w, 10)),
            placed_3(middle_key(w, 11)),
            placed_0(middle_key(w, 12)),
            placed_1(middle_key(w, 13)),
            placed_2(with_63(u8x16::from_array(round_key(w, 14)))),
        ],
    }
}

// A key with its bytes in the order of PLACES_0.
pub(crate) fn placed_0(x: u8x16) -> [u8; 16]
    ensures { result ≡ placed x (places 0) }
{
    x.swizzle(PLACES_0).to_array()
}

// A key with its bytes in the order of PLACES_1.
pub(crate) fn placed_1(x: u8x16) -> [u8; 16]
    ensures { result ≡ placed x (places 1) }
{
    x.swizzle(PLACES_1).to_array()
}

// A key with its bytes in the order of PLACES_2.
pub(crate) fn placed_2(x: u8x16) -> [u8; 16]
    ensures { result ≡ placed x (places 2) }
{
    x.swizzle(PLACES_2).to_array()
}

// A key with its bytes in the order of PLACES_3.
pub(crate) fn placed_3(x: u8x16) -> [u8; 16]
    ensures { result ≡ placed x (places 3) }
{
    x.swizzle(PLACES_3).to_array()
}
