// The round keys of decryption by look-ups (FIPS 197, 5.3.5).

ghost use Rattle.std.specs.Prelude.{◌≡◌, [], ◌≤◌, ◌<◌, map, slice_index_or};
ghost use Rattle.aes_block.specs.Steps.{inv_mix_columns, round_key};
ghost use Rattle.aes_block.specs.Opening.{AreOpeningKeys, into_open, open_turns};
ghost use Rattle.aes_block.specs.Sealing.{placed, places};

use crate::lookups::{by_nibbles, in_open_basis};
use crate::open_tables::*;
use crate::sealing_keys::{placed_0, placed_1, placed_2, placed_3};
use crate::steps::round_key;
use std::simd::prelude::*;

/// The round keys of the equivalent inverse cipher in the basis of the look-ups, at the places of the state's bytes.
///
/// The positions of the shuffles stand beside them in memory, so that LLVM doesn't know them: it moves a shuffle that
/// it knows through a sum of look-ups, and makes twice as many of them.
#[derive(Clone, Copy)]
pub(crate) struct OpeningKeys {
    pub(crate) keys: [[u8; 16]; 15],
    turns: [[u8; 16]; 9],
    ghost turns_are: { turns ≡ open_turns },
}

// The first key of decryption, the schedule's last, after the affine map and in the transformed basis.
fn first_key(w: &[u32; 60]) -> u8x16
    ensures { result ≡ map into_open (round_key w.now 14) }
{
    in_open_basis(u8x16::from_array(round_key(w, 14)))
}

// A key through InvMixColumns, in the transformed basis.
fn unmixed(k: u8x16) -> u8x16
    ensures { result ≡ map into_open (inv_mix_columns k) }
{
    let a = by_nibbles(KEY_FOURTEEN_LOW, KEY_FOURTEEN_HIGH, k);
    let b = by_nibbles(KEY_ELEVEN_LOW, KEY_ELEVEN_HIGH, k).swizzle(ONE_BELOW);
    let c = by_nibbles(KEY_THIRTEEN_LOW, KEY_THIRTEEN_HIGH, k).swizzle(TWO_BELOW);
    let d = by_nibbles(KEY_NINE_LOW, KEY_NINE_HIGH, k).swizzle(THREE_BELOW);
    (((a ^ b) ^ c) ^ d) ^ u8x16::splat(FIVE)
}

// The schedule's key r through InvMixColumns (FIPS 197, 5.3.5), after the affine map and in that basis.
fn middle_key(w: &[u32; 60], r: usize) -> u8x16
    requires { r ≤ 14 }
    ensures { result ≡ map into_open (inv_mix_columns (round_key w.now r)) }
{
    unmixed(u8x16::from_array(round_key(w, r)))
}

// The keys of decryption for 60 words.
pub(crate) fn opening_keys(w: &[u32; 60]) -> OpeningKeys
    ensures { AreOpeningKeys result.keys w.now }
{
    let keys = [
        first_key(w).to_array(),
        placed_3(middle_key(w, 13)),
        placed_2(middle_key(w, 12)),
        placed_1(middle_key(w, 11)),
        placed_0(middle_key(w, 10)),
        placed_3(middle_key(w, 9)),
        placed_2(middle_key(w, 8)),
        placed_1(middle_key(w, 7)),
        placed_0(middle_key(w, 6)),
        placed_3(middle_key(w, 5)),
        placed_2(middle_key(w, 4)),
        placed_1(middle_key(w, 3)),
        placed_0(middle_key(w, 2)),
        placed_3(middle_key(w, 1)),
        placed_2(u8x16::from_array(round_key(w, 0))),
    ];
    OpeningKeys { keys, turns: TURNS }
}

impl OpeningKeys {
    // The positions of shuffle i.
    #[inline(always)]
    pub(crate) fn turn(&self, i: usize) -> u8x16
        requires { i < 9 }
        ensures { result ≡ slice_index_or open_turns i [] }
    {
        u8x16::from_array(self.turns[i])
    }

    // The key of decryption's round r; that of 0 is added before the rounds.
    #[inline(always)]
    pub(crate) fn key(&self, r: usize) -> u8x16
        requires { r < 15 }
        ensures { result ≡ slice_index_or self.now.keys r [] }
    {
        u8x16::from_array(self.keys[r])
    }
}
