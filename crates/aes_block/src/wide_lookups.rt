// The look-ups of `lookups` at each of 32 lanes: two blocks side by side (FIPS 197, 4.2 and 5.1.1).
//
// A processor whose vectors have 32 lanes does both at once.

ghost use Rattle.std.specs.Prelude.{◌≡◌, ◌++◌, List, ℕ, true, map, length};
ghost use Rattle.aes_block.specs.Nibbles.{all_places, by_nibbles, entry, half_u, half_v, high, low};

use crate::tables::{INVERSE, RATIO};
use std::simd::prelude::*;

// One block, then another.
#[inline(always)]
pub(crate) fn side_by_side(first: u8x16, second: u8x16) -> u8x32
    ensures { result ≡ first ++ second }
{
    first.shuffle(
        second,
        [
            0, 1, 2, 3, 4, 5, 6, 7, 8, 9, 10, 11, 12, 13, 14, 15, 16, 17, 18, 19, 20, 21, 22, 23,
            24, 25, 26, 27, 28, 29, 30, 31,
        ],
    )
}

// The first of two blocks that stand side by side.
#[inline(always)]
pub(crate) fn first_of(both: u8x32) -> u8x16
    ensures { (a b : List ℕ) → length a ≡ 16 → length b ≡ 16 → both ≡ a ++ b → result ≡ a }
{
    both.swizzle([0, 1, 2, 3, 4, 5, 6, 7, 8, 9, 10, 11, 12, 13, 14, 15])
}

// The second of them.
#[inline(always)]
pub(crate) fn second_of(both: u8x32) -> u8x16
    ensures { (a b : List ℕ) → length a ≡ 16 → length b ≡ 16 → both ≡ a ++ b → result ≡ b }
{
    both.swizzle([
        16, 17, 18, 19, 20, 21, 22, 23, 24, 25, 26, 27, 28, 29, 30, 31,
    ])
}

// The entry at each place, and 0 from 128 on.
#[inline(always)]
pub(crate) fn look_up(table: [u8; 16], at: u8x32) -> u8x32
    requires { all_places at ≡ true }
    ensures { result ≡ map (entry table) at }
{
    let row = u8x16::from_array(table);
    side_by_side(row, row).swizzle_dyn_within::<16>(at)
}

// The lower four bits.
#[inline(always)]
pub(crate) fn low(x: u8x32) -> u8x32
    ensures { result ≡ map low x }
{
    x & u8x32::splat(15)
}

// The upper four bits.
#[inline(always)]
pub(crate) fn high(x: u8x32) -> u8x32
    ensures { result ≡ map high x }
{
    x >> u8x32::splat(4)
}

/// u and v of the inverse.
#[derive(Clone, Copy)]
pub(crate) struct Halves {
    pub(crate) u: u8x32,
    pub(crate) v: u8x32,
}

// u and v of each byte in the basis of `lookups`: the places at which the tables of its inverse are looked up.
#[inline(always)]
pub(crate) fn halved(x: u8x32) -> Halves
    ensures u { result.u ≡ map (half_u INVERSE RATIO) x }
    ensures v { result.v ≡ map (half_v INVERSE RATIO) x }
{
    let k = low(x);
    let i = high(x);
    let j = i ^ k;
    let ratio = look_up(RATIO, k);
    let p = look_up(INVERSE, i) ^ ratio;
    let q = look_up(INVERSE, j) ^ ratio;
    let u = look_up(INVERSE, p) ^ j;
    let v = look_up(INVERSE, q) ^ i;
    Halves { u, v }
}

// The sum of the entries of the two nibbles of each byte.
#[inline(always)]
pub(crate) fn by_nibbles(lows: [u8; 16], highs: [u8; 16], x: u8x32) -> u8x32
    ensures { result ≡ map (by_nibbles lows highs) x }
{
    look_up(lows, low(x)) ^ look_up(highs, high(x))
}

// The lanes of each block at these positions.
#[inline(always)]
pub(crate) fn turned(x: u8x32, at: u8x16) -> u8x32
    requires { all_places at ≡ true }
    ensures { (a b : List ℕ) → length a ≡ 16 → length b ≡ 16 → x ≡ a ++ b
        → result ≡ map (entry a) at ++ map (entry b) at }
{
    x.swizzle_dyn_within::<16>(side_by_side(at, at))
}
