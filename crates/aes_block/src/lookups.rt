// Look-ups in tables of 16 entries that stand in vector registers, at each of 16 lanes, and the inverse of
// GF(2^8) in a basis over GF(2^4) (FIPS 197, 4.2 and 5.1.1).
//
// No address and no branch depends on what is looked up: a look-up is one shuffle. A byte is k + i t for two
// nibbles k and i, kept as 16 i + k. With 0 and infinity, which is 80 in the tables, let j = i + k,
// p = 1/i + a/k, q = 1/j + a/k, u = 1/p + j, v = 1/q + i: each linear function of the byte's inverse is
// the sum of an entry at u and an entry at v.

ghost use Rattle.std.specs.Prelude.{◌≡◌, true, map};
ghost use Rattle.aes_block.specs.Block.{IsBlock};
ghost use Rattle.aes_block.specs.Nibbles.{all_places, by_nibbles, entry, half_u, half_v, high, low};
ghost use Rattle.aes_block.specs.Opening.{into_open};
ghost use Rattle.aes_block.specs.Sealing.{into};

use crate::open_tables::{FIVE, OPEN_HIGH, OPEN_LOW};
use crate::tables::{INTO_HIGH, INTO_LOW, INVERSE, RATIO};
use std::simd::prelude::*;

// The entry at each place, and 0 from 128 on.
#[inline(always)]
pub(crate) fn look_up(table: [u8; 16], at: u8x16) -> u8x16
    requires { all_places at ≡ true }
    ensures { result ≡ map (entry table) at }
{
    u8x16::from_array(table).swizzle_dyn_within::<16>(at)
}

// The lower four bits.
#[inline(always)]
pub(crate) fn low(x: u8x16) -> u8x16
    ensures { result ≡ map low x }
{
    x & u8x16::splat(15)
}

// The upper four bits.
#[inline(always)]
pub(crate) fn high(x: u8x16) -> u8x16
    ensures { result ≡ map high x }
{
    x >> u8x16::splat(4)
}

/// u and v of the inverse.
#[derive(Clone, Copy)]
pub(crate) struct Halves {
    pub(crate) u: u8x16,
    pub(crate) v: u8x16,
}

// u and v of each byte in that basis: the places at which the tables of its inverse are looked up.
#[inline(always)]
pub(crate) fn halved(x: u8x16) -> Halves
    ensures u { result.u ≡ map (half_u INVERSE RATIO) x }
    ensures v { result.v ≡ map (half_v INVERSE RATIO) x }
{
    let k = low(x);
    let i = high(x);
    let j = i ^ k;
    let ratio = look_up(RATIO, k);
    let p = look_up(INVERSE, i) ^ ratio;
    let q = look_up(INVERSE, j) ^ ratio;
    let u = look_up(INVERSE, p) ^ j;
    let v = look_up(INVERSE, q) ^ i;
    Halves { u, v }
}

// The sum of the entries of the two nibbles of each byte.
#[inline(always)]
pub(crate) fn by_nibbles(lows: [u8; 16], highs: [u8; 16], x: u8x16) -> u8x16
    ensures { result ≡ map (by_nibbles lows highs) x }
{
    look_up(lows, low(x)) ^ look_up(highs, high(x))
}

// The lanes at these positions.
#[inline(always)]
pub(crate) fn turned(x: u8x16, at: u8x16) -> u8x16
    requires { all_places at ≡ true }
    ensures { result ≡ map (entry x) at }
{
    x.swizzle_dyn_within::<16>(at)
}

// The bytes in the basis over GF(2^4).
#[inline(always)]
pub(crate) fn in_basis(x: u8x16) -> u8x16
    ensures mapped { result ≡ map into x }
    ensures bytes { IsBlock x }
{
    by_nibbles(INTO_LOW, INTO_HIGH, x)
}

// The bytes in that basis, after the affine map of InvSubBytes.
#[inline(always)]
pub(crate) fn in_open_basis(k: u8x16) -> u8x16
    ensures { result ≡ map into_open k }
{
    by_nibbles(OPEN_LOW, OPEN_HIGH, k) ^ u8x16::splat(FIVE)
}
