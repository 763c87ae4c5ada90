// Cipher of one block by look-ups in tables of 16 entries (FIPS 197, 5.1).
//
// ShiftRows is never done: after r rounds the state's bytes stand at the positions `places r`, and MixColumns reads
// its rows at positions that follow from them. The last shuffle brings them home. The constant 63 of the S-box
// stands in the round keys. The rounds are written out and inlined, so that the state never leaves its register.

ghost use Rattle.std.specs.Prelude.{◌≡◌, ℕ, List, [], ◌<◌, map, slice_index_or, bit_xor};
ghost use Rattle.aes_block.specs.Block.{IsBlock, xor_bytes};
ghost use Rattle.aes_block.specs.Cipher.{cipher};
ghost use Rattle.aes_block.specs.Sealing.{AreSealingKeys, at_halves, into, keyed, last_round, placed, round};

use crate::lookups::{Halves, halved, in_basis, look_up};
use crate::sealing_keys::SealingKeys;
use crate::tables::*;
use std::simd::prelude::*;

// The substituted bytes with a key, and their products by 02.
struct Substituted {
    a: u8x16,
    m: u8x16,
}

// The S-box's entries without 63: with a key added, and times 02 (FIPS 197, 5.1.1 and 5.1.3).
#[inline(always)]
fn substitute(x: u8x16, key: u8x16) -> Substituted
    ensures a { result.a ≡ xor_bytes (map (at_halves INVERSE RATIO ONE_U ONE_V) x) key }
    ensures m { result.m ≡ map (at_halves INVERSE RATIO TWO_U TWO_V) x }
{
    let Halves { u, v } = halved(x);
    let a = (look_up(ONE_U, u) ^ key) ^ look_up(ONE_V, v);
    let m = look_up(TWO_U, u) ^ look_up(TWO_V, v);
    Substituted { a, m }
}

// A round r with r % 4 = 1 (FIPS 197, 5.1): the state's bytes stand at PLACES_0 before, at PLACES_1 behind it.
#[inline(always)]
fn round_1(x: u8x16, key: u8x16) -> u8x16
    ensures { (s k : List ℕ) → IsBlock s → IsBlock k → x ≡ placed (map into s) PLACES_0
        → key ≡ placed (keyed k) PLACES_1 → result ≡ placed (map into (round s k)) PLACES_1 }
{
    let Substituted { a, m } = substitute(x, key);
    let b = a.swizzle(TURN_1);
    let c = m ^ b;
    let d = a.swizzle(BACK_1);
    (c ^ d) ^ c.swizzle(TURN_1)
}

// A round r with r % 4 = 2 (FIPS 197, 5.1): the state's bytes stand at PLACES_1 before, at PLACES_2 behind it.
#[inline(always)]
fn round_2(x: u8x16, key: u8x16) -> u8x16
    ensures { (s k : List ℕ) → IsBlock s → IsBlock k → x ≡ placed (map into s) PLACES_1
        → key ≡ placed (keyed k) PLACES_2 → result ≡ placed (map into (round s k)) PLACES_2 }
{
    let Substituted { a, m } = substitute(x, key);
    let b = a.swizzle(TURN_2);
    let c = m ^ b;
    let d = a.swizzle(BACK_2);
    (c ^ d) ^ c.swizzle(TURN_2)
}

// A round r with r % 4 = 3 (FIPS 197, 5.1): the state's bytes stand at PLACES_2 before, at PLACES_3 behind it.
#[inline(always)]
fn round_3(x: u8x16, key: u8x16) -> u8x16
    ensures { (s k : List ℕ) → IsBlock s → IsBlock k → x ≡ placed (map into s) PLACES_2
        → key ≡ placed (keyed k) PLACES_3 → result ≡ placed (map into (round s k)) PLACES_3 }
{
    let Substituted { a, m } = substitute(x, key);
    let b = a.swizzle(TURN_3);
    let c = m ^ b;
    let d = a.swizzle(BACK_3);
    (c ^ d) ^ c.swizzle(TURN_3)
}

// A round r with r % 4 = 0 (FIPS 197, 5.1): the state's bytes stand at PLACES_3 before, at PLACES_0 behind it.
#[inline(always)]
fn round_0(x: u8x16, key: u8x16) -> u8x16
    ensures { (s k : List ℕ) → IsBlock s → IsBlock k → x ≡ placed (map into s) PLACES_3
        → key ≡ placed (keyed k) PLACES_0 → result ≡ placed (map into (round s k)) PLACES_0 }
{
    let Substituted { a, m } = substitute(x, key);
    let b = a.swizzle(TURN_4);
    let c = m ^ b;
    let d = a.swizzle(BACK_4);
    (c ^ d) ^ c.swizzle(TURN_4)
}

// The last round, which has no MixColumns and brings each byte home (FIPS 197, 5.1).
#[inline(always)]
fn round_14(x: u8x16, key: u8x16) -> u8x16
    ensures { (s k : List ℕ) → IsBlock s → IsBlock k → x ≡ placed (map into s) PLACES_1
        → key ≡ placed (map (λ b. bit_xor b 0x63) k) LAST_KEY → result ≡ last_round s k }
{
    let Halves { u, v } = halved(x);
    let a = (look_up(LAST_U, u) ^ key) ^ look_up(LAST_V, v);
    a.swizzle(LAST_PLACES)
}

// The block in the basis, with the first key added (FIPS 197, 5.1.4).
#[inline(always)]
fn begin(block: [u8; 16], key: u8x16) -> u8x16
    ensures sum { result ≡ xor_bytes (map into block) key }
    ensures bytes { IsBlock block }
{
    in_basis(u8x16::from_array(block)) ^ key
}

// The key of round r; that of 0 is added before the rounds.
#[inline(always)]
fn key_of(keys: &SealingKeys, r: usize) -> u8x16
    requires { r < 15 }
    ensures { result ≡ slice_index_or keys.now.keys r [] }
{
    u8x16::from_array(keys.keys[r])
}

// Encrypts a block: Cipher of FIPS 197, 5.1.
#[inline(never)]
pub(crate) fn sealed(keys: &SealingKeys, block: [u8; 16]) -> [u8; 16]
    ensures { (w : List ℕ) → AreSealingKeys keys.now.keys w → result ≡ cipher w block }
{
    let s0 = begin(block, key_of(keys, 0));
    let s1 = round_1(s0, key_of(keys, 1));
    let s2 = round_2(s1, key_of(keys, 2));
    let s3 = round_3(s2, key_of(keys, 3));
    let s4 = round_0(s3, key_of(keys, 4));
    let s5 = round_1(s4, key_of(keys, 5));
    let s6 = round_2(s5, key_of(keys, 6));
    let s7 = round_3(s6, key_of(keys, 7));
    let s8 = round_0(s7, key_of(keys, 8));
    let s9 = round_1(s8, key_of(keys, 9));
    let s10 = round_2(s9, key_of(keys, 10));
    let s11 = round_3(s10, key_of(keys, 11));
    let s12 = round_0(s11, key_of(keys, 12));
    let s13 = round_1(s12, key_of(keys, 13));
    round_14(s13, key_of(keys, 14)).to_array()
}
