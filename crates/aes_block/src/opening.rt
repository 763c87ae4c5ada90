// InvCipher of one block by look-ups in tables of 16 entries, in the order of the equivalent inverse cipher
// (FIPS 197, 5.3 and 5.3.5).
//
// The state is kept after the affine map of InvSubBytes, so that a round begins with the inverse. InvShiftRows is
// never done, as ShiftRows in encryption.

ghost use Rattle.std.specs.Prelude.{◌≡◌, ℕ, List, map};
ghost use Rattle.aes_block.specs.Block.{IsBlock, xor_bytes};
ghost use Rattle.aes_block.specs.Cipher.{inv_cipher};
ghost use Rattle.aes_block.specs.Opening.{AreOpeningKeys, into_open, open_last, open_round};
ghost use Rattle.aes_block.specs.Sealing.{at_halves, placed};

use crate::lookups::{Halves, by_nibbles, halved, look_up, turned};
use crate::open_tables::*;
use crate::opening_keys::OpeningKeys;
use crate::tables::{INVERSE, PLACES_0, PLACES_1, PLACES_2, PLACES_3, RATIO};
use std::simd::prelude::*;

// The products of the substituted bytes, the last with a key.
struct Multiples {
    nine: u8x16,
    eleven: u8x16,
    thirteen: u8x16,
    fourteen: u8x16,
}

// The inverse S-box's entries times 09, 0b, 0d and 0e, the last with a key added (FIPS 197, 5.3.2 and 5.3.3).
#[inline(always)]
fn products(x: u8x16, key: u8x16) -> Multiples
    ensures nine { result.nine ≡ map (at_halves INVERSE RATIO NINE_U NINE_V) x }
    ensures thirteen { result.thirteen ≡ map (at_halves INVERSE RATIO THIRTEEN_U THIRTEEN_V) x }
    ensures eleven { result.eleven ≡ map (at_halves INVERSE RATIO ELEVEN_U ELEVEN_V) x }
    ensures fourteen { result.fourteen ≡ xor_bytes (map (at_halves INVERSE RATIO FOURTEEN_U FOURTEEN_V) x) key }
{
    let Halves { u, v } = halved(x);
    let nine = look_up(NINE_U, u) ^ look_up(NINE_V, v);
    let thirteen = look_up(THIRTEEN_U, u) ^ look_up(THIRTEEN_V, v);
    let eleven = look_up(ELEVEN_U, u) ^ look_up(ELEVEN_V, v);
    let fourteen = (look_up(FOURTEEN_U, u) ^ key) ^ look_up(FOURTEEN_V, v);
    Multiples {
        nine,
        eleven,
        thirteen,
        fourteen,
    }
}

// A round r with r % 4 = 1 (FIPS 197, 5.3.5): the state's bytes stand at PLACES_0 before, at PLACES_3 behind it.
#[inline(always)]
fn open_round_1(x: u8x16, keys: &OpeningKeys, key: u8x16) -> u8x16
    ensures { (s k : List ℕ) → IsBlock s → IsBlock k → x ≡ placed (map into_open s) PLACES_0
        → key ≡ placed (map into_open k) PLACES_3 → result ≡ placed (map into_open (open_round s k)) PLACES_3 }
{
    let Multiples {
        nine,
        eleven,
        thirteen,
        fourteen,
    } = products(x, key);
    let once = keys.turn(1);
    let twice = keys.turn(5);
    let s = eleven ^ turned(nine, twice);
    let t = fourteen ^ turned(thirteen, twice);
    t ^ turned(s, once)
}

// A round r with r % 4 = 2 (FIPS 197, 5.3.5): the state's bytes stand at PLACES_3 before, at PLACES_2 behind it.
#[inline(always)]
fn open_round_2(x: u8x16, keys: &OpeningKeys, key: u8x16) -> u8x16
    ensures { (s k : List ℕ) → IsBlock s → IsBlock k → x ≡ placed (map into_open s) PLACES_3
        → key ≡ placed (map into_open k) PLACES_2 → result ≡ placed (map into_open (open_round s k)) PLACES_2 }
{
    let Multiples {
        nine,
        eleven,
        thirteen,
        fourteen,
    } = products(x, key);
    let once = keys.turn(2);
    let twice = keys.turn(6);
    let s = eleven ^ turned(nine, twice);
    let t = fourteen ^ turned(thirteen, twice);
    t ^ turned(s, once)
}

// A round r with r % 4 = 3 (FIPS 197, 5.3.5): the state's bytes stand at PLACES_2 before, at PLACES_1 behind it.
#[inline(always)]
fn open_round_3(x: u8x16, keys: &OpeningKeys, key: u8x16) -> u8x16
    ensures { (s k : List ℕ) → IsBlock s → IsBlock k → x ≡ placed (map into_open s) PLACES_2
        → key ≡ placed (map into_open k) PLACES_1 → result ≡ placed (map into_open (open_round s k)) PLACES_1 }
{
    let Multiples {
        nine,
        eleven,
        thirteen,
        fourteen,
    } = products(x, key);
    let once = keys.turn(3);
    let twice = keys.turn(7);
    let s = eleven ^ turned(nine, twice);
    let t = fourteen ^ turned(thirteen, twice);
    t ^ turned(s, once)
}

// A round r with r % 4 = 0 (FIPS 197, 5.3.5): the state's bytes stand at PLACES_1 before, at PLACES_0 behind it.
#[inline(always)]
fn open_round_0(x: u8x16, keys: &OpeningKeys, key: u8x16) -> u8x16
    ensures { (s k : List ℕ) → IsBlock s → IsBlock k → x ≡ placed (map into_open s) PLACES_1
        → key ≡ placed (map into_open k) PLACES_0 → result ≡ placed (map into_open (open_round s k)) PLACES_0 }
{
    let Multiples {
        nine,
        eleven,
        thirteen,
        fourteen,
    } = products(x, key);
    let once = keys.turn(0);
    let twice = keys.turn(4);
    let s = eleven ^ turned(nine, twice);
    let t = fourteen ^ turned(thirteen, twice);
    t ^ turned(s, once)
}

// The last round, which has no InvMixColumns and brings each byte home (FIPS 197, 5.3.5).
#[inline(always)]
fn open_round_14(x: u8x16, keys: &OpeningKeys, key: u8x16) -> u8x16
    ensures { (s k : List ℕ) → IsBlock s → IsBlock k → x ≡ placed (map into_open s) PLACES_3
        → key ≡ placed k PLACES_2 → result ≡ open_last s k }
{
    let Halves { u, v } = halved(x);
    let a = (look_up(OPEN_LAST_U, u) ^ key) ^ look_up(OPEN_LAST_V, v);
    turned(a, keys.turn(8))
}

// The block with the first key added, after the affine map of InvSubBytes (FIPS 197, 5.3.4).
#[inline(always)]
fn open_begin(block: u8x16, key: u8x16) -> u8x16
    ensures sum { (k : List ℕ) → IsBlock k → key ≡ map into_open k → result ≡ map into_open (xor_bytes block k) }
    ensures bytes { IsBlock block }
{
    by_nibbles(OPEN_LOW, OPEN_HIGH, block) ^ key
}

// Decrypts a block: InvCipher of FIPS 197, 5.3.
#[inline(never)]
pub(crate) fn opened(keys: &OpeningKeys, block: [u8; 16]) -> [u8; 16]
    ensures { (w : List ℕ) → AreOpeningKeys keys.now.keys w → result ≡ inv_cipher w block }
{
    let s0 = open_begin(u8x16::from_array(block), keys.key(0));
    let s1 = open_round_1(s0, keys, keys.key(1));
    let s2 = open_round_2(s1, keys, keys.key(2));
    let s3 = open_round_3(s2, keys, keys.key(3));
    let s4 = open_round_0(s3, keys, keys.key(4));
    let s5 = open_round_1(s4, keys, keys.key(5));
    let s6 = open_round_2(s5, keys, keys.key(6));
    let s7 = open_round_3(s6, keys, keys.key(7));
    let s8 = open_round_0(s7, keys, keys.key(8));
    let s9 = open_round_1(s8, keys, keys.key(9));
    let s10 = open_round_2(s9, keys, keys.key(10));
    let s11 = open_round_3(s10, keys, keys.key(11));
    let s12 = open_round_0(s11, keys, keys.key(12));
    let s13 = open_round_1(s12, keys, keys.key(13));
    open_round_14(s13, keys, keys.key(14)).to_array()
}
