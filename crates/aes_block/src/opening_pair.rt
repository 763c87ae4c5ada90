// InvCipher of two blocks side by side in one vector of 32 lanes, in the order of the equivalent inverse cipher
// (FIPS 197, 5.3 and 5.3.5), as `opening` has it for one.
//
// Where the processor's vectors have 16 lanes the compiler does each step for one block and then for the other.

ghost use Rattle.std.specs.Prelude.{◌≡◌, ◌++◌, ◌-◌, ◌≤◌, [], ℕ, List, length, map, slice_index_or};
ghost use Rattle.aes_block.specs.Block.{IsBlock, xor_bytes};
ghost use Rattle.aes_block.specs.Cipher.{inv_cipher};
ghost use Rattle.aes_block.specs.Opening.{AreOpeningKeys, both_at, into_open, open_last, open_round};
ghost use Rattle.aes_block.specs.Sealing.{at_halves, placed, places};

use crate::open_tables::*;
use crate::opening_keys::OpeningKeys;
use crate::tables::{INVERSE, RATIO};
use crate::wide_lookups::{
    Halves, by_nibbles, first_of, halved, look_up, second_of, side_by_side, turned,
};
use std::simd::prelude::*;

// The products of the substituted bytes, the last with a key.
struct Multiples {
    nine: u8x32,
    eleven: u8x32,
    thirteen: u8x32,
    fourteen: u8x32,
}

// The inverse S-box's entries times 09, 0b, 0d and 0e, the last with a key added to both blocks (FIPS 197, 5.3.2 and
// 5.3.3).
#[inline(always)]
fn products(x: u8x32, key: u8x16) -> Multiples
    ensures nine { result.nine ≡ map (at_halves INVERSE RATIO NINE_U NINE_V) x }
    ensures thirteen { result.thirteen ≡ map (at_halves INVERSE RATIO THIRTEEN_U THIRTEEN_V) x }
    ensures eleven { result.eleven ≡ map (at_halves INVERSE RATIO ELEVEN_U ELEVEN_V) x }
    ensures fourteen { result.fourteen
        ≡ xor_bytes (map (at_halves INVERSE RATIO FOURTEEN_U FOURTEEN_V) x) (key ++ key) }
{
    let Halves { u, v } = halved(x);
    let nine = look_up(NINE_U, u) ^ look_up(NINE_V, v);
    let thirteen = look_up(THIRTEEN_U, u) ^ look_up(THIRTEEN_V, v);
    let eleven = look_up(ELEVEN_U, u) ^ look_up(ELEVEN_V, v);
    let fourteen = (look_up(FOURTEEN_U, u) ^ side_by_side(key, key)) ^ look_up(FOURTEEN_V, v);
    Multiples {
        nine,
        eleven,
        thirteen,
        fourteen,
    }
}

// Round r of both (FIPS 197, 5.3.5).
#[inline(always)]
fn open_round(x: u8x32, keys: &OpeningKeys, r: usize) -> u8x32
    requires first { 1 ≤ r }
    requires last { r ≤ 13 }
    ensures { (s t k : List ℕ) → IsBlock s → IsBlock t → IsBlock k → x ≡ both_at (r - 1) s t
        → slice_index_or keys.now.keys r [] ≡ placed (map into_open k) (places (16 - r))
        → result ≡ both_at r (open_round s k) (open_round t k) }
{
    let Multiples {
        nine,
        eleven,
        thirteen,
        fourteen,
    } = products(x, keys.key(r));
    let once = keys.turn(r % 4);
    let twice = keys.turn(4 + r % 4);
    let s = eleven ^ turned(nine, twice);
    let t = fourteen ^ turned(thirteen, twice);
    t ^ turned(s, once)
}

// The last round of both, which has no InvMixColumns and brings each byte home (FIPS 197, 5.3.5).
#[inline(always)]
fn open_end(x: u8x32, keys: &OpeningKeys) -> u8x32
    ensures { (s t k : List ℕ) → IsBlock s → IsBlock t → IsBlock k → x ≡ both_at 13 s t
        → slice_index_or keys.now.keys 14 [] ≡ placed k (places 2) → result ≡ open_last s k ++ open_last t k }
{
    let Halves { u, v } = halved(x);
    let last = keys.key(14);
    let a = (look_up(OPEN_LAST_U, u) ^ side_by_side(last, last)) ^ look_up(OPEN_LAST_V, v);
    turned(a, keys.turn(8))
}

// The blocks with the first key added, after the affine map of InvSubBytes (FIPS 197, 5.3.4).
#[inline(always)]
fn open_begin(first: u8x16, second: u8x16, key: u8x16) -> u8x32
    ensures sums { (k : List ℕ) → IsBlock k → key ≡ map into_open k
        → result ≡ both_at 0 (xor_bytes first k) (xor_bytes second k) }
    ensures first { IsBlock first }
    ensures second { IsBlock second }
{
    by_nibbles(OPEN_LOW, OPEN_HIGH, side_by_side(first, second)) ^ side_by_side(key, key)
}

// Decrypts two blocks: InvCipher of FIPS 197, 5.3, of each.
#[inline(never)]
pub(crate) fn opened_two(keys: &OpeningKeys, a: [u8; 16], b: [u8; 16]) -> ([u8; 16], [u8; 16])
    ensures first { (w : List ℕ) → AreOpeningKeys keys.now.keys w → result.0 ≡ inv_cipher w a }
    ensures second { (w : List ℕ) → AreOpeningKeys keys.now.keys w → result.1 ≡ inv_cipher w b }
{
    let mut x = open_begin(u8x16::from_array(a), u8x16::from_array(b), keys.key(0));
    for r in 1..14 {
        x = open_round(x, keys, r);
    }
    let both = open_end(x, keys);
    (first_of(both).to_array(), second_of(both).to_array())
}
