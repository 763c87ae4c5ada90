// The key expansion for a 256-bit key (FIPS 197, 5.2).

ghost use Rattle.std.specs.Prelude.{◌≡◌, ◌<◌, ◌≤◌, length};
ghost use Rattle.aes_block.specs.Expansion.{added_word, expanded, key_words, rot_word, round_constant, sub_word};
ghost use Rattle.aes_block.specs.Expansion.{word_at};

use crate::substitution::substituted;
use std::simd::prelude::*;

// The number of words of a 256-bit key.
const KEY_WORDS: usize = 8;

// SubWord: the S-box's entry for each byte of a word (FIPS 197, 5.2).
fn sub_word(w: u32) -> u32
    ensures { result ≡ sub_word w }
{
    let [a, b, c, d] = w.to_be_bytes();
    let lanes = [a, b, c, d, 0, 0, 0, 0, 0, 0, 0, 0, 0, 0, 0, 0];
    let s = substituted(u8x16::from_array(lanes)).to_array();
    u32::from_be_bytes([s[0], s[1], s[2], s[3]])
}

// RotWord: the bytes of a word turned left by one place (FIPS 197, 5.2).
fn rot_word(w: u32) -> u32
    ensures { result ≡ rot_word w }
{
    w.rotate_left(8)
}

// For a 256-bit key n is at most 7, so that the power of x is no more than 40.
fn round_constant(n: usize) -> u32
    requires low { 1 ≤ n }
    requires high { n < 8 }
    ensures { result ≡ round_constant n }
{
    1u32 << (n + 23)
}

// What word i adds to the word eight before it, where t is the word before it (FIPS 197, 5.2).
fn added_word(i: usize, t: u32) -> u32
    requires low { 8 ≤ i }
    requires high { i < 60 }
    ensures { result ≡ added_word i t }
{
    match i % KEY_WORDS {
        0 => sub_word(rot_word(t)) ^ round_constant(i / KEY_WORDS),
        4 => sub_word(t),
        _ => t,
    }
}

// Word i, from the words before it (FIPS 197, 5.2).
fn word_at(w: &[u32; 60], i: usize) -> u32
    requires low { 8 ≤ i }
    requires high { i < 60 }
    ensures { result ≡ word_at w.now i }
{
    w[i - KEY_WORDS] ^ added_word(i, w[i - 1])
}

// The first eight words, which are the key's.
fn key_words(k: &[u8; 32]) -> [u32; 8]
    ensures { result ≡ key_words k.now }
{
    [
        u32::from_be_bytes([k[0], k[1], k[2], k[3]]),
        u32::from_be_bytes([k[4], k[5], k[6], k[7]]),
        u32::from_be_bytes([k[8], k[9], k[10], k[11]]),
        u32::from_be_bytes([k[12], k[13], k[14], k[15]]),
        u32::from_be_bytes([k[16], k[17], k[18], k[19]]),
        u32::from_be_bytes([k[20], k[21], k[22], k[23]]),
        u32::from_be_bytes([k[24], k[25], k[26], k[27]]),
        u32::from_be_bytes([k[28], k[29], k[30], k[31]]),
    ]
}

// The 60 words of a 256-bit key.
pub(crate) fn expanded_words(key: &[u8; 32]) -> [u32; 60]
    ensures { result ≡ expanded key.now }
{
    let mut w = [0; 60];
    w[..KEY_WORDS].copy_from_slice(&key_words(key));
    for i in KEY_WORDS..60 {
        w[i] = word_at(&w, i);
    }
    w
}
