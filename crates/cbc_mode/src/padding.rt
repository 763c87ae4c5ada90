//! The padding to whole blocks (PKCS #7: RFC 5652, 6.3).

ghost use Rattle.std.specs.Prelude.{◌≡◌, ◌≢◌, ◌+◌, ◌*◌, ◌/◌, ◌%◌, ◌^◌, ◌<◌, ◌≤◌, ◌↔◌};
ghost use Rattle.std.specs.Prelude.{drop, get_or, IfNone, IfSome, IsTrue, length, List, take, ℕ};
ghost use Rattle.cbc_mode.specs.Cbc.{IsWholeBlocks};
ghost use Rattle.cbc_mode.specs.Padding.{pad};

use crate::blocks::{BLOCK, block_at};

/// The least and the most bytes of padding.
const LEAST: usize = 1;

const MOST: usize = 16;

/// The length of a message of n bytes with its padding.
pub fn padded_len(n: usize) -> usize
    requires { n < 2 ^ 31 }
    ensures len { result ≡ 16 * (n / 16 + 1) }
{
    BLOCK * (n / BLOCK + 1)
}

/// The block that begins at a place of the padded message.
pub fn padded_block(plain: &[u8], at: usize) -> [u8; 16]
    requires inside { at ≤ length plain.now }
    requires whole { at % 16 ≡ 0 }
    ensures block { result ≡ take 16 (drop at (pad plain.now)) }
{
    let rest = &plain[at..];
    if rest.len() < BLOCK {
        last_block(rest)
    } else {
        block_at(rest, 0)
    }
}

/// The last block of the padded message, from the bytes of the message that stand in it.
fn last_block(rest: &[u8]) -> [u8; 16]
    requires { length rest.now < 16 }
    ensures { result ≡ pad rest.now }
{
    let padding = (BLOCK - rest.len()) as u8;
    let mut block = [padding; BLOCK];
    block[..rest.len()].copy_from_slice(rest);
    block
}

/// How many bytes of the message stand before the padding, or None where the padding is wrong.
pub fn plain_len(opened: &[u8]) -> Option<usize>
    requires { IsWholeBlocks (length opened.now) }
    ensures right { IfSome result (λ n. opened.now ≡ pad (take n opened.now)) }
    ensures shorter { IfSome result (λ n. n < length opened.now) }
    ensures wrong { IfNone result ((p : List ℕ) → opened.now ≢ pad p) }
{
    let at = opened.len() - BLOCK;
    match plain_len_of_last(block_at(opened, at)) {
        Some(n) => Some(at + n),
        None => None,
    }
}

/// The same for the last block, of which fewer than 16 bytes are the message's. All of its bytes are read, and no
/// branch depends on one of them but on the verdict.
fn plain_len_of_last(block: [u8; 16]) -> Option<usize>
    ensures right { IfSome result (λ n. block ≡ pad (take n block)) }
    ensures shorter { IfSome result (λ n. n < 16) }
    ensures wrong { IfNone result ((p : List ℕ) → length p < 16 → block ≢ pad p) }
{
    let padding = block[BLOCK - 1];
    let count = padding as usize;
    let n = BLOCK.saturating_sub(count);
    if both(is_count(count), ends_in(block, n, padding)) {
        Some(n)
    } else {
        None
    }
}

/// Whether a number is one of bytes of padding.
fn is_count(count: usize) -> bool
    ensures { IsTrue result ↔ ((1 ≤ count) × (count ≤ 16)) }
{
    both(LEAST <= count, count <= MOST)
}

/// Whether both are true, with no branch.
fn both(a: bool, b: bool) -> bool
    ensures { IsTrue result ↔ (IsTrue a × IsTrue b) }
{
    a & b
}

/// Whether each byte from place n on has this value.
fn ends_in(block: [u8; 16], n: usize, value: u8) -> bool
    ensures { IsTrue result ↔ ((k : ℕ) → n ≤ k → k < 16 → get_or block k 0 ≡ value) }
{
    let mut differences = 0;
    for i in 0..BLOCK {
        differences |= from(n, i, block[i] ^ value);
    }
    differences == 0
}

/// The byte at place i where that is n or more, and else 0.
fn from(n: usize, i: usize, byte: u8) -> u8
    ensures behind { n ≤ i → result ≡ byte }
    ensures before { i < n → result ≡ 0 }
{
    ((n <= i) as u8 * 0xff) & byte
}
