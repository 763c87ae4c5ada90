// SubBytes and InvSubBytes (FIPS 197, 5.1.1 and 5.3.2) of 16 bytes at once, by look-ups.

ghost use Rattle.std.specs.Prelude.{◌≡◌, map, bit_xor};
ghost use Rattle.aes_block.specs.Sealing.{at_halves};
ghost use Rattle.aes_block.specs.Substitution.{inv_sub_byte, sub_byte};

use crate::lookups::{Halves, halved, in_basis, in_open_basis, look_up};
use crate::open_tables::{OPEN_LAST_U, OPEN_LAST_V};
use crate::tables::{INVERSE, LAST_U, LAST_V, RATIO};
use std::simd::prelude::*;

// The S-box's entry of each byte of that basis.
#[inline(always)]
fn boxed(x: u8x16) -> u8x16
    ensures { result ≡ map (λ b. bit_xor (at_halves INVERSE RATIO LAST_U LAST_V b) 0x63) x }
{
    let Halves { u, v } = halved(x);
    let s = look_up(LAST_U, u) ^ look_up(LAST_V, v);
    s ^ u8x16::splat(0x63)
}

// The S-box's entry of each byte.
#[inline(always)]
pub(crate) fn substituted(x: u8x16) -> u8x16
    ensures { result ≡ map sub_byte x }
{
    boxed(in_basis(x))
}

// The inverse of each byte of that basis.
#[inline(always)]
fn inv_boxed(x: u8x16) -> u8x16
    ensures { result ≡ map (at_halves INVERSE RATIO OPEN_LAST_U OPEN_LAST_V) x }
{
    let Halves { u, v } = halved(x);
    look_up(OPEN_LAST_U, u) ^ look_up(OPEN_LAST_V, v)
}

// The inverse S-box's entry of each byte.
#[inline(always)]
pub(crate) fn inv_substituted(x: u8x16) -> u8x16
    ensures { result ≡ map inv_sub_byte x }
{
    inv_boxed(in_open_basis(x))
}
