// The steps of a round on the bytes of a state (FIPS 197, 5.1 and 5.3).

ghost use Rattle.std.specs.Prelude.{◌≡◌, ◌≤◌};
ghost use Rattle.aes_block.specs.Field.{product, times_x};
ghost use Rattle.aes_block.specs.Steps.{add_round_key, inv_mix_columns, inv_shift_rows, inv_sub_bytes, mix_columns};
ghost use Rattle.aes_block.specs.Steps.{round_key, shift_rows, sub_bytes, sum4};

use crate::substitution::{inv_substituted, substituted};
use crate::words::bytes_of;
use std::simd::prelude::*;

// 1b: the modulus of FIPS 197, 4.2, without its power x^8.
const REDUCTION: u8 = 0x1b;

const HIGHEST_BIT: u32 = 7;

// No branch depends on the byte.
fn times_x(a: u8) -> u8
    ensures { result ≡ times_x a }
{
    (a << 1) ^ ((a >> HIGHEST_BIT) * REDUCTION)
}

// SubBytes: each byte becomes its entry of the S-box (FIPS 197, 5.1.1).
pub(crate) fn sub_bytes(s: [u8; 16]) -> [u8; 16]
    ensures { result ≡ sub_bytes s }
{
    substituted(u8x16::from_array(s)).to_array()
}

// InvSubBytes: each byte becomes its entry of the inverse S-box (FIPS 197, 5.3.2).
pub(crate) fn inv_sub_bytes(s: [u8; 16]) -> [u8; 16]
    ensures { result ≡ inv_sub_bytes s }
{
    inv_substituted(u8x16::from_array(s)).to_array()
}

// ShiftRows: row r turns left by r places (FIPS 197, 5.1.2).
pub(crate) fn shift_rows(s: [u8; 16]) -> [u8; 16]
    ensures { result ≡ shift_rows s }
{
    [
        s[0], s[5], s[10], s[15], s[4], s[9], s[14], s[3], s[8], s[13], s[2], s[7], s[12], s[1],
        s[6], s[11],
    ]
}

// InvShiftRows: row r turns right by r places (FIPS 197, 5.3.1).
pub(crate) fn inv_shift_rows(s: [u8; 16]) -> [u8; 16]
    ensures { result ≡ inv_shift_rows s }
{
    [
        s[0], s[13], s[10], s[7], s[4], s[1], s[14], s[11], s[8], s[5], s[2], s[15], s[12], s[9],
        s[6], s[3],
    ]
}

// A byte of a column that goes through MixColumns, from that byte and the three below it.
fn mixed_byte(a: u8, b: u8, c: u8, d: u8) -> u8
    ensures { result ≡ sum4 (product a 0x02) (product b 0x03) (product c 0x01) (product d 0x01) }
{
    (times_x(a) ^ (times_x(b) ^ b)) ^ (c ^ d)
}

// A byte of a column that goes through InvMixColumns, from that byte and the three below it.
fn unmixed_byte(a: u8, b: u8, c: u8, d: u8) -> u8
    ensures { result ≡ sum4 (product a 0x0e) (product b 0x0b) (product c 0x0d) (product d 0x09) }
{
    (times_14(a) ^ times_11(b)) ^ (times_13(c) ^ times_9(d))
}

// The product with 09 (FIPS 197, 4.2).
fn times_9(a: u8) -> u8
    ensures { result ≡ product a 0x09 }
{
    times_x(times_x(times_x(a))) ^ a
}

// The product with 0b (FIPS 197, 4.2).
fn times_11(a: u8) -> u8
    ensures { result ≡ product a 0x0b }
{
    times_x(times_x(times_x(a)) ^ a) ^ a
}

// The product with 0d (FIPS 197, 4.2).
fn times_13(a: u8) -> u8
    ensures { result ≡ product a 0x0d }
{
    times_x(times_x(times_x(a) ^ a)) ^ a
}

// The product with 0e (FIPS 197, 4.2).
fn times_14(a: u8) -> u8
    ensures { result ≡ product a 0x0e }
{
    times_x(times_x(times_x(a) ^ a) ^ a)
}

// MixColumns: each column times 03 x^3 + 01 x^2 + 01 x + 02, modulo x^4 + 1 (FIPS 197, 5.1.3).
pub(crate) fn mix_columns(s: [u8; 16]) -> [u8; 16]
    ensures { result ≡ mix_columns s }
{
    [
        mixed_byte(s[0], s[1], s[2], s[3]),
        mixed_byte(s[1], s[2], s[3], s[0]),
        mixed_byte(s[2], s[3], s[0], s[1]),
        mixed_byte(s[3], s[0], s[1], s[2]),
        mixed_byte(s[4], s[5], s[6], s[7]),
        mixed_byte(s[5], s[6], s[7], s[4]),
        mixed_byte(s[6], s[7], s[4], s[5]),
        mixed_byte(s[7], s[4], s[5], s[6]),
        mixed_byte(s[8], s[9], s[10], s[11]),
        mixed_byte(s[9], s[10], s[11], s[8]),
        mixed_byte(s[10], s[11], s[8], s[9]),
        mixed_byte(s[11], s[8], s[9], s[10]),
        mixed_byte(s[12], s[13], s[14], s[15]),
        mixed_byte(s[13], s[14], s[15], s[12]),
        mixed_byte(s[14], s[15], s[12], s[13]),
        mixed_byte(s[15], s[12], s[13], s[14]),
    ]
}

// InvMixColumns: each column times 0b x^3 + 0d x^2 + 09 x + 0e, modulo x^4 + 1 (FIPS 197, 5.3.3).
pub(crate) fn inv_mix_columns(s: [u8; 16]) -> [u8; 16]
    ensures { result ≡ inv_mix_columns s }
{
    [
        unmixed_byte(s[0], s[1], s[2], s[3]),
        unmixed_byte(s[1], s[2], s[3], s[0]),
        unmixed_byte(s[2], s[3], s[0], s[1]),
        unmixed_byte(s[3], s[0], s[1], s[2]),
        unmixed_byte(s[4], s[5], s[6], s[7]),
        unmixed_byte(s[5], s[6], s[7], s[4]),
        unmixed_byte(s[6], s[7], s[4], s[5]),
        unmixed_byte(s[7], s[4], s[5], s[6]),
        unmixed_byte(s[8], s[9], s[10], s[11]),
        unmixed_byte(s[9], s[10], s[11], s[8]),
        unmixed_byte(s[10], s[11], s[8], s[9]),
        unmixed_byte(s[11], s[8], s[9], s[10]),
        unmixed_byte(s[12], s[13], s[14], s[15]),
        unmixed_byte(s[13], s[14], s[15], s[12]),
        unmixed_byte(s[14], s[15], s[12], s[13]),
        unmixed_byte(s[15], s[12], s[13], s[14]),
    ]
}

// The bytes of the four words of round r (FIPS 197, 5.1.4).
pub(crate) fn round_key(w: &[u32; 60], r: usize) -> [u8; 16]
    requires { r ≤ 14 }
    ensures { result ≡ round_key w.now r }
{
    bytes_of([w[4 * r], w[4 * r + 1], w[4 * r + 2], w[4 * r + 3]])
}

// AddRoundKey: the sum with a round key, byte by byte (FIPS 197, 5.1.4 and 5.3.4).
pub(crate) fn add_round_key(s: [u8; 16], k: [u8; 16]) -> [u8; 16]
    ensures { result ≡ add_round_key s k }
{
    [
        s[0] ^ k[0],
        s[1] ^ k[1],
        s[2] ^ k[2],
        s[3] ^ k[3],
        s[4] ^ k[4],
        s[5] ^ k[5],
        s[6] ^ k[6],
        s[7] ^ k[7],
        s[8] ^ k[8],
        s[9] ^ k[9],
        s[10] ^ k[10],
        s[11] ^ k[11],
        s[12] ^ k[12],
        s[13] ^ k[13],
        s[14] ^ k[14],
        s[15] ^ k[15],
    ]
}
