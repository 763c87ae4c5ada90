// Cipher and InvCipher step by step on the bytes of the state (FIPS 197, 5.1 and 5.3).

ghost use Rattle.std.specs.Prelude.{◌≡◌};
ghost use Rattle.aes_block.specs.Cipher.{cipher, inv_cipher};

use crate::schedule::Schedule;
use crate::steps::{
    add_round_key, inv_mix_columns, inv_shift_rows, inv_sub_bytes, mix_columns, round_key,
    shift_rows, sub_bytes,
};

const ROUNDS: usize = 14;

/// Encrypts a block: Cipher of FIPS 197, 5.1.
pub fn cipher(schedule: &Schedule, block: [u8; 16]) -> [u8; 16]
    ensures sealed { result ≡ cipher schedule.now block }
{
    let w = schedule.words();
    let mut state = add_round_key(block, round_key(w, 0));
    for r in 1..ROUNDS {
        let shifted = shift_rows(sub_bytes(state));
        state = add_round_key(mix_columns(shifted), round_key(w, r));
    }
    add_round_key(shift_rows(sub_bytes(state)), round_key(w, ROUNDS))
}

/// Decrypts a block: InvCipher of FIPS 197, 5.3.
pub fn inv_cipher(schedule: &Schedule, block: [u8; 16]) -> [u8; 16]
    ensures opened { result ≡ inv_cipher schedule.now block }
{
    let w = schedule.words();
    let mut state = add_round_key(block, round_key(w, ROUNDS));
    for r in 1..ROUNDS {
        let substituted = inv_sub_bytes(inv_shift_rows(state));
        state = inv_mix_columns(add_round_key(substituted, round_key(w, ROUNDS - r)));
    }
    add_round_key(inv_sub_bytes(inv_shift_rows(state)), round_key(w, 0))
}
