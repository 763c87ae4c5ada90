// AES by vector permutation (Hamburg, 2009), in constant time: Cipher and InvCipher (FIPS 197, 5.1 and 5.3) by look-ups
// in tables of 16 entries that stand in vector registers; no address and no branch depends on key or block.

ghost use Rattle.std.specs.Prelude.{◌≡◌};
ghost use Rattle.aes_block.specs.Cipher.{cipher, inv_cipher};

use crate::opening::opened;
use crate::opening_pair::opened_two;
use crate::schedule::Schedule;
use crate::sealing::sealed;

/// Encrypts a block: Cipher of FIPS 197, 5.1.
pub fn cipher_tables(schedule: &Schedule, block: [u8; 16]) -> [u8; 16]
    ensures sealed { result ≡ cipher schedule.now block }
{
    sealed(schedule.sealing(), block)
}

/// Decrypts a block: InvCipher of FIPS 197, 5.3.
pub fn inv_cipher_tables(schedule: &Schedule, block: [u8; 16]) -> [u8; 16]
    ensures opened { result ≡ inv_cipher schedule.now block }
{
    opened(schedule.opening(), block)
}

/// Decrypts two blocks, each as [`inv_cipher_tables`] does, side by side in one vector of 32 lanes: a processor whose
/// vectors are that wide takes about the time of one.
pub fn inv_cipher_tables_pair(
    schedule: &Schedule,
    first: [u8; 16],
    second: [u8; 16],
) -> ([u8; 16], [u8; 16])
    ensures first { result.0 ≡ inv_cipher schedule.now first }
    ensures second { result.1 ≡ inv_cipher schedule.now second }
{
    opened_two(schedule.opening(), first, second)
}
