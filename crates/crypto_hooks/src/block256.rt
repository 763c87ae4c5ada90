//! The calls of a block cipher with a 256-bit key.

ghost use Rattle.std.specs.Prelude.{◌≡◌};
ghost use Rattle.aes_block.specs.Cipher.{cipher, inv_cipher};

use aes_block::Schedule;

/// AES with a 256-bit key, a block at a time, or two to decrypt (FIPS 197).
pub trait Block256 {
    // The calls answer what FIPS 197 defines.
    ghost answers: { Self → Type 0 };

    /// Encrypts a block: Cipher of FIPS 197, 5.1.
    fn seal_block(&self, schedule: &Schedule, block: [u8; 16]) -> [u8; 16]
        requires { answers self.now }
        ensures { result ≡ cipher schedule.now block };

    /// Decrypts a block: InvCipher of FIPS 197, 5.3.
    fn open_block(&self, schedule: &Schedule, block: [u8; 16]) -> [u8; 16]
        requires { answers self.now }
        ensures { result ≡ inv_cipher schedule.now block };

    /// Decrypts two blocks, each as [`Block256::open_block`] does, which is called for each where an
    /// implementation has nothing faster for both.
    fn open_two(
        &self,
        schedule: &Schedule,
        first: [u8; 16],
        second: [u8; 16],
    ) -> ([u8; 16], [u8; 16])
        requires { answers self.now }
        ensures first { result.0 ≡ inv_cipher schedule.now first }
        ensures second { result.1 ≡ inv_cipher schedule.now second }
    {
        (
            self.open_block(schedule, first),
            self.open_block(schedule, second),
        )
    }
}
