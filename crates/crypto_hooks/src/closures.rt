//! Two closures of the caller's.

ghost use Rattle.aes_block.specs.Cipher.{cipher, inv_cipher};
ghost use Rattle.crypto_hooks.specs.Answers.{Answers};

use crate::block256::Block256;
use aes_block::Schedule;

/// A block cipher of two closures, the first of which encrypts a block and the second decrypts one.
#[derive(Drop)]
pub struct Hooks<E, D> {
    seal: E,
    unseal: D,
}

impl<E, D> Hooks<E, D>
where
    E: Fn(&Schedule, [u8; 16]) -> [u8; 16],
    D: Fn(&Schedule, [u8; 16]) -> [u8; 16],
{
    /// Keeps two closures that answer Cipher and InvCipher for every key schedule and every block.
    pub fn new(seal: E, unseal: D) -> Hooks<E, D>
        requires seals { Answers E.Fn cipher seal }
        requires unseals { Answers D.Fn inv_cipher unseal }
        ensures answers { ⟦<Hooks<E, D> as Block256>⟧.answers result }
    {
        Hooks { seal, unseal }
    }
}

impl<E, D> Block256 for Hooks<E, D>
where
    E: Fn(&Schedule, [u8; 16]) -> [u8; 16],
    D: Fn(&Schedule, [u8; 16]) -> [u8; 16],
{
    ghost answers = { λ h. Answers E.Fn cipher h.seal × Answers D.Fn inv_cipher h.unseal };

    fn seal_block(&self, schedule: &Schedule, block: [u8; 16]) -> [u8; 16] {
        let _words = schedule.words();
        (self.seal)(schedule, block)
    }

    fn open_block(&self, schedule: &Schedule, block: [u8; 16]) -> [u8; 16] {
        let _words = schedule.words();
        (self.unseal)(schedule, block)
    }
}
