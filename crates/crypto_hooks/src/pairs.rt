//! Three closures of the caller's, the third for two blocks.

ghost use Rattle.aes_block.specs.Cipher.{cipher, inv_cipher};
ghost use Rattle.crypto_hooks.specs.Answers.{Answers, AnswersPair};

use crate::block256::Block256;
use crate::closures::Hooks;
use aes_block::Schedule;

/// A block cipher of three closures, the first of which encrypts a block, the second decrypts one and
/// the third decrypts two.
#[derive(Drop)]
pub struct PairHooks<E, D, T> {
    seal: E,
    unseal: D,
    unseal_two: T,
}

impl<E, D> Hooks<E, D>
where
    E: Fn(&Schedule, [u8; 16]) -> [u8; 16],
    D: Fn(&Schedule, [u8; 16]) -> [u8; 16],
{
    /// Keeps closures that answer Cipher and InvCipher for every key schedule and every block, and a
    /// third that answers InvCipher of each of two blocks.
    pub fn with_pairs<T>(seal: E, unseal: D, unseal_two: T) -> PairHooks<E, D, T>
    where
        T: Fn(&Schedule, [u8; 16], [u8; 16]) -> ([u8; 16], [u8; 16]),
        requires seals { Answers E.Fn cipher seal }
        requires unseals { Answers D.Fn inv_cipher unseal }
        requires unseals_two { AnswersPair T.Fn inv_cipher unseal_two }
        ensures answers { ⟦<PairHooks<E, D, T> as Block256>⟧.answers result }
    {
        PairHooks {
            seal,
            unseal,
            unseal_two,
        }
    }
}

impl<E, D, T> Block256 for PairHooks<E, D, T>
where
    E: Fn(&Schedule, [u8; 16]) -> [u8; 16],
    D: Fn(&Schedule, [u8; 16]) -> [u8; 16],
    T: Fn(&Schedule, [u8; 16], [u8; 16]) -> ([u8; 16], [u8; 16]),
{
    ghost answers = { λ h. Answers E.Fn cipher h.seal × Answers D.Fn inv_cipher h.unseal
        × AnswersPair T.Fn inv_cipher h.unseal_two };

    fn seal_block(&self, schedule: &Schedule, block: [u8; 16]) -> [u8; 16] {
        let _words = schedule.words();
        (self.seal)(schedule, block)
    }

    fn open_block(&self, schedule: &Schedule, block: [u8; 16]) -> [u8; 16] {
        let _words = schedule.words();
        (self.unseal)(schedule, block)
    }

    fn open_two(
        &self,
        schedule: &Schedule,
        first: [u8; 16],
        second: [u8; 16],
    ) -> ([u8; 16], [u8; 16]) {
        let _words = schedule.words();
        (self.unseal_two)(schedule, first, second)
    }
}
