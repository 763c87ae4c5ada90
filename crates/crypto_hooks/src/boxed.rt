//! Two boxed closures of the caller's.

ghost use Rattle.aes_block.specs.Cipher.{cipher, inv_cipher};
ghost use Rattle.crypto_hooks.specs.Answers.{AnswersBy};

use crate::block256::Block256;
use aes_block::Schedule;

/// A boxed function of a key schedule and a block.
pub type BlockBox = Box<dyn Fn(&Schedule, [u8; 16]) -> [u8; 16]>;

/// A block cipher of two boxed closures, the first of which encrypts a block and the second
/// decrypts one.
///
/// One type for every pair of closures, where [`crate::Hooks`] is one for each.
#[derive(Drop)]
pub struct BoxHooks {
    seal: BlockBox,
    unseal: BlockBox,
}

impl BoxHooks {
    /// Keeps two boxed closures that answer Cipher and InvCipher for every key schedule and every
    /// block.
    pub fn new(seal: BlockBox, unseal: BlockBox) -> BoxHooks
        requires seals { AnswersBy (λ s b. BlockBox.pre seal s b) (λ s b r. BlockBox.post seal s b r) cipher }
        requires unseals { AnswersBy (λ s b. BlockBox.pre unseal s b) (λ s b r. BlockBox.post unseal s b r) inv_cipher }
        ensures answers { ⟦<BoxHooks as Block256>⟧.answers result }
    {
        BoxHooks { seal, unseal }
    }
}

impl Block256 for BoxHooks {
    ghost answers = { λ h. AnswersBy (λ s b. BlockBox.pre h.seal s b) (λ s b r. BlockBox.post h.seal s b r) cipher
        × AnswersBy (λ s b. BlockBox.pre h.unseal s b) (λ s b r. BlockBox.post h.unseal s b r) inv_cipher };

    fn seal_block(&self, schedule: &Schedule, block: [u8; 16]) -> [u8; 16] {
        let _words = schedule.words();
        called(&self.seal, schedule, block)
    }

    fn open_block(&self, schedule: &Schedule, block: [u8; 16]) -> [u8; 16] {
        let _words = schedule.words();
        called(&self.unseal, schedule, block)
    }
}

/// What a boxed function answers.
fn called(f: &BlockBox, schedule: &Schedule, block: [u8; 16]) -> [u8; 16]
    requires { BlockBox.pre f.now schedule block }
    ensures { BlockBox.post f.now schedule.entry block result }
{
    f(schedule, block)
}
