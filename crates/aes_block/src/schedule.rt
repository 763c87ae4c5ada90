// A key schedule, with the round keys of the look-ups (FIPS 197, 5.2 and 5.3.5).

ghost use Rattle.std.specs.Prelude.{◌≡◌};
ghost use Rattle.aes_block.specs.Block.{IsSchedule};
ghost use Rattle.aes_block.specs.Expansion.{expanded};
ghost use Rattle.aes_block.specs.Opening.{AreOpeningKeys};
ghost use Rattle.aes_block.specs.Sealing.{AreSealingKeys};

use crate::expansion::expanded_words;
use crate::opening_keys::{OpeningKeys, opening_keys};
use crate::sealing_keys::{SealingKeys, sealing_keys};
use std::alloc::AllocError;
use std::marker::Model;

/// The key schedule of a 256-bit key: the 60 words of FIPS 197, 5.2.
#[derive(Drop)]
pub struct Schedule {
    words: [u32; 60],
    sealing: SealingKeys,
    opening: OpeningKeys,
}

impl Model for Schedule {
    ghost use Rattle.std.specs.Prelude.{ℕ, List};
    ghost use Rattle.aes_block.specs.Block.{IsSchedule};
    ghost use Rattle.aes_block.specs.Opening.{AreOpeningKeys};
    ghost use Rattle.aes_block.specs.Sealing.{AreSealingKeys};

    ghost Value = { List ℕ };

    ghost view = { λ s. s.words };

    ghost invariant = { λ s. IsSchedule s.words
        × ∥ AreSealingKeys s.sealing.keys s.words ∥₁ × ∥ AreOpeningKeys s.opening.keys s.words ∥₁ };
}

impl Clone for Schedule {
    ghost use Rattle.std.specs.Prelude.{◌≡◌, ⊤};

    ghost is_clone = { λ x y. y ≡ x };

    ghost is_infallible = { λ _. ⊤ };

    fn clone(&self) -> Result<Schedule, AllocError> {
        Ok(Schedule {
            words: self.words,
            sealing: self.sealing,
            opening: self.opening,
        })
    }
}

/// Expands a 256-bit key.
pub fn expand(key: &[u8; 32]) -> Schedule
    ensures words { result ≡ expanded key.now }
    ensures schedule { IsSchedule result }
{
    let words = expanded_words(key);
    are_schedule(words);
    let sealing = sealing_keys(&words);
    let opening = opening_keys(&words);
    Schedule {
        words,
        sealing,
        opening,
    }
}

// Does nothing: each 60 words are a key schedule's.
fn are_schedule(words: [u32; 60])
    ensures { IsSchedule words }
{}

impl Schedule {
    /// The 60 words, in the order of the key expansion.
    pub fn words(&self) -> &[u32; 60]
        ensures words { result.now ≡ self.now }
        ensures schedule { IsSchedule self.now }
    {
        &self.words
    }

    // The round keys of encryption by look-ups.
    pub(crate) fn sealing(&self) -> &SealingKeys
        ensures { ∥ AreSealingKeys result.now.keys self.now ∥₁ }
    {
        &self.sealing
    }

    // The round keys of decryption by look-ups.
    pub(crate) fn opening(&self) -> &OpeningKeys
        ensures { ∥ AreOpeningKeys result.now.keys self.now ∥₁ }
    {
        &self.opening
    }
}
