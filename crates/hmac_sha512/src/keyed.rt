//! A key that serves many messages.

ghost use Rattle.std.specs.Prelude.{◌≡◌, ◌++◌, List, [], ℕ};
ghost use Rattle.hmac_sha512.specs.Hmac.{hmac};
ghost use Rattle.hmac_sha512.specs.States.{HasKey, HasRead};

use crate::key_block::{block_of_key, inner_state, outer_state};
use crate::running::Mac;
use sha2::{Digest, Sha512};

/// A key whose two pads the hash function has read, so that each message costs two of its blocks
/// less.
#[derive(Clone, Drop)]
pub struct KeyedMac {
    inner: Sha512,
    outer: Sha512,
}

impl KeyedMac {
    /// Keeps the key, which may have any length.
    pub fn new(key: &[u8]) -> KeyedMac
        ensures keyed { HasKey result key.now }
    {
        let block = block_of_key(key);
        KeyedMac {
            inner: inner_state(&block),
            outer: outer_state(&block),
        }
    }

    /// Begins the empty message under the key.
    pub fn begin(&self) -> Mac
        ensures begins { (k : List ℕ) → HasKey self.now k → HasRead result k [] }
    {
        Mac::resumed(copy_of(&self.inner), copy_of(&self.outer))
    }

    /// The MAC of a message that lies in three parts, under the key: [`KeyedMac::begin`] with fewer copies of states.
    #[tactic(auto, unfolding(crate::specs::Hmac::hmac))]
    pub fn compute(&self, first: &[u8], second: &[u8], third: &[u8]) -> [u8; 64]
        ensures mac { (k : List ℕ) → HasKey self.now k → result ≡ hmac k ((first.now ++ second.now) ++ third.now) }
    {
        // A copy is used in the arm that takes it out: handed out first, as by `copy_of`, it is copied once more.
        let digest: [u8; 64] = match self.inner.clone() {
            Ok(mut inner) => {
                inner.update(first);
                inner.update(second);
                inner.update(third);
                inner.finalize()
            }
            Err(_) => unreachable!(),
        };
        match self.outer.clone() {
            Ok(mut outer) => {
                outer.update(digest.as_slice());
                outer.finalize()
            }
            Err(_) => unreachable!(),
        }
    }
}

/// The same state once more.
fn copy_of(state: &Sha512) -> Sha512
    ensures { result ≡ state.now }
{
    match state.clone() {
        Ok(copy) => copy,
        Err(_) => unreachable!(),
    }
}
