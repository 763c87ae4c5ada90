//! A message that is read in parts.

ghost use Rattle.std.specs.Prelude.{◌≡◌, List, [], ◌++◌, ℕ};
ghost use Rattle.sha2.specs.Hashers.{Holds512};
ghost use Rattle.hmac_sha512.specs.Hmac.{hmac, padded_key};
ghost use Rattle.hmac_sha512.specs.States.{HasRead};

use crate::key_block::{block_of_key, inner_state, outer_state};
use sha2::{Digest, Sha512};

/// The MAC of a message that is read part by part (RFC 2104).
///
/// Two running digests of SHA-512: the inner one reads the message, the outer one waits for its
/// digest.
#[derive(Drop)]
pub struct Mac {
    inner: Sha512,
    outer: Sha512,
}

impl Mac {
    /// Begins the empty message under the key, which may have any length.
    pub fn new(key: &[u8]) -> Mac
        ensures begins { HasRead result key.now [] }
    {
        let block = block_of_key(key);
        Mac::resumed(inner_state(&block), outer_state(&block))
    }

    /// Goes on from two digests that are under way.
    pub(crate) fn resumed(inner: Sha512, outer: Sha512) -> Mac
        ensures { (k m : List ℕ) → Holds512 inner (padded_key 0x36 k ++ m)
            → Holds512 outer (padded_key 0x5C k) → HasRead result k m }
    {
        Mac { inner, outer }
    }

    /// Reads one more part of the message.
    pub fn update(&mut self, part: &[u8])
        ensures read { (k m : List ℕ) → HasRead self.old k m → HasRead self.new k (m ++ part.now) }
    {
        self.inner.update(part);
    }

    /// The MAC of the message that was read.
    #[tactic(auto, unfolding(crate::specs::Hmac::hmac))]
    pub fn finish(self) -> [u8; 64]
        ensures mac { (k m : List ℕ) → HasRead self k m → result ≡ hmac k m }
    {
        let Mac { inner, mut outer } = self;
        let digest: [u8; 64] = inner.finalize();
        outer.update(digest);
        outer.finalize()
    }
}
