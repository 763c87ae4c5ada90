//! The key made to a block (RFC 2104, section 2), and the hash function begun on the block under a
//! pad.

ghost use Rattle.std.specs.Prelude.{◌≡◌, ◌≤◌, bit_xor, length, List, map, ℕ};
ghost use Rattle.sha2.specs.Hashers.{Holds512};
ghost use Rattle.hmac_sha512.specs.Hmac.{key_block, padded_key, zero_filled};

use sha2::{Digest, Sha512};

/// B of RFC 2104: the length in bytes of a block of SHA-512.
const BLOCK: usize = 128;

/// The byte that fills the inner pad.
const IPAD: u8 = 0x36;

/// The byte that fills the outer pad.
const OPAD: u8 = 0x5C;

/// The key as one block: hashed first if it is longer than a block, then filled with zeros.
pub fn block_of_key(key: &[u8]) -> [u8; 128]
    ensures block { result ≡ key_block key.now }
{
    if key.len() > BLOCK {
        let digest: [u8; 64] = Sha512::digest(key);
        zero_filled(&digest)
    } else {
        zero_filled(key)
    }
}

/// The bytes, and zeros up to the end of the block.
fn zero_filled(bytes: &[u8]) -> [u8; 128]
    requires { length bytes.now ≤ 128 }
    ensures { result ≡ zero_filled bytes.now }
{
    let mut block = [0; BLOCK];
    block[..bytes.len()].copy_from_slice(bytes);
    block
}

/// SHA-512 begun on the key's block under the inner pad.
pub fn inner_state(block: &[u8; 128]) -> Sha512
    ensures state { (k : List ℕ) → block.now ≡ key_block k → Holds512 result (padded_key 0x36 k) }
{
    begun(block, IPAD)
}

/// SHA-512 begun on the key's block under the outer pad.
pub fn outer_state(block: &[u8; 128]) -> Sha512
    ensures state { (k : List ℕ) → block.now ≡ key_block k → Holds512 result (padded_key 0x5C k) }
{
    begun(block, OPAD)
}

/// SHA-512 begun on the block, each byte of which is combined with the pad.
fn begun(block: &[u8; 128], pad: u8) -> Sha512
    ensures { Holds512 result (map (λ b. bit_xor b pad) block.now) }
{
    let mut hasher = Sha512::new();
    hasher.update(padded(block, pad));
    hasher
}

/// The block with each byte combined with the pad by exclusive or.
fn padded(block: &[u8; 128], pad: u8) -> [u8; 128]
    ensures { result ≡ map (λ b. bit_xor b pad) block.now }
{
    let mut out = [0; BLOCK];
    for i in 0..BLOCK {
        out[i] = block[i] ^ pad;
    }
    out
}
