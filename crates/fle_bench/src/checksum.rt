//! The first 4 bytes of a SHA-256 digest (FIPS 180-4, 6.2).

ghost use Rattle.std.specs.Prelude.{◌≡◌, take};
ghost use Rattle.fle_bench.specs.Checksum.{checksum};

use sha2::{Digest, Sha256};

/// The checksum of the bytes.
pub fn checksum(bytes: &[u8]) -> u32
    ensures sum { result ≡ checksum bytes.now }
{
    u32::from_be_bytes(first_4(&Sha256::digest(bytes)))
}

/// The first 4 bytes of a digest.
fn first_4(digest: &[u8; 32]) -> [u8; 4]
    ensures { result ≡ take 4 digest.now }
{
    let mut front = [0; 4];
    front.copy_from_slice(&digest[..4]);
    front
}
