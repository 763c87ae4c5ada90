//! Blocks of 16 bytes in a longer run of bytes.

ghost use Rattle.std.specs.Prelude.{◌≡◌, ◌+◌, ◌≤◌, ◌++◌, drop, length, take};
ghost use Rattle.aes_block.specs.Block.{xor_bytes};

/// The length of a block of AES in bytes (FIPS 197, 3.2).
pub const BLOCK: usize = 16;

/// The block that begins at a place.
pub fn block_at(bytes: &[u8], at: usize) -> [u8; 16]
    requires { at + 16 ≤ length bytes.now }
    ensures block { result ≡ take 16 (drop at bytes.now) }
{
    let mut block = [0; BLOCK];
    block.copy_from_slice(&bytes[at..at + BLOCK]);
    block
}

/// Writes a block at a place.
pub fn put(out: &mut [u8], at: usize, block: [u8; 16])
    requires { at + 16 ≤ length out.old }
    ensures put { out.new ≡ take at out.old ++ (block ++ drop (at + 16) out.old) }
{
    out[at..at + BLOCK].copy_from_slice(&block);
}

/// The exclusive or of two blocks, byte by byte.
pub fn xored(a: [u8; 16], b: [u8; 16]) -> [u8; 16]
    ensures sum { result ≡ xor_bytes a b }
{
    let mut out = [0; BLOCK];
    for i in 0..BLOCK {
        out[i] = a[i] ^ b[i];
    }
    out
}
