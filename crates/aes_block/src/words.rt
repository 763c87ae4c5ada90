// A state as four words, a column each (FIPS 197, 3.5).

ghost use Rattle.std.specs.Prelude.{◌≡◌};
ghost use Rattle.aes_block.specs.Block.{four_words};

// The four words of a state; the first byte of each column stands in the highest bits.
#[inline(always)]
pub(crate) fn words_of(s: [u8; 16]) -> [u32; 4]
    ensures { four_words result 0 ≡ s }
{
    [
        u32::from_be_bytes([s[0], s[1], s[2], s[3]]),
        u32::from_be_bytes([s[4], s[5], s[6], s[7]]),
        u32::from_be_bytes([s[8], s[9], s[10], s[11]]),
        u32::from_be_bytes([s[12], s[13], s[14], s[15]]),
    ]
}

// Each word goes into the block as a whole: from single bytes LLVM makes a store of each.
#[inline(always)]
pub(crate) fn bytes_of(s: [u32; 4]) -> [u8; 16]
    ensures { result ≡ four_words s 0 }
{
    let [a, b, c, d] = s;
    let mut block = [0; 16];
    block[0..4].copy_from_slice(&a.to_be_bytes());
    block[4..8].copy_from_slice(&b.to_be_bytes());
    block[8..12].copy_from_slice(&c.to_be_bytes());
    block[12..16].copy_from_slice(&d.to_be_bytes());
    block
}
