//! What holds of the cipher and its inverse whatever the key, as contracts of functions that do
//! nothing: a proof calls one, or cites it, for the fact that it ensures.

ghost use Rattle.std.specs.Prelude.{◌≡◌, ℕ, ◌<◌, List};
ghost use Rattle.aes_block.specs.Block.{IsBlock};
ghost use Rattle.aes_block.specs.Cipher.{cipher, inv_cipher};
ghost use Rattle.aes_block.specs.Field.{inverse, product};
ghost use Rattle.aes_block.specs.Substitution.{inv_sub_byte, sub_byte};

/// InvCipher undoes Cipher (FIPS 197, 5.3), on each block and under any words.
pub fn opening_undoes_sealing()
    ensures undone { (w block : List ℕ) → IsBlock block → inv_cipher w (cipher w block) ≡ block }
{}

/// Cipher undoes InvCipher, on each block and under any words.
pub fn sealing_undoes_opening()
    ensures undone { (w block : List ℕ) → IsBlock block → cipher w (inv_cipher w block) ≡ block }
{}

/// A byte other than 0 times its inverse is 1 (FIPS 197, 4.2).
pub fn inverse_is_multiplicative()
    ensures unit { (a : ℕ) → 0 < a → a < 256 → product a (inverse a) ≡ 1 }
{}

/// The definitions give two entries of the S-box of FIPS 197, 5.1.1, figure 7: the first one, and that of row 5 and
/// column 3, which is the text's example. The inverse S-box takes both back.
pub fn published_entries()
    ensures first { sub_byte 0x00 ≡ 0x63 }
    ensures example { sub_byte 0x53 ≡ 0xED }
    ensures first_back { inv_sub_byte 0x63 ≡ 0x00 }
    ensures example_back { inv_sub_byte 0xED ≡ 0x53 }
{}
