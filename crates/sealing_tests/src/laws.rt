//! What the standards print, computed from the definitions. The functions do nothing; their clauses are the laws, and
//! the checker computes each.

ghost use Rattle.std.specs.Prelude.{◌≡◌, ◌++◌, List, ℕ};
ghost use Rattle.aes_block.specs.Cipher.{cipher, inv_cipher};
ghost use Rattle.aes_block.specs.Expansion.{expanded};
ghost use Rattle.fle_aead.specs.Sealed.{body, tag};
ghost use Rattle.fle_vectors.specs.declared.aead.TheConstants.{AEAD_B3};
ghost use Rattle.fle_vectors.specs.declared.aes256.TheConstants.{BLOCK_C3, EXPANSION_A3};

/// The definitions give the words of FIPS 197, appendix A.3, for its key of 256 bits.
pub fn published_words()
    ensures expanded { expanded EXPANSION_A3.key ≡ EXPANSION_A3.words }
{}

/// The definitions give the block of FIPS 197, appendix C.3, and open it.
pub fn published_block()
    ensures sealed { cipher (expanded BLOCK_C3.key) BLOCK_C3.plain ≡ BLOCK_C3.sealed }
    ensures opened { inv_cipher (expanded BLOCK_C3.key) BLOCK_C3.sealed ≡ BLOCK_C3.plain }
{}

/// The definitions give what RFC 7518, B.3 (AES_256_CBC_HMAC_SHA_512), prints for its message: S behind the IV,
/// and T. The document's key has two parts; any 32 bytes stand behind it as the key of IVs.
pub fn published_message()
    ensures body { (k : List ℕ) → body (AEAD_B3.key ++ k) AEAD_B3.iv AEAD_B3.plain ≡ AEAD_B3.iv ++ AEAD_B3.sealed }
    ensures tag { (k : List ℕ) → tag (AEAD_B3.key ++ k) AEAD_B3.aad (AEAD_B3.iv ++ AEAD_B3.sealed) ≡ AEAD_B3.tag }
{}
