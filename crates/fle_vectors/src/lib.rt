//! Test vectors of the cryptographic standards, as named constants: FIPS 197 (AES with a 256-bit
//! key), SP 800-38A (CBC), RFC 4231 (HMAC with SHA-512) and RFC 7518 (both joined).
//!
//! Each constant names its standard and section, and holds the standard's own values: what a test
//! compares an answer with comes from here, and never from the code under test. [`DATA_KEY`] and
//! [`MASTER_KEY`] alone are no standard's: keys that are the same in all tests.
//!
//! ```text
//! let vector = fle_vectors::CBC_AES256;
//! ```
//!
//! It has no code, and no vector of any other mode, key length or hash.
#![tactic(auto)]

mod aead;
mod aes256;
mod cbc_aes256;
mod data_key;
mod hmac_sha512;
mod master_key;

pub use aead::{AEAD_B3, AeadVector};
pub use aes256::{BLOCK_C3, BlockVector, EXPANSION_A3, ExpansionVector};
pub use cbc_aes256::{CBC_AES256, CbcVector};
pub use data_key::DATA_KEY;
pub use hmac_sha512::{
    HMAC_SHA512_CASE_1, HMAC_SHA512_CASE_2, HMAC_SHA512_CASE_3, HMAC_SHA512_CASE_4,
    HMAC_SHA512_CASE_5, HMAC_SHA512_CASE_6, HMAC_SHA512_CASE_7, HmacVector,
};
pub use master_key::MASTER_KEY;
