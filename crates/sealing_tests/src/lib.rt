//! Tests of ciphers, payloads and keys: of the public calls of `hmac_sha512`, `aes_block`, `crypto_hooks`, `cbc_mode`,
//! `fle_aead`, `payload6`, `local_kms`, `key_vault` and `rewrap_keys` (RFC 4231; FIPS 197; SP 800-38A; RFC 7518).
//!
//! They stand in a crate of their own since a crate with tests is proved once more for them. `laws` has what the
//! standards print, which the checker computes.
#![tactic(auto)]

#[cfg(test)]
mod aead_tests;
#[cfg(test)]
mod block_tests;
#[cfg(test)]
mod cache_tests;
#[cfg(test)]
mod cbc_tests;
#[cfg(test)]
mod fault_tests;
#[cfg(test)]
mod hooks_tests;
pub mod laws;
#[cfg(test)]
mod mac_tests;
#[cfg(test)]
mod master_key_tests;
#[cfg(test)]
mod payload_tests;
#[cfg(test)]
mod rewrap_samples;
#[cfg(test)]
mod rewrap_tests;
#[cfg(test)]
mod vault_tests;
