//! AEAD_AES_256_CBC_HMAC_SHA_512: authenticated encryption with associated data, as MongoDB's
//! client-side field level encryption has it (draft-mcgrew-aead-aes-cbc-hmac-sha2, with a key of 96
//! bytes and a tag of 32).
//!
//! [`seal_into`] encrypts and appends the tag, [`open_into`] judges the tag and decrypts.
//! [`derive_iv`] is the initialization vector (IV) under which equal values become equal bytes.
//!
//! ```rust
//! let key = DataKey::new(bytes);
//! let iv = derive_iv(&key, aad, plain);
//! seal_into(&Tables, &key, aad, iv, plain, &mut sealed);
//! let n = open_into(&Tables, &key, aad, &sealed, &mut out)?;
//! ```
//!
//! Tags are compared and paddings judged with no early exit. It wipes no key, and asks nothing of the IV.
#![tactic(auto)]

pub use key::DataKey;
pub use opening::{OpenFault, open_into};
pub use sealing::{derive_iv, seal_into, sealed_len};
pub use shared_key::SharedKey;

mod key;
pub mod laws;
mod opening;
mod sealing;
mod shared_key;
