//! Cipher block chaining with AES-256 (SP 800-38A, 6.2), the message being padded to whole blocks
//! (RFC 5652, 6.3).
//!
//! [`cbc_seal_into`] pads and encrypts, [`cbc_open_into`] decrypts and judges the padding, each
//! into a buffer of the caller's, through any [`crypto_hooks::Block256`].
//!
//! ```rust
//! let mut sealed = [0; 32];
//! cbc_seal_into(&Tables, &schedule, iv, plain, &mut sealed);
//! let n = cbc_open_into(&Tables, &schedule, iv, &sealed, &mut opened)?;
//! ```
//!
//! It doesn't tell whether a message was changed on its way: a tag over it has to be judged first.
#![tactic(auto)]

pub use opening::{CbcFault, cbc_open_into};
pub use padding::padded_len;
pub use sealing::cbc_seal_into;

mod blocks;
pub mod laws;
mod opening;
mod padding;
mod sealing;
