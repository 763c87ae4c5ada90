//! The local provider of master keys: data keys are sealed and opened under a master key that the user keeps in a file
//! (MongoDB Client Side Encryption, "local").
//!
//! [`read_master`] reads the file, [`wrap_key`] and [`unwrap_key`] seal and open a data key under it, and [`new_key`]
//! makes one of random blocks, whose document [`document_of`] writes. [`wrap_bytes`] and [`unwrap_bytes`] do the same
//! to its 96 bytes, for a key that is only to be sealed again.
//!
//! ```rust
//! let master = read_master(&file)?;
//! let key = new_key(alloc, &mut entropy, &hooks, &master, names)?;
//! let opened = unwrap_key(&hooks, &master, key.material.as_slice())?;
//! ```
//!
//! It wipes no key, and doesn't ask how random the blocks are.
#![tactic(auto)]

mod document;
mod key_bytes;
mod making;
mod master;
mod wrapping;

pub use document::{document_of, names_of};
pub use key_bytes::KeyBytes;
pub use making::{NewFault, new_key};
pub use master::{MasterFault, MasterKey, read_master};
pub use wrapping::{UnwrapFault, unwrap_bytes, unwrap_key, wrap_bytes, wrap_key};
