//! Key documents: data keys as a key vault collection keeps them, sealed under a master key (MongoDB Client Side
//! Encryption, "Key vault").
//!
//! [`read_key`] reads a key from a checked document, [`write_key`] writes one.
//!
//! ```rust
//! let key = read_key(alloc, &document)?;
//! let bytes = write_key(alloc, &key, created_ms, updated_ms, status)?;
//! ```
//!
//! It opens no key: its material is bytes here.
#![tactic(auto)]

mod elements;
mod key_doc;
mod reading;
mod values;
mod writing;

pub use key_doc::{KeyDoc, KeyFault, Provider};
pub use reading::read_key;
pub use writing::write_key;
