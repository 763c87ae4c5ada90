//! The keys of a vault under a new master key: each data key that the old master key opens is sealed under the new one
//! (MongoDB Client Side Encryption, "rewrapManyDataKey").
//!
//! Callers want [`rewrap_vault`]: from a vault's file it makes the file under the new master key, of the same length.
//! The module `laws` says that this file loads as the same keys.
//!
//! ```text
//! let vault = Vault::load(alloc, &file)?;
//! let rewrapped = rewrap_vault(alloc, &file, &vault, &old, &new, now_ms, &hooks, &mut entropy)?;
//! ```
//!
//! It seals no key whose master key a service holds, makes no new data key, wipes no key from memory, and doesn't ask
//! how random the blocks are.
#![tactic(auto)]

mod document;
mod fields;
pub mod laws;
mod passes;
mod rewrapping;

pub use rewrapping::{RewrapFault, rewrap_vault};
