//! The words of `fle`, and what they ask for. [`are_names`] judges the names of a new key.
//!
//! ```text
//! match read_words(&words) {
//!     Asked::Mark { db, schemas } => ..
//! ```
#![tactic(auto)]

pub mod laws;
mod names;
mod words;

pub use names::are_names;
pub use words::{Asked, read_words};
