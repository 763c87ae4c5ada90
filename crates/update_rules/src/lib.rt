//! The rules of stored documents and of updates: which of their values are protected, and why one is refused.
//!
//! ```rust
//! let mut marks = Marks::new(alloc);
//! mark_document(&mut marks, rows, rows.root(), &document)?;
//! mark_update(&mut marks, rows, &update)?;
//! ```
//!
//! `UpdatePlace::judge` judges one element; a crate above that judges whole commands nests `UpdatePlace` in its
//! own places, and finds the place of an update with `update_place`. It doesn't look at filters.
#![tactic(auto)]

pub use marking::{mark_document, mark_update, update_place};
pub use place::UpdatePlace;

mod arguments;
mod documents;
mod marking;
mod operators;
mod paths;
mod place;
mod renames;
mod sets;
