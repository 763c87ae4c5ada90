//! The rules of filters: which of their values are protected, and why one is refused (MongoDB Client Side Encryption).
//!
//! ```text
//! let mut marks = Marks::new(alloc);
//! mark_filter(&mut marks, rows, &filter)?;
//! ```
//!
//! `FilterPlace` is what a document or an array is in a filter, and judges its elements by its station's own table; a
//! crate above that judges whole commands nests it in its places. It allocates for the marks alone.
#![tactic(auto)]

pub use compared::is_random_field;
pub use places::{FilterPlace, mark_filter};

mod compared;
mod filter;
mod names;
mod operators;
mod places;
