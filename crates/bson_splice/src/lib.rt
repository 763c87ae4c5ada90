//! A BSON 1.1 document (bsonspec.org) with other values in the place of some of its own, written from its bytes
//! into a slice: what isn't replaced is copied as it stands, and the lengths of the documents around what is are
//! put in anew.
//!
//! [`splice_values`] puts in a list of values, and [`spliced_len`] says how many bytes that makes; [`splice`] asks an
//! object of the trait [`Putter`] for each, which writes it straight into the slice and may refuse to go on.
//!
//! ```text
//! let size = spliced_len(&document, &values, limit)?;
//! splice_values(&document, &values, &mut out);
//! ```
//!
//! It allocates nothing, and doesn't judge whether the bytes of a value are a spelling of its type.
#![tactic(auto)]

pub mod laws;
mod putter;
mod splicing;
mod step;
mod values;
pub mod writing;

pub use putter::{Putter, Stopped};
pub use splicing::splice;
pub use step::{Step, step_by};
pub use values::{NewValue, TooLong, splice_values, spliced_len};
