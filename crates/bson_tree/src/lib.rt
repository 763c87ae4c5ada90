//! BSON documents as trees: names with values, values inside values, and the places of values.
//!
//! BSON 1.1 (bsonspec.org): a document is a list of elements, each a type byte, a name and a value; an
//! embedded document and an array are values that hold elements again.
//!
//! ```text
//! let mut kids = Kids::new(alloc);
//! kids.push(name, Value { tag: 0x10, body: Body::Raw(four_bytes) })?;
//! let found = value_at(&document, &Place::from_slice(alloc, &[1, 0])?);
//! ```
//!
//! It tells no layout of raw values and no limit of nesting: those belong to the codec.
#![tactic(auto)]

mod bytes;
mod copy;
mod name_hash;
mod names;
mod place;
mod size;
pub mod subtypes;
mod tree;
pub mod types;

pub use bytes::Bytes;
pub use copy::copy_doc;
pub use name_hash::hash_of;
pub use names::Names;
pub use place::{Place, value_at};
pub use size::byte_size;
pub use tree::{Body, Doc, Kids, Value};
