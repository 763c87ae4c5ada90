//! BSON 1.1 (bsonspec.org): the bytes of a document read into a tree, written from one, or walked where
//! they stand.
//!
//! `decode` reads a whole list of bytes, `decode_front` the document at its front, and `encode` writes a
//! document that `well_formed` accepts. `check_bson` judges bytes without memory, and hands out a `RawDoc`
//! over them. What is refused has a first fault, with its offset.
//!
//! ```text
//! let document = decode(alloc, &bytes)?;
//! let again = encode(alloc, &document)?;      // the same bytes
//! for item in check_bson(&bytes)?.items() { .. }
//! ```
//!
//! Texts and names aren't tested for UTF-8, and the names of array elements are kept as given.
#![tactic(auto)]

mod borrowed;
mod checking;
mod cut;
mod decoding;
mod encoding;
mod fault;
mod field;
mod front;
mod item;
mod iter;
mod kinds;
pub mod laws;
mod measuring;
mod placing;
mod raw;
mod table;
pub mod writing;

pub use borrowed::{RawDoc, check_bson, first_doc};
pub use checking::check_value;
pub use decoding::{decode, decode_front, stated_length};
pub use encoding::{encode, put_value};
pub use fault::{BsonFault, BsonKind, CodecFault};
pub use field::{Field, find_field};
pub use item::RawItem;
pub use iter::RawIter;
pub use kinds::{is_array, is_document, is_string};
pub use measuring::well_formed;
pub use placing::place_at;
