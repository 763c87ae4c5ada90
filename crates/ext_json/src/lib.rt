//! Documents as text, after MongoDB Extended JSON v2 in its canonical form (RFC 8259), and collection infos from JSON.
//!
//! `write_text` writes a checked document into a sink, `first_bad_text` says where one has a name or a text that isn't
//! UTF-8, and `show_text` does both in one walk; none allocates. `infos_from_json` makes the BSON of collection
//! infos from the text of an array of documents, or tells the first fault.
//!
//! ```text
//! match show_text(&document, &mut out) {
//!     Shown::Written => ..
//!     Shown::Bad(at) => .. the value at this offset ..
//!     Shown::Failed => ..
//! }
//! let infos = infos_from_json(alloc, &text)?;      // the bytes of a BSON file
//! ```
//!
//! Doubles and decimals are written as their bytes in hexadecimal, which is no form of Extended JSON, and a text
//! doesn't determine its document. Of Extended JSON `infos_from_json` reads `$binary` and `$uuid` alone.
#![tactic(auto)]

mod bad_text;
mod binaries;
mod converting;
mod digits;
mod fault;
mod fixed;
mod form;
mod infos;
pub mod laws;
mod parts;
mod pieces;
mod quoted;
mod raw_text;
mod showing;
mod stop;
mod text;

pub use bad_text::{NOT_TEXT, first_bad_text};
pub use fault::JsonFault;
pub use infos::infos_from_json;
pub use pieces::{Piece, send_text, show_whole};
pub use showing::{Shown, show_text};
pub use text::write_text;
