//! Documents that the tests of several crates run over, as named constants: commands, their replies, what they are
//! sealed to, infos and a vault (BSON, bsonspec.org).
//!
//! No byte of them comes from the code under test: each file of constants names the program that wrote its own.
//!
//! ```text
//! let command = sample_documents::INSERT;
//! ```
#![tactic(auto)]

mod commands;
mod infos;
mod replies;
pub mod reply_parts;
pub mod reply_shapes;
mod sealed;
mod vaults;

pub use commands::{
    ARRAY, BOTH, INSERT, INTO_UNKNOWN, INTO_VIEW, NESTED, NO_DOCUMENTS, NOTES, NULL, NUMBER,
    OTHER_DB, PING, SET,
};
pub use infos::{CLIENTS, PEOPLE, PEOPLE_SCHEMA, STAFF, STAFF_INFO, VIEW_INFO};
pub use replies::{NESTED_REPLY, NOTES_REPLY, REPLY};
pub use sealed::{SEALED_BOTH, SEALED_INSERT, SSN_PAYLOAD};
pub use vaults::{KEY_ID, KEY_MATERIAL, TWO_KEYS};
