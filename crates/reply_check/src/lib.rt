//! Whether a marking service's reply is the right one for a command, so that the service needn't be trusted (MongoDB
//! Client Side Encryption, BSON binary subtype 6).
//!
//! Most callers want [`check_reply`], which compares a reply with a command that was marked here; [`check_passed`]
//! compares one with a command that no rule concerns. Both name the first element of the reply that is wrong.
//!
//! ```text
//! let marked = mark_command(alloc, &rows, command)?;
//! check_reply(&marked, &reply)?;
//! ```
//!
//! It allocates nothing, reads no other element of a reply, such as `ok`, and judges no command.
#![tactic(auto)]

mod checking;
mod fields;
mod markings;
mod walking;
mod wrong;

pub use checking::{check_passed, check_reply};
pub use wrong::WrongReply;
