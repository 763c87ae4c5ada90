//! A marking service: which values of a command are protected, and the command with their markings.
//!
//! [`target`] answers where a command goes: to a collection, whose rules the caller looks up, or past it, as `ping`
//! does; and refuses one for its fields. [`mark_command`] lists the protected values under those rules, or refuses the
//! command for its contents: with the first place that is refused, and the least reason there. [`reply`] writes the
//! command with a marking in place of each (MongoDB Client Side Encryption, BSON binary subtype 6), and
//! [`reply_clear`] writes one that passes as it is.
//!
//! ```text
//! let bytes = match target(b"hr", &command)? {
//!     Target::Pass => reply_clear(alloc, &command)?,
//!     Target::Collection(name) => reply(alloc, &mark_command(alloc, rows_of(name), command)?)?,
//! };
//! ```
//!
//! It reads no schema and seals nothing, and whether the collection is a view is the caller's to ask.
#![tactic(auto)]

mod beyond;
mod beyond_fields;
mod beyond_values;
mod checking;
mod commands;
mod contents;
mod destination;
mod fields;
mod index_kinds;
mod items;
mod keys;
mod kinds;
pub mod laws;
mod listed;
mod marked;
mod names;
mod other_kinds;
mod others;
mod owned;
mod places;
mod projections;
mod replying;
mod sizes;
mod splicing;
mod stop;
mod targeting;

pub use contents::{is_library, is_wide};
pub use destination::Target;
pub use marked::{Marked, mark_command, mark_more, mark_wide};
pub use replying::{reply, reply_clear};
pub use splicing::{key_of, next_mark, step_of};
pub use stop::ReplyFault;
pub use targeting::{target, target_more};
