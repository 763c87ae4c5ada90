//! What becomes of one document, in memory: a command is marked or sealed, a document opened, or refused at a place.
//!
//! ```text
//! let mut engine = Engine::new(alloc, b"hr", &keys, &infos, &master)?;
//! let sealed = engine.seal(alloc, &Tables, &check_bson(&command)?, &mut entropy);
//! let opened = engine.opener.open(alloc, &Tables, &check_bson(&reply)?);
//! ```
//!
//! An engine keeps keys, rules and opened keys from call to call. It reads no file and asks no server; its random
//! blocks come from the caller's `Entropy`.
#![tactic(auto)]

mod answer;
mod asking;
mod checking;
mod engine;
mod filling;
mod key_stop;
pub mod laws;
mod loading;
mod marker;
mod more;
mod more_asking;
mod new_keys;
mod new_names;
mod opener;
mod opening;
mod refusing;
mod rewrapping;
mod sealing;
mod sending;
mod single;
mod starting;
mod wide;

pub use answer::{Answer, Refused, Wanted};
pub use asking::{Asked, ask_for_command, ask_for_document, ask_for_info, ask_for_key};
pub use checking::{Declined, Untaken};
pub use engine::Engine;
pub use key_stop::KeyStop;
pub use loading::EngineFault;
pub use marker::{Marker, reply_to_command};
pub use opener::Opener;
pub use refusing::refuse;
pub use sealing::seal_command;
pub use wide::{ask_for_wide, ask_for_wide_info, reply_to_wide, seal_wide};
