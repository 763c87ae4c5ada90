//! One client for many databases, whose rules and keys come one by one (MongoDB Client Side Encryption): it seals no
//! command for a collection that it wasn't told of.
//!
//! ```text
//! let mut client = Client::start(alloc, CommandSet::More, Some(master))?;
//! client.put_info(alloc, b"hr", &check_bson(&info)?)?;
//! client.put_key(alloc, &check_bson(&key)?)?;
//! let answer = client.seal(alloc, &Tables, b"hr", &check_bson(&command)?, &mut entropy)?;
//! ```
//!
//! It reads no file and asks no server: `info_wanted` and `keys_wanted` say what to ask one for.
#![tactic(auto)]

mod client;
mod commands;
mod filling;
mod keys;
pub mod laws;
mod rules;
mod told;

pub use client::{Client, NoAnswer};
pub use commands::CommandSet;
pub use filling::InfoUnput;
pub use keys::Keys;
pub use rules::Rules;
