//! AES with a 256-bit key: the block cipher of FIPS 197 (November 26, 2001), sections 5.1 to 5.3, and its inverse.
//!
//! `expand` makes the key schedule of a key, once. `cipher_tables` and `inv_cipher_tables` encrypt
//! and decrypt a block with it, and are what most callers want; `inv_cipher_tables_pair` decrypts two.
//! `cipher` and `inv_cipher` answer the same, step by step as the standard has it.
//!
//! ```text
//! let schedule = expand(&key);
//! let sealed = cipher(&schedule, block);
//! let opened = inv_cipher(&schedule, sealed);
//! ```
//!
//! No call refuses and none allocates. No branch and no address depends on a key or a block: the tables have 16
//! entries and stand in vector registers. No contract says so, and no memory is wiped.
#![tactic(auto)]

mod expansion;
pub mod laws;
mod lookups;
mod open_tables;
mod opening;
mod opening_keys;
mod opening_pair;
mod plain_form;
mod schedule;
mod sealing;
mod sealing_keys;
mod steps;
mod substitution;
mod table_form;
mod tables;
mod wide_lookups;
mod words;

pub use plain_form::{cipher, inv_cipher};
pub use schedule::{Schedule, expand};
pub use table_form::{cipher_tables, inv_cipher_tables, inv_cipher_tables_pair};
