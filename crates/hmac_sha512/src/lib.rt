//! HMAC-SHA-512: the keyed message authentication code (MAC) of RFC 2104 over the hash function of FIPS
//! 180-4.
//!
//! [`mac`] is the MAC of one message. [`Mac`] takes a message in parts. [`KeyedMac`] keeps a key
//! that serves many messages, each of which then costs two runs of the compression function less.
//!
//! ```rust
//! let keyed = KeyedMac::new(key);
//! let mut running = keyed.begin();
//! running.update(b"Hi ");
//! running.update(b"There");
//! let mac: [u8; 64] = running.finish();
//! ```
//!
//! It doesn't compare MACs and doesn't wipe what it leaves in memory. No clause says how long it runs: it has no
//! table that is read at a secret place, and docs/SECURITY.md says what a test of its traces showed.
#![tactic(auto)]

pub use keyed::KeyedMac;
pub use running::Mac;
pub use whole::mac;

mod key_block;
mod keyed;
pub mod laws;
mod running;
mod whole;
