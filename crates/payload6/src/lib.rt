//! Payloads and markings: what stands in a BSON binary of subtype 06 for a value that is sealed, or
//! that is to be sealed (MongoDB Client Side Encryption, BSON binary subtype 6).
//!
//! [`seal_payload_into`] writes the payload of a value, [`parts`] takes one apart and
//! [`open_payload_into`] gives the value back. [`det_iv`] is the IV of a
//! deterministic payload. [`marking`] is what a command holds in the place of a value to be
//! sealed, where its key has an id, and [`marking_named`] where it has an alternate name;
//! [`put_marking`] appends either. [`need_of`] tells the key of a command's mark.
//!
//! ```rust
//! let iv = det_iv(&key, key_id, tag, plain);
//! seal_payload_into(&Tables, &key, DETERMINISTIC, key_id, tag, iv, plain, &mut out);
//! let payload = parts(&out)?;
//! let n = open_payload_into(&Tables, &key, &payload, 99, &mut plain_out)?;
//! ```
//!
//! It holds no keys, draws no IV, and doesn't ask how the IV of a payload was made.
#![tactic(auto)]

pub use markings::{kind_of, length_bytes, marking, marking_named, put_marking};
pub use needs::{Need, need_of};
pub use opening::{PayloadFault, open_payload_into};
pub use payload::{DETERMINISTIC, PartsFault, Payload, RANDOM, parts};
pub use sealing::{det_iv, payload_len, seal_payload_into};

pub mod laws;
mod markings;
mod needs;
mod opening;
mod payload;
mod sealing;
