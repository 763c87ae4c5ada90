//! Documents with protected values sealed and opened (MongoDB Client Side Encryption): from a document and the marks
//! of its values to the document with a payload in the place of each, by a splice of its bytes; and back.
//!
//! [`plan_seal`] looks at the marks and tells how long the sealed document is, and [`plan_clear`] does where nothing is
//! sealed; [`seal_through`] writes it, and draws a random block for each value of the random algorithm.
//!
//! ```text
//! let plan = plan_seal(&document, &marks, &rows)?;
//! let mut out = vec![in alloc; 0; plan.output_len()]?;
//! seal_through(&plan, &document, &keys, &hooks, &mut entropy, &mut out)?;
//! ```
//!
//! [`find_payloads`] finds the payloads of a document, and [`open_through`] writes the document with each of them
//! opened. Who wants each payload is a [`Listener`], which [`tell_payloads`] tells of it while it is found.
//!
//! ```text
//! let found = find_payloads(&document)?;
//! let mut out = vec![in alloc; 0; found.room(&document)]?;
//! let n = open_through(&found, &document, &keys, &hooks, &mut out)?;
//! ```
//!
//! It looks no key up in a vault and asks nothing of who may read what.
#![tactic(auto)]

mod finding;
mod found;
mod indexed_keys;
mod iv;
mod key_table;
mod label;
mod last_name;
pub mod laws;
mod leaf;
mod listener;
mod named_keys;
mod opening;
mod picking;
mod placing;
mod planning;
mod sealing;
mod single;
mod site;
mod sites;
mod unsealing;

pub use finding::{FindFault, find_payloads, tell_payloads};
pub use found::{Found, FoundAt};
pub use key_table::{KeyEntry, KeyTable};
pub use listener::Listener;
pub use named_keys::NamedEntry;
pub use opening::open_through;
pub use planning::{Plan, plan_clear, plan_seal};
pub use sealing::seal_through;
pub use single::seal_single;
pub use site::Site;
pub use sites::{Sites, sites_of};
pub use unsealing::Spot;
