//! The files that the words of `fle` name: collection infos, a key vault, a master key, each loaded, or the fault that
//! ends the run; and the numbers of faults and reasons on the diagnostic line.
//!
//! ```text
//! let infos = load_infos(alloc, &mut files, 1, "infos.json")?;
//! ```
#![tactic(auto)]

mod infos;
mod numbers;
mod setup;

pub use infos::{InfosFault, read_infos};
pub use numbers::{number_of_infos, number_of_master, number_of_reason, number_of_vault};
pub use setup::{KeysFile, load_infos, load_keys, load_master, load_vault};
