//! Key vaults: the keys of a file, found by id and by name, and a cache of the keys that were opened (MongoDB Client
//! Side Encryption, "Key vault").
//!
//! ```rust
//! let vault = Vault::load(alloc, &file)?;
//! let key = open_key(&hooks, &master, vault.by_id(&id))?;
//! ```
//!
//! It asks no server: a vault is what its file holds.
#![tactic(auto)]

mod cache;
mod faults;
mod kept_key;
pub mod laws;
mod loading;
mod lookup;
mod numbers;
mod open_stop;
mod place;
mod putting;
mod vault;

pub use cache::KeyCache;
pub use faults::{PutFault, VaultFault, VaultKind};
pub use lookup::{Keyless, open_key};
pub use open_stop::OpenStop;
pub use vault::Vault;
