//! The block cipher as calls that a caller chooses: FIPS 197, 5.1 and 5.3, behind the trait
//! [`Block256`].
//!
//! A mode of operation takes any `&impl Block256`. [`Tables`] is the cipher of this repository;
//! [`Hooks`] keeps two closures of the caller's, [`PairHooks`] a third for two blocks, and
//! [`BoxHooks`] two boxed ones, each with the fact that they answer Cipher and InvCipher.
//!
//! ```rust
//! let sealed = Tables.seal_block(&schedule, block);
//! let block = Tables.open_block(&schedule, sealed);
//! ```
//!
//! It has no mode of operation and no key expansion, and it doesn't make a closure that is slow or
//! leaks fast or tight.
#![tactic(auto)]

pub use block256::Block256;
pub use boxed::{BlockBox, BoxHooks};
pub use closures::Hooks;
pub use pairs::PairHooks;
pub use tables::Tables;
pub use uses::{there_and_back, there_and_back_boxed, two_there_and_back};

mod block256;
mod boxed;
mod closures;
mod pairs;
mod tables;
mod uses;
