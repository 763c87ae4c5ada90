//! Commands that hold no value of a collection's fields, as `ping`, `getMore` or `drop`: a library sends one as it is,
//! but only with the fields that MongoDB lists for it.
//!
//! [`judge_clear`] answers whether a command is one of these, and then whether it passes; else the first field that is
//! refused, and why.
//!
//! ```text
//! match judge_clear(&command) {
//!     ClearVerdict::NotClear => { .. judged by its collection's rules .. }
//!     ClearVerdict::Clear => send(&command),
//!     ClearVerdict::Refused { reason, at } => refuse(reason, at),
//! }
//! ```
//!
//! It allocates nothing, and marks nothing.
#![tactic(auto)]

mod command;
mod elements;
mod envelope;
mod inside;
mod judging;
mod keys;
mod kind;
mod names;
mod owned;
mod tables;
mod values;
mod verdict;

pub use judging::judge_clear;
pub use verdict::ClearVerdict;
