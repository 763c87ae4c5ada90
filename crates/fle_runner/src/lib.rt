//! The program `fle` over any objects of the outside: the client's part of MongoDB's client-side field level
//! encryption.
//!
//! ```text
//! let status = fle(alloc, &words, now, &mut input, &mut files, &mut out, &mut diag, &mut entropy, &hooks);
//! ```
//!
//! [`tell`] writes the answers to `--help` and `--version`.
#![tactic(auto)]

mod act;
mod decrypt;
mod demo;
mod encrypt;
mod encrypt_with;
mod help;
mod judging;
mod keygen;
mod keys;
pub mod laws;
mod mark;
mod program;
mod rewrap;
mod show;

pub use help::{HELP, VERSION, tell};
pub use program::fle;
