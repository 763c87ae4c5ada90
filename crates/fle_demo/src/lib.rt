//! The demo of client-side field level encryption: a key and commands that generators make, each command sealed and
//! opened again, and the line that sums them up.
//!
//! ```text
//! let line = demo_line(alloc, db, n, &hooks)?;
//! ```
#![tactic(auto)]

mod commands;
mod generator;
pub mod laws;
mod line;
mod opening;
mod sealing;
mod summing;
mod totals;

pub use line::demo_line;
