//! Tests of commands: of the public calls of `command_marker`, `reply_check`, `doc_rewrite` and `context_machine`
//! (MongoDB Client Side Encryption).
//!
//! They stand in a crate of their own since a crate with tests is proved once more for them.
#![tactic(auto)]

#[cfg(test)]
mod checking;
#[cfg(test)]
mod documents;
#[cfg(test)]
mod machine;
#[cfg(test)]
mod marker;
#[cfg(test)]
mod rewrite;
