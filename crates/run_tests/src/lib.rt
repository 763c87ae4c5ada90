//! Tests of whole runs: of the public calls of `fle_runner` over objects in memory (MongoDB Client Side Encryption).
//!
//! They stand in a crate of their own since a crate with tests is proved once more for them.
#![tactic(auto)]

#[cfg(test)]
mod asking_tests;
#[cfg(test)]
mod demo_run_tests;
#[cfg(test)]
mod device_tests;
#[cfg(test)]
mod filter_tests;
#[cfg(test)]
mod hook_tests;
#[cfg(test)]
mod hostile_tests;
#[cfg(test)]
mod json_tests;
#[cfg(test)]
mod keygen_tests;
#[cfg(test)]
mod keys_tests;
#[cfg(test)]
mod limit_tests;
#[cfg(test)]
mod opening_tests;
#[cfg(test)]
mod other_names_tests;
#[cfg(test)]
mod pair_bson_tests;
#[cfg(test)]
mod pair_device_tests;
#[cfg(test)]
mod pair_key_tests;
#[cfg(test)]
mod pair_limit_tests;
#[cfg(test)]
mod pair_marking_tests;
#[cfg(test)]
mod pair_passing_tests;
#[cfg(test)]
mod pair_reply_tests;
#[cfg(test)]
mod pair_samples;
#[cfg(test)]
mod pair_tests;
#[cfg(test)]
mod pointer_refusal_tests;
#[cfg(test)]
mod pointer_samples;
#[cfg(test)]
mod pointer_tests;
#[cfg(test)]
mod rewrap_samples;
#[cfg(test)]
mod rewrap_tests;
#[cfg(test)]
mod runs;
#[cfg(test)]
mod schema_tests;
#[cfg(test)]
mod seal_tests;
#[cfg(test)]
mod show_tests;
#[cfg(test)]
mod size_tests;
#[cfg(test)]
mod tests;
#[cfg(test)]
mod update_tests;
#[cfg(test)]
mod verdict_tests;
