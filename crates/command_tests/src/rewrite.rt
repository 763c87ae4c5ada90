//! Documents sealed and opened, marks given (`doc_rewrite`).

mod changed_tests;
mod deep_samples;
mod key_table_tests;
mod keyed;
mod opening_tests;
mod payload_samples;
mod sample_bytes;
mod samples;
mod sealing_tests;
mod standing;
mod telling_tests;
