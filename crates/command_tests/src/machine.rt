//! The states in which commands are sealed and documents opened (`context_machine`).

mod decrypting_samples;
mod decrypting_tests;
mod fed_keys;
mod filters;
mod named_samples;
mod named_tests;
mod refusal_tests;
mod sealing_samples;
mod sealing_tests;
