//! Marks, refusals and replies (`command_marker`).

mod inside_tests;
mod library_tests;
mod reply_tests;
mod target_tests;
