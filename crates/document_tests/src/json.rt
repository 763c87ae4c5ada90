//! Documents as text, and infos from JSON (`ext_json`).

mod example_tests;
mod infos_tests;
mod pieces_tests;
mod text_tests;
