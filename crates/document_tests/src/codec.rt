//! Documents read, checked and written (`bson_codec`).

mod borrowed_tests;
mod owned_tests;
mod placing_tests;
