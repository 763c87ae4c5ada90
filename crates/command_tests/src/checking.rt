//! Replies of a marking service, compared with the right ones (`reply_check`).

mod marking_tests;
mod passed_tests;
mod reply_samples;
mod result_tests;
mod shape_tests;
mod whole_tests;
