//! Verbs over a stream of documents: the next document is read, judged, and its output written, until
//! one ends the run; and how a run ended, as a status and as one diagnostic line.
//!
//! It knows no verb and no format above BSON 1.1. What a document comes to is the caller's [`Judge`];
//! reasons and faults of files are the caller's numbers ([`Number`]).
//!
//! ```text
//! let end = judge_stream(alloc, judge, &mut input, &mut out, &mut entropy);
//! let status = report(&mut diag, &end);
//! ```
#![tactic(auto)]

pub mod end;
pub mod file;
pub mod judging;
pub mod line;
mod line_buffer;
pub mod made;
pub mod next;
pub mod no_blocks;
pub mod one_by_one;
pub mod pair_laws;
pub mod pairing;
pub mod status;
pub mod stream;
pub mod turning;
pub mod why;

pub use end::{End, report};
pub use file::load_file;
pub use judging::{Judge, Judged};
pub use line::put_end;
pub use made::write_made;
pub use no_blocks::NoBlocks;
pub use one_by_one::DocumentWriter;
pub use pairing::{Checked, PairJudge};
pub use status::Status;
pub use stream::{judge_pairs, judge_stream, judge_without_blocks, write_without_blocks};
pub use why::{Bound, Cut, Finish, Number, SetupFault, Why};
