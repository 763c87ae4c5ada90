//! What a program of field level encryption asks of the outside, as traits: bytes to read, named
//! files, a place for what it writes, and random blocks. Each comes with an object in memory, whose
//! calls can be made to fail one by one, and with a real one over the system.
//!
//! A caller takes `S: Source`, `F: Folder`, `O: Sink` or `N: Entropy`. Its contract can then name what the object
//! holds (where the object tells it), how many of its calls failed so far, and what it is assured of.
//!
//! ```text
//! let mut input = MemSource::new(bytes, 3, vec![in alloc]?);     // 3 bytes a call at most
//! let filled = fill_piece(&mut input, &mut head);
//! let written = write_whole(&mut out, &reply);
//! ```
//!
//! It decodes nothing and knows no format. No clause says what a real stream or file holds.
#![tactic(auto)]

pub mod answers;
mod counts;
pub mod entropy;
pub mod filling;
pub mod folder;
pub mod memory_entropy;
pub mod memory_folder;
pub mod memory_sink;
pub mod memory_source;
pub mod sink;
pub mod source;
pub mod streams;
pub mod system_entropy;
pub mod system_folder;
pub mod writing;

pub use answers::{Failed, FileAnswer, Memory, ReadAnswer, WriteAnswer};
pub use entropy::{Entropy, draw_block};
pub use filling::{Fill, fill_piece};
pub use folder::Folder;
pub use memory_entropy::MemEntropy;
pub use memory_folder::MemFolder;
pub use memory_sink::MemSink;
pub use memory_source::MemSource;
pub use sink::Sink;
pub use source::Source;
pub use streams::{StderrSink, StdinSource, StdoutSink};
pub use system_entropy::SystemEntropy;
pub use system_folder::FileFolder;
pub use writing::{put_parts, write_whole};
