//! What becomes of a document.

use bson_tree::Place;
use encrypt_schema::Reason;

/// What becomes of a document.
#[derive(Drop)]
pub enum Answer {
    /// The bytes of the output.
    Made(Vec<u8>),
    /// The document is refused.
    Refused(Refused),
    /// The output would have more than 48,000,000 bytes.
    TooLong,
    /// A random block couldn't be drawn: fewer were to be had than this, which the command wants.
    Undrawn(Wanted),
    /// There was no memory. It may come at any time, before a block is drawn.
    Memory,
}

/// What a command wants as it is sealed.
#[derive(Clone, Copy, Drop)]
pub struct Wanted {
    /// The bytes of its sealed form.
    pub size: usize,
    /// The random blocks that are drawn: one for each value of the random algorithm.
    pub draws: usize,
}

/// Why a document is refused, and where.
#[derive(Drop)]
pub struct Refused {
    /// The reason.
    pub reason: Reason,
    /// The offset of the value, as in `RawItem::start`.
    pub at: u32,
    /// The place of the value that begins there: the document itself where none does.
    pub place: Place,
}
