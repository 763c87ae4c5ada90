//! A value that is to be sealed.

use encrypt_schema::Algorithm;
use payload6::Need;

/// A value of a document that is to be sealed.
#[derive(Clone, Copy)]
pub struct Site<'a> {
    /// The offset of the value's first byte, as in `RawItem::start`.
    pub start: u32,
    /// The offset of the byte behind the value.
    pub end: u32,
    /// How it is sealed.
    pub algorithm: Algorithm,
    /// What names the data key that seals it.
    pub need: Need<'a>,
}
