//! What becomes of a command.

use encrypt_schema::Reason;

/// What becomes of a command.
#[derive(Clone, Copy, Debug, PartialEq, Eq)]
pub enum ClearVerdict {
    /// It isn't one of the clear commands.
    NotClear,
    /// It is one, and passes as it is.
    Clear,
    /// It is one, and is refused: at the first field, or element of a field's document, that it may not have.
    Refused {
        /// Why.
        reason: Reason,
        /// The offset at which the refused value begins, as in `RawItem::start`.
        at: u32,
    },
}

/// Why a clear command is refused, and where.
#[derive(Clone, Copy, Debug, PartialEq, Eq)]
pub(crate) struct Refused {
    /// Why.
    pub(crate) reason: Reason,
    /// The offset at which the refused value begins.
    pub(crate) at: u32,
}
