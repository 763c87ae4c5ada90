//! Why a JSON value was not converted.

/// Why a JSON value was not converted.
#[derive(Clone, Copy, Debug, PartialEq, Eq, Drop)]
pub enum Stop {
    /// It, or something in it, is malformed.
    Malformed,
    /// There was no memory for it.
    Memory,
}
