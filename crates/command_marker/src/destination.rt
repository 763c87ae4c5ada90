//! Where commands go.

/// Where a command goes.
#[derive(Clone, Copy, Debug)]
pub enum Target<'a> {
    /// Nowhere that has rules: it passes unchanged.
    Pass,
    /// To the collection of this name.
    Collection(&'a [u8]),
}
