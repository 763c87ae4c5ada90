//! What calls on the outside answer, and the two plain failures.

/// There was no memory for what the call had to hold. The one answer that may come at any time.
#[derive(Clone, Copy, Debug, PartialEq, Eq)]
pub struct Memory;

/// An object of the outside failed, and counted it.
#[derive(Clone, Copy, Debug, PartialEq, Eq)]
pub struct Failed;

/// What one read of a source answers.
#[derive(Clone, Copy, Debug, PartialEq, Eq)]
pub enum ReadAnswer {
    /// The next bytes stand at the front of the piece: this many, at least 1.
    Took(usize),
    /// No byte is left.
    End,
    /// The source failed and handed out nothing.
    Failed,
}

/// What one read of a named file answers.
#[derive(Clone, Copy, Debug, PartialEq, Eq)]
pub enum FileAnswer {
    /// Bytes of the file stand at the front of the piece: this many, at least 1.
    Took(usize),
    /// The file has no byte at or behind the place.
    End,
    /// There is no file of that name.
    Missing,
    /// The folder failed and handed out nothing.
    Failed,
}

/// What one write into a sink answers.
#[derive(Clone, Copy, Debug, PartialEq, Eq)]
pub enum WriteAnswer {
    /// The sink took this many bytes from the front of the piece, at least 1.
    Took(usize),
    /// The sink failed and took nothing.
    Failed,
}
