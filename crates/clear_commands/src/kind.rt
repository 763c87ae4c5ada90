//! What the fields of clear commands hold.

use encrypt_schema::OwnDocument;

/// A document in which only some elements may stand.
#[derive(Clone, Copy, Debug, PartialEq, Eq)]
pub(crate) enum ClearDocument {
    /// One that any command may have: a session, a concern and the like.
    Envelope(OwnDocument),
    /// `cursor`, which tells how many documents come at once.
    Cursor,
    /// `options` of a `saslStart`.
    SaslOptions,
    /// `topologyVersion`.
    Topology,
    /// The keys of an index.
    IndexKeys,
}

/// What a field of a clear command holds.
#[derive(Clone, Copy, Debug, PartialEq, Eq)]
pub(crate) enum ClearKind {
    /// One value that is no document and no array.
    Word,
    /// Any value.
    Anything,
    /// One value that is no document, or an array; what its elements hold is no document and no array.
    Flat,
    /// The name of an index, or its keys.
    Hint,
    /// Such a document.
    Own(ClearDocument),
    /// Nothing that is listed.
    Unlisted,
}
