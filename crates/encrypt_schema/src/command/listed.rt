//! Documents of which each field is listed, and what a listed field holds.

/// A document of which each field is listed: a command that a library alone takes, or an index.
#[derive(Clone, Copy, Debug, PartialEq, Eq)]
pub enum Listed {
    /// `count`.
    Count,
    /// `findAndModify`.
    FindAndModify,
    /// `distinct`.
    Distinct,
    /// `createIndexes`.
    CreateIndexes,
    /// A document of `indexes`.
    Index,
}

/// A document whose names are MongoDB's own.
#[derive(Clone, Copy, Debug, PartialEq, Eq)]
pub enum OwnDocument {
    /// `lsid`, a session.
    Session,
    /// `$clusterTime`.
    ClusterTime,
    /// `$readPreference`.
    ReadPreference,
    /// `readConcern`.
    ReadConcern,
    /// `writeConcern`.
    WriteConcern,
    /// `collation`.
    Collation,
}

/// What a field of a document of which each field is listed holds.
#[derive(Clone, Copy, Debug, PartialEq, Eq)]
pub enum FieldKind {
    /// A filter.
    Filter,
    /// An update, or a document in the place of the stored one.
    Update,
    /// An order, or a choice of fields: their names, each with a number or a bool.
    Keys,
    /// The keys of an index.
    IndexKeys,
    /// The name of an index, or its keys.
    Hint,
    /// The path of one field.
    Path,
    /// The array `indexes`.
    Indexes,
    /// A document whose names are MongoDB's own.
    Own(OwnDocument),
    /// One value that is no document and no array.
    Word,
    /// Nothing that is listed.
    Unlisted,
}
