//! Commands that hold no value of a collection's fields.

/// A clear command, or several whose fields are the same.
#[derive(Clone, Copy, Debug, PartialEq, Eq)]
pub(crate) enum ClearCommand {
    /// `ping`, `drop` and others that have no more fields than any command.
    Plain,
    /// `endSessions` and others, whose first field lists sessions or users.
    Sessions,
    /// `commitTransaction`, `abortTransaction`.
    Transaction,
    /// `getMore`.
    GetMore,
    /// `killCursors`.
    KillCursors,
    /// `listCollections`.
    ListCollections,
    /// `listDatabases`.
    ListDatabases,
    /// `listIndexes`.
    ListIndexes,
    /// `dropIndexes`.
    DropIndexes,
    /// `renameCollection`.
    RenameCollection,
    /// `dbStats`.
    DbStats,
    /// `collStats`.
    CollStats,
    /// `authenticate`.
    Authenticate,
    /// `saslContinue`.
    SaslContinue,
    /// `saslStart`.
    SaslStart,
    /// `hello`.
    Hello,
}
