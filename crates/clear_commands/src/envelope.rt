//! The fields that any command may have: of the database, a session, a transaction, a time limit, the stable API.

ghost use Rattle.std.specs.Prelude.{◌≡◌, codes};
ghost use Rattle.encrypt_schema.specs.Language.Names.{named};
ghost use Rattle.encrypt_schema.specs.Commands.ListedFields.{envelope_kind, is_envelope_word};
ghost use Rattle.clear_commands.specs.ClearFields.{of_envelope};

use crate::kind::{ClearDocument, ClearKind};
use encrypt_schema::{OwnDocument, is_named};

/// Whether any command may have one value of this name.
#[tactic(auto, unfolding(encrypt_schema::specs::Commands::ListedFields::is_envelope_word))]
fn is_envelope_word(name: &[u8]) -> bool
    ensures { result ≡ is_envelope_word name.now }
{
    if is_named(name, b"$db") {
        return true;
    }
    if is_named(name, b"txnNumber") {
        return true;
    }
    if is_named(name, b"autocommit") {
        return true;
    }
    if is_named(name, b"startTransaction") {
        return true;
    }
    if is_named(name, b"maxTimeMS") {
        return true;
    }
    if is_named(name, b"comment") {
        return true;
    }
    if is_named(name, b"apiVersion") {
        return true;
    }
    if is_named(name, b"apiStrict") {
        return true;
    }
    if is_named(name, b"apiDeprecationErrors") {
        return true;
    }
    false
}

/// Whether this is the name of a session.
fn is_session(name: &[u8]) -> bool
    ensures { result ≡ named name.now (codes "lsid") }
{
    is_named(name, b"lsid")
}

/// Whether this is the name of the cluster's time.
fn is_cluster_time(name: &[u8]) -> bool
    ensures { result ≡ named name.now (codes "$clusterTime") }
{
    is_named(name, b"$clusterTime")
}

/// Whether this is the name of a read preference.
fn is_preference(name: &[u8]) -> bool
    ensures { result ≡ named name.now (codes "$readPreference") }
{
    is_named(name, b"$readPreference")
}

/// Whether this is the name of a read concern.
fn is_read_concern(name: &[u8]) -> bool
    ensures { result ≡ named name.now (codes "readConcern") }
{
    is_named(name, b"readConcern")
}

/// Whether this is the name of a write concern.
fn is_write_concern(name: &[u8]) -> bool
    ensures { result ≡ named name.now (codes "writeConcern") }
{
    is_named(name, b"writeConcern")
}

/// A document of the envelope.
fn envelope(own: OwnDocument) -> ClearKind
    ensures { result ≡ ClearKind.Own (ClearDocument.Envelope own) }
{
    ClearKind::Own(ClearDocument::Envelope(own))
}

/// What a field of this name holds, which any command may have.
pub(crate) fn envelope_kind(name: &[u8]) -> ClearKind
    ensures { result ≡ of_envelope (envelope_kind name.now) }
{
    if is_envelope_word(name) {
        return ClearKind::Word;
    }
    if is_session(name) {
        return envelope(OwnDocument::Session);
    }
    if is_cluster_time(name) {
        return envelope(OwnDocument::ClusterTime);
    }
    if is_preference(name) {
        return envelope(OwnDocument::ReadPreference);
    }
    if is_read_concern(name) {
        return envelope(OwnDocument::ReadConcern);
    }
    if is_write_concern(name) {
        return envelope(OwnDocument::WriteConcern);
    }
    ClearKind::Unlisted
}
