//! Which elements may stand in a document that a field holds.

ghost use Rattle.std.specs.Prelude.{◌≡◌, ◌&&◌, [], ◌∷◌, codes, not};
ghost use Rattle.encrypt_schema.specs.Commands.Visits.{entry};
ghost use Rattle.encrypt_schema.specs.Language.Names.{is_among};
ghost use Rattle.clear_commands.specs.ClearFields.{may_stand};
ghost use Rattle.clear_commands.specs.ClearVerdicts.{is_branch};

use crate::keys::is_index_key;
use crate::kind::ClearDocument;
use crate::owned::is_own_field;
use crate::values::is_branch;
use bson_codec::RawItem;
use encrypt_schema::is_named;

/// Whether this is a name of a cursor.
fn is_of_cursor(name: &[u8]) -> bool
    ensures { result ≡ is_among name.now (codes "batchSize" ∷ []) }
{
    if is_named(name, b"batchSize") {
        return true;
    }
    false
}

/// Whether this is a name of the options of a `saslStart`.
fn is_of_options(name: &[u8]) -> bool
    ensures { result ≡ is_among name.now (codes "skipEmptyExchange" ∷ []) }
{
    if is_named(name, b"skipEmptyExchange") {
        return true;
    }
    false
}

/// Whether this is a name of a version of the topology.
fn is_of_topology(name: &[u8]) -> bool
    ensures { result ≡ is_among name.now (codes "processId" ∷ codes "counter" ∷ []) }
{
    if is_named(name, b"processId") {
        return true;
    }
    if is_named(name, b"counter") {
        return true;
    }
    false
}

/// Whether an element may stand in such a document.
#[tactic(auto, unfolding(crate::specs::ClearFields::may_stand))]
pub(crate) fn may_stand(document: ClearDocument, item: &RawItem<'_>) -> bool
    ensures { result ≡ may_stand document (entry item.now.name item.now.tree) }
{
    match document {
        ClearDocument::Envelope(own) => is_own_field(own, item),
        ClearDocument::Cursor => is_of_cursor(item.name()) && !is_branch(item),
        ClearDocument::SaslOptions => is_of_options(item.name()) && !is_branch(item),
        ClearDocument::Topology => is_of_topology(item.name()) && !is_branch(item),
        ClearDocument::IndexKeys => is_index_key(item),
    }
}
