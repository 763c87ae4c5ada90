//! Documents that any command may have: sessions, cluster times, preferences, concerns, collations.

ghost use Rattle.std.specs.Prelude.{◌≡◌};
ghost use Rattle.encrypt_schema.specs.Commands.ListedFields.{is_own, is_own_branch};
ghost use Rattle.encrypt_schema.specs.Commands.Offences.{is_own_field};
ghost use Rattle.encrypt_schema.specs.Commands.Visits.{entry};

use crate::values::is_branch;
use bson_codec::RawItem;
use encrypt_schema::{OwnDocument, is_named};

/// Whether a session has one value of this name.
#[tactic(auto, unfolding(encrypt_schema::specs::Commands::ListedFields::is_own))]
fn is_of_session(name: &[u8]) -> bool
    ensures { result ≡ is_own OwnDocument.Session name.now }
{
    if is_named(name, b"id") {
        return true;
    }
    if is_named(name, b"uid") {
        return true;
    }
    false
}

/// Whether a cluster's time has one value of this name.
#[tactic(auto, unfolding(encrypt_schema::specs::Commands::ListedFields::is_own))]
fn is_of_cluster_time(name: &[u8]) -> bool
    ensures { result ≡ is_own OwnDocument.ClusterTime name.now }
{
    if is_named(name, b"clusterTime") {
        return true;
    }
    false
}

/// Whether a read preference has one value of this name.
#[tactic(auto, unfolding(encrypt_schema::specs::Commands::ListedFields::is_own))]
fn is_of_preference(name: &[u8]) -> bool
    ensures { result ≡ is_own OwnDocument.ReadPreference name.now }
{
    if is_named(name, b"mode") {
        return true;
    }
    if is_named(name, b"maxStalenessSeconds") {
        return true;
    }
    false
}

/// Whether a read concern has one value of this name.
#[tactic(auto, unfolding(encrypt_schema::specs::Commands::ListedFields::is_own))]
fn is_of_read_concern(name: &[u8]) -> bool
    ensures { result ≡ is_own OwnDocument.ReadConcern name.now }
{
    if is_named(name, b"level") {
        return true;
    }
    if is_named(name, b"afterClusterTime") {
        return true;
    }
    if is_named(name, b"atClusterTime") {
        return true;
    }
    if is_named(name, b"provenance") {
        return true;
    }
    false
}

/// Whether a write concern has one value of this name.
#[tactic(auto, unfolding(encrypt_schema::specs::Commands::ListedFields::is_own))]
fn is_of_write_concern(name: &[u8]) -> bool
    ensures { result ≡ is_own OwnDocument.WriteConcern name.now }
{
    if is_named(name, b"w") {
        return true;
    }
    if is_named(name, b"wtimeout") {
        return true;
    }
    if is_named(name, b"wtimeoutMS") {
        return true;
    }
    if is_named(name, b"j") {
        return true;
    }
    if is_named(name, b"journal") {
        return true;
    }
    if is_named(name, b"fsync") {
        return true;
    }
    if is_named(name, b"provenance") {
        return true;
    }
    false
}

/// Whether a collation has one value of this name.
#[tactic(auto, unfolding(encrypt_schema::specs::Commands::ListedFields::is_own))]
fn is_of_collation(name: &[u8]) -> bool
    ensures { result ≡ is_own OwnDocument.Collation name.now }
{
    if is_named(name, b"locale") {
        return true;
    }
    if is_named(name, b"caseLevel") {
        return true;
    }
    if is_named(name, b"caseFirst") {
        return true;
    }
    if is_named(name, b"strength") {
        return true;
    }
    if is_named(name, b"numericOrdering") {
        return true;
    }
    if is_named(name, b"alternate") {
        return true;
    }
    if is_named(name, b"maxVariable") {
        return true;
    }
    if is_named(name, b"normalization") {
        return true;
    }
    if is_named(name, b"backwards") {
        return true;
    }
    false
}

/// Whether such a document has one value of this name.
fn is_own(own: OwnDocument, name: &[u8]) -> bool
    ensures { result ≡ is_own own name.now }
{
    match own {
        OwnDocument::Session => is_of_session(name),
        OwnDocument::ClusterTime => is_of_cluster_time(name),
        OwnDocument::ReadPreference => is_of_preference(name),
        OwnDocument::ReadConcern => is_of_read_concern(name),
        OwnDocument::WriteConcern => is_of_write_concern(name),
        OwnDocument::Collation => is_of_collation(name),
    }
}

/// Whether this is the name of the signature of a cluster's time.
#[tactic(auto, unfolding(encrypt_schema::specs::Commands::ListedFields::is_own_branch))]
fn is_signature(name: &[u8]) -> bool
    ensures { result ≡ is_own_branch OwnDocument.ClusterTime name.now }
{
    if is_named(name, b"signature") {
        return true;
    }
    false
}

/// Whether a read preference has a document or an array of this name.
#[tactic(auto, unfolding(encrypt_schema::specs::Commands::ListedFields::is_own_branch))]
fn is_preference_branch(name: &[u8]) -> bool
    ensures { result ≡ is_own_branch OwnDocument.ReadPreference name.now }
{
    if is_named(name, b"tags") {
        return true;
    }
    if is_named(name, b"hedge") {
        return true;
    }
    false
}

/// Whether such a document has a document or an array of this name.
#[tactic(auto, unfolding(encrypt_schema::specs::Commands::ListedFields::is_own_branch))]
fn is_own_branch(own: OwnDocument, name: &[u8]) -> bool
    ensures { result ≡ is_own_branch own name.now }
{
    match own {
        OwnDocument::ClusterTime => is_signature(name),
        OwnDocument::ReadPreference => is_preference_branch(name),
        OwnDocument::Session => false,
        OwnDocument::ReadConcern => false,
        OwnDocument::WriteConcern => false,
        OwnDocument::Collation => false,
    }
}

/// Whether such a document has an element of this name and type.
#[tactic(auto, unfolding(encrypt_schema::specs::Commands::Offences::is_own_field))]
pub(crate) fn is_own_field(own: OwnDocument, item: &RawItem<'_>) -> bool
    ensures { result ≡ is_own_field own (entry item.now.name item.now.tree) }
{
    is_own_branch(own, item.name()) || (is_own(own, item.name()) && !is_branch(item))
}
