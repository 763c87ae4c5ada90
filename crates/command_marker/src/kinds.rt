//! Which fields a document of which each field is listed may have, and what each holds (MongoDB's manual, Database
//! Commands).

ghost use Rattle.std.specs.Prelude.{◌≡◌, codes};
ghost use Rattle.encrypt_schema.specs.Language.Names.{named};
ghost use Rattle.encrypt_schema.specs.Commands.ListedFields.{count_kind, distinct_kind, envelope_kind, field_kind};
ghost use Rattle.encrypt_schema.specs.Commands.ListedFields.{is_count_word, is_envelope_word, is_modify_keys};
ghost use Rattle.encrypt_schema.specs.Commands.ListedFields.{is_modify_word, modify_kind, reading_kind};

use crate::index_kinds::{index_kind, indexing_kind};
use crate::names::{is_distinct, is_update};
use encrypt_schema::{FieldKind, Listed, OwnDocument, is_named};

/// Whether any command may have one value of this name.
#[tactic(auto, unfolding(encrypt_schema::specs::Commands::ListedFields::is_envelope_word))]
fn is_envelope_word(name: &[u8]) -> bool
    ensures { result ≡ is_envelope_word name.now }
{
    if is_named(name, b"$db") {
        return true;
    }
    if is_named(name, b"txnNumber") {
        return true;
    }
    if is_named(name, b"autocommit") {
        return true;
    }
    if is_named(name, b"startTransaction") {
        return true;
    }
    if is_named(name, b"maxTimeMS") {
        return true;
    }
    if is_named(name, b"comment") {
        return true;
    }
    if is_named(name, b"apiVersion") {
        return true;
    }
    if is_named(name, b"apiStrict") {
        return true;
    }
    if is_named(name, b"apiDeprecationErrors") {
        return true;
    }
    false
}

/// Whether this is the name of a filter.
fn is_query_field(name: &[u8]) -> bool
    ensures { result ≡ named name.now (codes "query") }
{
    is_named(name, b"query")
}

/// Whether this is the name of a session.
fn is_session(name: &[u8]) -> bool
    ensures { result ≡ named name.now (codes "lsid") }
{
    is_named(name, b"lsid")
}

/// Whether this is the name of the cluster's time.
fn is_cluster_time(name: &[u8]) -> bool
    ensures { result ≡ named name.now (codes "$clusterTime") }
{
    is_named(name, b"$clusterTime")
}

/// Whether this is the name of a read preference.
fn is_preference(name: &[u8]) -> bool
    ensures { result ≡ named name.now (codes "$readPreference") }
{
    is_named(name, b"$readPreference")
}

/// Whether this is the name of a read concern.
fn is_read_concern(name: &[u8]) -> bool
    ensures { result ≡ named name.now (codes "readConcern") }
{
    is_named(name, b"readConcern")
}

/// Whether this is the name of a write concern.
fn is_write_concern(name: &[u8]) -> bool
    ensures { result ≡ named name.now (codes "writeConcern") }
{
    is_named(name, b"writeConcern")
}

/// Whether this is the name of a hint.
pub(crate) fn is_hint(name: &[u8]) -> bool
    ensures { result ≡ named name.now (codes "hint") }
{
    is_named(name, b"hint")
}

/// Whether this is the name of a collation.
pub(crate) fn is_collation(name: &[u8]) -> bool
    ensures { result ≡ named name.now (codes "collation") }
{
    is_named(name, b"collation")
}

/// Whether this is the name of a distinct's path, or of an index's keys.
pub(crate) fn is_key(name: &[u8]) -> bool
    ensures { result ≡ named name.now (codes "key") }
{
    is_named(name, b"key")
}

/// What a field of this name holds, which any command may have.
pub(crate) fn envelope_kind(name: &[u8]) -> FieldKind
    ensures { result ≡ envelope_kind name.now }
{
    if is_envelope_word(name) {
        return FieldKind::Word;
    }
    if is_session(name) {
        return FieldKind::Own(OwnDocument::Session);
    }
    if is_cluster_time(name) {
        return FieldKind::Own(OwnDocument::ClusterTime);
    }
    if is_preference(name) {
        return FieldKind::Own(OwnDocument::ReadPreference);
    }
    if is_read_concern(name) {
        return FieldKind::Own(OwnDocument::ReadConcern);
    }
    if is_write_concern(name) {
        return FieldKind::Own(OwnDocument::WriteConcern);
    }
    FieldKind::Unlisted
}

/// What a field of this name holds, which a command that reads a collection may have.
pub(crate) fn reading_kind(name: &[u8]) -> FieldKind
    ensures { result ≡ reading_kind name.now }
{
    if is_hint(name) {
        return FieldKind::Hint;
    }
    if is_collation(name) {
        return FieldKind::Own(OwnDocument::Collation);
    }
    envelope_kind(name)
}

/// Whether a count may have one value of this name.
#[tactic(auto, unfolding(encrypt_schema::specs::Commands::ListedFields::is_count_word))]
fn is_count_word(name: &[u8]) -> bool
    ensures { result ≡ is_count_word name.now }
{
    if is_named(name, b"count") {
        return true;
    }
    if is_named(name, b"limit") {
        return true;
    }
    if is_named(name, b"skip") {
        return true;
    }
    false
}

/// What a field of a count holds.
fn count_kind(name: &[u8]) -> FieldKind
    ensures { result ≡ count_kind name.now }
{
    if is_query_field(name) {
        return FieldKind::Filter;
    }
    if is_count_word(name) {
        return FieldKind::Word;
    }
    reading_kind(name)
}

/// Whether a findAndModify may have one value of this name.
#[tactic(auto, unfolding(encrypt_schema::specs::Commands::ListedFields::is_modify_word))]
fn is_modify_word(name: &[u8]) -> bool
    ensures { result ≡ is_modify_word name.now }
{
    if is_named(name, b"findAndModify") {
        return true;
    }
    if is_named(name, b"remove") {
        return true;
    }
    if is_named(name, b"new") {
        return true;
    }
    if is_named(name, b"upsert") {
        return true;
    }
    if is_named(name, b"bypassDocumentValidation") {
        return true;
    }
    false
}

/// Whether this is the name of a findAndModify's order, or of its choice of fields.
#[tactic(auto, unfolding(encrypt_schema::specs::Commands::ListedFields::is_modify_keys))]
fn is_modify_keys(name: &[u8]) -> bool
    ensures { result ≡ is_modify_keys name.now }
{
    if is_named(name, b"sort") {
        return true;
    }
    if is_named(name, b"fields") {
        return true;
    }
    false
}

/// What a field of a findAndModify holds.
fn modify_kind(name: &[u8]) -> FieldKind
    ensures { result ≡ modify_kind name.now }
{
    if is_query_field(name) {
        return FieldKind::Filter;
    }
    if is_update(name) {
        return FieldKind::Update;
    }
    if is_modify_keys(name) {
        return FieldKind::Keys;
    }
    if is_modify_word(name) {
        return FieldKind::Word;
    }
    reading_kind(name)
}

/// What a field of a distinct holds.
fn distinct_kind(name: &[u8]) -> FieldKind
    ensures { result ≡ distinct_kind name.now }
{
    if is_query_field(name) {
        return FieldKind::Filter;
    }
    if is_key(name) {
        return FieldKind::Path;
    }
    if is_distinct(name) {
        return FieldKind::Word;
    }
    reading_kind(name)
}

/// What a field of this name holds in such a document.
pub(crate) fn field_kind(listed: Listed, name: &[u8]) -> FieldKind
    ensures kind { result ≡ field_kind listed name.now }
{
    match listed {
        Listed::Count => count_kind(name),
        Listed::FindAndModify => modify_kind(name),
        Listed::Distinct => distinct_kind(name),
        Listed::CreateIndexes => indexing_kind(name),
        Listed::Index => index_kind(name),
    }
}
