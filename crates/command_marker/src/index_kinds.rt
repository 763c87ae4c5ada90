//! What the fields of a createIndexes and of an index hold.

ghost use Rattle.std.specs.Prelude.{◌≡◌, codes};
ghost use Rattle.encrypt_schema.specs.Language.Names.{named};
ghost use Rattle.encrypt_schema.specs.Commands.ListedFields.{index_kind, indexing_kind, is_index_keys};
ghost use Rattle.encrypt_schema.specs.Commands.ListedFields.{is_index_option, is_index_word, is_indexing_word};

use crate::kinds::{envelope_kind, is_collation, is_key};
use encrypt_schema::{FieldKind, OwnDocument, is_named};

/// Whether this is the name of the array `indexes`.
fn is_indexes(name: &[u8]) -> bool
    ensures { result ≡ named name.now (codes "indexes") }
{
    is_named(name, b"indexes")
}

/// Whether a createIndexes may have one value of this name.
#[tactic(auto, unfolding(encrypt_schema::specs::Commands::ListedFields::is_indexing_word))]
fn is_indexing_word(name: &[u8]) -> bool
    ensures { result ≡ is_indexing_word name.now }
{
    if is_named(name, b"createIndexes") {
        return true;
    }
    if is_named(name, b"commitQuorum") {
        return true;
    }
    false
}

/// What a field of a createIndexes holds.
pub(crate) fn indexing_kind(name: &[u8]) -> FieldKind
    ensures { result ≡ indexing_kind name.now }
{
    if is_indexes(name) {
        return FieldKind::Indexes;
    }
    if is_indexing_word(name) {
        return FieldKind::Word;
    }
    envelope_kind(name)
}

/// Whether any index may have one value of this name.
#[tactic(auto, unfolding(encrypt_schema::specs::Commands::ListedFields::is_index_word))]
fn is_index_word(name: &[u8]) -> bool
    ensures { result ≡ is_index_word name.now }
{
    if is_named(name, b"name") {
        return true;
    }
    if is_named(name, b"v") {
        return true;
    }
    if is_named(name, b"unique") {
        return true;
    }
    if is_named(name, b"sparse") {
        return true;
    }
    if is_named(name, b"hidden") {
        return true;
    }
    if is_named(name, b"background") {
        return true;
    }
    if is_named(name, b"dropDups") {
        return true;
    }
    if is_named(name, b"expireAfterSeconds") {
        return true;
    }
    if is_named(name, b"prepareUnique") {
        return true;
    }
    false
}

/// Whether an index on texts or on places may have one value of this name.
#[tactic(auto, unfolding(encrypt_schema::specs::Commands::ListedFields::is_index_option))]
fn is_index_option(name: &[u8]) -> bool
    ensures { result ≡ is_index_option name.now }
{
    if is_named(name, b"default_language") {
        return true;
    }
    if is_named(name, b"language_override") {
        return true;
    }
    if is_named(name, b"textIndexVersion") {
        return true;
    }
    if is_named(name, b"2dsphereIndexVersion") {
        return true;
    }
    if is_named(name, b"bits") {
        return true;
    }
    if is_named(name, b"min") {
        return true;
    }
    if is_named(name, b"max") {
        return true;
    }
    if is_named(name, b"bucketSize") {
        return true;
    }
    false
}

/// Whether this is the name of the weights of an index, or of its choice of fields.
#[tactic(auto, unfolding(encrypt_schema::specs::Commands::ListedFields::is_index_keys))]
fn is_index_keys(name: &[u8]) -> bool
    ensures { result ≡ is_index_keys name.now }
{
    if is_named(name, b"weights") {
        return true;
    }
    if is_named(name, b"wildcardProjection") {
        return true;
    }
    false
}

/// What a field of an index holds.
pub(crate) fn index_kind(name: &[u8]) -> FieldKind
    ensures { result ≡ index_kind name.now }
{
    if is_key(name) {
        return FieldKind::IndexKeys;
    }
    if is_index_keys(name) {
        return FieldKind::Keys;
    }
    if is_index_word(name) {
        return FieldKind::Word;
    }
    if is_index_option(name) {
        return FieldKind::Word;
    }
    if is_collation(name) {
        return FieldKind::Own(OwnDocument::Collation);
    }
    FieldKind::Unlisted
}
