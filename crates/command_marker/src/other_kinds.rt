//! What the fields of an insert, an update, a delete or a find, or of an item of these, hold beside filters, updates
//! and stored documents (MongoDB's manual, Database Commands).

ghost use Rattle.std.specs.Prelude.{◌≡◌, codes};
ghost use Rattle.encrypt_schema.specs.Language.Names.{named};
ghost use Rattle.encrypt_schema.specs.Commands.ListedFields.{delete_item_kind, delete_kind, find_kind, insert_kind};
ghost use Rattle.encrypt_schema.specs.Commands.ListedFields.{is_delete_word, is_find_option, is_find_word};
ghost use Rattle.encrypt_schema.specs.Commands.ListedFields.{is_insert_word, is_update_item_word, is_update_word};
ghost use Rattle.encrypt_schema.specs.Commands.ListedFields.{item_kind, update_item_kind, update_kind};
ghost use Rattle.command_marker.specs.Places.{holder_kind};

use crate::kinds::{envelope_kind, is_collation, is_hint, reading_kind};
use encrypt_schema::{FieldKind, OwnDocument, is_named};

/// A command, or an item of one, that has such fields.
#[derive(Clone, Copy, Debug, PartialEq, Eq)]
pub(crate) enum Holder {
    /// `insert`.
    Insert,
    /// `update`.
    Update,
    /// `delete`.
    Delete,
    /// `find`.
    Find,
    /// An item of `updates`.
    UpdateItem,
    /// An item of `deletes`.
    DeleteItem,
}

/// Whether an insert may have one value of this name.
#[tactic(auto, unfolding(encrypt_schema::specs::Commands::ListedFields::is_insert_word))]
fn is_insert_word(name: &[u8]) -> bool
    ensures { result ≡ is_insert_word name.now }
{
    if is_named(name, b"insert") {
        return true;
    }
    if is_named(name, b"ordered") {
        return true;
    }
    if is_named(name, b"bypassDocumentValidation") {
        return true;
    }
    false
}

/// What a field of an insert holds.
fn insert_kind(name: &[u8]) -> FieldKind
    ensures { result ≡ insert_kind name.now }
{
    if is_insert_word(name) {
        return FieldKind::Word;
    }
    envelope_kind(name)
}

/// Whether an update may have one value of this name.
#[tactic(auto, unfolding(encrypt_schema::specs::Commands::ListedFields::is_update_word))]
fn is_update_word(name: &[u8]) -> bool
    ensures { result ≡ is_update_word name.now }
{
    if is_named(name, b"update") {
        return true;
    }
    if is_named(name, b"ordered") {
        return true;
    }
    if is_named(name, b"bypassDocumentValidation") {
        return true;
    }
    false
}

/// What a field of an update holds.
fn update_kind(name: &[u8]) -> FieldKind
    ensures { result ≡ update_kind name.now }
{
    if is_update_word(name) {
        return FieldKind::Word;
    }
    envelope_kind(name)
}

/// Whether a delete may have one value of this name.
#[tactic(auto, unfolding(encrypt_schema::specs::Commands::ListedFields::is_delete_word))]
fn is_delete_word(name: &[u8]) -> bool
    ensures { result ≡ is_delete_word name.now }
{
    if is_named(name, b"delete") {
        return true;
    }
    if is_named(name, b"ordered") {
        return true;
    }
    false
}

/// What a field of a delete holds.
fn delete_kind(name: &[u8]) -> FieldKind
    ensures { result ≡ delete_kind name.now }
{
    if is_delete_word(name) {
        return FieldKind::Word;
    }
    envelope_kind(name)
}

/// Whether a find may have one value of this name, which tells how many documents are shown, and where.
#[tactic(auto, unfolding(encrypt_schema::specs::Commands::ListedFields::is_find_word))]
fn is_find_word(name: &[u8]) -> bool
    ensures { result ≡ is_find_word name.now }
{
    if is_named(name, b"find") {
        return true;
    }
    if is_named(name, b"limit") {
        return true;
    }
    if is_named(name, b"skip") {
        return true;
    }
    if is_named(name, b"batchSize") {
        return true;
    }
    if is_named(name, b"singleBatch") {
        return true;
    }
    if is_named(name, b"returnKey") {
        return true;
    }
    if is_named(name, b"showRecordId") {
        return true;
    }
    false
}

/// Whether a find may have one value of this name, which tells how it looks.
#[tactic(auto, unfolding(encrypt_schema::specs::Commands::ListedFields::is_find_option))]
fn is_find_option(name: &[u8]) -> bool
    ensures { result ≡ is_find_option name.now }
{
    if is_named(name, b"tailable") {
        return true;
    }
    if is_named(name, b"awaitData") {
        return true;
    }
    if is_named(name, b"noCursorTimeout") {
        return true;
    }
    if is_named(name, b"oplogReplay") {
        return true;
    }
    if is_named(name, b"snapshot") {
        return true;
    }
    if is_named(name, b"maxScan") {
        return true;
    }
    if is_named(name, b"allowPartialResults") {
        return true;
    }
    if is_named(name, b"allowDiskUse") {
        return true;
    }
    false
}

/// Whether this is the name of a find's order.
fn is_sort(name: &[u8]) -> bool
    ensures { result ≡ named name.now (codes "sort") }
{
    is_named(name, b"sort")
}

/// What a field of a find holds.
fn find_kind(name: &[u8]) -> FieldKind
    ensures { result ≡ find_kind name.now }
{
    if is_sort(name) {
        return FieldKind::Keys;
    }
    if is_find_word(name) {
        return FieldKind::Word;
    }
    if is_find_option(name) {
        return FieldKind::Word;
    }
    reading_kind(name)
}

/// What a field holds that any item may have.
fn item_kind(name: &[u8]) -> FieldKind
    ensures { result ≡ item_kind name.now }
{
    if is_hint(name) {
        return FieldKind::Hint;
    }
    if is_collation(name) {
        return FieldKind::Own(OwnDocument::Collation);
    }
    FieldKind::Unlisted
}

/// Whether an item of updates may have one value of this name.
#[tactic(auto, unfolding(encrypt_schema::specs::Commands::ListedFields::is_update_item_word))]
fn is_update_item_word(name: &[u8]) -> bool
    ensures { result ≡ is_update_item_word name.now }
{
    if is_named(name, b"upsert") {
        return true;
    }
    if is_named(name, b"multi") {
        return true;
    }
    false
}

/// What a field of an item of updates holds.
fn update_item_kind(name: &[u8]) -> FieldKind
    ensures { result ≡ update_item_kind name.now }
{
    if is_update_item_word(name) {
        return FieldKind::Word;
    }
    item_kind(name)
}

/// Whether this is the name of an item's limit.
fn is_limit(name: &[u8]) -> bool
    ensures { result ≡ named name.now (codes "limit") }
{
    is_named(name, b"limit")
}

/// What a field of an item of deletes holds.
fn delete_item_kind(name: &[u8]) -> FieldKind
    ensures { result ≡ delete_item_kind name.now }
{
    if is_limit(name) {
        return FieldKind::Word;
    }
    item_kind(name)
}

/// What a field of this name holds.
pub(crate) fn other_kind(holder: Holder, name: &[u8]) -> FieldKind
    ensures kind { result ≡ holder_kind holder name.now }
{
    match holder {
        Holder::Insert => insert_kind(name),
        Holder::Update => update_kind(name),
        Holder::Delete => delete_kind(name),
        Holder::Find => find_kind(name),
        Holder::UpdateItem => update_item_kind(name),
        Holder::DeleteItem => delete_item_kind(name),
    }
}
