//! What a library refuses of the fields of an insert, an update, a delete or a find, and of their items, beside
//! filters, updates and stored documents.

ghost use Rattle.std.specs.Prelude.{◌≡◌, ◌==◌, ◌||◌, take};
ghost use Rattle.bson_tree.specs.Tree.{tag_of};
ghost use Rattle.encrypt_schema.specs.Language.Names.{is_among};
ghost use Rattle.encrypt_schema.specs.Commands.More.{of_other, other_wrong};
ghost use Rattle.encrypt_schema.specs.Commands.Offences.{least, unless, when};
ghost use Rattle.encrypt_schema.specs.Commands.Visits.{entry, names_of};
ghost use Rattle.command_marker.specs.Places.{holder_kind, holder_reads};

use crate::fields::stands_again;
use crate::names::{
    is_change, is_deletes, is_documents, is_filter, is_projection, is_query, is_updates,
};
use crate::other_kinds::{Holder, other_kind};
use crate::owned::is_branch;
use bson_codec::{RawDoc, RawItem};
use bson_tree::types;
use encrypt_schema::{FieldKind, Reason};

/// A reason where a test holds.
pub(crate) fn reason_if(test: bool, reason: Reason) -> Option<Reason>
    ensures { result ≡ least (when test reason) }
{
    if test { Some(reason) } else { None }
}

/// A reason where a test doesn't hold.
pub(crate) fn reason_unless(test: bool, reason: Reason) -> Option<Reason>
    ensures { result ≡ least (unless test reason) }
{
    if test { None } else { Some(reason) }
}

/// Whether a value is a document.
pub(crate) fn is_document(item: &RawItem<'_>) -> bool
    ensures { result ≡ (tag_of item.now.tree == 3) }
{
    item.tag() == types::DOCUMENT
}

/// Whether a value is a string.
pub(crate) fn is_string(item: &RawItem<'_>) -> bool
    ensures { result ≡ (tag_of item.now.tree == 2) }
{
    item.tag() == types::STRING
}

/// Whether a value is a document or a string.
fn is_hint(item: &RawItem<'_>) -> bool
    ensures { result ≡ ((tag_of item.now.tree == 3) || (tag_of item.now.tree == 2)) }
{
    is_document(item) || is_string(item)
}

/// Why a field that is no filter, no update and no stored document doesn't hold what one of its kind holds.
fn other_wrong(kind: FieldKind, item: &RawItem<'_>) -> Option<Reason>
    ensures wrong { result ≡ least (other_wrong kind (entry item.now.name item.now.tree)) }
{
    match kind {
        FieldKind::Word => reason_if(is_branch(item), Reason::FieldNotAllowed),
        FieldKind::Keys => reason_unless(is_document(item), Reason::BadField),
        FieldKind::Hint => reason_unless(is_hint(item), Reason::FieldNotAllowed),
        FieldKind::Own(_own) => reason_unless(is_document(item), Reason::FieldNotAllowed),
        FieldKind::Filter => Some(Reason::FieldNotAllowed),
        FieldKind::Update => Some(Reason::FieldNotAllowed),
        FieldKind::IndexKeys => Some(Reason::FieldNotAllowed),
        FieldKind::Path => Some(Reason::FieldNotAllowed),
        FieldKind::Indexes => Some(Reason::FieldNotAllowed),
        FieldKind::Unlisted => Some(Reason::FieldNotAllowed),
    }
}

/// Whether a field of an insert is judged by its own rules.
fn is_read_by_insert(name: &[u8]) -> bool
    ensures { result ≡ is_among name.now (holder_reads Holder.Insert) }
{
    if is_documents(name) {
        return true;
    }
    false
}

/// Whether a field of an update is judged by its own rules.
fn is_read_by_update(name: &[u8]) -> bool
    ensures { result ≡ is_among name.now (holder_reads Holder.Update) }
{
    if is_updates(name) {
        return true;
    }
    false
}

/// Whether a field of a delete is judged by its own rules.
fn is_read_by_delete(name: &[u8]) -> bool
    ensures { result ≡ is_among name.now (holder_reads Holder.Delete) }
{
    if is_deletes(name) {
        return true;
    }
    false
}

/// Whether a field of a find is judged by its own rules.
fn is_read_by_find(name: &[u8]) -> bool
    ensures { result ≡ is_among name.now (holder_reads Holder.Find) }
{
    if is_filter(name) {
        return true;
    }
    if is_projection(name) {
        return true;
    }
    false
}

/// Whether a field of an item of updates is judged by its own rules.
fn is_read_by_update_item(name: &[u8]) -> bool
    ensures { result ≡ is_among name.now (holder_reads Holder.UpdateItem) }
{
    if is_query(name) {
        return true;
    }
    if is_change(name) {
        return true;
    }
    false
}

/// Whether a field of an item of deletes is judged by its own rules.
fn is_read_by_delete_item(name: &[u8]) -> bool
    ensures { result ≡ is_among name.now (holder_reads Holder.DeleteItem) }
{
    if is_query(name) {
        return true;
    }
    false
}

/// Whether a field of this name is judged by its own rules.
fn is_read(holder: Holder, name: &[u8]) -> bool
    ensures read { result ≡ is_among name.now (holder_reads holder) }
{
    match holder {
        Holder::Insert => is_read_by_insert(name),
        Holder::Update => is_read_by_update(name),
        Holder::Delete => is_read_by_delete(name),
        Holder::Find => is_read_by_find(name),
        Holder::UpdateItem => is_read_by_update_item(name),
        Holder::DeleteItem => is_read_by_delete_item(name),
    }
}

/// Why a field is refused beside those that are judged by their own rules.
pub(crate) fn field_beyond(
    holder: Holder,
    document: &RawDoc<'_>,
    k: usize,
    item: &RawItem<'_>,
) -> Option<Reason>
    ensures beyond { result ≡ least (of_other (holder_reads holder) (holder_kind holder item.now.name)
        (take k (names_of document.now.tree)) (entry item.now.name item.now.tree)) }
{
    let name = item.name();
    if is_read(holder, name) {
        return None;
    }
    if stands_again(document, k, item) {
        return Some(Reason::BadField);
    }
    other_wrong(other_kind(holder, name), item)
}
