//! What a library refuses of values beyond the rules of a command's collection: those that stand where no value
//! belongs.

ghost use Rattle.std.specs.Prelude.{◌≡◌, ◌==◌, ◌&&◌, ◌||◌, not, codes};
ghost use Rattle.bson_tree.specs.Tree.{tag_of};
ghost use Rattle.encrypt_schema.specs.Language.Names.{named};
ghost use Rattle.encrypt_schema.specs.Commands.More.{chosen_wrong};
ghost use Rattle.encrypt_schema.specs.Commands.Offences.{is_empty, is_index_key, is_own_field, is_said, least, text_of};
ghost use Rattle.encrypt_schema.specs.Commands.Offences.{unless, when};
ghost use Rattle.encrypt_schema.specs.Commands.Visits.{entry, raw_of};

use crate::beyond_fields::{is_document, is_string, reason_if, reason_unless};
use crate::keys::{is_index_key, is_said};
use crate::names::{is_meta, is_slice};
use crate::owned::is_own_field;
use crate::targeting::is_empty;
use bson_codec::RawItem;
use bson_tree::types;
use encrypt_schema::{OwnDocument, Reason, is_named};

/// Whether a value is an array.
fn is_array(item: &RawItem<'_>) -> bool
    ensures { result ≡ (tag_of item.now.tree == 4) }
{
    item.tag() == types::ARRAY
}

/// Whether a value is the empty string.
#[tactic(auto, using(crate::proofs::BeyondTests::empty_found, crate::proofs::BeyondTests::empty_none))]
fn is_empty_string(item: &RawItem<'_>) -> bool
    ensures { result ≡ ((tag_of item.now.tree == 2) && is_empty (text_of (raw_of item.now.tree))) }
{
    match item.text() {
        Some(text) => is_empty(text),
        None => false,
    }
}

/// Whether a value is a number or a bool.
fn is_said_value(item: &RawItem<'_>) -> bool
    ensures { result ≡ is_said (tag_of item.now.tree) }
{
    is_said(item.tag())
}

/// Why an element is refused that has to be a number or a bool.
pub(crate) fn said_beyond(item: &RawItem<'_>) -> Option<Reason>
    ensures beyond { result ≡ least (unless (is_said (tag_of item.now.tree)) Reason.FieldNotAllowed) }
{
    reason_unless(is_said_value(item), Reason::FieldNotAllowed)
}

/// Whether a value is a number, a bool or a document.
fn is_chosen(item: &RawItem<'_>) -> bool
    ensures { result ≡ (is_said (tag_of item.now.tree) || (tag_of item.now.tree == 3)) }
{
    is_said_value(item) || is_document(item)
}

/// Why an element of a projection is refused.
pub(crate) fn projection_beyond(item: &RawItem<'_>) -> Option<Reason>
    ensures beyond { result
        ≡ least (unless (is_said (tag_of item.now.tree) || (tag_of item.now.tree == 3)) Reason.FieldNotAllowed) }
{
    reason_unless(is_chosen(item), Reason::FieldNotAllowed)
}

/// Whether a value is a number, a bool or an array.
fn is_cut(item: &RawItem<'_>) -> bool
    ensures { result ≡ (is_said (tag_of item.now.tree) || (tag_of item.now.tree == 4)) }
{
    is_said_value(item) || is_array(item)
}

/// Why the value of `$slice` is refused.
fn slice_beyond(item: &RawItem<'_>) -> Option<Reason>
    ensures beyond { result
        ≡ least (unless (is_said (tag_of item.now.tree) || (tag_of item.now.tree == 4)) Reason.FieldNotAllowed) }
{
    reason_unless(is_cut(item), Reason::FieldNotAllowed)
}

/// Whether an element is a string under `$meta`.
fn is_meta_text(item: &RawItem<'_>) -> bool
    ensures { result ≡ (named item.now.name (codes "$meta") && (tag_of item.now.tree == 2)) }
{
    is_meta(item.name()) && is_string(item)
}

/// Why an element of a document of a projection is refused, other than `$slice`.
fn meta_beyond(item: &RawItem<'_>) -> Option<Reason>
    ensures beyond { result ≡ least (unless (named item.now.name (codes "$meta") && (tag_of item.now.tree == 2))
        Reason.FieldNotAllowed) }
{
    reason_unless(is_meta_text(item), Reason::FieldNotAllowed)
}

/// Why an element of a document of a projection is refused.
pub(crate) fn chosen_beyond(item: &RawItem<'_>) -> Option<Reason>
    ensures beyond { result ≡ least (chosen_wrong (entry item.now.name item.now.tree)) }
{
    if is_slice(item.name()) {
        return slice_beyond(item);
    }
    meta_beyond(item)
}

/// Why an element of the keys of an index is refused.
pub(crate) fn index_beyond(item: &RawItem<'_>) -> Option<Reason>
    ensures beyond { result
        ≡ least (unless (is_index_key (entry item.now.name item.now.tree)) Reason.FieldNotAllowed) }
{
    reason_unless(is_index_key(item), Reason::FieldNotAllowed)
}

/// Why an element of a document whose names are MongoDB's own is refused.
pub(crate) fn own_beyond(own: OwnDocument, item: &RawItem<'_>) -> Option<Reason>
    ensures beyond { result
        ≡ least (unless (is_own_field own (entry item.now.name item.now.tree)) Reason.FieldNotAllowed) }
{
    reason_unless(is_own_field(own, item), Reason::FieldNotAllowed)
}

/// Whether this is the operator that asks whether a field is there.
fn is_exists(name: &[u8]) -> bool
    ensures { result ≡ named name.now (codes "$exists") }
{
    is_named(name, b"$exists")
}

/// Whether this is the name of a filter's comment.
fn is_comment(name: &[u8]) -> bool
    ensures { result ≡ named name.now (codes "$comment") }
{
    is_named(name, b"$comment")
}

/// Whether an element is a comment that is no string.
fn is_other_comment(item: &RawItem<'_>) -> bool
    ensures { result ≡ (named item.now.name (codes "$comment") && not (tag_of item.now.tree == 2)) }
{
    is_comment(item.name()) && !is_string(item)
}

/// Why an element of a filter is refused.
pub(crate) fn comment_beyond(item: &RawItem<'_>) -> Option<Reason>
    ensures beyond { result ≡ least (when (named item.now.name (codes "$comment") && not (tag_of item.now.tree == 2))
        Reason.FieldNotAllowed) }
{
    reason_if(is_other_comment(item), Reason::FieldNotAllowed)
}

/// Whether an element asks by no number and no bool whether a field is there.
fn is_other_exists(item: &RawItem<'_>) -> bool
    ensures { result ≡ (named item.now.name (codes "$exists") && not (is_said (tag_of item.now.tree))) }
{
    is_exists(item.name()) && !is_said_value(item)
}

/// Why an element of an operator document is refused.
pub(crate) fn exists_beyond(item: &RawItem<'_>) -> Option<Reason>
    ensures beyond { result ≡ least (when
        (named item.now.name (codes "$exists") && not (is_said (tag_of item.now.tree))) Reason.FieldNotAllowed) }
{
    reason_if(is_other_exists(item), Reason::FieldNotAllowed)
}

/// Whether a value is a number, a bool or the empty string.
fn is_unset(item: &RawItem<'_>) -> bool
    ensures { result ≡ (is_said (tag_of item.now.tree)
        || ((tag_of item.now.tree == 2) && is_empty (text_of (raw_of item.now.tree)))) }
{
    is_said_value(item) || is_empty_string(item)
}

/// Why an element of the argument of `$unset` is refused.
pub(crate) fn unset_beyond(item: &RawItem<'_>) -> Option<Reason>
    ensures beyond { result ≡ least (unless (is_said (tag_of item.now.tree)
        || ((tag_of item.now.tree == 2) && is_empty (text_of (raw_of item.now.tree)))) Reason.FieldNotAllowed) }
{
    reason_unless(is_unset(item), Reason::FieldNotAllowed)
}
