//! The projections of finds.

ghost use Rattle.std.specs.Prelude.{◌≡◌, ◌==◌, ◌||◌, ◌&&◌, codes, not, ℕ, List};
ghost use Rattle.encrypt_schema.specs.Language.Names.{named};
ghost use Rattle.bson_tree.specs.Tree.{kids_of, tag_of};
ghost use Rattle.encrypt_schema.specs.Language.Row.{Row};
ghost use Rattle.encrypt_schema.specs.Commands.Offences.{is_slice_or_meta};
ghost use Rattle.encrypt_schema.specs.Commands.Stations.{Chosen, Projection};
ghost use Rattle.encrypt_schema.specs.Commands.Visits.{entry, names_of};
ghost use Rattle.command_marker.specs.Places.{Judges};

use crate::names::{is_meta, is_slice};
use crate::places::CommandPlace;
use bson_codec::{RawDoc, RawItem};
use bson_tree::types;
use encrypt_schema::{Next, Reason};

/// Whether a document has one name alone, and that is `$slice` or `$meta`.
fn is_slice_or_meta(document: &RawDoc<'_>) -> bool
    ensures { result ≡ is_slice_or_meta (names_of document.now.tree) }
{
    let mut items = document.items();
    match items.next() {
        Some(first) => match items.next() {
            Some(_) => false,
            None => is_slice(first.name()) || is_meta(first.name()),
        },
        None => false,
    }
}

/// Whether a value is a document, or an array, with one name alone, and that is `$slice` or `$meta`.
fn holds_slice_or_meta(item: &RawItem<'_>) -> bool
    ensures { result ≡ is_slice_or_meta (names_of (kids_of item.now.tree)) }
{
    match item.child() {
        Some(inside) => is_slice_or_meta(&inside),
        None => false,
    }
}

/// Whether an element of a projection can't be used: an array, or a document without `$slice` or `$meta` alone.
fn is_refused_projection(item: &RawItem<'_>) -> bool
    ensures { result
        ≡ ((tag_of item.now.tree == 4) || ((tag_of item.now.tree == 3)
        && not (is_slice_or_meta (names_of (kids_of item.now.tree))))) }
{
    item.tag() == types::ARRAY || (item.tag() == types::DOCUMENT && !holds_slice_or_meta(item))
}

/// Judges an element of a projection.
pub(crate) fn judge_projection(item: &RawItem<'_>) -> Result<Next<CommandPlace>, Reason>
    ensures judged { (rows : List Row) (elder : List (List ℕ)) →
        Judges rows Projection elder (entry item.now.name item.now.tree) result }
{
    if is_refused_projection(item) {
        return Err(Reason::FieldNotAllowed);
    }
    if item.tag() == types::DOCUMENT {
        return Ok(Next::Inside(CommandPlace::Chosen));
    }
    Ok(Next::Passed)
}

/// Whether an element of a document of a projection is the array of a `$slice`.
fn is_slice_of(item: &RawItem<'_>) -> bool
    ensures { result ≡ (named item.now.name (codes "$slice") && (tag_of item.now.tree == 4)) }
{
    is_slice(item.name()) && item.tag() == types::ARRAY
}

/// Judges an element of a document of a projection.
pub(crate) fn judge_chosen(item: &RawItem<'_>) -> Result<Next<CommandPlace>, Reason>
    ensures judged { (rows : List Row) (elder : List (List ℕ)) →
        Judges rows Chosen elder (entry item.now.name item.now.tree) result }
{
    if is_slice_of(item) {
        return Ok(Next::Inside(CommandPlace::Bounds));
    }
    Ok(Next::Passed)
}
