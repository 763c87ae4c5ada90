//! The items of commands: what stands in their arrays.

ghost use Rattle.std.specs.Prelude.{◌≡◌, ◌==◌, ◌||◌, ◌&&◌, codes, true, ℕ, List, take};
ghost use Rattle.bson_tree.specs.Tree.{kids_of, tag_of};
ghost use Rattle.encrypt_schema.specs.Language.Names.{is_among, named};
ghost use Rattle.encrypt_schema.specs.Language.Row.{Row};
ghost use Rattle.encrypt_schema.specs.Commands.Stations.{Inserts, Updates, Deletes, UpdateItem, DeleteItem};
ghost use Rattle.encrypt_schema.specs.Commands.Stations.{update_of};
ghost use Rattle.encrypt_schema.specs.Commands.Visits.{entry, names_of};
ghost use Rattle.command_marker.specs.Places.{Judges};
ghost use Rattle.update_rules.specs.UpdatePlaces.{UpdateStands, update_station};

use crate::fields::{read_document, stands_again, unusable};
use crate::names::{
    is_array_filters, is_change, is_constants, is_query, states_change, states_query,
};
use crate::other_kinds::Holder;
use crate::others::other_field;
use crate::places::CommandPlace;
use bson_codec::{RawDoc, RawItem};
use bson_tree::types;
use encrypt_schema::{Next, Reason, Rows};
use filter_rules::FilterPlace;
use update_rules::{UpdatePlace, update_place};

/// Judges an element of `documents`.
#[tactic(auto, unfolding(encrypt_schema::specs::Commands::Offences::ruled_offence))]
pub(crate) fn judge_inserts(rows: &Rows, item: &RawItem<'_>) -> Result<Next<CommandPlace>, Reason>
    ensures judged { (elder : List (List ℕ)) →
        Judges rows.now Inserts elder (entry item.now.name item.now.tree) result }
{
    if item.tag() == types::DOCUMENT {
        let document = UpdatePlace::Document(rows.root());
        Ok(Next::Inside(CommandPlace::Update(document)))
    } else {
        Err(Reason::BadField)
    }
}

/// Whether a value is an item of `updates`: a document that states `q` and `u`.
fn is_update_item(item: &RawItem<'_>) -> bool
    ensures { result
        ≡ ((tag_of item.now.tree == 3) && (is_among (codes "q") (names_of (kids_of item.now.tree))
        && is_among (codes "u") (names_of (kids_of item.now.tree)))) }
{
    item.tag() == types::DOCUMENT && states_query(item) && states_change(item)
}

/// Judges an element of `updates`.
pub(crate) fn judge_updates(item: &RawItem<'_>) -> Result<Next<CommandPlace>, Reason>
    ensures judged { (rows : List Row) (elder : List (List ℕ)) →
        Judges rows Updates elder (entry item.now.name item.now.tree) result }
{
    if is_update_item(item) {
        Ok(Next::Inside(CommandPlace::UpdateItem))
    } else {
        Err(Reason::BadField)
    }
}

/// Whether a value is an item of `deletes`: a document that states `q`.
fn is_delete_item(item: &RawItem<'_>) -> bool
    ensures { result ≡ ((tag_of item.now.tree == 3) && is_among (codes "q") (names_of (kids_of item.now.tree))) }
{
    item.tag() == types::DOCUMENT && states_query(item)
}

/// Judges an element of `deletes`.
pub(crate) fn judge_deletes(item: &RawItem<'_>) -> Result<Next<CommandPlace>, Reason>
    ensures judged { (rows : List Row) (elder : List (List ℕ)) →
        Judges rows Deletes elder (entry item.now.name item.now.tree) result }
{
    if is_delete_item(item) {
        Ok(Next::Inside(CommandPlace::DeleteItem))
    } else {
        Err(Reason::BadField)
    }
}

/// Judges element `k` of an item of `deletes`.
pub(crate) fn judge_delete_item(
    document: &RawDoc<'_>,
    k: usize,
    item: &RawItem<'_>,
) -> Result<Next<CommandPlace>, Reason>
    ensures judged { (rows : List Row) →
        Judges rows DeleteItem (take k (names_of document.now.tree)) (entry item.now.name item.now.tree) result }
{
    let name = item.name();
    if is_query(name) {
        let filter = CommandPlace::Filter(FilterPlace::Filter);
        return read_document(filter, document, k, item);
    }
    Ok(other_field(Holder::DeleteItem, item))
}

/// Whether an item of `updates` can't use the field of this name.
fn is_unusable(name: &[u8]) -> bool
    ensures { result ≡ (named name.now (codes "arrayFilters") || named name.now (codes "c")) }
{
    is_array_filters(name) || is_constants(name)
}

/// Judges element `k` of an item of `updates`.
pub(crate) fn judge_update_item(
    rows: &Rows,
    document: &RawDoc<'_>,
    k: usize,
    item: &RawItem<'_>,
) -> Result<Next<CommandPlace>, Reason>
    ensures judged { Judges rows.now UpdateItem (take k (names_of document.now.tree))
        (entry item.now.name item.now.tree) result }
{
    let name = item.name();
    if is_query(name) {
        let filter = CommandPlace::Filter(FilterPlace::Filter);
        return read_document(filter, document, k, item);
    }
    if is_change(name) {
        return judge_change(rows, document, k, item);
    }
    if is_unusable(name) {
        return Err(unusable(document, k, item));
    }
    Ok(other_field(Holder::UpdateItem, item))
}

/// Judges element `k` of an item of `updates`, which is its update.
fn judge_change(
    rows: &Rows,
    document: &RawDoc<'_>,
    k: usize,
    item: &RawItem<'_>,
) -> Result<Next<CommandPlace>, Reason>
    requires change { named item.now.name (codes "u") ≡ true }
    ensures judged { Judges rows.now UpdateItem (take k (names_of document.now.tree))
        (entry item.now.name item.now.tree) result }
{
    if stands_again(document, k, item) {
        return Err(Reason::BadField);
    }
    if item.tag() == types::ARRAY {
        return Err(Reason::Pipeline);
    }
    if item.tag() == types::DOCUMENT {
        let update = change_place(rows, item);
        return Ok(Next::Inside(CommandPlace::Update(update)));
    }
    Err(Reason::BadField)
}

/// The place of an update that is a document.
pub(crate) fn change_place(rows: &Rows, item: &RawItem<'_>) -> UpdatePlace
    ensures station { update_station result rows.now ≡ update_of (names_of (kids_of item.now.tree)) }
    ensures stands { UpdateStands result rows.now }
{
    match item.child() {
        Some(update) => update_place(rows, &update),
        None => UpdatePlace::Document(rows.root()),
    }
}
