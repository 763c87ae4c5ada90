//! The fields of commands.

ghost use Rattle.std.specs.Prelude.{◌≡◌, ◌||◌, codes, List, take};
ghost use Rattle.encrypt_schema.specs.Language.Names.{named};
ghost use Rattle.encrypt_schema.specs.Language.Row.{Row};
ghost use Rattle.encrypt_schema.specs.Commands.Stations.{Insert, Update, Delete, Find};
ghost use Rattle.encrypt_schema.specs.Commands.Visits.{entry, names_of};
ghost use Rattle.command_marker.specs.Places.{Judges, name_station};

use crate::fields::{read_array, read_document, unusable};
use crate::names::{
    is_deletes, is_documents, is_filter, is_let, is_max, is_min, is_projection, is_updates,
};
use crate::other_kinds::Holder;
use crate::others::other_field;
use crate::places::{CommandName, CommandPlace};
use bson_codec::{RawDoc, RawItem};
use encrypt_schema::{Next, Reason};
use filter_rules::FilterPlace;

/// Judges field `k` of a command.
pub(crate) fn judge_command(
    command: CommandName,
    document: &RawDoc<'_>,
    k: usize,
    item: &RawItem<'_>,
) -> Result<Next<CommandPlace>, Reason>
    ensures judged { (rows : List Row) →
        Judges rows (name_station command) (take k (names_of document.now.tree))
        (entry item.now.name item.now.tree) result }
{
    match command {
        CommandName::Insert => judge_insert(document, k, item),
        CommandName::Update => judge_update(document, k, item),
        CommandName::Delete => judge_delete(document, k, item),
        CommandName::Find => judge_find(document, k, item),
    }
}

/// Judges field `k` of an insert.
fn judge_insert(
    document: &RawDoc<'_>,
    k: usize,
    item: &RawItem<'_>,
) -> Result<Next<CommandPlace>, Reason>
    ensures judged { (rows : List Row) →
        Judges rows Insert (take k (names_of document.now.tree)) (entry item.now.name item.now.tree) result }
{
    let name = item.name();
    if is_documents(name) {
        return read_array(CommandPlace::Inserts, document, k, item);
    }
    Ok(other_field(Holder::Insert, item))
}

/// Judges field `k` of an update.
fn judge_update(
    document: &RawDoc<'_>,
    k: usize,
    item: &RawItem<'_>,
) -> Result<Next<CommandPlace>, Reason>
    ensures judged { (rows : List Row) →
        Judges rows Update (take k (names_of document.now.tree)) (entry item.now.name item.now.tree) result }
{
    let name = item.name();
    if is_updates(name) {
        return read_array(CommandPlace::Updates, document, k, item);
    }
    if is_let(name) {
        return Err(unusable(document, k, item));
    }
    Ok(other_field(Holder::Update, item))
}

/// Judges field `k` of a delete.
fn judge_delete(
    document: &RawDoc<'_>,
    k: usize,
    item: &RawItem<'_>,
) -> Result<Next<CommandPlace>, Reason>
    ensures judged { (rows : List Row) →
        Judges rows Delete (take k (names_of document.now.tree)) (entry item.now.name item.now.tree) result }
{
    let name = item.name();
    if is_deletes(name) {
        return read_array(CommandPlace::Deletes, document, k, item);
    }
    if is_let(name) {
        return Err(unusable(document, k, item));
    }
    Ok(other_field(Holder::Delete, item))
}

/// Whether a find can't use the field of this name.
fn is_unusable(name: &[u8]) -> bool
    ensures { result
        ≡ (named name.now (codes "min") || (named name.now (codes "max") || named name.now (codes "let"))) }
{
    is_min(name) || is_max(name) || is_let(name)
}

/// Judges field `k` of a find.
fn judge_find(
    document: &RawDoc<'_>,
    k: usize,
    item: &RawItem<'_>,
) -> Result<Next<CommandPlace>, Reason>
    ensures judged { (rows : List Row) →
        Judges rows Find (take k (names_of document.now.tree)) (entry item.now.name item.now.tree) result }
{
    let name = item.name();
    if is_filter(name) {
        let filter = CommandPlace::Filter(FilterPlace::Filter);
        return read_document(filter, document, k, item);
    }
    if is_projection(name) {
        return read_document(CommandPlace::Projection, document, k, item);
    }
    if is_unusable(name) {
        return Err(unusable(document, k, item));
    }
    Ok(other_field(Holder::Find, item))
}
