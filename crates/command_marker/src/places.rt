//! What documents and arrays are in commands.

ghost use Rattle.std.specs.Prelude.{◌≡◌, List, take};
ghost use Rattle.encrypt_schema.specs.Language.Row.{Row};
ghost use Rattle.encrypt_schema.specs.Commands.Visits.{entry, names_of};
ghost use Rattle.encrypt_schema.specs.Views.Walking.{StandsNext, station_next};
ghost use Rattle.command_marker.specs.Places.{CommandStands, Judges, command_station, command_unprotected};
ghost use Rattle.filter_rules.specs.Places.{station_by as filter_station};
ghost use Rattle.update_rules.specs.UpdatePlaces.{UpdateStands, update_station};

use crate::commands::judge_command;
use crate::items::{
    judge_delete_item, judge_deletes, judge_inserts, judge_update_item, judge_updates,
};
use crate::keys::judge_indexes;
use crate::listed::judge_listed;
use crate::projections::{judge_chosen, judge_projection};
use bson_codec::{RawDoc, RawItem};
use encrypt_schema::{JudgingPlace, Listed, Next, OwnDocument, Reason, Rows};
use filter_rules::FilterPlace;
use update_rules::UpdatePlace;

/// A command whose values are protected.
#[derive(Clone, Copy, Debug, PartialEq, Eq)]
pub(crate) enum CommandName {
    /// `insert`.
    Insert,
    /// `update`.
    Update,
    /// `delete`.
    Delete,
    /// `find`.
    Find,
}

/// What a document or an array is in a command.
#[derive(Clone, Copy, Debug, PartialEq, Eq)]
pub(crate) enum CommandPlace {
    /// The command itself.
    Command(CommandName),
    /// The array `documents` of an insert.
    Inserts,
    /// The array `updates` of an update.
    Updates,
    /// The array `deletes` of a delete.
    Deletes,
    /// An item of `updates`.
    UpdateItem,
    /// An item of `deletes`.
    DeleteItem,
    /// The projection of a find.
    Projection,
    /// A document in a projection.
    Chosen,
    /// The array of a `$slice`.
    Bounds,
    /// A document of which each field is listed.
    Fields(Listed),
    /// An order, or a choice of fields.
    Keys,
    /// The keys of an index.
    IndexKeys,
    /// The array `indexes`.
    Indexes,
    /// A document whose names are MongoDB's own.
    Own(OwnDocument),
    /// A filter, or what stands in one.
    Filter(FilterPlace),
    /// A stored document, an update, or what stands in one.
    Update(UpdatePlace),
}

impl JudgingPlace for CommandPlace {
    ghost station_by = { command_station };

    ghost stands = { CommandStands };

    fn judge(
        self,
        rows: &Rows,
        document: &RawDoc<'_>,
        k: usize,
        item: &RawItem<'_>,
    ) -> Result<Next<CommandPlace>, Reason> {
        match self {
            CommandPlace::Command(command) => judge_command(command, document, k, item),
            CommandPlace::Inserts => judge_inserts(rows, item),
            CommandPlace::Updates => judge_updates(item),
            CommandPlace::Deletes => judge_deletes(item),
            CommandPlace::UpdateItem => judge_update_item(rows, document, k, item),
            CommandPlace::DeleteItem => judge_delete_item(document, k, item),
            CommandPlace::Projection => judge_projection(item),
            CommandPlace::Fields(listed) => judge_listed(listed, rows, document, k, item),
            CommandPlace::Chosen => judge_chosen(item),
            CommandPlace::Bounds => Ok(Next::Passed),
            CommandPlace::Keys => Ok(Next::Passed),
            CommandPlace::IndexKeys => Ok(Next::Passed),
            CommandPlace::Indexes => judge_indexes(item),
            CommandPlace::Own(_own) => Ok(Next::Passed),
            CommandPlace::Filter(at) => judge_in_filter(at, rows, document, k, item),
            CommandPlace::Update(at) => judge_in_update(at, rows, document, k, item),
        }
    }

    #[tactic(auto, using(crate::proofs::Wholes::whole_command))]
    fn is_whole(self) -> bool {
        match self {
            CommandPlace::Update(at) => at.is_whole(),
            CommandPlace::Command(_) => false,
            CommandPlace::Inserts => false,
            CommandPlace::Updates => false,
            CommandPlace::Deletes => false,
            CommandPlace::UpdateItem => false,
            CommandPlace::DeleteItem => false,
            CommandPlace::Projection => false,
            CommandPlace::Chosen => false,
            CommandPlace::Bounds => false,
            CommandPlace::Fields(_) => false,
            CommandPlace::Keys => false,
            CommandPlace::IndexKeys => false,
            CommandPlace::Indexes => false,
            CommandPlace::Own(_) => false,
            CommandPlace::Filter(at) => at.is_whole(),
        }
    }

    ghost unprotected = { command_unprotected };
}

/// What an element of a filter is in its command.
fn next_in_filter(next: Next<FilterPlace>) -> Next<CommandPlace>
    ensures station { (rows : List Row) →
        station_next command_station rows result ≡ station_next filter_station rows next }
    ensures stands { (rows : List Row) → StandsNext CommandStands rows result }
{
    match next {
        Next::Inside(at) => Next::Inside(CommandPlace::Filter(at)),
        Next::Store(i) => Next::Store(i),
        Next::Compare(i) => Next::Compare(i),
        Next::Bare => Next::Bare,
        Next::Passed => Next::Passed,
    }
}

/// Judges element `k` of a document in a filter.
fn judge_in_filter(
    at: FilterPlace,
    rows: &Rows,
    document: &RawDoc<'_>,
    k: usize,
    item: &RawItem<'_>,
) -> Result<Next<CommandPlace>, Reason>
    ensures judged { Judges rows.now (filter_station at rows.now) (take k (names_of document.now.tree))
        (entry item.now.name item.now.tree) result }
{
    match at.judge(rows, document, k, item) {
        Ok(next) => Ok(next_in_filter(next)),
        Err(reason) => Err(reason),
    }
}

/// What an element of an update, or of a stored document, is in its command.
fn next_in_update(next: Next<UpdatePlace>) -> Next<CommandPlace>
    ensures station { (rows : List Row) →
        station_next command_station rows result ≡ station_next update_station rows next }
    ensures stands { (rows : List Row) → StandsNext UpdateStands rows next → StandsNext CommandStands rows result }
{
    match next {
        Next::Inside(at) => Next::Inside(CommandPlace::Update(at)),
        Next::Store(i) => Next::Store(i),
        Next::Compare(i) => Next::Compare(i),
        Next::Bare => Next::Bare,
        Next::Passed => Next::Passed,
    }
}

/// Judges element `k` of a document in an update, or of a stored one.
fn judge_in_update(
    at: UpdatePlace,
    rows: &Rows,
    document: &RawDoc<'_>,
    k: usize,
    item: &RawItem<'_>,
) -> Result<Next<CommandPlace>, Reason>
    requires stands { UpdateStands at rows.now }
    ensures judged { Judges rows.now (update_station at rows.now) (take k (names_of document.now.tree))
        (entry item.now.name item.now.tree) result }
{
    match at.judge(rows, document, k, item) {
        Ok(next) => Ok(next_in_update(next)),
        Err(reason) => Err(reason),
    }
}
