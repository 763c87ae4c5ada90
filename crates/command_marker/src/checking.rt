//! A second walk through a command, of which the rules of its collection refuse nothing: the first place that a library
//! refuses beyond them.

ghost use Rattle.std.specs.Prelude.{◌≡◌, None, List, take, true};
ghost use Rattle.bson_tree.specs.Tree.{node};
ghost use Rattle.encrypt_schema.specs.Commands.More.{beyond_verdict, is_settled, of_more};
ghost use Rattle.encrypt_schema.specs.Commands.Offences.{least, ruled_offence};
ghost use Rattle.encrypt_schema.specs.Commands.Pointers.{Targets};
ghost use Rattle.encrypt_schema.specs.Commands.Stations.{station};
ghost use Rattle.encrypt_schema.specs.Language.Row.{Row};
ghost use Rattle.encrypt_schema.specs.Commands.Visits.{content_verdict, entry, names_of, refused_at, visits_in};
ghost use Rattle.encrypt_schema.specs.Views.Walking.{element_visits};
ghost use Rattle.filter_rules.specs.Places.{station_by as filter_station};
ghost use Rattle.update_rules.specs.UpdatePlaces.{update_station};
ghost use Rattle.command_marker.specs.Checked.{ChecksPlaces, LeadsTo, inner_of};
ghost use Rattle.command_marker.specs.Commands.{Refuses, is_wide_command};
ghost use Rattle.command_marker.specs.Places.{CommandStands, command_station};

use crate::beyond::beyond;
use crate::contents::wide_place;
use crate::places::CommandPlace;
use bson_codec::{RawDoc, RawItem};
use encrypt_schema::{JudgingPlace, MarkFault, Next, Rows};
use filter_rules::FilterPlace;
use update_rules::UpdatePlace;

/// Refuses element `k` of a document at this place, if a library refuses it itself.
fn check_own(
    at: CommandPlace,
    document: &RawDoc<'_>,
    k: usize,
    item: &RawItem<'_>,
) -> Result<(), MarkFault>
    ensures told { (rows : List Row) → Refuses (refused_at item.now.start (least (of_more (command_station at rows)
        (take k (names_of document.now.tree)) (entry item.now.name item.now.tree)))) result }
{
    let _ = item.value();
    if let Some(reason) = beyond(at, document, k, item) {
        return Err(MarkFault::Refused {
            reason,
            at: item.start() as u32,
        });
    }
    Ok(())
}

/// Whether the rules settle what is at a place of a filter.
fn is_settled_filter(at: FilterPlace) -> bool
    ensures settled { (rows : List Row) → result ≡ is_settled (filter_station at rows) }
{
    match at {
        FilterPlace::Filter => false,
        FilterPlace::Cases => false,
        FilterPlace::Test(_subject) => false,
        FilterPlace::Elements(_subject) => true,
    }
}

/// Whether the rules settle what is at a place of an update, or of a stored document.
fn is_settled_update(at: UpdatePlace) -> bool
    ensures settled { (rows : List Row) → result ≡ is_settled (update_station at rows) }
{
    match at {
        UpdatePlace::Document(_cursor) => true,
        UpdatePlace::Operators => false,
        UpdatePlace::Sets => true,
        UpdatePlace::Argument(_operator) => false,
    }
}

/// Whether the rules settle what is at a place, so that a library refuses nothing in it beyond them.
#[tactic(auto, using(crate::proofs::Wholes::settled_command))]
fn is_settled(at: CommandPlace) -> bool
    ensures settled { (rows : List Row) → result ≡ is_settled (command_station at rows) }
{
    match at {
        CommandPlace::Inserts => true,
        CommandPlace::Filter(at) => is_settled_filter(at),
        CommandPlace::Update(at) => is_settled_update(at),
        CommandPlace::Command(_name) => false,
        CommandPlace::Updates => false,
        CommandPlace::Deletes => false,
        CommandPlace::UpdateItem => false,
        CommandPlace::DeleteItem => false,
        CommandPlace::Projection => false,
        CommandPlace::Chosen => false,
        CommandPlace::Bounds => false,
        CommandPlace::Fields(_listed) => false,
        CommandPlace::Keys => false,
        CommandPlace::IndexKeys => false,
        CommandPlace::Indexes => false,
        CommandPlace::Own(_own) => false,
    }
}

/// The place of an element that is looked into.
fn inner_of(next: Next<CommandPlace>) -> Option<CommandPlace>
    ensures inner { result ≡ inner_of next }
{
    match next {
        Next::Inside(place) => Some(place),
        Next::Store(_rule) => None,
        Next::Compare(_rule) => None,
        Next::Bare => None,
        Next::Passed => None,
    }
}

/// The place of element `k` of a document at this place, if it is looked into.
fn place_inside(
    at: CommandPlace,
    rows: &Rows,
    document: &RawDoc<'_>,
    k: usize,
    item: &RawItem<'_>,
) -> Option<CommandPlace>
    requires stands { CommandStands at rows.now }
    ensures leads { LeadsTo rows.now (command_station at rows.now) (take k (names_of document.now.tree))
        (entry item.now.name item.now.tree) result }
{
    match at.judge(rows, document, k, item) {
        Ok(next) => inner_of(next),
        Err(_reason) => None,
    }
}

/// Checks the elements of a document at this place.
#[cycle(check)]
fn check_elements(rows: &Rows, at: CommandPlace, document: &RawDoc<'_>) -> Result<(), MarkFault>
    requires stands { CommandStands at rows.now }
    ensures told { (ts : Targets) → ChecksPlaces rows.now
        (visits_in rows.now (command_station at rows.now) ts document.now.start (node 3 document.now.tree)) result }
{
    let mut k = 0;
    for item in document.items() {
        match check_element(rows, at, document, k, &item) {
            Ok(()) => {
                k += 1;
            }
            Err(fault) => return Err(fault),
        }
    }
    Ok(())
}

/// Checks element `k` of a document at this place, and what is in it.
#[cycle(check)]
fn check_element(
    rows: &Rows,
    at: CommandPlace,
    document: &RawDoc<'_>,
    k: usize,
    item: &RawItem<'_>,
) -> Result<(), MarkFault>
    requires stands { CommandStands at rows.now }
    ensures told { (ts : Targets) → ChecksPlaces rows.now
        (element_visits rows.now (command_station at rows.now) ts (take k (names_of document.now.tree)) item.now)
        result }
{
    match check_own(at, document, k, item) {
        Ok(()) => check_below(rows, at, document, k, item),
        Err(fault) => Err(fault),
    }
}

/// Checks what is in element `k` of a document at this place, where the rules don't refuse it itself.
#[cycle(check)]
fn check_below(
    rows: &Rows,
    at: CommandPlace,
    document: &RawDoc<'_>,
    k: usize,
    item: &RawItem<'_>,
) -> Result<(), MarkFault>
    requires stands { CommandStands at rows.now }
    ensures told { (ts : Targets) → ruled_offence rows.now (command_station at rows.now)
        (take k (names_of document.now.tree)) (entry item.now.name item.now.tree) ≡ None
        → ChecksPlaces rows.now (visits_in rows.now
        (station rows.now (command_station at rows.now) (entry item.now.name item.now.tree)) ts
        item.now.start item.now.tree) result }
{
    match place_inside(at, rows, document, k, item) {
        Some(place) => check_inside(rows, place, item),
        None => Ok(()),
    }
}

/// Checks what is in a value at this place, if the rules don't settle it.
#[cycle(check)]
fn check_inside(rows: &Rows, at: CommandPlace, item: &RawItem<'_>) -> Result<(), MarkFault>
    requires stands { CommandStands at rows.now }
    ensures told { (ts : Targets) → ChecksPlaces rows.now
        (visits_in rows.now (command_station at rows.now) ts item.now.start item.now.tree) result }
{
    if is_settled(at) {
        return Ok(());
    }
    match item.child() {
        Some(document) => check_elements(rows, at, &document),
        None => Ok(()),
    }
}

/// The first place of a command that a library refuses beyond the rules, where these refuse none. Without rules it
/// refuses none.
pub(crate) fn check_contents(rows: &Rows, command: &RawDoc<'_>) -> Result<(), MarkFault>
    requires wide { is_wide_command command.now.tree ≡ true }
    requires accepted { content_verdict rows.now command.now.start command.now.tree ≡ None }
    ensures told { Refuses (beyond_verdict rows.now command.now.start command.now.tree) result }
{
    if rows.len() == 0 {
        return Ok(());
    }
    let at = wide_place(command);
    check_elements(rows, at, command)
}
