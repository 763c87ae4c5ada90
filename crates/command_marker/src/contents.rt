//! The contents of commands: which of their values are marked, and where one is refused.

ghost use Rattle.std.specs.Prelude.{◌≡◌, codes, not, true, List};
ghost use Rattle.encrypt_schema.specs.Language.Names.{is_among};
ghost use Rattle.encrypt_schema.specs.declared.command.reason.Reason.TheVariants.{BadField};
ghost use Rattle.encrypt_schema.specs.Commands.Offences.{both_or_none, command_lacks, when};
ghost use Rattle.encrypt_schema.specs.Commands.Stations.{Fields, command_of};
ghost use Rattle.encrypt_schema.specs.Commands.Visits.{command_visits, names_of};
ghost use Rattle.encrypt_schema.specs.Views.Walking.{MarksPlaces};
ghost use Rattle.command_marker.specs.Commands.{first_name, is_library_command, is_marked_command, is_wide_command};
ghost use Rattle.command_marker.specs.Places.{CommandStands, command_station, name_station};
ghost use Rattle.encrypt_schema.specs.Language.Row.{Row};

use crate::names::{
    is_count, is_delete, is_distinct, is_find_and_modify, is_insert, is_library_name, is_marked,
    is_update,
};
use crate::places::{CommandName, CommandPlace};
use bson_codec::RawDoc;
use encrypt_schema::{Listed, MarkFault, Marks, Reason, Rows, has_name, mark_elements};

/// The name of a command's first field; no byte where there is none.
fn first_name<'a>(command: &RawDoc<'a>) -> &'a [u8]
    ensures name { result.now ≡ first_name command.now.tree }
{
    match command.items().next() {
        Some(first) => first.name(),
        None => &[],
    }
}

/// Which command it is.
fn command_name(command: &RawDoc<'_>) -> CommandName
    requires marked { is_marked_command command.now.tree ≡ true }
    ensures name { name_station result ≡ command_of (names_of command.now.tree) }
{
    let name = first_name(command);
    if is_insert(name) {
        return CommandName::Insert;
    }
    if is_update(name) {
        return CommandName::Update;
    }
    if is_delete(name) {
        return CommandName::Delete;
    }
    CommandName::Find
}

/// Whether an insert lacks `documents`.
fn lacks_documents(command: &RawDoc<'_>) -> bool
    ensures { result ≡ not (is_among (codes "documents") (names_of command.now.tree)) }
{
    !has_name(command, b"documents")
}

/// Whether an update lacks `updates`.
fn lacks_updates(command: &RawDoc<'_>) -> bool
    ensures { result ≡ not (is_among (codes "updates") (names_of command.now.tree)) }
{
    !has_name(command, b"updates")
}

/// Whether a delete lacks `deletes`.
fn lacks_deletes(command: &RawDoc<'_>) -> bool
    ensures { result ≡ not (is_among (codes "deletes") (names_of command.now.tree)) }
{
    !has_name(command, b"deletes")
}

/// Whether a command lacks a field that it must have.
fn lacks_required(name: CommandName, command: &RawDoc<'_>) -> bool
    ensures lacks { when result BadField ≡ command_lacks (name_station name) (names_of command.now.tree) }
{
    match name {
        CommandName::Insert => lacks_documents(command),
        CommandName::Update => lacks_updates(command),
        CommandName::Delete => lacks_deletes(command),
        CommandName::Find => false,
    }
}

/// Whether it is a command that a library alone takes: a count, a findAndModify, a distinct or a createIndexes.
pub fn is_library(command: &RawDoc<'_>) -> bool
    ensures library { result ≡ is_library_command command.now.tree }
{
    is_library_name(first_name(command))
}

/// Whether it is a command that a library takes: one whose values are protected, or one that a library alone takes.
pub fn is_wide(command: &RawDoc<'_>) -> bool
    ensures wide { result ≡ is_wide_command command.now.tree }
{
    if is_marked(first_name(command)) {
        return true;
    }
    is_library(command)
}

/// Which command of a library it is.
fn library_name(command: &RawDoc<'_>) -> Listed
    requires library { is_library_command command.now.tree ≡ true }
    ensures name { Fields result ≡ command_of (names_of command.now.tree) }
{
    let name = first_name(command);
    if is_count(name) {
        return Listed::Count;
    }
    if is_find_and_modify(name) {
        return Listed::FindAndModify;
    }
    if is_distinct(name) {
        return Listed::Distinct;
    }
    Listed::CreateIndexes
}

/// The place of a command that a library takes.
pub(crate) fn wide_place(command: &RawDoc<'_>) -> CommandPlace
    requires wide { is_wide_command command.now.tree ≡ true }
    ensures station { (rows : List Row) → command_station result rows ≡ command_of (names_of command.now.tree) }
    ensures stands { (rows : List Row) → CommandStands result rows }
{
    if is_library(command) {
        return CommandPlace::Fields(library_name(command));
    }
    CommandPlace::Command(command_name(command))
}

/// Whether a distinct lacks `key`.
fn lacks_key(command: &RawDoc<'_>) -> bool
    ensures { result ≡ not (is_among (codes "key") (names_of command.now.tree)) }
{
    !has_name(command, b"key")
}

/// Whether a createIndexes lacks `indexes`.
fn lacks_indexes(command: &RawDoc<'_>) -> bool
    ensures { result ≡ not (is_among (codes "indexes") (names_of command.now.tree)) }
{
    !has_name(command, b"indexes")
}

/// Whether a findAndModify states an update.
fn has_update(command: &RawDoc<'_>) -> bool
    ensures { result ≡ is_among (codes "update") (names_of command.now.tree) }
{
    has_name(command, b"update")
}

/// Whether a findAndModify states that the document is removed.
fn has_remove(command: &RawDoc<'_>) -> bool
    ensures { result ≡ is_among (codes "remove") (names_of command.now.tree) }
{
    has_name(command, b"remove")
}

/// Whether a findAndModify has both `update` and `remove`, or neither.
fn has_both_or_none(command: &RawDoc<'_>) -> bool
    ensures { result ≡ both_or_none (is_among (codes "update") (names_of command.now.tree))
        (is_among (codes "remove") (names_of command.now.tree)) }
{
    if has_update(command) {
        has_remove(command)
    } else {
        !has_remove(command)
    }
}

/// Whether a command of a library lacks a field that it must have, or has two of which it must have one.
fn lacks_listed(listed: Listed, command: &RawDoc<'_>) -> bool
    ensures lacks { when result BadField ≡ command_lacks (Fields listed) (names_of command.now.tree) }
{
    match listed {
        Listed::Count => false,
        Listed::FindAndModify => has_both_or_none(command),
        Listed::Distinct => lacks_key(command),
        Listed::CreateIndexes => lacks_indexes(command),
        Listed::Index => false,
    }
}

/// Appends the marks of a command of a library in reading order, or tells the first value that is refused.
pub(crate) fn mark_listed(
    marks: &mut Marks,
    rows: &Rows,
    command: &RawDoc<'_>,
) -> Result<(), MarkFault>
    requires library { is_library_command command.now.tree ≡ true }
    ensures marked { MarksPlaces rows.now (command_visits rows.now command.now.start command.now.tree)
        marks.old marks.new result }
{
    let listed = library_name(command);
    if lacks_listed(listed, command) {
        return Err(MarkFault::Refused {
            reason: Reason::BadField,
            at: 0,
        });
    }
    mark_elements(marks, rows, CommandPlace::Fields(listed), command)
}

/// Appends the marks of a command in reading order, or tells the first value that is refused.
pub(crate) fn mark_contents(
    marks: &mut Marks,
    rows: &Rows,
    command: &RawDoc<'_>,
) -> Result<(), MarkFault>
    requires marked { is_marked_command command.now.tree ≡ true }
    ensures marked { MarksPlaces rows.now (command_visits rows.now command.now.start command.now.tree)
        marks.old marks.new result }
{
    let name = command_name(command);
    if lacks_required(name, command) {
        return Err(MarkFault::Refused {
            reason: Reason::BadField,
            at: 0,
        });
    }
    mark_elements(marks, rows, CommandPlace::Command(name), command)
}
