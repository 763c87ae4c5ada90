//! Commands with the marks of their protected values.

ghost use Rattle.std.specs.Prelude.{◌≡◌, None, Ok, false, true};
ghost use Rattle.encrypt_schema.specs.Commands.Visits.{content_verdict, roles};
ghost use Rattle.command_marker.specs.Commands.{MarksAs, MarksMore, TellsMarks, TellsMore, is_library_command};
ghost use Rattle.command_marker.specs.Commands.{is_marked_command, is_wide_command, passes};

use crate::checking::check_contents;
use crate::contents::{is_library, mark_contents, mark_listed};
use bson_codec::RawDoc;
use encrypt_schema::{MarkFault, Marks, Rows};
use std::alloc::Global;
use std::marker::Model;

/// A command under the rules of its collection, with the marks of its protected values.
#[derive(Drop)]
pub struct Marked<'a> {
    marks: Marks,
    command: RawDoc<'a>,
    rows: &'a Rows,
}

impl<'a> Model for Marked<'a> {
    ghost use Rattle.std.specs.Prelude.{◌≡◌, false};
    ghost use Rattle.encrypt_schema.specs.Commands.Visits.{content_verdict, roles};
    ghost use Rattle.command_marker.specs.Commands.{Command, passes};

    ghost Value = { Command };

    ghost use Rattle.std.specs.Prelude.{List, None, refl};
    ghost use Rattle.std.specs.Coded.{code_by, coded×};
    ghost use Rattle.bson_codec.specs.Borrowed.{At, coded_at};
    ghost use Rattle.encrypt_schema.specs.Language.Row.{Row};
    ghost use Rattle.encrypt_schema.specs.contracts.path.rows.Rows as rules;

    ghost coded = { code_by (List Row × At) (coded× rules.the_row.coded coded_at) (λ m. (m.rows, m.command))
        (λ p. record { rows = p.0; command = p.1 }) (λ _. refl) };

    ghost view = { λ m. record { rows = m.rows.now; command = m.command } };

    ghost invariant = { λ m. (m.marks ≡ roles m.rows.now m.command.start m.command.tree)
        × (content_verdict m.rows.now m.command.start m.command.tree ≡ None) × (passes m.command.tree ≡ false) };
}

impl<'a> Marked<'a> {
    /// The marks of the protected values, in reading order. None of the command's contents is refused.
    pub fn marks(&self) -> &Marks
        ensures marks { result.now ≡ roles self.now.rows self.now.command.start self.now.command.tree }
        ensures accepted { content_verdict self.now.rows self.now.command.start self.now.command.tree ≡ None }
    {
        &self.marks
    }

    /// The command, which doesn't pass unchanged.
    pub fn command(&self) -> RawDoc<'a>
        ensures command { result ≡ self.now.command }
        ensures marked { passes self.now.command.tree ≡ false }
    {
        self.command.again()
    }

    /// The rules.
    pub fn rows(&self) -> &'a Rows
        ensures rows { result.now ≡ self.now.rows }
    {
        self.rows
    }
}

/// Marks the protected values of a command under the rules of its collection; else the first place that is
/// refused, by the contents of the command. Without rules nothing is marked and nothing is refused.
///
/// The command is an insert, an update, a delete or a find, as `target` tells with `Target::Collection`; it may stand
/// inside another document. `Memory` may come at any time.
pub fn mark_command<'a>(
    alloc: Global,
    rows: &'a Rows,
    command: RawDoc<'a>,
) -> Result<Marked<'a>, MarkFault>
    requires marked { is_marked_command command.tree ≡ true }
    ensures marks { MarksAs rows.now command.entry result }
{
    match marks_of(alloc, rows, &command) {
        Ok(marks) => Ok(Marked {
            marks,
            command,
            rows,
        }),
        Err(fault) => Err(fault),
    }
}

/// Marks the protected values of a command that a library takes, as `is_wide` tells: by its contents alone, as
/// `mark_command` does. A library asks `mark_more` in its place before it sends anything.
pub fn mark_wide<'a>(
    alloc: Global,
    rows: &'a Rows,
    command: RawDoc<'a>,
) -> Result<Marked<'a>, MarkFault>
    requires wide { is_wide_command command.tree ≡ true }
    ensures marks { MarksAs rows.now command.entry result }
{
    match wide_marks(alloc, rows, &command) {
        Ok(marks) => Ok(Marked {
            marks,
            command,
            rows,
        }),
        Err(fault) => Err(fault),
    }
}

/// Marks the protected values of a command that a library takes: one of those, or a count, a findAndModify, a distinct
/// or a createIndexes, as `is_wide` tells; else the first place that is refused, by its contents, and if none is, the
/// first that a library refuses beyond these: of a field that isn't listed nothing is sent, and no value where none
/// belongs. Without rules nothing is marked and nothing is refused. `Memory` may come at any time.
pub fn mark_more<'a>(
    alloc: Global,
    rows: &'a Rows,
    command: RawDoc<'a>,
) -> Result<Marked<'a>, MarkFault>
    requires wide { is_wide_command command.tree ≡ true }
    ensures marks { MarksMore rows.now command.entry result }
{
    match more_marks(alloc, rows, &command) {
        Ok(marks) => Ok(Marked {
            marks,
            command,
            rows,
        }),
        Err(fault) => Err(fault),
    }
}

/// The marks of the protected values of such a command, if a library doesn't refuse its contents.
fn more_marks(alloc: Global, rows: &Rows, command: &RawDoc<'_>) -> Result<Marks, MarkFault>
    requires wide { is_wide_command command.now.tree ≡ true }
    ensures marks { TellsMore rows.now command.now result }
{
    match wide_marks(alloc, rows, command) {
        Ok(marks) => checked(rows, command, marks),
        Err(fault) => Err(fault),
    }
}

/// The marks of a command, if a library refuses nothing beyond its contents.
fn checked(rows: &Rows, command: &RawDoc<'_>, marks: Marks) -> Result<Marks, MarkFault>
    requires wide { is_wide_command command.now.tree ≡ true }
    requires marked { TellsMarks rows.now command.now (Ok marks) }
    ensures marks { TellsMore rows.now command.now result }
{
    match check_contents(rows, command) {
        Ok(()) => Ok(marks),
        Err(fault) => Err(fault),
    }
}

/// The marks of the protected values of such a command, if its contents aren't refused.
fn wide_marks(alloc: Global, rows: &Rows, command: &RawDoc<'_>) -> Result<Marks, MarkFault>
    requires wide { is_wide_command command.now.tree ≡ true }
    ensures marks { TellsMarks rows.now command.now result }
{
    if is_library(command) {
        return listed_marks(alloc, rows, command);
    }
    marks_of(alloc, rows, command)
}

/// The marks of the protected values of a command that a library alone takes.
fn listed_marks(alloc: Global, rows: &Rows, command: &RawDoc<'_>) -> Result<Marks, MarkFault>
    requires library { is_library_command command.now.tree ≡ true }
    ensures marks { TellsMarks rows.now command.now result }
{
    let mut marks = Marks::new(alloc);
    if rows.len() == 0 {
        return Ok(marks);
    }
    match mark_listed(&mut marks, rows, command) {
        Ok(()) => Ok(marks),
        Err(fault) => Err(fault),
    }
}

/// The marks of the protected values of a command.
fn marks_of(alloc: Global, rows: &Rows, command: &RawDoc<'_>) -> Result<Marks, MarkFault>
    requires marked { is_marked_command command.now.tree ≡ true }
    ensures marks { TellsMarks rows.now command.now result }
{
    let mut marks = Marks::new(alloc);
    if rows.len() == 0 {
        return Ok(marks);
    }
    match mark_contents(&mut marks, rows, command) {
        Ok(()) => Ok(marks),
        Err(fault) => Err(fault),
    }
}
