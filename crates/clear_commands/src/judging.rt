//! Whether a command passes that holds no value of a collection's fields.

ghost use Rattle.std.specs.Prelude.{◌≡◌, ◌+◌, [], take};
ghost use Rattle.encrypt_schema.specs.Commands.Offences.{least, unless};
ghost use Rattle.encrypt_schema.specs.Commands.Visits.{names_of};
ghost use Rattle.clear_commands.specs.ClearFields.{clear_kind};
ghost use Rattle.clear_commands.specs.ClearVerdicts.{JudgesClear, Refuses, clear_reasons, field_refusal};
ghost use Rattle.clear_commands.specs.ClearVerdicts.{fields_refusal, kind_reasons};

use crate::command::ClearCommand;
use crate::inside::{judge_inside, refused_at};
use crate::kind::ClearKind;
use crate::names::clear_command;
use crate::tables::clear_kind;
use crate::values::{is_branch, is_list};
use crate::verdict::{ClearVerdict, Refused};
use bson_codec::{RawDoc, RawItem, is_document, is_string};
use encrypt_schema::{Reason, stands_before};

/// A reason where a test doesn't hold.
fn unless(test: bool) -> Option<Reason>
    ensures { result ≡ least (unless test Reason.FieldNotAllowed) }
{
    if test {
        None
    } else {
        Some(Reason::FieldNotAllowed)
    }
}

/// Why a field doesn't hold what one of its kind holds.
fn kind_reason(kind: ClearKind, field: &RawItem<'_>) -> Option<Reason>
    ensures { result ≡ least (kind_reasons kind field.now.tree) }
{
    match kind {
        ClearKind::Word => unless(!is_branch(field)),
        ClearKind::Anything => None,
        ClearKind::Flat => unless(is_list(field)),
        ClearKind::Hint => unless(is_document(field) || is_string(field)),
        ClearKind::Own(_document) => unless(is_document(field)),
        ClearKind::Unlisted => Some(Reason::FieldNotAllowed),
    }
}

/// Why field `k` of a command, counted from 0, is refused, which holds this: it stands for the second time; else by
/// what it holds.
fn field_reason(
    kind: ClearKind,
    command: &RawDoc<'_>,
    k: usize,
    field: &RawItem<'_>,
) -> Option<Reason>
    ensures { result ≡ least (clear_reasons kind (take k (names_of command.now.tree)) field.now.name field.now.tree) }
{
    if stands_before(command, k, field.name()) {
        return Some(Reason::BadField);
    }
    kind_reason(kind, field)
}

/// What is refused of field `k` of a command, counted from 0, which holds this.
fn judge_field(
    kind: ClearKind,
    command: &RawDoc<'_>,
    k: usize,
    field: &RawItem<'_>,
) -> Result<(), Refused>
    ensures { Refuses (field_refusal kind (take k (names_of command.now.tree)) field.now.start field.now.name
        field.now.tree) result }
{
    if let Some(reason) = field_reason(kind, command, k, field) {
        return Err(refused_at(field, reason));
    }
    judge_inside(kind, field)
}

/// What is refused of a clear command that is called `own`.
fn judge_fields(clear: ClearCommand, own: &[u8], command: &RawDoc<'_>) -> Result<(), Refused>
    ensures { Refuses (fields_refusal clear own.now [] (command.now.start + 4) command.now.tree) result }
{
    let mut k = 0;
    for field in command.items() {
        let kind = clear_kind(clear, own, field.name());
        match judge_field(kind, command, k, &field) {
            Ok(()) => {
                k += 1;
            }
            Err(refused) => return Err(refused),
        }
    }
    Ok(())
}

/// Whether a command is one of those that hold no value of a collection's fields, by the name of its first field, and
/// then what it may have: `BadField` for a field that stands for the second time, `FieldNotAllowed` for one that isn't
/// listed, and for a value that none of its kind holds. The first that is refused is told, a field before what is in
/// it. The command may stand inside another document. It allocates nothing, and a field that is refused ends the walk,
/// so that no more fields are walked than are listed.
pub fn judge_clear(command: &RawDoc<'_>) -> ClearVerdict
    ensures judged { JudgesClear command.now result }
{
    let Some(first) = command.items().next() else {
        return ClearVerdict::NotClear;
    };
    let own = first.name();
    let Some(clear) = clear_command(own) else {
        return ClearVerdict::NotClear;
    };
    match judge_fields(clear, own, command) {
        Ok(()) => ClearVerdict::Clear,
        Err(refused) => ClearVerdict::Refused {
            reason: refused.reason,
            at: refused.at,
        },
    }
}
