//! Which command it is, on which collection.

ghost use Rattle.std.specs.Prelude.{◌≡◌, ◌||◌, ◌&&◌, not, true, false};
ghost use Rattle.encrypt_schema.specs.Language.Names.{named};
ghost use Rattle.encrypt_schema.specs.Commands.Offences.{is_empty, is_string, least, text_of};
ghost use Rattle.encrypt_schema.specs.Commands.Visits.{entry, raw_of};
ghost use Rattle.command_marker.specs.Commands.{AimsAt, AimsMore, Refuses};
ghost use Rattle.command_marker.specs.Fields.{first_more, first_reasons, later_reasons, later_refusal};

use crate::destination::Target;
use crate::names::{is_db, is_marked, is_passed, is_wide_name};
use bson_codec::{RawDoc, RawItem, RawIter};
use bson_tree::types;
use encrypt_schema::{MarkFault, Reason, is_named};

/// Where a command on this database goes; else the first of its fields that is refused, by themselves:
/// `NotACommand` for no field and for a name that isn't known, `BadField` for a collection's name that is no
/// string or the empty one, for the command's name again, for `$db` again and for a `$db` that is no string,
/// and `WrongDb` for another database. `Target::Pass` exactly for the commands that pass unchanged, whose other fields
/// nothing looks at, `$db` among them. Whether the collection is a view is the caller's to ask. The command may stand
/// inside another document. It allocates nothing, and never tells `Memory`.
pub fn target<'a>(db: &[u8], command: &RawDoc<'a>) -> Result<Target<'a>, MarkFault>
    ensures aims { AimsAt db.now command.now result }
{
    let mut fields = command.items();
    let Some(first) = fields.next() else {
        return Err(MarkFault::Refused {
            reason: Reason::NotACommand,
            at: 0,
        });
    };
    let name = first.name();
    if is_passed(name) {
        return Ok(Target::Pass);
    }
    let _ = first.value();
    if let Some(reason) = first_reason(&first) {
        return Err(MarkFault::Refused {
            reason,
            at: first.start() as u32,
        });
    }
    match check_fields(db, name, fields) {
        Ok(()) => Ok(Target::Collection(name_in(&first))),
        Err(fault) => Err(fault),
    }
}

/// The same of a command that a library takes, which also knows a count, a findAndModify, a distinct and a
/// createIndexes.
pub fn target_more<'a>(db: &[u8], command: &RawDoc<'a>) -> Result<Target<'a>, MarkFault>
    ensures aims { AimsMore db.now command.now result }
{
    let mut fields = command.items();
    let Some(first) = fields.next() else {
        return Err(MarkFault::Refused {
            reason: Reason::NotACommand,
            at: 0,
        });
    };
    let name = first.name();
    if is_passed(name) {
        return Ok(Target::Pass);
    }
    let _ = first.value();
    if let Some(reason) = first_more(&first) {
        return Err(MarkFault::Refused {
            reason,
            at: first.start() as u32,
        });
    }
    match check_fields(db, name, fields) {
        Ok(()) => Ok(Target::Collection(name_in(&first))),
        Err(fault) => Err(fault),
    }
}

/// Why a library refuses the first field of a command that doesn't pass.
fn first_more(field: &RawItem<'_>) -> Option<Reason>
    ensures { result ≡ least (first_more (entry field.now.name field.now.tree)) }
{
    if !is_wide_name(field.name()) {
        return Some(Reason::NotACommand);
    }
    if names_nothing(field) {
        return Some(Reason::BadField);
    }
    None
}

/// Why the first field of a command that doesn't pass is refused.
fn first_reason(field: &RawItem<'_>) -> Option<Reason>
    ensures { result ≡ least (first_reasons (entry field.now.name field.now.tree)) }
{
    if !is_marked(field.name()) {
        return Some(Reason::NotACommand);
    }
    if names_nothing(field) {
        return Some(Reason::BadField);
    }
    None
}

/// The first refusal of the later fields of a command of this name, on this database.
fn check_fields(db: &[u8], command: &[u8], fields: RawIter<'_>) -> Result<(), MarkFault>
    ensures { Refuses (later_refusal db.now command.now false fields.entry.start fields.entry.tree) result }
{
    let mut seen = false;
    for field in fields {
        let _ = field.value();
        if let Some(reason) = later_reason(db, command, seen, &field) {
            return Err(MarkFault::Refused {
                reason,
                at: field.start() as u32,
            });
        }
        seen = seen || is_db(field.name());
    }
    Ok(())
}

/// Why a later field of a command of this name is refused, where `$db` was seen before or not.
#[tactic(auto, using(crate::proofs::Targets::least_later))]
fn later_reason(db: &[u8], command: &[u8], seen: bool, field: &RawItem<'_>) -> Option<Reason>
    ensures { result ≡ least (later_reasons db.now command.now seen (entry field.now.name field.now.tree)) }
{
    let name = field.name();
    let string = field.tag() == types::STRING;
    if is_named(name, command) || (is_db(name) && (seen || !string)) {
        return Some(Reason::BadField);
    }
    if is_db(name) && names_another(field, db) {
        return Some(Reason::WrongDb);
    }
    None
}

/// The text of a field that is a string.
#[tactic(auto, using(crate::proofs::Targets::text_found))]
fn name_in<'a>(field: &RawItem<'a>) -> &'a [u8]
    requires { is_string (entry field.now.name field.now.tree) ≡ true }
    ensures text { result.now ≡ text_of (raw_of field.now.tree) }
{
    match field.text() {
        Some(text) => text,
        None => unreachable!(),
    }
}

/// Whether a field is no string, or the empty one.
#[tactic(auto, using(crate::proofs::Targets::empty_found, crate::proofs::Targets::empty_none))]
fn names_nothing(field: &RawItem<'_>) -> bool
    ensures { result ≡ (not (is_string (entry field.now.name field.now.tree)) || is_empty
        (text_of (raw_of field.now.tree))) }
{
    match field.text() {
        Some(text) => is_empty(text),
        None => true,
    }
}

/// Whether a field is a string that isn't this name.
#[tactic(auto, using(crate::proofs::Targets::other_found, crate::proofs::Targets::other_none))]
fn names_another(field: &RawItem<'_>, word: &[u8]) -> bool
    ensures { result ≡ (is_string (entry field.now.name field.now.tree) && not
        (named (text_of (raw_of field.now.tree)) word.now)) }
{
    match field.text() {
        Some(text) => !is_named(text, word),
        None => false,
    }
}

/// Whether there is no byte.
pub(crate) fn is_empty(bytes: &[u8]) -> bool
    ensures { result ≡ is_empty bytes.now }
{
    match bytes {
        [] => true,
        _ => false,
    }
}
