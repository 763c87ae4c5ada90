//! Documents of which each field is listed: the commands that a library takes, and indexes.

ghost use Rattle.std.specs.Prelude.{◌≡◌, ◌==◌, ◌++◌, ◌||◌, true, false, MatchResult, Ok, Err, take, if◌then◌else◌};
ghost use Rattle.bson_tree.specs.Tree.{tag_of};
ghost use Rattle.encrypt_schema.specs.Commands.Offences.{is_comparable, least, path_wrong, positional_path, unless};
ghost use Rattle.encrypt_schema.specs.Commands.Stations.{Fields, dotted};
ghost use Rattle.encrypt_schema.specs.Commands.Visits.{entry, names_of};
ghost use Rattle.encrypt_schema.specs.Paths.Dotted.{positional, split};
ghost use Rattle.encrypt_schema.specs.declared.command.walking.Next.TheVariants as nexts;
ghost use Rattle.command_marker.specs.Places.{Holds, Judges, hint_answer, inside_if};

use crate::fields::stands_again;
use crate::items::change_place;
use crate::kinds::field_kind;
use crate::owned::is_branch;
use crate::places::CommandPlace;
use bson_codec::{RawDoc, RawItem};
use bson_tree::types;
use encrypt_schema::{Class, FieldKind, Listed, Next, Reason, Rows, Subject};
use filter_rules::{FilterPlace, is_random_field};

/// A document at this place; or the reason for which a value of another type is refused.
fn inside_document(
    place: CommandPlace,
    reason: Reason,
    item: &RawItem<'_>,
) -> Result<Next<CommandPlace>, Reason>
    ensures { result ≡ inside_if (tag_of item.now.tree == 3) place reason }
{
    if item.tag() == types::DOCUMENT {
        Ok(Next::Inside(place))
    } else {
        Err(reason)
    }
}

/// The array `indexes`.
fn inside_indexes(item: &RawItem<'_>) -> Result<Next<CommandPlace>, Reason>
    ensures { result ≡ inside_if (tag_of item.now.tree == 4) CommandPlace.Indexes Reason.BadField }
{
    if item.tag() == types::ARRAY {
        Ok(Next::Inside(CommandPlace::Indexes))
    } else {
        Err(Reason::BadField)
    }
}

/// A hint: the keys of an index, or its name.
fn judge_hint(item: &RawItem<'_>) -> Result<Next<CommandPlace>, Reason>
    ensures { result ≡ hint_answer (tag_of item.now.tree == 3) (tag_of item.now.tree == 2) }
{
    if item.tag() == types::DOCUMENT {
        return Ok(Next::Inside(CommandPlace::IndexKeys));
    }
    if item.tag() == types::STRING {
        return Ok(Next::Passed);
    }
    Err(Reason::FieldNotAllowed)
}

/// One value, which is no document and no array.
fn judge_word(item: &RawItem<'_>) -> Result<Next<CommandPlace>, Reason>
    ensures { result ≡ (if (tag_of item.now.tree == 3) || (tag_of item.now.tree == 4) then Err Reason.FieldNotAllowed
        else Ok nexts.Passed) }
{
    if is_branch(item) {
        Err(Reason::FieldNotAllowed)
    } else {
        Ok(Next::Passed)
    }
}

/// An update, or a document in the place of the stored one.
fn judge_update(rows: &Rows, item: &RawItem<'_>) -> Result<Next<CommandPlace>, Reason>
    ensures judged { Holds rows.now FieldKind.Update (entry item.now.name item.now.tree) result }
{
    if item.tag() == types::ARRAY {
        return Err(Reason::Pipeline);
    }
    if item.tag() == types::DOCUMENT {
        let update = change_place(rows, item);
        return Ok(Next::Inside(CommandPlace::Update(update)));
    }
    Err(Reason::BadField)
}

/// Whether a distinct may compare the values of a field of this class: by what they are sealed to, where they are.
fn is_comparable(rows: &Rows, class: Class) -> bool
    ensures { result ≡ is_comparable rows.now class }
{
    match class {
        Class::Clear => true,
        Class::Protected(i) => !is_random_field(rows, Subject::Field(i)),
        Class::Above => false,
        Class::Below => false,
    }
}

/// The class of a dotted path; `PositionalOnPath` where a component is a position in an array on the way to a protected
/// field.
fn plain_class(rows: &Rows, path: &[u8]) -> Result<Class, Reason>
    ensures class { MatchResult result
        (λ class. (positional rows.now (split path.now) ≡ false) × (class ≡ dotted rows.now path.now))
        (λ reason. (positional rows.now (split path.now) ≡ true) × (reason ≡ Reason.PositionalOnPath)) }
{
    let walk = rows.walk(path);
    if walk.positional {
        return Err(Reason::PositionalOnPath);
    }
    Ok(rows.class(walk.at))
}

/// Why the text of a distinct's path is refused.
fn refused_text(rows: &Rows, path: &[u8]) -> Option<Reason>
    ensures reason { result ≡ least (positional_path rows.now path.now
        ++ unless (is_comparable rows.now (dotted rows.now path.now)) Reason.BelowProtected) }
{
    match plain_class(rows, path) {
        Ok(class) => if is_comparable(rows, class) {
            None
        } else {
            Some(Reason::BelowProtected)
        },
        Err(reason) => Some(reason),
    }
}

/// Why the path of a distinct is refused.
#[tactic(auto, using(crate::proofs::Held::path_text, crate::proofs::Held::path_other))]
fn refused_path(rows: &Rows, item: &RawItem<'_>) -> Option<Reason>
    ensures reason { result ≡ least (path_wrong rows.now (entry item.now.name item.now.tree)) }
{
    match item.text() {
        Some(path) => refused_text(rows, path),
        None => Some(Reason::BadField),
    }
}

/// The path of a distinct.
fn judge_path(rows: &Rows, item: &RawItem<'_>) -> Result<Next<CommandPlace>, Reason>
    ensures judged { Holds rows.now FieldKind.Path (entry item.now.name item.now.tree) result }
{
    match refused_path(rows, item) {
        Some(reason) => Err(reason),
        None => Ok(Next::Passed),
    }
}

/// Judges a listed field, by what it holds.
fn judge_held(
    kind: FieldKind,
    rows: &Rows,
    item: &RawItem<'_>,
) -> Result<Next<CommandPlace>, Reason>
    ensures judged { Holds rows.now kind (entry item.now.name item.now.tree) result }
{
    match kind {
        FieldKind::Filter => {
            let filter = CommandPlace::Filter(FilterPlace::Filter);
            inside_document(filter, Reason::BadField, item)
        }
        FieldKind::Update => judge_update(rows, item),
        FieldKind::Keys => inside_document(CommandPlace::Keys, Reason::BadField, item),
        FieldKind::IndexKeys => inside_document(CommandPlace::IndexKeys, Reason::BadField, item),
        FieldKind::Hint => judge_hint(item),
        FieldKind::Path => judge_path(rows, item),
        FieldKind::Indexes => inside_indexes(item),
        FieldKind::Own(own) => inside_document(
            CommandPlace::Own(own),
            Reason::FieldNotAllowed,
            item,
        ),
        FieldKind::Word => judge_word(item),
        FieldKind::Unlisted => Err(Reason::FieldNotAllowed),
    }
}

/// Judges field `k` of a document of which each field is listed.
pub(crate) fn judge_listed(
    listed: Listed,
    rows: &Rows,
    document: &RawDoc<'_>,
    k: usize,
    item: &RawItem<'_>,
) -> Result<Next<CommandPlace>, Reason>
    ensures judged { Judges rows.now (Fields listed) (take k (names_of document.now.tree))
        (entry item.now.name item.now.tree) result }
{
    if stands_again(document, k, item) {
        return Err(Reason::BadField);
    }
    let kind = field_kind(listed, item.name());
    judge_held(kind, rows, item)
}
