//! The marks of stored documents and of updates.

ghost use Rattle.std.specs.Prelude.{◌≡◌, ℕ, List};
ghost use Rattle.encrypt_schema.specs.Paths.Classes.{class};
ghost use Rattle.encrypt_schema.specs.Commands.Stations.{Document, is_dollar_first, update_of};
ghost use Rattle.encrypt_schema.specs.Commands.Visits.{names_of, part_visits};
ghost use Rattle.encrypt_schema.specs.Views.Cursors.{Stands};
ghost use Rattle.encrypt_schema.specs.Views.Walking.{Begins, MarksPlaces};
ghost use Rattle.update_rules.specs.UpdatePlaces.{UpdateStands, update_station};

use crate::place::UpdatePlace;
use bson_codec::RawDoc;
use encrypt_schema::{Class, Cursor, MarkFault, Marks, Rows, is_dollar, mark_elements};

/// Appends the marks of a stored document, or of a part of one, at this cursor, in reading order; or tells the
/// first value that is refused. Offsets count from where those of the document do.
///
/// The cursor is of these rules, and its class is Above, so that there are rules. With `Refused` and `Memory`
/// too the marks begin with those that were there before.
#[tactic(auto, using(crate::proofs::Offences::above))]
pub fn mark_document(
    marks: &mut Marks,
    rows: &Rows,
    at: Cursor,
    document: &RawDoc<'_>,
) -> Result<(), MarkFault>
    requires above { (path : List (List ℕ)) × Stands rows.now at path × (class rows.now path ≡ Class.Above) }
    ensures marked { (path : List (List ℕ)) → Stands rows.now at path → class rows.now path ≡ Class.Above
        → MarksPlaces rows.now (part_visits rows.now (Document path) document.now.start document.now.tree)
        marks.old marks.new result }
    ensures kept { Begins marks.old marks.new }
{
    mark_elements(marks, rows, UpdatePlace::Document(at), document)
}

/// Whether the first name of a document begins with a dollar sign.
fn is_dollar_first(document: &RawDoc<'_>) -> bool
    ensures dollar { result ≡ is_dollar_first (names_of document.now.tree) }
{
    match document.items().next() {
        Some(item) => is_dollar(item.name()),
        None => false,
    }
}

/// What an update is: one with operators where its first name begins with a dollar sign; else, also where it is
/// empty, a document that replaces the stored one.
pub fn update_place(rows: &Rows, update: &RawDoc<'_>) -> UpdatePlace
    ensures station { update_station result rows.now ≡ update_of (names_of update.now.tree) }
    ensures stands { UpdateStands result rows.now }
{
    if is_dollar_first(update) {
        UpdatePlace::Operators
    } else {
        UpdatePlace::Document(rows.root())
    }
}

/// Appends the marks of an update in reading order, or tells the first value that is refused. Offsets count from
/// where those of the update do. With `Refused` and `Memory` too the marks begin with those that were there
/// before.
///
/// An update without rules isn't judged, so the caller passes it by: what is no operator beside an operator is
/// refused here whatever the rules.
pub fn mark_update(marks: &mut Marks, rows: &Rows, update: &RawDoc<'_>) -> Result<(), MarkFault>
    ensures marked { MarksPlaces rows.now
        (part_visits rows.now (update_of (names_of update.now.tree)) update.now.start update.now.tree)
        marks.old marks.new result }
    ensures kept { Begins marks.old marks.new }
{
    mark_elements(marks, rows, update_place(rows, update), update)
}
