//! What is refused inside a field.

ghost use Rattle.std.specs.Prelude.{◌≡◌, ◌+◌};
ghost use Rattle.bson_tree.specs.Tree.{kids_of};
ghost use Rattle.clear_commands.specs.ClearVerdicts.{Refuses, elements_refusal, inside_refusal};

use crate::elements::may_stand;
use crate::kind::{ClearDocument, ClearKind};
use crate::verdict::Refused;
use bson_codec::{RawDoc, RawItem};
use encrypt_schema::Reason;

/// The refusal of an item for this reason.
pub(crate) fn refused_at(item: &RawItem<'_>, reason: Reason) -> Refused
    ensures { result ≡ record { reason = reason; at = item.now.start } }
{
    let _ = item.value();
    Refused {
        reason,
        at: item.start() as u32,
    }
}

/// The first element that may not stand in such a document.
fn judge_elements(document: ClearDocument, inside: &RawDoc<'_>) -> Result<(), Refused>
    ensures { Refuses (elements_refusal document (inside.now.start + 4) inside.now.tree) result }
{
    for item in inside.items() {
        if !may_stand(document, &item) {
            return Err(refused_at(&item, Reason::FieldNotAllowed));
        }
    }
    Ok(())
}

/// The first element of a value that may not stand in such a document.
fn judge_document(document: ClearDocument, item: &RawItem<'_>) -> Result<(), Refused>
    ensures { Refuses (elements_refusal document (item.now.start + 4) (kids_of item.now.tree)) result }
{
    match item.child() {
        Some(inside) => judge_elements(document, &inside),
        None => Ok(()),
    }
}

/// What is refused inside a field that holds this.
pub(crate) fn judge_inside(kind: ClearKind, field: &RawItem<'_>) -> Result<(), Refused>
    ensures { Refuses (inside_refusal kind field.now.start field.now.tree) result }
{
    match kind {
        ClearKind::Hint => judge_document(ClearDocument::IndexKeys, field),
        ClearKind::Own(document) => judge_document(document, field),
        ClearKind::Word => Ok(()),
        ClearKind::Anything => Ok(()),
        ClearKind::Flat => Ok(()),
        ClearKind::Unlisted => Ok(()),
    }
}
