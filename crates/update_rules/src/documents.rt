//! Stored documents.

ghost use Rattle.std.specs.Prelude.{◌≡◌, ℕ, List, None, Some, IfErr, IfOk, if◌then◌else◌};
ghost use Rattle.encrypt_schema.specs.Commands.Offences.{least, ruled_offence, stored, when};
ghost use Rattle.encrypt_schema.specs.Commands.Stations.{Document, is_array, is_document, station};
ghost use Rattle.encrypt_schema.specs.Commands.Visits.{entry};
ghost use Rattle.encrypt_schema.specs.Views.Cursors.{StandsForPath, path_of};
ghost use Rattle.encrypt_schema.specs.Views.Walking.{StandsNext, station_next};
ghost use Rattle.update_rules.specs.UpdatePlaces.{UpdateStands, update_station};

use crate::place::UpdatePlace;
use bson_codec::RawItem;
use bson_tree::types;
use encrypt_schema::{Class, Cursor, Next, Reason, Rows, type_allowed_under};

/// What a value is at the path of the rule of this number; or why the rule doesn't allow it.
pub(crate) fn judge_protected(
    rows: &Rows,
    i: u32,
    item: &RawItem<'_>,
) -> Result<Next<UpdatePlace>, Reason>
    ensures next { IfOk result (λ next. next ≡ Next.Store i) }
    ensures clean { IfOk result (λ _. None ≡ least (stored rows.now i (entry item.now.name item.now.tree))) }
    ensures refused { IfErr result (λ reason. Some reason
        ≡ least (stored rows.now i (entry item.now.name item.now.tree))) }
{
    match type_allowed_under(rows, i, item) {
        Some(reason) => Err(reason),
        None => Ok(Next::Store(i)),
    }
}

/// What a value is at a path above protected fields, for which this cursor stands: a document is looked into, and
/// an array is refused.
pub(crate) fn judge_above(at: Cursor, item: &RawItem<'_>) -> Result<Next<UpdatePlace>, Reason>
    ensures next { IfOk result (λ next. next
        ≡ (if is_document (entry item.now.name item.now.tree)
        then Next.Inside (UpdatePlace.Document at) else Next.Passed)) }
    ensures clean { IfOk result (λ _. None
        ≡ least (when (is_array (entry item.now.name item.now.tree)) Reason.ArrayOnPath)) }
    ensures refused { IfErr result (λ reason. Some reason
        ≡ least (when (is_array (entry item.now.name item.now.tree)) Reason.ArrayOnPath)) }
{
    match item.tag() {
        types::DOCUMENT => Ok(Next::Inside(UpdatePlace::Document(at))),
        types::ARRAY => Err(Reason::ArrayOnPath),
        _ => Ok(Next::Passed),
    }
}

/// What an element of a stored document at this path is; or why it is refused: a value that its rule doesn't
/// allow, and an array on the way to a protected field.
#[tactic(auto, unfolding(crate::proofs::Offences::ruled_offence), using(crate::proofs::Offences::above))]
pub(crate) fn judge_document(
    rows: &Rows,
    at: Cursor,
    item: &RawItem<'_>,
) -> Result<Next<UpdatePlace>, Reason>
    requires cursor { StandsForPath rows.now at }
    ensures station { IfOk result (λ next. station_next update_station rows.now next
        ≡ station rows.now (Document (path_of rows.now at)) (entry item.now.name item.now.tree)) }
    ensures stands { IfOk result (StandsNext UpdateStands rows.now) }
    ensures clean { IfOk result (λ _. (elder : List (List ℕ)) → None
        ≡ ruled_offence rows.now (Document (path_of rows.now at)) elder (entry item.now.name item.now.tree)) }
    ensures refused { IfErr result (λ reason. (elder : List (List ℕ)) → Some reason
        ≡ ruled_offence rows.now (Document (path_of rows.now at)) elder (entry item.now.name item.now.tree)) }
{
    let next = rows.step(at, item.name());
    match rows.class(next) {
        Class::Protected(i) => judge_protected(rows, i, item),
        Class::Above => judge_above(next, item),
        Class::Below => Ok(Next::Passed),
        Class::Clear => Ok(Next::Passed),
    }
}
