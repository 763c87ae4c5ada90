//! The arguments of update operators other than `$set` and `$setOnInsert`.

ghost use Rattle.std.specs.Prelude.{◌≡◌, ℕ, List, None, Some, IfErr, IfOk};
ghost use Rattle.encrypt_schema.specs.Commands.Offences.{ruled_offence};
ghost use Rattle.encrypt_schema.specs.Commands.Stations.{Argument, station};
ghost use Rattle.encrypt_schema.specs.Commands.Visits.{entry};
ghost use Rattle.encrypt_schema.specs.Views.Walking.{StandsNext, station_next};
ghost use Rattle.update_rules.specs.UpdatePlaces.{UpdateStands, update_station};

use crate::paths::walk_plain;
use crate::place::UpdatePlace;
use crate::renames::refused_rename;
use bson_codec::RawItem;
use encrypt_schema::{Class, Next, Operator, Reason, Rows};

/// Why `$unset` of a dotted path is refused: a position on the way to a protected field, or a path below one.
#[tactic(auto, unfolding(encrypt_schema::specs::Commands::Offences::ruled_offence))]
fn refused_unset(rows: &Rows, item: &RawItem<'_>) -> Option<Reason>
    ensures reason { (elder : List (List ℕ))
        → result ≡ ruled_offence rows.now (Argument Operator.Unset) elder (entry item.now.name item.now.tree) }
{
    match walk_plain(rows, item.name()) {
        Ok(at) => match rows.class(at) {
            Class::Below => Some(Reason::BelowProtected),
            Class::Protected(_) => None,
            Class::Above => None,
            Class::Clear => None,
        },
        Err(reason) => Some(reason),
    }
}

/// Why another operator is refused on a dotted path: a position on the way to a protected field, or a path that
/// is a protected field's, or above or below one.
#[tactic(auto, unfolding(encrypt_schema::specs::Commands::Offences::ruled_offence))]
fn refused_other(rows: &Rows, item: &RawItem<'_>) -> Option<Reason>
    ensures reason { (elder : List (List ℕ))
        → result ≡ ruled_offence rows.now (Argument Operator.Other) elder (entry item.now.name item.now.tree) }
{
    match walk_plain(rows, item.name()) {
        Ok(at) => match rows.class(at) {
            Class::Clear => None,
            Class::Protected(_) => Some(Reason::OperatorOnProtected),
            Class::Above => Some(Reason::OperatorOnProtected),
            Class::Below => Some(Reason::OperatorOnProtected),
        },
        Err(reason) => Some(reason),
    }
}

/// Why an element of the argument of such an operator is refused.
fn refused_argument(rows: &Rows, operator: Operator, item: &RawItem<'_>) -> Option<Reason>
    ensures reason { (elder : List (List ℕ))
        → result ≡ ruled_offence rows.now (Argument operator) elder (entry item.now.name item.now.tree) }
{
    match operator {
        Operator::Unset => refused_unset(rows, item),
        Operator::Rename => refused_rename(rows, item),
        Operator::Other => refused_other(rows, item),
    }
}

/// What an element of the argument of such an operator is, which isn't looked into; or why it is refused.
pub(crate) fn judge_argument(
    rows: &Rows,
    operator: Operator,
    item: &RawItem<'_>,
) -> Result<Next<UpdatePlace>, Reason>
    ensures station { IfOk result (λ next. station_next update_station rows.now next
        ≡ station rows.now (Argument operator) (entry item.now.name item.now.tree)) }
    ensures stands { IfOk result (StandsNext UpdateStands rows.now) }
    ensures clean { IfOk result (λ _. (elder : List (List ℕ))
        → None ≡ ruled_offence rows.now (Argument operator) elder (entry item.now.name item.now.tree)) }
    ensures refused { IfErr result (λ reason. (elder : List (List ℕ))
        → Some reason ≡ ruled_offence rows.now (Argument operator) elder (entry item.now.name item.now.tree)) }
{
    match refused_argument(rows, operator, item) {
        Some(reason) => Err(reason),
        None => Ok(Next::Passed),
    }
}
