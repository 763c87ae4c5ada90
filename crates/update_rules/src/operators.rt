//! Updates with operators.

ghost use Rattle.std.specs.Prelude.{◌≡◌, ℕ, List, None, Some, IfErr, IfOk};
ghost use Rattle.encrypt_schema.specs.Language.Row.{Row};
ghost use Rattle.encrypt_schema.specs.Commands.Offences.{ruled_offence};
ghost use Rattle.encrypt_schema.specs.Commands.Stations.{Operators, is_set, operator_of, station};
ghost use Rattle.encrypt_schema.specs.Commands.Visits.{entry};
ghost use Rattle.encrypt_schema.specs.Views.Walking.{StandsNext, station_next};
ghost use Rattle.update_rules.specs.UpdatePlaces.{UpdateStands, update_station};

use crate::place::UpdatePlace;
use bson_codec::RawItem;
use bson_tree::types;
use encrypt_schema::{Next, Operator, Reason, is_dollar, is_named};

/// Whether an operator is `$set` or `$setOnInsert`.
#[tactic(auto, unfolding(encrypt_schema::specs::Commands::Stations::is_set))]
fn is_set(name: &[u8]) -> bool
    ensures set { result ≡ is_set name.now }
{
    is_named(name, b"$set") || is_named(name, b"$setOnInsert")
}

/// Another operator, by its name.
#[tactic(auto, unfolding(encrypt_schema::specs::Commands::Stations::operator_of))]
fn operator_of(name: &[u8]) -> Operator
    ensures operator { result ≡ operator_of name.now }
{
    if is_named(name, b"$unset") {
        return Operator::Unset;
    }
    if is_named(name, b"$rename") {
        return Operator::Rename;
    }
    Operator::Other
}

/// What an operator's argument is; or why the operator is refused: its name doesn't begin with a dollar sign, or
/// its argument is no document.
#[tactic(auto, unfolding(crate::proofs::Offences::ruled_offence), using(crate::proofs::Reasons::operator_reasons))]
pub(crate) fn judge_operator(item: &RawItem<'_>) -> Result<Next<UpdatePlace>, Reason>
    ensures station { IfOk result (λ next. (rows : List Row) → station_next update_station rows next
        ≡ station rows Operators (entry item.now.name item.now.tree)) }
    ensures stands { IfOk result (λ next. (rows : List Row) → StandsNext UpdateStands rows next) }
    ensures clean { IfOk result (λ _. (rows : List Row) (elder : List (List ℕ)) → None
        ≡ ruled_offence rows Operators elder (entry item.now.name item.now.tree)) }
    ensures refused { IfErr result (λ reason. (rows : List Row) (elder : List (List ℕ)) → Some reason
        ≡ ruled_offence rows Operators elder (entry item.now.name item.now.tree)) }
{
    let name = item.name();
    if !is_dollar(name) || item.tag() != types::DOCUMENT {
        return Err(Reason::BadField);
    }
    if is_set(name) {
        return Ok(Next::Inside(UpdatePlace::Sets));
    }
    Ok(Next::Inside(UpdatePlace::Argument(operator_of(name))))
}
