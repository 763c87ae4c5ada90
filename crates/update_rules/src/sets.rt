//! The arguments of `$set` and `$setOnInsert`.

ghost use Rattle.std.specs.Prelude.{◌≡◌, ℕ, List, None, Some, IfErr, IfOk};
ghost use Rattle.encrypt_schema.specs.Commands.Offences.{ruled_offence};
ghost use Rattle.encrypt_schema.specs.Commands.Stations.{Sets, station};
ghost use Rattle.encrypt_schema.specs.Commands.Visits.{entry};
ghost use Rattle.encrypt_schema.specs.Views.Walking.{StandsNext, station_next};
ghost use Rattle.update_rules.specs.UpdatePlaces.{UpdateStands, update_station};

use crate::documents::{judge_above, judge_protected};
use crate::paths::walk_plain;
use crate::place::UpdatePlace;
use bson_codec::RawItem;
use encrypt_schema::{Class, Next, Reason, Rows};

/// What an element of the argument is, which is stored at its dotted path; or why it is refused: a position on the
/// way to a protected field, a value that its rule doesn't allow, an array on the way to a protected field, a path
/// below one.
#[tactic(auto, unfolding(crate::proofs::Offences::ruled_offence), using(crate::proofs::Offences::above))]
pub(crate) fn judge_set(rows: &Rows, item: &RawItem<'_>) -> Result<Next<UpdatePlace>, Reason>
    ensures station { IfOk result (λ next. station_next update_station rows.now next
        ≡ station rows.now Sets (entry item.now.name item.now.tree)) }
    ensures stands { IfOk result (StandsNext UpdateStands rows.now) }
    ensures clean { IfOk result (λ _. (elder : List (List ℕ)) → None
        ≡ ruled_offence rows.now Sets elder (entry item.now.name item.now.tree)) }
    ensures refused { IfErr result (λ reason. (elder : List (List ℕ)) → Some reason
        ≡ ruled_offence rows.now Sets elder (entry item.now.name item.now.tree)) }
{
    match walk_plain(rows, item.name()) {
        Ok(at) => match rows.class(at) {
            Class::Protected(i) => judge_protected(rows, i, item),
            Class::Above => judge_above(at, item),
            Class::Below => Err(Reason::BelowProtected),
            Class::Clear => Ok(Next::Passed),
        },
        Err(reason) => Err(reason),
    }
}
