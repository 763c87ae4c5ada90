//! Filters, and the arrays of filters of `$and`, `$or`, `$nor`.

ghost use Rattle.std.specs.Prelude.{◌≡◌, List, ℕ, false, if◌then◌else◌, None, Some, IfErr, IfOk};
ghost use Rattle.encrypt_schema.specs.Commands.Offences.{least, of_role, ruled_offence};
ghost use Rattle.encrypt_schema.specs.Commands.Stations.{Cases, Filter, Test, compared_with};
ghost use Rattle.encrypt_schema.specs.Commands.Stations.{is_logical, is_operators, station};
ghost use Rattle.encrypt_schema.specs.Commands.Visits.{entry};
ghost use Rattle.encrypt_schema.specs.Paths.Dotted.{is_dollar};
ghost use Rattle.encrypt_schema.specs.Views.Walking.{station_next};
ghost use Rattle.filter_rules.specs.Places.{station_by};

use crate::compared::judge_compared;
use crate::names::{is_comment, is_logical};
use crate::operators::is_operators;
use crate::places::FilterPlace;
use bson_codec::RawItem;
use bson_tree::types;
use encrypt_schema::{Class, Next, Reason, Rows, Subject, is_dollar};

/// What an element of a filter is; or the least reason for which it is refused.
#[tactic(auto, unfolding(encrypt_schema::specs::Commands::Offences::ruled_offence))]
pub(crate) fn judge_filter(rows: &Rows, item: &RawItem<'_>) -> Result<Next<FilterPlace>, Reason>
    ensures station { IfOk result (λ next. station_next station_by rows.now next
        ≡ station rows.now Filter (entry item.now.name item.now.tree)) }
    ensures clean { IfOk result (λ _. (elder : List (List ℕ)) →
        None ≡ ruled_offence rows.now Filter elder (entry item.now.name item.now.tree)) }
    ensures refused { IfErr result (λ reason. (elder : List (List ℕ)) →
        Some reason ≡ ruled_offence rows.now Filter elder (entry item.now.name item.now.tree)) }
{
    let name = item.name();
    if is_logical(name) {
        if item.tag() == types::ARRAY {
            Ok(Next::Inside(FilterPlace::Cases))
        } else {
            Err(Reason::BadField)
        }
    } else if is_dollar(name) {
        if is_comment(name) {
            Ok(Next::Passed)
        } else {
            Err(Reason::FieldNotAllowed)
        }
    } else {
        judge_path(rows, item)
    }
}

/// The same of a name that is a dotted path.
#[tactic(auto, unfolding(encrypt_schema::specs::Commands::Offences::ruled_offence))]
fn judge_path(rows: &Rows, item: &RawItem<'_>) -> Result<Next<FilterPlace>, Reason>
    requires logical { is_logical item.now.name ≡ false }
    requires dollar { is_dollar item.now.name ≡ false }
    ensures station { IfOk result (λ next. station_next station_by rows.now next
        ≡ station rows.now Filter (entry item.now.name item.now.tree)) }
    ensures clean { IfOk result (λ _. (elder : List (List ℕ)) →
        None ≡ ruled_offence rows.now Filter elder (entry item.now.name item.now.tree)) }
    ensures refused { IfErr result (λ reason. (elder : List (List ℕ)) →
        Some reason ≡ ruled_offence rows.now Filter elder (entry item.now.name item.now.tree)) }
{
    let walk = rows.walk(item.name());
    if walk.positional {
        return Err(Reason::PositionalOnPath);
    }
    match rows.class(walk.at) {
        Class::Protected(i) => judge_tested(rows, Subject::Field(i), item),
        Class::Above => judge_tested(rows, Subject::Prefix, item),
        Class::Below => Err(Reason::BelowProtected),
        Class::Clear => Ok(Next::Passed),
    }
}

/// What a value is that is tested as this: an operator document, or one compared value; or the least reason for which
/// it is refused.
fn judge_tested(
    rows: &Rows,
    subject: Subject,
    item: &RawItem<'_>,
) -> Result<Next<FilterPlace>, Reason>
    ensures station { IfOk result (λ next. station_next station_by rows.now next
        ≡ if is_operators (entry item.now.name item.now.tree) then Test subject else compared_with subject) }
    ensures clean { IfOk result (λ _.
        None ≡ least (of_role rows.now
        (if is_operators (entry item.now.name item.now.tree) then Test subject else compared_with subject)
        (entry item.now.name item.now.tree))) }
    ensures refused { IfErr result (λ reason.
        Some reason ≡ least (of_role rows.now
        (if is_operators (entry item.now.name item.now.tree) then Test subject else compared_with subject)
        (entry item.now.name item.now.tree))) }
{
    if is_operators(item) {
        Ok(Next::Inside(FilterPlace::Test(subject)))
    } else {
        judge_compared(rows, subject, item)
    }
}

/// What an element of the array of `$and`, `$or`, `$nor` is; or the least reason for which it is refused.
#[tactic(auto, unfolding(encrypt_schema::specs::Commands::Offences::ruled_offence))]
pub(crate) fn judge_case(rows: &Rows, item: &RawItem<'_>) -> Result<Next<FilterPlace>, Reason>
    ensures station { IfOk result (λ next. station_next station_by rows.now next
        ≡ station rows.now Cases (entry item.now.name item.now.tree)) }
    ensures clean { IfOk result (λ _. (elder : List (List ℕ)) →
        None ≡ ruled_offence rows.now Cases elder (entry item.now.name item.now.tree)) }
    ensures refused { IfErr result (λ reason. (elder : List (List ℕ)) →
        Some reason ≡ ruled_offence rows.now Cases elder (entry item.now.name item.now.tree)) }
{
    if item.tag() == types::DOCUMENT {
        Ok(Next::Inside(FilterPlace::Filter))
    } else {
        Err(Reason::BadField)
    }
}
