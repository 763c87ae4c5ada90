//! Values that are compared with the field of a rule, or with what stands at a path above some.

ghost use Rattle.std.specs.Prelude.{◌≡◌, None, Some, IfErr, IfOk};
ghost use Rattle.encrypt_schema.specs.Commands.Offences.{least, of_role};
ghost use Rattle.encrypt_schema.specs.Commands.Stations.{Compare, compared_with, is_random_field};
ghost use Rattle.encrypt_schema.specs.Commands.Visits.{entry};
ghost use Rattle.encrypt_schema.specs.Language.Policies.{is_random, policy_at};
ghost use Rattle.encrypt_schema.specs.Views.Walking.{station_next};
ghost use Rattle.filter_rules.specs.Places.{station_by};

use crate::places::FilterPlace;
use bson_codec::RawItem;
use bson_tree::types;
use encrypt_schema::{Algorithm, Next, Reason, Rows, Subject, type_allowed_under};

/// Whether the rule of this number, from 0, has the random algorithm.
#[tactic(auto, using(crate::proofs::Policies::random_found, crate::proofs::Policies::random_past))]
fn is_random(rows: &Rows, i: u32) -> bool
    ensures { result ≡ is_random (policy_at i rows.now).algorithm }
{
    match rows.policy(i) {
        Some(policy) => match policy.algorithm {
            Algorithm::Random => true,
            Algorithm::Deterministic => false,
        },
        None => true,
    }
}

/// Whether this is the field of a rule with the random algorithm.
pub fn is_random_field(rows: &Rows, subject: Subject) -> bool
    ensures random { result ≡ is_random_field rows.now subject }
{
    match subject {
        Subject::Field(i) => is_random(rows, i),
        Subject::Prefix => false,
    }
}

/// The least reason for which a value can't be compared under the rule of this number.
fn reason_under(rows: &Rows, i: u32, item: &RawItem<'_>) -> Option<Reason>
    ensures { result ≡ least (of_role rows.now (Compare i) (entry item.now.name item.now.tree)) }
{
    match type_allowed_under(rows, i, item) {
        Some(reason) => Some(reason),
        None => if is_random(rows, i) {
            Some(Reason::RandomCompared)
        } else if item.tag() == types::REGEX {
            Some(Reason::OperatorOnProtected)
        } else {
            None
        },
    }
}

/// A value that is compared with this; or the least reason for which it can't be.
pub(crate) fn judge_compared(
    rows: &Rows,
    subject: Subject,
    item: &RawItem<'_>,
) -> Result<Next<FilterPlace>, Reason>
    ensures station { IfOk result (λ next. station_next station_by rows.now next ≡ compared_with subject) }
    ensures clean { IfOk result (λ _.
        None ≡ least (of_role rows.now (compared_with subject) (entry item.now.name item.now.tree))) }
    ensures refused { IfErr result (λ reason.
        Some reason ≡ least (of_role rows.now (compared_with subject) (entry item.now.name item.now.tree))) }
{
    match subject {
        Subject::Field(i) => match reason_under(rows, i, item) {
            Some(reason) => Err(reason),
            None => Ok(Next::Compare(i)),
        },
        Subject::Prefix => {
            let tag = item.tag();
            if tag == types::DOCUMENT || tag == types::ARRAY {
                Err(Reason::PrefixCompared)
            } else {
                Ok(Next::Bare)
            }
        }
    }
}
