//! Operator documents, and the arrays of `$in` and `$nin`.

ghost use Rattle.std.specs.Prelude.{◌≡◌, List, ℕ, true, false, codes, None, Some, IfErr, IfOk};
ghost use Rattle.encrypt_schema.specs.Commands.Offences.{ruled_offence};
ghost use Rattle.encrypt_schema.specs.Commands.Stations.{Elements, Test, is_dollar_first, is_equality};
ghost use Rattle.encrypt_schema.specs.Commands.Stations.{is_membership, is_operators, station};
ghost use Rattle.encrypt_schema.specs.Commands.Visits.{entry, names_of};
ghost use Rattle.encrypt_schema.specs.Language.Names.{named};
ghost use Rattle.encrypt_schema.specs.Views.Walking.{station_next};
ghost use Rattle.filter_rules.specs.Places.{station_by};

use crate::compared::{is_random_field, judge_compared};
use crate::names::{is_equality, is_exists, is_membership, is_not};
use crate::places::FilterPlace;
use bson_codec::{RawDoc, RawItem};
use bson_tree::types;
use encrypt_schema::{Next, Reason, Rows, Subject, is_dollar};

/// Whether the first name of a document begins with a dollar sign.
fn is_dollar_first(document: &RawDoc<'_>) -> bool
    ensures { result ≡ is_dollar_first (names_of document.now.tree) }
{
    match document.items().next() {
        Some(item) => is_dollar(item.name()),
        None => false,
    }
}

/// Whether a value is an operator document: a document whose first name begins with a dollar sign.
pub(crate) fn is_operators(item: &RawItem<'_>) -> bool
    ensures { result ≡ is_operators (entry item.now.name item.now.tree) }
{
    match item.child() {
        Some(document) => is_dollar_first(&document) && item.tag() == types::DOCUMENT,
        None => false,
    }
}

/// What an element of an operator document is that is applied to this; or the least reason for which it is refused.
#[tactic(auto, unfolding(encrypt_schema::specs::Commands::Offences::ruled_offence))]
pub(crate) fn judge_test(
    rows: &Rows,
    subject: Subject,
    item: &RawItem<'_>,
) -> Result<Next<FilterPlace>, Reason>
    ensures station { IfOk result (λ next. station_next station_by rows.now next
        ≡ station rows.now (Test subject) (entry item.now.name item.now.tree)) }
    ensures clean { IfOk result (λ _. (elder : List (List ℕ)) →
        None ≡ ruled_offence rows.now (Test subject) elder (entry item.now.name item.now.tree)) }
    ensures refused { IfErr result (λ reason. (elder : List (List ℕ)) →
        Some reason ≡ ruled_offence rows.now (Test subject) elder (entry item.now.name item.now.tree)) }
{
    let name = item.name();
    if is_equality(name) {
        judge_compared(rows, subject, item)
    } else if is_membership(name) {
        judge_membership(rows, subject, item)
    } else if is_not(name) {
        judge_not(rows, subject, item)
    } else if is_exists(name) {
        Ok(Next::Passed)
    } else {
        Err(Reason::OperatorOnProtected)
    }
}

/// The same of `$in`, `$nin`.
#[tactic(auto, unfolding(encrypt_schema::specs::Commands::Offences::ruled_offence))]
fn judge_membership(
    rows: &Rows,
    subject: Subject,
    item: &RawItem<'_>,
) -> Result<Next<FilterPlace>, Reason>
    requires equality { is_equality item.now.name ≡ false }
    requires membership { is_membership item.now.name ≡ true }
    ensures station { IfOk result (λ next. station_next station_by rows.now next
        ≡ station rows.now (Test subject) (entry item.now.name item.now.tree)) }
    ensures clean { IfOk result (λ _. (elder : List (List ℕ)) →
        None ≡ ruled_offence rows.now (Test subject) elder (entry item.now.name item.now.tree)) }
    ensures refused { IfErr result (λ reason. (elder : List (List ℕ)) →
        Some reason ≡ ruled_offence rows.now (Test subject) elder (entry item.now.name item.now.tree)) }
{
    if item.tag() != types::ARRAY {
        Err(Reason::BadField)
    } else if is_random_field(rows, subject) {
        Err(Reason::RandomCompared)
    } else {
        Ok(Next::Inside(FilterPlace::Elements(subject)))
    }
}

/// The same of `$not`.
#[tactic(auto, unfolding(encrypt_schema::specs::Commands::Offences::ruled_offence))]
fn judge_not(rows: &Rows, subject: Subject, item: &RawItem<'_>) -> Result<Next<FilterPlace>, Reason>
    requires equality { is_equality item.now.name ≡ false }
    requires membership { is_membership item.now.name ≡ false }
    requires negation { named item.now.name (codes "$not") ≡ true }
    ensures station { IfOk result (λ next. station_next station_by rows.now next
        ≡ station rows.now (Test subject) (entry item.now.name item.now.tree)) }
    ensures clean { IfOk result (λ _. (elder : List (List ℕ)) →
        None ≡ ruled_offence rows.now (Test subject) elder (entry item.now.name item.now.tree)) }
    ensures refused { IfErr result (λ reason. (elder : List (List ℕ)) →
        Some reason ≡ ruled_offence rows.now (Test subject) elder (entry item.now.name item.now.tree)) }
{
    if is_operators(item) {
        return Ok(Next::Inside(FilterPlace::Test(subject)));
    }
    if item.tag() != types::REGEX {
        return Err(Reason::BadField);
    }
    match subject {
        Subject::Field(_) => Err(Reason::OperatorOnProtected),
        Subject::Prefix => Ok(Next::Passed),
    }
}

/// What an element of the array of `$in`, `$nin` is, compared with this; or the least reason for which it is refused.
#[tactic(auto, unfolding(encrypt_schema::specs::Commands::Offences::ruled_offence))]
pub(crate) fn judge_element(
    rows: &Rows,
    subject: Subject,
    item: &RawItem<'_>,
) -> Result<Next<FilterPlace>, Reason>
    ensures station { IfOk result (λ next. station_next station_by rows.now next
        ≡ station rows.now (Elements subject) (entry item.now.name item.now.tree)) }
    ensures clean { IfOk result (λ _. (elder : List (List ℕ)) →
        None ≡ ruled_offence rows.now (Elements subject) elder (entry item.now.name item.now.tree)) }
    ensures refused { IfErr result (λ reason. (elder : List (List ℕ)) →
        Some reason ≡ ruled_offence rows.now (Elements subject) elder (entry item.now.name item.now.tree)) }
{
    judge_compared(rows, subject, item)
}
