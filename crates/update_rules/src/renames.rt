//! `$rename`: a field takes another name.

ghost use Rattle.std.specs.Prelude.{◌≡◌, ◌<◌, ◌++◌, ℕ, List, length, true, false, MatchResult};
ghost use Rattle.encrypt_schema.specs.Commands.Offences.{least, may_rename, positional_path};
ghost use Rattle.encrypt_schema.specs.Commands.Offences.{ruled_offence, unless};
ghost use Rattle.encrypt_schema.specs.Commands.Stations.{Argument, dotted};
ghost use Rattle.encrypt_schema.specs.Commands.Visits.{entry};
ghost use Rattle.encrypt_schema.specs.Language.Policies.{is_same_policy, policy_at};
ghost use Rattle.encrypt_schema.specs.Paths.Dotted.{positional, split};

use crate::paths::walk_plain;
use bson_codec::RawItem;
use encrypt_schema::{Class, Operator, Reason, Rows};

/// Whether the rules of these numbers, counted from 0, have policies that say the same.
#[tactic(auto, using(encrypt_schema::proofs::Language::PolicyAt::policy_found))]
fn is_one_policy(rows: &Rows, i: u32, j: u32) -> bool
    requires from { i < length rows.now }
    requires to { j < length rows.now }
    ensures same { result ≡ is_same_policy (policy_at i rows.now) (policy_at j rows.now) }
{
    match (rows.policy(i), rows.policy(j)) {
        (Some(policy), Some(other)) => policy.is_same(other),
        _ => false,
    }
}

/// The class of a dotted path; `PositionalOnPath` where a component is a position in an array on the way to a
/// protected field.
#[tactic(auto, using(encrypt_schema::proofs::Paths::Steps::protected_inside))]
fn plain_class(rows: &Rows, path: &[u8]) -> Result<Class, Reason>
    ensures class { MatchResult result
        (λ class. (positional rows.now (split path.now) ≡ false)
        × (class ≡ dotted rows.now path.now)
        × ((i : ℕ) → class ≡ Class.Protected i → i < length rows.now))
        (λ reason. (positional rows.now (split path.now) ≡ true) × (reason ≡ Reason.PositionalOnPath)) }
{
    match walk_plain(rows, path) {
        Ok(at) => Ok(rows.class(at)),
        Err(reason) => Err(reason),
    }
}

/// Whether a field of the first class may take the name of one of the second: both are clear, or protected by
/// policies that say the same.
fn may_rename(rows: &Rows, from: Class, to: Class) -> bool
    requires from { (i : ℕ) → from ≡ Class.Protected i → i < length rows.now }
    requires to { (i : ℕ) → to ≡ Class.Protected i → i < length rows.now }
    ensures may { result ≡ may_rename rows.now from to }
{
    match (from, to) {
        (Class::Clear, Class::Clear) => true,
        (Class::Protected(i), Class::Protected(j)) => is_one_policy(rows, i, j),
        _ => false,
    }
}

/// Why a field may not take this name: a position on the way to a protected field in either path, or fields that
/// are protected otherwise.
fn refused_names(rows: &Rows, from: &[u8], to: &[u8]) -> Option<Reason>
    ensures reason { result ≡ least (positional_path rows.now from.now
        ++ positional_path rows.now to.now
        ++ unless (may_rename rows.now (dotted rows.now from.now) (dotted rows.now to.now)) Reason.RenameMixed) }
{
    match (plain_class(rows, from), plain_class(rows, to)) {
        (Ok(from), Ok(to)) => if may_rename(rows, from, to) {
            None
        } else {
            Some(Reason::RenameMixed)
        },
        _ => Some(Reason::PositionalOnPath),
    }
}

/// Why an element of the argument of `$rename` is refused: no string; a position on the way to a protected field
/// in either path; fields that are protected otherwise.
#[tactic(auto, unfolding(crate::proofs::Offences::ruled_offence, crate::proofs::Offences::renamed))]
pub(crate) fn refused_rename(rows: &Rows, item: &RawItem<'_>) -> Option<Reason>
    ensures reason { (elder : List (List ℕ))
        → result ≡ ruled_offence rows.now (Argument Operator.Rename) elder (entry item.now.name item.now.tree) }
{
    match item.text() {
        Some(target) => refused_names(rows, item.name(), target),
        None => Some(Reason::BadField),
    }
}
