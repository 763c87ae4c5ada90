//! A place on the way through a document, seen from the rules of its schema.

ghost use Rattle.std.specs.Prelude.{◌≡◌, ◌<◌, ◌++◌, ◌∷◌, [], ℕ, List, Option, None, length, true, IfSome};
ghost use Rattle.encrypt_schema.specs.Paths.Classes.{class, class_by};
ghost use Rattle.encrypt_schema.specs.Views.Cursors.{Stands, StandsForPath, path_of};
ghost use Rattle.encrypt_schema.specs.Language.Row.{Row};
ghost use Rattle.encrypt_schema.specs.Views.Parts.{is_nil};
ghost use Rattle.encrypt_schema.specs.Views.Landing.{landed};
ghost use Rattle.encrypt_schema.specs.Views.Matches.{lesser};
ghost use Rattle.encrypt_schema.specs.Views.Spots.{child_at, rule_at, other_at};

use crate::path::class::Class;
use crate::path::rows::Rows;
use crate::path::spots::{Spot, child_of, other_of, rule_of};

/// Stands for a path, a list of names, among the rules of one schema.
#[derive(Clone, Copy, Debug, PartialEq, Eq)]
pub struct Cursor {
    reach: Reach,
}

/// Where a path is.
#[derive(Clone, Copy, Debug, PartialEq, Eq)]
enum Reach {
    /// On a front of the names that lead to a rule, by its number; whether a rule protects the field there or one
    /// around it; and the number of a rule for all fields but listed ones that protects it.
    Front(u32, bool, Option<u32>),
    /// On no front, at a field that a rule of this number for all fields but listed ones protects.
    Other(u32),
    /// On no front, below a field that a rule protects.
    Below,
    /// Neither.
    Clear,
}

impl Cursor {
    /// Whether the one path for which it stands is the empty one, with which a document begins.
    #[tactic(auto, using(crate::proofs::Paths::Roots::front_root))]
    pub fn is_root(self) -> bool
        ensures root { (rows : List Row) → StandsForPath rows self → result ≡ is_nil (path_of rows self) }
    {
        match self.reach {
            Reach::Front(number, _, _) => number == 0,
            Reach::Other(_) => true,
            Reach::Below => true,
            Reach::Clear => true,
        }
    }
}

impl Rows {
    /// The cursor of the empty path, with which a document begins.
    pub fn root(&self) -> Cursor
        ensures root { Stands self.now result [] }
        ensures path { path_of self.now result ≡ [] }
    {
        if self.rules.is_empty() {
            return Cursor {
                reach: Reach::Clear,
            };
        }
        let covered = rule_of(&self.spots, 0).is_some();
        Cursor {
            reach: Reach::Front(0, covered, None),
        }
    }

    /// The cursor of a path with one name more. It takes at most one look-up by the name's hash, one more by its order
    /// where a rule is for all fields but listed ones, and no memory.
    pub fn step(&self, at: Cursor, name: &[u8]) -> Cursor
        requires cursor { (path : List (List ℕ)) × Stands self.now at path }
        ensures steps { (path : List (List ℕ)) → Stands self.now at path
            → Stands self.now result (path ++ name.now ∷ []) }
    {
        match at.reach {
            Reach::Front(number, covered, _) => Cursor {
                reach: land(&self.spots, number, covered, name),
            },
            Reach::Other(_) => Cursor {
                reach: Reach::Below,
            },
            Reach::Below => at,
            Reach::Clear => at,
        }
    }

    /// How the cursor's path stands to the rules.
    pub fn class(&self, at: Cursor) -> Class
        requires cursor { (path : List (List ℕ)) × Stands self.now at path }
        ensures class { (path : List (List ℕ)) → Stands self.now at path → result ≡ class self.now path }
    {
        match at.reach {
            Reach::Front(number, covered, other) => class_at(&self.spots, number, covered, other),
            Reach::Other(rule) => Class::Protected(rule),
            Reach::Below => Class::Below,
            Reach::Clear => Class::Clear,
        }
    }
}

/// Where a name leads from a front.
fn land(spots: &Vec<Spot>, number: u32, covered: bool, name: &[u8]) -> Reach
    requires inside { number < length spots.now.items }
    requires child { IfSome (child_at spots.now.items number name.now) (λ n. n < length spots.now.items) }
    ensures landed { result ≡ landed covered (child_at spots.now.items number name.now) (rule_at spots.now.items)
        (other_at spots.now.items number name.now) }
{
    let other = other_of(spots, number, name);
    match child_of(spots, number, name) {
        Some(n) => Reach::Front(
            n,
            covered || rule_of(spots, n).is_some() || other.is_some(),
            other,
        ),
        None => off_fronts(covered, other),
    }
}

/// Where a name leads that leads to no front.
fn off_fronts(covered: bool, other: Option<u32>) -> Reach
    ensures landed { (rule : ℕ → Option ℕ) → result ≡ landed covered None rule other }
{
    match other {
        Some(rule) => Reach::Other(rule),
        None if covered => Reach::Below,
        None => Reach::Clear,
    }
}

/// The lesser of two numbers that may not be there.
fn lesser(first: Option<u32>, second: Option<u32>) -> Option<u32>
    ensures lesser { result ≡ lesser first second }
{
    match (first, second) {
        (None, other) => other,
        (Some(i), None) => Some(i),
        (Some(i), Some(j)) => if j < i { Some(j) } else { Some(i) },
    }
}

/// The class of a front.
fn class_at(spots: &Vec<Spot>, number: u32, covered: bool, other: Option<u32>) -> Class
    requires inside { number < length spots.now.items }
    ensures class { result ≡ class_by (lesser (rule_at spots.now.items number) other) covered true }
{
    match lesser(rule_of(spots, number), other) {
        Some(rule) => Class::Protected(rule),
        None if covered => Class::Below,
        None => Class::Above,
    }
}
