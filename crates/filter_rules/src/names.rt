//! Names of the operators of filters.

ghost use Rattle.std.specs.Prelude.{◌≡◌, codes};
ghost use Rattle.encrypt_schema.specs.Commands.Stations.{is_equality, is_logical, is_membership};
ghost use Rattle.encrypt_schema.specs.Language.Names.{named};

use encrypt_schema::is_named;

/// Whether this is the name of a logical operator that takes an array of filters.
#[tactic(auto, unfolding(encrypt_schema::specs::Commands::Stations::is_logical))]
pub(crate) fn is_logical(name: &[u8]) -> bool
    ensures { result ≡ is_logical name.now }
{
    is_named(name, b"$and") || is_named(name, b"$or") || is_named(name, b"$nor")
}

/// Whether this is the name of an operator that compares with one value.
#[tactic(auto, unfolding(encrypt_schema::specs::Commands::Stations::is_equality))]
pub(crate) fn is_equality(name: &[u8]) -> bool
    ensures { result ≡ is_equality name.now }
{
    is_named(name, b"$eq") || is_named(name, b"$ne")
}

/// Whether this is the name of an operator that compares with each value of an array.
#[tactic(auto, unfolding(encrypt_schema::specs::Commands::Stations::is_membership))]
pub(crate) fn is_membership(name: &[u8]) -> bool
    ensures { result ≡ is_membership name.now }
{
    is_named(name, b"$in") || is_named(name, b"$nin")
}

/// Whether this is `$not`.
pub(crate) fn is_not(name: &[u8]) -> bool
    ensures { result ≡ named name.now (codes "$not") }
{
    is_named(name, b"$not")
}

/// Whether this is `$exists`.
pub(crate) fn is_exists(name: &[u8]) -> bool
    ensures { result ≡ named name.now (codes "$exists") }
{
    is_named(name, b"$exists")
}

/// Whether this is `$comment`.
pub(crate) fn is_comment(name: &[u8]) -> bool
    ensures { result ≡ named name.now (codes "$comment") }
{
    is_named(name, b"$comment")
}
