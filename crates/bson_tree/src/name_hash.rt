//! The hash of a name, for sets and maps. Its seed is fixed, and whoever chooses names can choose many of one hash: so
//! a hash stands in an order, and names of one hash are told from one another by themselves.

ghost use Rattle.std.specs.Prelude.{◌≡◌};
ghost use Rattle.bson_tree.specs.NameNumbers.{hash_of};

use std::hash::{FoldHasher, Hasher};

/// The hash of a name.
#[tactic(auto, unfolding(crate::specs::NameNumbers::hash_of))]
pub fn hash_of(name: &[u8]) -> u64
    ensures hash { result ≡ hash_of name.now }
{
    let mut hasher = FoldHasher::default();
    hasher.write(name);
    hasher.finish()
}
