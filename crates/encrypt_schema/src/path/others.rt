//! Rules for all fields of a document but listed ones.

ghost use Rattle.std.specs.Prelude.{◌≡◌, ◌∷◌, ℕ, List, IfOk};
ghost use Rattle.encrypt_schema.specs.Language.Names.{is_among};
ghost use Rattle.encrypt_schema.specs.Views.Others.{has, is_for, other_of};

use crate::path::below::copy_name;
use bson_tree::{Bytes, Names};
use fle_outside::Memory;
use std::alloc::Global;
use std::collections::BTreeSet;

/// A rule for all fields of a document but listed ones.
#[derive(Drop)]
pub(crate) struct Others {
    /// Its number.
    rule: u32,
    /// The listed names, in order: a schema may list as many as its file holds, and whoever chose them, one is found by
    /// comparisons.
    listed: BTreeSet<Vec<u8>>,
}

/// The rule of this number, for all fields but these.
pub(crate) fn others_but(alloc: Global, rule: u32, names: &Names) -> Result<Others, Memory>
    ensures rule { IfOk result (λ others. others.rule ≡ rule) }
    ensures listed { IfOk result (λ others. (q : List ℕ) → has others.listed q ≡ is_among q names.now) }
{
    let listed = in_order(alloc, names.as_slice())?;
    Ok(Others { rule, listed })
}

/// The names of a list, in order.
fn in_order(alloc: Global, names: &[Bytes]) -> Result<BTreeSet<Vec<u8>>, Memory>
    ensures same { IfOk result (λ listed. (q : List ℕ) → has listed q ≡ is_among q names.now) }
{
    let mut listed = BTreeSet::new(alloc);
    for name in names {
        let key = copy_name(alloc, name.as_slice())?;
        match listed.insert(key) {
            Ok(_) => {}
            Err(_) => return Err(Memory),
        }
    }
    Ok(listed)
}

/// Whether the rule is for the field of this name, which isn't listed then.
fn is_for(others: &Others, name: &[u8]) -> bool
    ensures { result ≡ is_for others.now name.now }
{
    !others.listed.contains(name)
}

/// The number of the first rule that is for the field of this name.
pub(crate) fn first_other(rules: &[Others], name: &[u8]) -> Option<u32>
    ensures other { result ≡ other_of rules.now name.now }
{
    for rule in rules {
        if is_for(rule, name) {
            return Some(rule.rule);
        }
    }
    None
}
