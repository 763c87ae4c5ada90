//! The names that a schema lists, beside which `additionalProperties` is for every other name.

ghost use Rattle.std.specs.Prelude.{◌≡◌, [], IfOk, MatchOption, codes};
ghost use Rattle.encrypt_schema.specs.Language.Schemas.{listed, names_by};
ghost use Rattle.encrypt_schema.specs.Language.Values.{find, names_of};
ghost use Rattle.encrypt_schema.specs.Views.Seen.{others_seen};

use crate::schema::values::find;
use bson_codec::RawDoc;
use bson_tree::{Bytes, Names};
use fle_outside::Memory;
use std::alloc::Global;

/// The names of a document's elements.
#[tactic(auto, using(crate::proofs::Language::TypeLists::all_names))]
fn names_in(alloc: Global, document: &RawDoc<'_>) -> Result<Names, Memory>
    ensures { IfOk result (λ n. n ≡ names_of document.now.tree) }
{
    let mut names = Vec::new(alloc);
    for item in document.items() {
        let name = Bytes::from_slice(alloc, item.name())?;
        match names.push(name) {
            Ok(()) => {}
            Err(_) => return Err(Memory),
        }
    }
    Ok(Names::from_vec(names))
}

/// The names that a schema lists: those under its `properties`.
#[tactic(auto, unfolding(crate::specs::Language::Schemas::listed))]
fn listed(alloc: Global, schema: &RawDoc<'_>) -> Result<Names, Memory>
    ensures { IfOk result (λ n. n ≡ listed schema.now.tree) }
{
    match properties_of(schema) {
        None => Ok(Names::new(alloc)),
        Some(fields) => names_in(alloc, &fields),
    }
}

/// The document under `properties`.
fn properties_of<'a>(schema: &RawDoc<'a>) -> Option<RawDoc<'a>>
    ensures { MatchOption result (names_by (find (codes "properties") schema.now.tree) ≡ [])
        (λ d. names_by (find (codes "properties") schema.now.tree) ≡ names_of d.tree) }
{
    let value = find(schema, b"properties")?;
    value.child()
}

/// The names that the schema around lists, where there is one.
pub(crate) fn others_of(alloc: Global, around: Option<&RawDoc<'_>>) -> Result<Option<Names>, Memory>
    ensures { IfOk result (λ others. others ≡ others_seen around.entry) }
{
    match around {
        None => Ok(None),
        Some(schema) => Ok(Some(listed(alloc, schema)?)),
    }
}
