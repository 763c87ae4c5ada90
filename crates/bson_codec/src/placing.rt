//! The place of the value that begins at an offset of a document.

ghost use Rattle.std.specs.Prelude.{◌≡◌, IfOk};
ghost use Rattle.bson_tree.specs.Places.{place_of};

use crate::borrowed::RawDoc;
use bson_tree::Place;
use fle_outside::Memory;
use std::alloc::Global;

/// The place of the value that begins at an offset of a document, whose offsets are from 0; the document itself
/// where none does. `Memory` where there is none for the place.
pub fn place_at(alloc: Global, document: &RawDoc<'_>, at: u32) -> Result<Place, Memory>
    requires whole { document.now.start ≡ 0 }
    ensures place { IfOk result (λ p. p ≡ place_of at document.now.tree) }
{
    let at = at as usize;
    let mut steps = Vec::new(alloc);
    let mut inner = document.again();
    while let Some((number, item)) = inner.child_holding(at) {
        if steps.push(number).is_err() {
            return Err(Memory);
        }
        if item.start() == at {
            return Ok(Place::from_vec(steps));
        }
        match item.child() {
            Some(child) => inner = child,
            None => break,
        }
    }
    Ok(Place::from_vec(Vec::new(alloc)))
}
