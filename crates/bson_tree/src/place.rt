//! Places of values in a document.

ghost use Rattle.std.specs.Prelude.{◌≡◌, IfOk, option_map};
ghost use Rattle.bson_tree.specs.Places.{tree_at, value_at as value_at_place};
ghost use Rattle.bson_tree.specs.View.{tree};

use crate::tree::{Body, Doc, Kids, Value};
use fle_outside::Memory;
use std::alloc::Global;
use std::marker::Model;

/// A place in a document: child numbers from 0, the outermost first. The empty place is the document
/// itself.
#[derive(Drop)]
pub struct Place {
    steps: Vec<u32>,
}

impl Model for Place {
    ghost use Rattle.std.specs.Prelude.{ℕ, List};

    ghost Value = { List ℕ };

    ghost view = { λ p. p.steps.items };
}

impl Place {
    /// The place with these child numbers. `Memory` where there is none for it.
    pub fn from_slice(alloc: Global, steps: &[u32]) -> Result<Place, Memory>
        ensures copy { IfOk result (λ p. p ≡ steps.now) }
    {
        let mut copy = Vec::new(alloc);
        match copy.extend_from_slice(steps) {
            Ok(()) => Ok(Place { steps: copy }),
            Err(_) => Err(Memory),
        }
    }

    /// The place with the child numbers of a `Vec`, which allocates nothing.
    pub fn from_vec(steps: Vec<u32>) -> Place
        ensures same { result ≡ steps.items }
    {
        Place { steps }
    }

    /// The child numbers as a `Vec`, which allocates nothing.
    pub fn into_vec(self) -> Vec<u32>
        ensures same { result.items ≡ self }
    {
        self.steps
    }

    /// The child numbers.
    pub fn as_slice(&self) -> &[u32]
        ensures same { result.now ≡ self.now }
    {
        &self.steps
    }
}

/// The value at a place: `None` exactly where the document has no such place, and for the empty place,
/// which is no value.
pub fn value_at<'t>(document: &'t Doc, place: &Place) -> Option<&'t Value>
    ensures found { option_map (λ v. tree v.now) result ≡ value_at_place place.now document.now.kids }
{
    match place.as_slice() {
        [] => None,
        [step, rest @ ..] => below(document.kids.value(*step as usize)?, rest),
    }
}

// The value at a place below a value.
#[tactic(auto, using(crate::proofs::Lists::nth_none))]
fn below<'t>(value: &'t Value, steps: &[u32]) -> Option<&'t Value>
    ensures found { option_map (λ v. tree v.now) result ≡ tree_at steps.now (tree value.now) }
{
    match steps {
        [] => Some(value),
        [step, rest @ ..] => match &value.body {
            Body::Raw(_) => None,
            Body::Kids(kids) => below(kids.value(*step as usize)?, rest),
        },
    }
}
