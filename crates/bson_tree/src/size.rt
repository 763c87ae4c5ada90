//! The length of a value's bytes.

ghost use Rattle.std.specs.Prelude.{◌≡◌, ◌<◌, ◌^◌, length};
ghost use Rattle.bson_tree.specs.Spelling.{value_bytes, items_bytes};
ghost use Rattle.bson_tree.specs.View.{tree};

use crate::tree::{Body, Kids, Value};

/// The number of bytes that spell a value, below 2^32. (BSON 1.1: a document or array has a length of
/// 4 bytes, its elements, and 00; an element a type byte, a name, 00 and a value.)
#[cycle(size)]
pub fn byte_size(value: &Value) -> u64
    requires { length (value_bytes (tree value.now)) < 2 ^ 32 }
    ensures size { result ≡ length (value_bytes (tree value.now)) }
{
    match &value.body {
        Body::Raw(bytes) => bytes.as_slice().len() as u64,
        Body::Kids(kids) => kids_size(kids) + 5,
    }
}

// The number of bytes that spell the elements.
#[cycle(size)]
#[tactic(auto, using(crate::proofs::Sizes::element_size, crate::proofs::Sizes::framed_size))]
fn kids_size(kids: &Kids) -> u64
    requires { length (items_bytes kids.now) < 2 ^ 32 }
    ensures size { result ≡ length (items_bytes kids.now) }
{
    let mut sum = 0;
    for (name, value) in &kids.items {
        sum += name.as_slice().len() as u64 + 2 + byte_size(value);
    }
    sum
}
