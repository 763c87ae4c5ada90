//! Elements cut before the first that an offset meets, over bytes that were checked.

ghost use Rattle.std.specs.Prelude.{◌≡◌, ◌+◌, ◌<◌, ◌≤◌, ◌^◌, length, IfSome, MatchOption};
ghost use Rattle.bson_tree.specs.Spelling.{items_bytes, value_bytes};
ghost use Rattle.bson_tree.specs.Tree.{no_items};
ghost use Rattle.bson_codec.specs.Borrowed.{elements_of, value_tree, SpellsElements};
ghost use Rattle.bson_codec.specs.Cuts.{IsMet, before_meeting, from_meeting, items_before, items_from, meets};

use crate::front::{Parts, parts_of};
use crate::item::has_document;

// Whether the value, which begins at `start`, begins at the offset `at`, or is a document or an array that ends
// behind it.
#[tactic(auto, using(crate::proofs::Cuts::inside_is))]
fn meets_value(parts: &Parts<'_>, start: usize, at: usize) -> bool
    requires spelling { parts.now.value.now ≡ value_bytes (value_tree parts.now.tag parts.now.value.now) }
    requires room { start + length parts.now.value.now < 2 ^ 31 }
    ensures meets { result ≡ meets at start (value_tree parts.now.tag parts.now.value.now) }
{
    at == start || (has_document(parts.tag) && at < start + parts.value.len())
}

/// The elements of bytes that begin at the offset `start`, before the first whose value the offset `at` meets: how many
/// bytes they have, and the parts of that one; `None` where the offset meets none.
fn cut_at<'a>(bytes: &'a [u8], start: usize, at: usize) -> (usize, Option<Parts<'a>>)
    requires spelled { SpellsElements bytes.now }
    requires room { start + length bytes.now < 2 ^ 31 }
    ensures width { result.0 ≡ length (items_bytes (before_meeting at start (elements_of bytes.now))) }
    ensures within { result.0 ≤ length bytes.now }
    ensures met { MatchOption result.1 ((from_meeting at start (elements_of bytes.now)).tree ≡ no_items)
        (λ x. IsMet (from_meeting at start (elements_of bytes.now)).tree x.tag x.name.now x.value.now x.rest.now) }
    ensures size { IfSome result.1 (λ x. result.0 + 2 + length x.name.now + length x.value.now + length x.rest.now
        ≡ length bytes.now) }
{
    if start + bytes.len() < at {
        return (bytes.len(), None);
    }
    let mut rest = bytes;
    let mut next = start;
    while let Some(parts) = parts_of(rest) {
        let value = next + (2 + parts.name.len());
        if meets_value(&parts, value, at) {
            return (next - start, Some(parts));
        }
        next = value + parts.value.len();
        rest = parts.rest;
    }
    (next - start, None)
}

/// The same for an offset, if there is one; all elements, where there is none.
pub(crate) fn cut_before<'a>(
    bytes: &'a [u8],
    start: usize,
    at: Option<usize>,
) -> (usize, Option<Parts<'a>>)
    requires spelled { SpellsElements bytes.now }
    requires room { start + length bytes.now < 2 ^ 31 }
    ensures width { result.0 ≡ length (items_bytes (items_before at
        (record { tree = elements_of bytes.now; start = start }))) }
    ensures within { result.0 ≤ length bytes.now }
    ensures met { MatchOption result.1
        ((items_from at (record { tree = elements_of bytes.now; start = start })).tree ≡ no_items)
        (λ x. IsMet (items_from at (record { tree = elements_of bytes.now; start = start })).tree
        x.tag x.name.now x.value.now x.rest.now) }
    ensures size { IfSome result.1 (λ x. result.0 + 2 + length x.name.now + length x.value.now + length x.rest.now
        ≡ length bytes.now) }
{
    match at {
        Some(at) => cut_at(bytes, start, at),
        None => (bytes.len(), None),
    }
}
