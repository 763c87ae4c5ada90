//! Documents read into trees, by recursive descent.

ghost use Rattle.std.specs.Prelude.{◌≡◌, ◌+◌, ◌<◌, ◌≤◌, ◌^◌, ◌++◌, ℕ, List, length, take, IfOk, false};
ghost use Rattle.bson_tree.specs.Spelling.{doc_bytes};
ghost use Rattle.bson_tree.specs.Tree.{Items};
ghost use Rattle.bson_tree.specs.View.{tree};
ghost use Rattle.std.specs.Int.{from_le_bytes, w32};
ghost use Rattle.bson_codec.specs.Fault.{Gives};
ghost use Rattle.bson_codec.specs.Layout.{IsDoc, longest};
ghost use Rattle.bson_codec.specs.Reading.{type_at, value_at, first_at, elements_at, framed_at, inside_at, stated_at};
ghost use Rattle.bson_codec.specs.Reading.{total_at, document, front_document};

use crate::checking::raw_length;
use crate::fault::{BsonFault, BsonKind, CodecFault};
use crate::measuring::LEVELS;
use crate::raw::{inside_length, is_signed_below, layout_behind, name_length, number_of, zero_of};
use crate::table::ValueLayout;
use bson_tree::{Body, Bytes, Doc, Kids, Value};
use std::alloc::Global;

// A value of this type and layout, in which documents may add so many levels, and its number of bytes.
#[cycle(read)]
#[tactic(auto, unfolding(crate::specs::Reading::value_at))]
fn value_of(
    alloc: Global,
    levels: u32,
    tag: u8,
    layout: ValueLayout,
    bytes: &[u8],
    at: usize,
) -> Result<(Value, usize), CodecFault>
    requires { at + length bytes.now < 2 ^ 63 }
    ensures read { Gives (λ x. (tree x.0, x.1)) result (value_at (inside_at levels) tag layout at bytes.now) }
    ensures fits { IfOk result (λ x. x.1 ≤ length bytes.now) }
{
    match layout {
        ValueLayout::Document => {
            let (kids, n) = inside_of(alloc, levels, bytes, at)?;
            let body = Body::Kids(kids);
            Ok((Value { tag, body }, n))
        }
        ValueLayout::Raw(layout) => {
            let n = raw_length(levels, layout, bytes, at)?;
            let body = Body::Raw(Bytes::from_slice(alloc, &bytes[..n])?);
            Ok((Value { tag, body }, n))
        }
    }
}

// The element at the front: its name, its value, and its number of bytes.
#[cycle(read)]
#[tactic(auto, unfolding(crate::specs::Reading::first_at))]
fn first_of(
    alloc: Global,
    levels: u32,
    bytes: &[u8],
    at: usize,
) -> Result<(Bytes, Value, usize), CodecFault>
    requires { at + length bytes.now < 2 ^ 63 }
    ensures read { Gives (λ x. record { name = x.0; tree = tree x.1; width = x.2 }) result
        (first_at (inside_at levels) at bytes.now) }
    ensures fits { IfOk result (λ x. (x.2 ≤ length bytes.now) × (0 < x.2)) }
{
    match bytes {
        [] => Err(CodecFault::Bson(BsonFault {
            kind: BsonKind::Short,
            offset: at,
        })),
        [tag, rest @ ..] => {
            let layout = layout_behind(*tag, at)?;
            let n = name_length(rest, at + 1)?;
            let (_, behind) = rest.split_at(n + 1);
            let (value, width) = value_of(alloc, levels, *tag, layout, behind, at + (n + 2))?;
            let name = Bytes::from_slice(alloc, &rest[..n])?;
            Ok((name, value, n + 2 + width))
        }
    }
}

// The elements from the front to the end.
#[cycle(read)]
fn elements_of(alloc: Global, levels: u32, bytes: &[u8], at: usize) -> Result<Kids, CodecFault>
    requires { at + length bytes.now < 2 ^ 63 }
    ensures read { Gives (λ kids. kids) result (elements_at (inside_at levels) at bytes.now) }
{
    let mut kids = Kids::new(alloc);
    let mut rest = bytes;
    let mut p = at;
    while !rest.is_empty() {
        let (name, value, width) = first_of(alloc, levels, rest, p)?;
        match kids.push(name, value) {
            Ok(()) => {}
            Err(_) => return Err(CodecFault::Memory),
        }
        let (_, others) = rest.split_at(width);
        rest = others;
        p += width;
    }
    Ok(kids)
}

// The document of `n` bytes at the front.
#[cycle(read)]
#[tactic(auto, unfolding(crate::specs::Reading::framed_at))]
fn framed_of(
    alloc: Global,
    levels: u32,
    n: usize,
    bytes: &[u8],
    at: usize,
) -> Result<(Kids, usize), CodecFault>
    requires least { 5 ≤ n }
    requires inside { n ≤ length bytes.now }
    requires room { at + length bytes.now < 2 ^ 63 }
    ensures read { Gives (λ x. (x.0, x.1)) result (framed_at (inside_at levels) n at bytes.now) }
    ensures fits { IfOk result (λ x. x.1 ≡ n) }
{
    let kids = elements_of(alloc, levels, &bytes[4..n - 1], at + 4)?;
    zero_of(n - 1, bytes, at)?;
    Ok((kids, n))
}

// A document inside another one that may still add so many levels.
#[cycle(read)]
#[tactic(auto, using(crate::proofs::Levels::inside_is), unfolding(crate::specs::Reading::nested_at))]
fn inside_of(
    alloc: Global,
    levels: u32,
    bytes: &[u8],
    at: usize,
) -> Result<(Kids, usize), CodecFault>
    requires { at + length bytes.now < 2 ^ 63 }
    ensures read { Gives (λ x. (x.0, x.1)) result (inside_at levels false at bytes.now) }
    ensures fits { IfOk result (λ x. x.1 ≤ length bytes.now) }
{
    let n = inside_length(levels, false, bytes, at)?;
    framed_of(alloc, levels - 1, n, bytes, at)
}

/// The tree that the bytes spell, all of them: at most 67,108,864 bytes.
///
/// `Bson` exactly where they spell no document (BSON 1.1, nesting at most 100), with their first fault;
/// bytes behind the document are Extra at its end. `Memory` where there is none for the tree.
pub fn decode(alloc: Global, bytes: &[u8]) -> Result<Doc, CodecFault>
    requires { length bytes.now ≤ longest }
    // What is read has a spelling, and the bytes are it.
    ensures found { IfOk result (λ d. IsDoc d.kids × (bytes.now ≡ doc_bytes d.kids)) }
    // What has a spelling is read from it.
    ensures only { (is : Items) → IsDoc is → bytes.now ≡ doc_bytes is → Gives (λ d. d.kids) result (Ok is) }
    // Which tree, or which fault.
    ensures exact { Gives (λ d. d.kids) result (document bytes.now) }
{
    whole_of(alloc, bytes)
}

/// The tree that the bytes at the front spell, and how many bytes they are; what follows them isn't
/// judged. At most 67,108,864 bytes.
///
/// `Bson` exactly where no document stands at the front, with the first fault; on no bytes it is Short
/// at 0. `Memory` where there is none for the tree.
pub fn decode_front(alloc: Global, bytes: &[u8]) -> Result<(Doc, usize), CodecFault>
    requires { length bytes.now ≤ longest }
    // What is read has a spelling, and the bytes begin with it.
    ensures found { IfOk result (λ x. IsDoc x.0.kids × (x.1 ≤ length bytes.now)
        × (take x.1 bytes.now ≡ doc_bytes x.0.kids)) }
    // What has a spelling is read from it, whatever follows.
    ensures only { (is : Items) (rest : List ℕ) → IsDoc is → bytes.now ≡ doc_bytes is ++ rest
        → Gives {Y = Items × ℕ} (λ x. (x.0.kids, x.1)) result (Ok (is, length (doc_bytes is))) }
    // Which tree and length, or which fault.
    ensures exact { Gives (λ x. (x.0.kids, x.1)) result (front_document bytes.now) }
    // The smallest document has 5 bytes.
    ensures fits { IfOk result (λ x. (5 ≤ x.1) × (x.1 ≤ length bytes.now)) }
{
    front_of(alloc, bytes)
}

/// The length that the first four bytes of a document state (BSON 1.1, "document": int32, lowest byte
/// first, the total number of bytes). Length at 0 exactly where the signed number is below 5, the
/// smallest document.
pub fn stated_length(head: [u8; 4]) -> Result<u32, BsonFault>
    ensures stated { result ≡ stated_at (from_le_bytes w32 head) }
{
    let n = u32::from_le_bytes(head);
    if is_signed_below(n, 5) {
        return Err(BsonFault {
            kind: BsonKind::Length,
            offset: 0,
        });
    }
    Ok(n)
}

/// The length of the document at the front.
#[tactic(auto, unfolding(crate::specs::Reading::total_at, crate::specs::Reading::int32_at))]
pub fn total_of(bytes: &[u8]) -> Result<usize, BsonFault>
    requires { length bytes.now ≤ longest }
    ensures read { result ≡ total_at bytes.now }
    ensures fits { IfOk result (λ n. (5 ≤ n) × (n ≤ length bytes.now)) }
{
    if bytes.len() < 4 {
        return Err(BsonFault {
            kind: BsonKind::Short,
            offset: bytes.len(),
        });
    }
    let n = stated_length([bytes[0], bytes[1], bytes[2], bytes[3]])? as usize;
    if bytes.len() < n {
        return Err(BsonFault {
            kind: BsonKind::Short,
            offset: bytes.len(),
        });
    }
    Ok(n)
}

// The document at the front and its number of bytes.
#[tactic(auto, unfolding(crate::specs::Reading::front_document))]
fn front_of(alloc: Global, bytes: &[u8]) -> Result<(Doc, usize), CodecFault>
    requires { length bytes.now ≤ longest }
    ensures read { Gives (λ x. (x.0.kids, x.1)) result (front_document bytes.now) }
    ensures fits { IfOk result (λ x. (5 ≤ x.1) × (x.1 ≤ length bytes.now)) }
{
    let n = total_of(bytes)?;
    let (kids, n) = framed_of(alloc, LEVELS - 1, n, bytes, 0)?;
    Ok((Doc { kids }, n))
}

// The document that the bytes spell, all of them.
#[tactic(auto, unfolding(crate::specs::Reading::document))]
fn whole_of(alloc: Global, bytes: &[u8]) -> Result<Doc, CodecFault>
    requires { length bytes.now ≤ longest }
    ensures read { Gives (λ d. d.kids) result (document bytes.now) }
{
    let n = total_of(bytes)?;
    if n < bytes.len() {
        return Err(CodecFault::Bson(BsonFault {
            kind: BsonKind::Extra,
            offset: n,
        }));
    }
    let (document, _) = front_of(alloc, bytes)?;
    Ok(document)
}
