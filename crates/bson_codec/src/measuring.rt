//! Which trees have a spelling, and how long it is, within a number of bytes.

ghost use Rattle.std.specs.Prelude.{◌≡◌, ◌+◌, ◌<◌, ◌≤◌, ◌^◌, ◌↔◌, length, IsTrue, MatchBool};
ghost use Rattle.bson_tree.specs.Spelling.{value_bytes, items_bytes, doc_bytes};
ghost use Rattle.bson_tree.specs.View.{tree};
ghost use Rattle.bson_codec.specs.Layout.{IsName, IsRaw, IsInside, IsValue, AreElements, IsItems, IsWellFormed};
ghost use Rattle.bson_codec.specs.Measure.{Measures};

use crate::checking::raw_length;
use crate::raw::zero_position;
use crate::table::{RawLayout, ValueLayout, layout_of};
use bson_tree::{Body, Bytes, Doc, Kids, Value};

/// The most levels of nesting, a document itself being level 1.
pub const LEVELS: u32 = 100;

/// The longest document, in bytes.
const LONGEST: u64 = 67_108_864;

/// Whether the tree has a spelling (BSON 1.1, nesting at most 100) of at most 67,108,864 bytes.
pub fn well_formed(document: &Doc) -> bool
    ensures spelled { IsTrue result ↔ IsWellFormed document.now.kids }
{
    measure_document(&document.kids, LEVELS, LONGEST).is_some()
}

// Whether no byte is 00.
fn is_name(bytes: &[u8]) -> bool
    ensures name { MatchBool result (IsName bytes.now) (IsName bytes.now → ⊥) }
{
    match zero_position(bytes) {
        None => true,
        Some(_) => false,
    }
}

// Whether the bytes have this layout, where documents inside may add so many levels.
fn is_raw(levels: u32, layout: RawLayout, bytes: &[u8]) -> bool
    ensures laid { MatchBool result (IsRaw (IsItems levels) layout bytes.now) (IsRaw (IsItems levels) layout bytes.now
        → ⊥) }
{
    match raw_length(levels, layout, bytes, 0) {
        Ok(n) => n == bytes.len(),
        Err(_) => false,
    }
}

// How many bytes spell a value; `None` where it has no spelling within so many levels and `room` bytes.
#[cycle(measure)]
fn measure_value(value: &Value, levels: u32, room: u64) -> Option<u64>
    requires { room < 2 ^ 31 }
    ensures size { Measures result (IsValue (IsItems levels) (tree value.now))
        (length (value_bytes (tree value.now))) room }
{
    let layout = layout_of(value.tag)?;
    match (layout, &value.body) {
        (ValueLayout::Document, Body::Kids(kids)) => measure_document(kids, levels, room),
        (ValueLayout::Raw(layout), Body::Raw(bytes)) => {
            measure_raw(levels, layout, bytes.as_slice(), room)
        }
        _ => None,
    }
}

// How many bytes these are; `None` where they don't have this layout or are more than `room`.
fn measure_raw(levels: u32, layout: RawLayout, bytes: &[u8], room: u64) -> Option<u64>
    requires { room < 2 ^ 31 }
    ensures size { Measures result (IsRaw (IsItems levels) layout bytes.now) (length bytes.now) room }
{
    let n = bytes.len() as u64;
    if n <= room && is_raw(levels, layout, bytes) {
        Some(n)
    } else {
        None
    }
}

// How many bytes spell a document, which is a level of its own; `None` as for a value.
#[cycle(measure)]
fn measure_document(kids: &Kids, levels: u32, room: u64) -> Option<u64>
    requires { room < 2 ^ 31 }
    ensures size { Measures result (IsInside (IsItems levels) kids.now) (length (doc_bytes kids.now)) room }
{
    if levels == 0 || room < 5 {
        return None;
    }
    let n = measure_items(kids, levels - 1, room - 5)?;
    Some(n + 5)
}

// How many bytes spell the elements of a document, one after another; `None` as for a value.
#[cycle(measure)]
fn measure_items(kids: &Kids, levels: u32, room: u64) -> Option<u64>
    requires { room < 2 ^ 31 }
    ensures size { Measures result (AreElements (IsItems levels) kids.now) (length (items_bytes kids.now)) room }
{
    let mut sum = 0;
    for i in 0..kids.len() {
        let (name, value) = kids.item(i);
        sum += measure_element(name, value, levels, room - sum)?;
    }
    Some(sum)
}

// How many bytes spell an element: its type, its name and a 00, its value; `None` as for a value.
#[cycle(measure)]
fn measure_element(name: &Bytes, value: &Value, levels: u32, room: u64) -> Option<u64>
    requires { room < 2 ^ 31 }
    ensures size { Measures result (IsName name.now × IsValue (IsItems levels) (tree value.now))
        (length name.now + 2 + length (value_bytes (tree value.now))) room }
{
    let bytes = name.as_slice();
    let n = bytes.len() as u64;
    if room < n || room - n < 2 || !is_name(bytes) {
        return None;
    }
    let width = measure_value(value, levels, room - n - 2)?;
    Some(n + 2 + width)
}
