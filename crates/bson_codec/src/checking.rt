//! Bytes judged without a tree, in no memory: the same faults, and the number of bytes.

ghost use Rattle.std.specs.Prelude.{◌≡◌, ◌+◌, ◌<◌, ◌≤◌, ◌^◌, length, IfOk, MatchBool};
ghost use Rattle.bson_codec.specs.Reading.{raw_at, scope_at, value_at, first_at, elements_at, framed_at, inside_at};
ghost use Rattle.bson_codec.specs.Reading.{width_of, first_width, fault_of};
ghost use Rattle.bson_codec.specs.Borrowed.{SpellsWithin};

use crate::fault::{BsonFault, BsonKind};
use crate::raw::{
    binary_length, bool_length, fixed_length, inside_length, layout_behind, length_of, name_length,
    number_of, pointer_length, regex_length, string_length, zero_of,
};
use crate::table::{RawLayout, ValueLayout, layout_of};

/// Whether the bytes, of any number, spell a value of this type that adds at most `levels` levels of nesting
/// (BSON 1.1).
pub fn check_value(tag: u8, bytes: &[u8], levels: u32) -> bool
    ensures spelled { MatchBool result (SpellsWithin levels tag bytes.now) (SpellsWithin levels tag bytes.now → ⊥) }
{
    match layout_of(tag) {
        None => false,
        Some(layout) => match check_laid(levels, tag, layout, bytes, 0) {
            Ok(n) => n == bytes.len(),
            Err(_) => false,
        },
    }
}

/// The number of bytes of a raw value of this layout, in which documents may add so many levels.
#[cycle(check)]
pub fn raw_length(
    levels: u32,
    layout: RawLayout,
    bytes: &[u8],
    at: usize,
) -> Result<usize, BsonFault>
    requires { at + length bytes.now < 2 ^ 63 }
    ensures read { result ≡ raw_at (inside_at levels) layout at bytes.now }
    ensures fits { IfOk result (λ n. n ≤ length bytes.now) }
{
    match layout {
        RawLayout::Fixed(width) => fixed_length(width, bytes, at),
        RawLayout::Bool => bool_length(bytes, at),
        RawLayout::Text => string_length(bytes, at),
        RawLayout::Binary => binary_length(bytes, at),
        RawLayout::Regex => regex_length(bytes, at),
        RawLayout::Pointer => pointer_length(bytes, at),
        RawLayout::Scope => scope_length(levels, bytes, at),
    }
}

// The number of bytes of code with its scope, which has to fill what the code leaves (BSON 1.1).
#[cycle(check)]
#[tactic(auto, unfolding(crate::specs::Reading::scope_at))]
fn scope_length(levels: u32, bytes: &[u8], at: usize) -> Result<usize, BsonFault>
    requires { at + length bytes.now < 2 ^ 63 }
    ensures read { result ≡ scope_at (inside_at levels) at bytes.now }
    ensures fits { IfOk result (λ n. n ≤ length bytes.now) }
{
    let stated = number_of(bytes, at)?;
    let n = length_of(14, 0, stated, bytes, at)?;
    let inside = &bytes[4..n];
    let m = string_length(inside, at + 4)?;
    let (_, scope) = inside.split_at(m);
    check_inside(levels, true, scope, at + (m + 4))?;
    Ok(n)
}

/// The number of bytes of a value of this layout.
#[cycle(check)]
#[tactic(auto, using(crate::proofs::Widths::document_width, crate::proofs::Widths::raw_width))]
pub fn check_laid(
    levels: u32,
    tag: u8,
    layout: ValueLayout,
    bytes: &[u8],
    at: usize,
) -> Result<usize, BsonFault>
    requires { at + length bytes.now < 2 ^ 63 }
    ensures read { result ≡ width_of (value_at (inside_at levels) tag layout at bytes.now) }
    ensures fits { IfOk result (λ n. n ≤ length bytes.now) }
{
    let _ = tag;
    match layout {
        ValueLayout::Document => check_inside(levels, false, bytes, at),
        ValueLayout::Raw(layout) => raw_length(levels, layout, bytes, at),
    }
}

// The number of bytes of the element at the front.
#[cycle(check)]
#[tactic(auto, using(crate::proofs::Widths::element_width), unfolding(crate::specs::Reading::first_at))]
fn check_first(levels: u32, bytes: &[u8], at: usize) -> Result<usize, BsonFault>
    requires { at + length bytes.now < 2 ^ 63 }
    ensures read { result ≡ first_width (first_at (inside_at levels) at bytes.now) }
    ensures fits { IfOk result (λ n. (n ≤ length bytes.now) × (0 < n)) }
{
    match bytes {
        [] => Err(BsonFault {
            kind: BsonKind::Short,
            offset: at,
        }),
        [tag, rest @ ..] => {
            let layout = layout_behind(*tag, at)?;
            let n = name_length(rest, at + 1)?;
            let (_, behind) = rest.split_at(n + 1);
            let width = check_laid(levels, *tag, layout, behind, at + (n + 2))?;
            Ok(n + 2 + width)
        }
    }
}

// That the elements from the front to the end have no fault.
#[cycle(check)]
fn check_elements(levels: u32, bytes: &[u8], at: usize) -> Result<(), BsonFault>
    requires { at + length bytes.now < 2 ^ 63 }
    ensures read { result ≡ fault_of (elements_at (inside_at levels) at bytes.now) }
{
    let mut rest = bytes;
    let mut p = at;
    while !rest.is_empty() {
        let width = check_first(levels, rest, p)?;
        let (_, others) = rest.split_at(width);
        rest = others;
        p += width;
    }
    Ok(())
}

/// The number of bytes of the document of `n` bytes at the front.
#[cycle(check)]
#[tactic(auto, using(crate::proofs::Widths::frame_width), unfolding(crate::specs::Reading::framed_at))]
pub fn check_framed(levels: u32, n: usize, bytes: &[u8], at: usize) -> Result<usize, BsonFault>
    requires least { 5 ≤ n }
    requires inside { n ≤ length bytes.now }
    requires room { at + length bytes.now < 2 ^ 63 }
    ensures read { result ≡ width_of (framed_at (inside_at levels) n at bytes.now) }
    ensures fits { IfOk result (λ m. m ≡ n) }
{
    check_elements(levels, &bytes[4..n - 1], at + 4)?;
    zero_of(n - 1, bytes, at)?;
    Ok(n)
}

// The number of bytes of a document inside another one that may still add so many levels, and that has to
// fill the bytes where `fills`.
#[cycle(check)]
#[tactic(auto, using(crate::proofs::Levels::inside_is), unfolding(crate::specs::Reading::nested_at))]
fn check_inside(levels: u32, fills: bool, bytes: &[u8], at: usize) -> Result<usize, BsonFault>
    requires { at + length bytes.now < 2 ^ 63 }
    ensures read { result ≡ width_of (inside_at levels fills at bytes.now) }
    ensures fits { IfOk result (λ n. n ≤ length bytes.now) }
{
    let n = inside_length(levels, fills, bytes, at)?;
    check_framed(levels - 1, n, bytes, at)
}
