//! Lengths, names and raw values, each judged from its first byte on. `bytes` begins at the offset `at`
//! and ends before the last byte of the document that it stands in.

ghost use Rattle.std.specs.Prelude.{◌≡◌, ◌+◌, ◌<◌, ◌≤◌, ◌^◌, length, IfOk, IfSome, Some};
ghost use Rattle.bson_codec.specs.Reading.{signed_below, int32_at, length_at, zero_at, before_zero, cstring_at};
ghost use Rattle.bson_codec.specs.Reading.{bytes_at, bool_at, string_at, binary_at, regex_at, pointer_at, type_at};
ghost use Rattle.bson_codec.specs.Reading.{inside_length_at};

use crate::fault::{BsonFault, BsonKind};
use crate::table::{ValueLayout, layout_of};
use memchr::memchr;

/// How many bytes are looked at together: few names are longer.
const NEAR: usize = 32;

/// Whether a number of 32 bits stands for a signed number below `least`.
pub fn is_signed_below(n: u32, least: u32) -> bool
    ensures below { result ≡ signed_below n least }
{
    n < least || n >= 1 << 31
}

/// The four bytes of a length.
#[tactic(auto, unfolding(crate::specs::Reading::int32_at))]
pub fn number_of(bytes: &[u8], at: usize) -> Result<u32, BsonFault>
    requires { at + length bytes.now < 2 ^ 63 }
    ensures read { result ≡ int32_at at bytes.now }
    ensures room { IfOk result (λ n. 4 ≤ length bytes.now) }
{
    if bytes.len() < 4 {
        return Err(BsonFault {
            kind: BsonKind::Short,
            offset: at + bytes.len(),
        });
    }
    Ok(u32::from_le_bytes([bytes[0], bytes[1], bytes[2], bytes[3]]))
}

/// A length that is at least `least` and, with `more` bytes beside what it counts, ends in time.
#[tactic(auto, unfolding(crate::specs::Reading::length_at))]
pub fn length_of(
    least: u32,
    more: usize,
    stated: u32,
    bytes: &[u8],
    at: usize,
) -> Result<usize, BsonFault>
    requires { more < 16 }
    ensures read { result ≡ length_at least more stated at bytes.now }
    ensures fits { IfOk result (λ n. n + more ≤ length bytes.now) }
    ensures least { IfOk result (λ n. least ≤ n) }
{
    let n = stated as usize;
    if is_signed_below(stated, least) || bytes.len() < n + more {
        return Err(BsonFault {
            kind: BsonKind::Length,
            offset: at,
        });
    }
    Ok(n)
}

/// Byte number `i` is 00.
#[tactic(auto, unfolding(crate::specs::Reading::zero_at))]
pub fn zero_of(i: usize, bytes: &[u8], at: usize) -> Result<(), BsonFault>
    requires inside { i < length bytes.now }
    requires room { at + length bytes.now < 2 ^ 63 }
    ensures read { result ≡ zero_at i at bytes.now }
{
    if bytes[i] != 0 {
        return Err(BsonFault {
            kind: BsonKind::NoEnd,
            offset: at + i,
        });
    }
    Ok(())
}

/// How many bytes stand before the first 00, where it is one of the first 32.
fn near_zero(bytes: &[u8]) -> Option<usize>
    ensures found { IfSome result (λ n. before_zero bytes.now ≡ Some n) }
    ensures inside { IfSome result (λ n. n < length bytes.now) }
{
    if bytes.len() < NEAR {
        return None;
    }
    memchr(0, &bytes[..NEAR])
}

/// How many bytes stand before the first 00, looked at one by one.
fn zero_by_one(bytes: &[u8]) -> Option<usize>
    ensures found { result ≡ before_zero bytes.now }
    ensures inside { IfSome result (λ n. n < length bytes.now) }
{
    for (i, b) in bytes.iter().enumerate() {
        if *b == 0 {
            return Some(i);
        }
    }
    None
}

/// How many bytes stand before the first 00.
pub fn zero_position(bytes: &[u8]) -> Option<usize>
    ensures found { result ≡ before_zero bytes.now }
    ensures inside { IfSome result (λ n. n < length bytes.now) }
{
    match near_zero(bytes) {
        Some(n) => Some(n),
        None => zero_by_one(bytes),
    }
}

/// The length of a name that 00 follows.
#[tactic(auto, unfolding(crate::specs::Reading::cstring_at))]
pub fn name_length(bytes: &[u8], at: usize) -> Result<usize, BsonFault>
    requires { at + length bytes.now < 2 ^ 63 }
    ensures read { result ≡ cstring_at at bytes.now }
    ensures fits { IfOk result (λ n. n < length bytes.now) }
{
    match zero_position(bytes) {
        Some(n) => Ok(n),
        None => Err(BsonFault {
            kind: BsonKind::NoEnd,
            offset: at + bytes.len(),
        }),
    }
}

/// The width of a value that always has so many bytes; Short at the end where they aren't there.
#[tactic(auto, unfolding(crate::specs::Reading::bytes_at))]
pub fn fixed_length(width: usize, bytes: &[u8], at: usize) -> Result<usize, BsonFault>
    requires { at + length bytes.now < 2 ^ 63 }
    ensures read { result ≡ bytes_at width at bytes.now }
    ensures fits { IfOk result (λ n. (n ≤ length bytes.now) × (n ≡ width)) }
{
    if bytes.len() < width {
        return Err(BsonFault {
            kind: BsonKind::Short,
            offset: at + bytes.len(),
        });
    }
    Ok(width)
}

/// The length of a bool: one byte, 00 or 01.
#[tactic(auto, unfolding(crate::specs::Reading::bool_at))]
pub fn bool_length(bytes: &[u8], at: usize) -> Result<usize, BsonFault>
    requires { at + length bytes.now < 2 ^ 63 }
    ensures read { result ≡ bool_at at bytes.now }
    ensures fits { IfOk result (λ n. n ≤ length bytes.now) }
{
    let n = fixed_length(1, bytes, at)?;
    if bytes[0] > 1 {
        return Err(BsonFault {
            kind: BsonKind::Bool,
            offset: at,
        });
    }
    Ok(n)
}

/// The length of a string: its length in four bytes, the text, and 00.
#[tactic(auto, unfolding(crate::specs::Reading::string_at))]
pub fn string_length(bytes: &[u8], at: usize) -> Result<usize, BsonFault>
    requires { at + length bytes.now < 2 ^ 63 }
    ensures read { result ≡ string_at at bytes.now }
    ensures fits { IfOk result (λ n. n ≤ length bytes.now) }
{
    let stated = number_of(bytes, at)?;
    let n = length_of(1, 4, stated, bytes, at)?;
    zero_of(n + 3, bytes, at)?;
    Ok(n + 4)
}

/// The length of a binary: its length in four bytes, the subtype, and the contents.
#[tactic(auto, unfolding(crate::specs::Reading::binary_at))]
pub fn binary_length(bytes: &[u8], at: usize) -> Result<usize, BsonFault>
    requires { at + length bytes.now < 2 ^ 63 }
    ensures read { result ≡ binary_at at bytes.now }
    ensures fits { IfOk result (λ n. n ≤ length bytes.now) }
{
    let stated = number_of(bytes, at)?;
    let n = length_of(0, 5, stated, bytes, at)?;
    Ok(n + 5)
}

/// The length of a regular expression: two names, the pattern and the options.
#[tactic(auto, unfolding(crate::specs::Reading::regex_at))]
pub fn regex_length(bytes: &[u8], at: usize) -> Result<usize, BsonFault>
    requires { at + length bytes.now < 2 ^ 63 }
    ensures read { result ≡ regex_at at bytes.now }
    ensures fits { IfOk result (λ n. n ≤ length bytes.now) }
{
    let n = name_length(bytes, at)?;
    let (_, behind) = bytes.split_at(n + 1);
    let m = name_length(behind, at + (n + 1))?;
    Ok(n + 1 + (m + 1))
}

/// The length of a pointer: a string and 12 bytes of an id.
#[tactic(auto, unfolding(crate::specs::Reading::pointer_at))]
pub fn pointer_length(bytes: &[u8], at: usize) -> Result<usize, BsonFault>
    requires { at + length bytes.now < 2 ^ 63 }
    ensures read { result ≡ pointer_at at bytes.now }
    ensures fits { IfOk result (λ n. n ≤ length bytes.now) }
{
    let n = string_length(bytes, at)?;
    let (_, behind) = bytes.split_at(n);
    let m = fixed_length(12, behind, at + n)?;
    Ok(n + m)
}

/// The layout behind the type byte at `at`. Inline, as the table is.
#[inline(always)]
#[tactic(auto, unfolding(crate::specs::Reading::type_at))]
pub fn layout_behind(tag: u8, at: usize) -> Result<ValueLayout, BsonFault>
    requires { at < 2 ^ 63 }
    ensures read { result ≡ type_at at tag }
{
    if tag == 0 {
        return Err(BsonFault {
            kind: BsonKind::Extra,
            offset: at + 1,
        });
    }
    match layout_of(tag) {
        Some(layout) => Ok(layout),
        None => Err(BsonFault {
            kind: BsonKind::Tag,
            offset: at,
        }),
    }
}

/// The length of a document inside another one that may still add so many levels, and that has to fill the
/// bytes where `fills`.
#[tactic(auto, unfolding(crate::specs::Reading::inside_length_at))]
pub fn inside_length(levels: u32, fills: bool, bytes: &[u8], at: usize) -> Result<usize, BsonFault>
    requires { at + length bytes.now < 2 ^ 63 }
    ensures read { result ≡ inside_length_at levels fills at bytes.now }
    ensures fits { IfOk result (λ n. (5 ≤ n) × (n ≤ length bytes.now) × (0 < levels)) }
{
    let stated = number_of(bytes, at)?;
    if levels == 0 {
        return Err(BsonFault {
            kind: BsonKind::Deep,
            offset: at,
        });
    }
    let n = length_of(5, 0, stated, bytes, at)?;
    if fills && n != bytes.len() {
        return Err(BsonFault {
            kind: BsonKind::Length,
            offset: at,
        });
    }
    Ok(n)
}
