//! The element at the front of bytes that were checked, found without judging its value again.

ghost use Rattle.std.specs.Prelude.{◌≡◌, ◌+◌, ◌<◌, ◌≤◌, ◌^◌, length, IfOk, MatchOption};
ghost use Rattle.bson_tree.specs.Tree.{no_items};
ghost use Rattle.bson_codec.specs.Elements.{stated_width as width_stated, front_at, IsParted};
ghost use Rattle.bson_codec.specs.Borrowed.{elements_of, SpellsElements};

use crate::fault::{BsonFault, BsonKind};
use crate::raw::{fixed_length, layout_behind, name_length, number_of, regex_length};
use crate::table::{RawLayout, ValueLayout};

/// The type, the length of the name and the number of bytes of the value of an element.
#[derive(Clone, Copy, Debug, PartialEq, Eq)]
pub struct Front {
    /// The type byte.
    pub tag: u8,
    /// The length of the name.
    pub name: usize,
    /// The number of bytes of the value.
    pub width: usize,
}

/// The parts of the element at the front, and the bytes behind it.
#[derive(Drop)]
pub struct Parts<'a> {
    /// The type byte.
    pub tag: u8,
    /// The name, without the 00.
    pub name: &'a [u8],
    /// The bytes of the value.
    pub value: &'a [u8],
    /// The bytes behind the element.
    pub rest: &'a [u8],
}

// How many bytes a value of this layout states to have.
#[inline(always)]
fn stated_width(layout: ValueLayout, bytes: &[u8]) -> Result<usize, BsonFault>
    requires { length bytes.now < 2 ^ 31 }
    ensures read { result ≡ width_stated layout bytes.now }
{
    match layout {
        ValueLayout::Document => Ok(number_of(bytes, 0)? as usize),
        ValueLayout::Raw(RawLayout::Fixed(width)) => Ok(width),
        ValueLayout::Raw(RawLayout::Bool) => Ok(1),
        ValueLayout::Raw(RawLayout::Text) => Ok(number_of(bytes, 0)? as usize + 4),
        ValueLayout::Raw(RawLayout::Binary) => Ok(number_of(bytes, 0)? as usize + 5),
        ValueLayout::Raw(RawLayout::Regex) => regex_length(bytes, 0),
        ValueLayout::Raw(RawLayout::Pointer) => Ok(number_of(bytes, 0)? as usize + 16),
        ValueLayout::Raw(RawLayout::Scope) => Ok(number_of(bytes, 0)? as usize),
    }
}

// The element at the front.
#[inline(always)]
#[tactic(auto, unfolding(crate::specs::Elements::front_at))]
fn front_of(bytes: &[u8]) -> Result<Front, BsonFault>
    requires { length bytes.now < 2 ^ 31 }
    ensures read { result ≡ front_at bytes.now }
    ensures fits { IfOk result (λ x. x.name + 2 + x.width ≤ length bytes.now) }
{
    match bytes {
        [] => Err(BsonFault {
            kind: BsonKind::Short,
            offset: 0,
        }),
        [tag, rest @ ..] => {
            let layout = layout_behind(*tag, 0)?;
            let name = name_length(rest, 0)?;
            let (_, behind) = rest.split_at(name + 1);
            let stated = stated_width(layout, behind)?;
            let width = fixed_length(stated, behind, 0)?;
            Ok(Front {
                tag: *tag,
                name,
                width,
            })
        }
    }
}

/// The parts of the element at the front of bytes that spell elements, and the bytes behind it. Inline, since each of
/// its two callers walks by it: a call took a third more instructions.
#[inline(always)]
pub fn parts_of<'a>(bytes: &'a [u8]) -> Option<Parts<'a>>
    requires spelled { SpellsElements bytes.now }
    requires room { length bytes.now < 2 ^ 31 }
    ensures parts { MatchOption result (elements_of bytes.now ≡ no_items)
        (λ x. IsParted bytes.now x.tag x.name.now x.value.now x.rest.now) }
{
    match front_of(bytes) {
        Err(_) => None,
        Ok(front) => {
            let (_, named) = bytes.split_at(1);
            let (name, ended) = named.split_at(front.name);
            let (_, valued) = ended.split_at(1);
            let (value, rest) = valued.split_at(front.width);
            Some(Parts {
                tag: front.tag,
                name,
                value,
                rest,
            })
        }
    }
}
