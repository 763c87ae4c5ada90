//! BSON 1.1, "element": the layout of the value behind each type byte.

ghost use Rattle.std.specs.Prelude.{◌≡◌};
ghost use Rattle.bson_codec.specs.Table.{layout_of as layout_of_type};

use bson_tree::types;

/// What stands behind a type byte and a name.
#[derive(Clone, Copy, Debug, PartialEq, Eq)]
pub enum ValueLayout {
    /// A document: embedded, or an array.
    Document,
    /// A value without places inside.
    Raw(RawLayout),
}

/// How the bytes of a value without places inside are laid out.
#[derive(Clone, Copy, Debug, PartialEq, Eq)]
pub enum RawLayout {
    /// So many bytes.
    Fixed(usize),
    /// One byte, 00 or 01.
    Bool,
    /// A length of 4 bytes that counts the final 00, bytes, 00.
    Text,
    /// A length of 4 bytes, a subtype, so many bytes.
    Binary,
    /// Two names: a pattern and its options.
    Regex,
    /// A text and 12 bytes: a name space and an id.
    Pointer,
    /// A length of 4 bytes that counts all of the value, a text, and a document that fills the rest.
    Scope,
}

/// The layout of a value of this type; `None` where the byte is no type. Inline, since who walks elements asks it of
/// each, and a call took as long as the table.
#[inline(always)]
#[tactic(auto, unfolding(crate::specs::Table::layout_of))]
pub fn layout_of(tag: u8) -> Option<ValueLayout>
    ensures row { result ≡ layout_of_type tag }
{
    match tag {
        types::DOUBLE | types::DATE | types::TIMESTAMP | types::LONG => Some(ValueLayout::Raw(
            RawLayout::Fixed(8),
        )),
        types::STRING | types::CODE | types::SYMBOL => Some(ValueLayout::Raw(RawLayout::Text)),
        types::DOCUMENT | types::ARRAY => Some(ValueLayout::Document),
        types::BINARY => Some(ValueLayout::Raw(RawLayout::Binary)),
        types::UNDEFINED | types::NULL | types::MAX_KEY | types::MIN_KEY => Some(ValueLayout::Raw(
            RawLayout::Fixed(0),
        )),
        types::OBJECT_ID => Some(ValueLayout::Raw(RawLayout::Fixed(12))),
        types::BOOL => Some(ValueLayout::Raw(RawLayout::Bool)),
        types::REGEX => Some(ValueLayout::Raw(RawLayout::Regex)),
        types::DB_POINTER => Some(ValueLayout::Raw(RawLayout::Pointer)),
        types::CODE_WITH_SCOPE => Some(ValueLayout::Raw(RawLayout::Scope)),
        types::INT => Some(ValueLayout::Raw(RawLayout::Fixed(4))),
        types::DECIMAL => Some(ValueLayout::Raw(RawLayout::Fixed(16))),
        _ => None,
    }
}
