//! Elements of checked documents, which borrow the bytes.

ghost use Rattle.std.specs.Prelude.{◌≡◌, ◌-◌, ◌+◌, ◌<◌, ◌^◌, ◌==◌, ◌≤◌, length, take, drop, is_some, IfSome};
ghost use Rattle.std.specs.Prelude.{MatchOption};
ghost use Rattle.bson_tree.specs.Spelling.{value_bytes};
ghost use Rattle.bson_tree.specs.Tree.{leaf, node, no_items, tag_of, kids_of};
ghost use Rattle.bson_codec.specs.Layout.{string_bytes, binary_bytes, scope_bytes, IsDoc, IsValue, IsItems};
ghost use Rattle.bson_codec.specs.Layout.{level_limit};
ghost use Rattle.bson_codec.specs.Borrowed.{doc_of, holds, is_inner, SpellsDoc, SpellsValue};

use crate::borrowed::RawDoc;
use crate::raw::string_length;
use bson_tree::types;
use std::marker::Model;

/// An element of a checked document: its name, its value, and the offset of the value's first byte in the
/// outermost bytes that were checked.
#[derive(Drop)]
pub struct RawItem<'a> {
    pub(crate) tag: u8,
    pub(crate) name: &'a [u8],
    pub(crate) value: &'a [u8],
    pub(crate) start: usize,
}

impl<'a> Model for RawItem<'a> {
    ghost use Rattle.std.specs.Prelude.{◌<◌, ◌+◌, ◌^◌, length};
    ghost use Rattle.bson_codec.specs.Borrowed.{Elem, coded_elem, value_tree, SpellsValue};

    ghost Value = { Elem };

    ghost coded = { coded_elem };

    ghost view = { λ e. record { name = e.name.now; tree = value_tree e.tag e.value.now; start = e.start } };

    ghost invariant = { λ e. (e.start + length e.value.now < 2 ^ 31) × SpellsValue e.tag e.value.now };
}

#[tactic(auto, using(crate::proofs::Items::spelled, crate::proofs::Views::spelled_doc))]
impl<'a> RawItem<'a> {
    /// The type byte.
    pub fn tag(&self) -> u8
        ensures tag { result ≡ tag_of self.now.tree }
    {
        self.tag
    }

    /// The name, without the 00.
    pub fn name(&self) -> &'a [u8]
        ensures name { result.now ≡ self.now.name }
    {
        self.name
    }

    /// The offset of the value's first byte.
    pub fn start(&self) -> usize
        ensures start { result ≡ self.now.start }
    {
        self.start
    }

    /// The bytes of the value.
    pub fn value(&self) -> &'a [u8]
        ensures spelling { result.now ≡ value_bytes self.now.tree }
        ensures room { self.now.start + length result.now < 2 ^ 31 }
        // The bytes have the layout of the type.
        ensures laid { IsValue (IsItems (level_limit - 1)) self.now.tree }
    {
        self.value
    }

    /// The document inside: `None` exactly where the type is neither 03 nor 04.
    pub fn child(&self) -> Option<RawDoc<'a>>
        ensures kind { is_some result ≡ is_inner (tag_of self.now.tree) }
        ensures inside { MatchOption result (kids_of self.now.tree ≡ no_items) (λ d. kids_of self.now.tree ≡ d.tree) }
        ensures node { MatchOption result (self.now.tree ≡ leaf (tag_of self.now.tree) (value_bytes self.now.tree))
            (λ d. self.now.tree ≡ node (tag_of self.now.tree) d.tree) }
        ensures start { IfSome result (λ d. d.start ≡ self.now.start) }
    {
        if !has_document(self.tag) {
            return None;
        }
        Some(RawDoc {
            bytes: self.value,
            start: self.start,
        })
    }

    /// The bytes of a string, without length and final 00: `None` exactly where the type isn't 02.
    pub fn text(&self) -> Option<&'a [u8]>
        ensures kind { is_some result ≡ (tag_of self.now.tree == 0x02) }
        ensures text { IfSome result (λ t. self.now.tree ≡ leaf 0x02 (string_bytes t.now)) }
    {
        if self.tag != types::STRING {
            return None;
        }
        Some(text_of(self.value))
    }

    /// The subtype and the contents of a binary: `None` exactly where the type isn't 05.
    pub fn binary(&self) -> Option<(u8, &'a [u8])>
        ensures kind { is_some result ≡ (tag_of self.now.tree == 0x05) }
        ensures contents { IfSome result (λ b. self.now.tree ≡ leaf 0x05 (binary_bytes b.0 b.1.now)) }
    {
        if self.tag != types::BINARY {
            return None;
        }
        Some(contents_of(self.value))
    }

    /// The text and the scope of code with a scope, the scope at its own offset: `None` exactly where the type
    /// isn't 0F.
    pub fn scope(&self) -> Option<(&'a [u8], RawDoc<'a>)>
        ensures kind { is_some result ≡ (tag_of self.now.tree == 0x0F) }
        ensures parts { IfSome result (λ s. self.now.tree ≡ leaf 0x0F (scope_bytes s.0.now s.1.tree)) }
        ensures scope { IfSome result (λ s. IsDoc s.1.tree) }
        // Before the scope stand the length of all, the length of the text, the text and its 00.
        ensures start { IfSome result (λ s. s.1.start ≡ self.now.start + (length s.0.now + 9)) }
    {
        if self.tag != types::CODE_WITH_SCOPE {
            return None;
        }
        let (text, scope) = scope_of(self.value);
        let document = RawDoc {
            bytes: scope,
            start: self.start + (text.len() + 9),
        };
        Some((text, document))
    }
}

/// Whether the element's value begins at `at` or, being a document or an array, holds it.
pub(crate) fn holds_offset(item: &RawItem<'_>, at: usize) -> bool
    ensures holds { result ≡ holds at item.now }
{
    let start = item.start();
    let has_inside = item.child().is_some();
    start == at || (has_inside && start < at && at < start + item.value().len())
}

// Whether values of this type hold a document: embedded document and array.
pub(crate) fn has_document(tag: u8) -> bool
    ensures inner { result ≡ is_inner tag }
{
    tag == types::DOCUMENT || tag == types::ARRAY
}

// The text of a string's bytes.
fn text_of<'a>(value: &'a [u8]) -> &'a [u8]
    requires { SpellsValue 0x02 value.now }
    ensures text { value.now ≡ string_bytes result.now }
{
    string_text(value)
}

// The subtype and the contents of a binary's bytes.
fn contents_of<'a>(value: &'a [u8]) -> (u8, &'a [u8])
    requires { SpellsValue 0x05 value.now }
    ensures contents { value.now ≡ binary_bytes result.0 result.1.now }
{
    let (_, typed) = value.split_at(4);
    let (_, contents) = typed.split_at(1);
    (typed[0], contents)
}

// The text and the bytes of the scope of the bytes of code with a scope.
fn scope_of<'a>(value: &'a [u8]) -> (&'a [u8], &'a [u8])
    requires { SpellsValue 0x0F value.now }
    ensures scope { SpellsDoc result.1.now }
    ensures parts { value.now ≡ scope_bytes result.0.now (doc_of result.1.now) }
    ensures size { length value.now ≡ length result.0.now + 9 + length result.1.now }
{
    let (_, inside) = value.split_at(4);
    let Ok(n) = string_length(inside, 0) else {
        unreachable!();
    };
    let (code, scope) = inside.split_at(n);
    (string_text(code), scope)
}

// The text of a string's bytes, by their number alone.
fn string_text<'a>(bytes: &'a [u8]) -> &'a [u8]
    requires { 5 ≤ length bytes.now }
    ensures text { result.now ≡ take (length bytes.now - 5) (drop 4 bytes.now) }
    ensures size { length result.now + 5 ≡ length bytes.now }
{
    let (_, ended) = bytes.split_at(4);
    let (text, _) = ended.split_at(bytes.len() - 5);
    text
}
