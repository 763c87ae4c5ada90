//! The first place of a document whose name or text isn't UTF-8 (RFC 3629), so that it has no JSON text.

ghost use Rattle.std.specs.Prelude.{◌≡◌, ◌+◌, ◌-◌, ◌||◌, ℕ, Bool, not, is_some};
ghost use Rattle.std.specs.Str.{is_utf8};
ghost use Rattle.bson_codec.specs.Layout.{IsRaw, IsItems, IsValue, level_limit};
ghost use Rattle.bson_tree.specs.Spelling.{value_bytes};
ghost use Rattle.bson_tree.specs.Tree.{tag_of, Items};
ghost use Rattle.ext_json.specs.Forms.{form_layout, form_of as form_of_type};
ghost use Rattle.ext_json.specs.BadText.{is_bad_raw, is_bad_leaf, offset_if, value_bad, element_bad, elements_bad};
ghost use Rattle.ext_json.specs.BadText.{inside_bad, first_bad};

use crate::form::{Form, form_of};
use crate::parts::{pointer_parts, regex_parts, text_of};
use bson_codec::{RawDoc, RawItem};

// A document has at most so many levels of nesting, its own included.
const LEVELS: u32 = 100;

/// The number of the reason for which a document with such a place has no text.
pub const NOT_TEXT: u8 = 28;

/// The offset of the value of the first place, in reading order, whose name, text or part of a regular expression
/// isn't UTF-8; `None` exactly where there is none. Names of array elements count too, and what is inside a scope
/// counts for the value that holds it. Allocates nothing.
pub fn first_bad_text(document: &RawDoc<'_>) -> Option<u32>
    ensures first { result ≡ first_bad document.now.start document.now.tree }
{
    bad_inside(LEVELS, document)
}

// In a document or an array that takes at most so many levels.
#[cycle(bad)]
#[tactic(auto, unfolding(crate::specs::BadText::inside_bad))]
fn bad_inside(levels: u32, document: &RawDoc<'_>) -> Option<u32>
    ensures { result ≡ inside_bad levels document.now.start document.now.tree }
{
    if levels == 0 {
        return None;
    }
    bad_elements(levels - 1, document)
}

// In the elements of a document or an array, whose values add at most so many levels.
#[cycle(bad)]
#[tactic(auto, unfolding(crate::specs::BadText::elements_bad))]
fn bad_elements(levels: u32, document: &RawDoc<'_>) -> Option<u32>
    ensures { result ≡ elements_bad (inside_bad levels) (document.now.start + 4) document.now.tree }
{
    for item in document.items() {
        match bad_element(levels, &item) {
            Some(at) => return Some(at),
            None => {}
        }
    }
    None
}

// In an element: its name first, in arrays too.
#[cycle(bad)]
fn bad_element(levels: u32, item: &RawItem<'_>) -> Option<u32>
    ensures { result ≡ element_bad (inside_bad levels) item.now.start item.now.name item.now.tree }
{
    if is_text(item.name()) {
        bad_value(levels, item)
    } else {
        Some(offset_of(item))
    }
}

// In a value: inside it where it is a document or an array.
#[cycle(bad)]
fn bad_value(levels: u32, item: &RawItem<'_>) -> Option<u32>
    ensures { result ≡ value_bad (inside_bad levels) item.now.start item.now.tree }
{
    match item.child() {
        Some(inside) => bad_inside(levels, &inside),
        None => bad_leaf(levels, item),
    }
}

// In a value that is no document and no array.
#[cycle(bad)]
fn bad_leaf(levels: u32, item: &RawItem<'_>) -> Option<u32>
    ensures { result ≡ offset_if (is_bad_leaf (λ start is. is_some (inside_bad levels start is)) item.now.start
        (form_of_type (tag_of item.now.tree)) (value_bytes item.now.tree)) item.now.start }
{
    if is_bad(levels, item) {
        Some(offset_of(item))
    } else {
        None
    }
}

// Whether a value that is no document and no array holds a text that isn't UTF-8, in a scope too.
#[cycle(bad)]
pub(crate) fn is_bad(levels: u32, item: &RawItem<'_>) -> bool
    ensures { result ≡ is_bad_leaf (λ start is. is_some (inside_bad levels start is)) item.now.start
        (form_of_type (tag_of item.now.tree)) (value_bytes item.now.tree) }
{
    let value = item.value();
    match item.scope() {
        Some((code, scope)) => is_bad_scope(levels, code, &scope),
        None => is_bad_plain(item, value),
    }
}

// Whether code, or a name or a text inside its scope, isn't UTF-8.
#[cycle(bad)]
fn is_bad_scope(levels: u32, code: &[u8], scope: &RawDoc<'_>) -> bool
    ensures { result ≡ (not (is_utf8 code.now) || is_some (inside_bad levels scope.now.start scope.now.tree)) }
{
    !is_text(code) || bad_inside(levels, scope).is_some()
}

// A value that holds no document, not in a scope either.
fn is_bad_plain(item: &RawItem<'_>, value: &[u8]) -> bool
    requires bytes { value.now ≡ value_bytes item.now.tree }
    requires laid { IsValue (IsItems (level_limit - 1)) item.now.tree }
    ensures { (B : ℕ → Items → Bool) (at : ℕ) → (tag_of item.now.tree ≡ 0x0F → ⊥)
        → result ≡ is_bad_leaf B at (form_of_type (tag_of item.now.tree)) (value_bytes item.now.tree) }
{
    let tag = item.tag();
    match form_of(tag) {
        None => false,
        Some(form) => is_bad_form(form, value),
    }
}

// Whether a text in a raw value of a form other than code with a scope isn't UTF-8.
#[tactic(auto, using(crate::proofs::Layouts::string_long, crate::proofs::Layouts::pointer_long))]
pub(crate) fn is_bad_form(form: Form, value: &[u8]) -> bool
    requires { IsRaw (IsItems (level_limit - 1)) (form_layout form) value.now }
    ensures { (B : ℕ → Items → Bool) (at : ℕ) → (form ≡ Form.Scope → ⊥)
        → result ≡ is_bad_raw B at form value.now }
{
    match form {
        Form::Text | Form::Code | Form::Symbol => !is_text(text_of(value)),
        Form::Regex => is_bad_regex(form, value),
        Form::Pointer => !is_text(pointer_parts(value).0),
        _ => false,
    }
}

// Whether the pattern or the options of a regular expression aren't UTF-8.
fn is_bad_regex(form: Form, value: &[u8]) -> bool
    requires { form ≡ Form.Regex }
    ensures { (B : ℕ → Items → Bool) (at : ℕ) → result ≡ is_bad_raw B at form value.now }
{
    let _ = form;
    let (pattern, options) = regex_parts(value);
    !is_text(pattern) || !is_text(options)
}

// The offset at which the value begins, which 32 bits hold.
pub(crate) fn offset_of(item: &RawItem<'_>) -> u32
    ensures { result ≡ item.now.start }
{
    let _value = item.value();
    item.start() as u32
}

// Whether the bytes are UTF-8 (RFC 3629).
pub(crate) fn is_text(bytes: &[u8]) -> bool
    ensures { result ≡ is_utf8 bytes.now }
{
    simdutf8::is_utf8(bytes)
}
