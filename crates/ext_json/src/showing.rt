//! Documents as text, and the first place that isn't UTF-8, in one walk.

ghost use Rattle.std.specs.Prelude.{◌≡◌, ◌++◌, ◌+◌, ◌-◌, ◌==◌, ℕ, Bool, List, [], true, is_some};
ghost use Rattle.bson_codec.specs.Layout.{IsRaw, IsItems, IsValue, level_limit};
ghost use Rattle.bson_tree.specs.Spelling.{value_bytes};
ghost use Rattle.bson_tree.specs.Tree.{tag_of, Items};
ghost use Rattle.fle_outside.specs.Writing.{WritesWhole};
ghost use Rattle.ext_json.specs.BadText.{first_bad, inside_bad, elements_bad, element_bad, value_bad};
ghost use Rattle.ext_json.specs.BadText.{is_bad_raw, is_bad_leaf, offset_if};
ghost use Rattle.ext_json.specs.Forms.{form_layout, form_of as form_of_type};
ghost use Rattle.ext_json.specs.Showing.{Shows, separator};
ghost use Rattle.ext_json.specs.Text.{elements_text, inside_text, leaf_text, name_text, raw_text, value_text, text};

use crate::bad_text::{is_bad, is_bad_form, is_text, offset_of};
use crate::fixed::{closing, comma, opening};
use crate::form::{Form, form_of};
use crate::raw_text::put_raw;
use crate::text::{put_leaf, put_name};
use bson_codec::{RawDoc, RawItem};
use bson_tree::types;
use fle_outside::{Failed, Sink, write_whole};

// A document has at most so many levels of nesting, its own included.
const LEVELS: u32 = 100;

/// How a document was shown.
#[derive(Clone, Copy, Debug, PartialEq, Eq)]
pub enum Shown {
    /// All of its names and texts are UTF-8, and its text is written.
    Written,
    /// The offset of the value of the first place that isn't UTF-8, as `first_bad_text` tells it; what the sink took
    /// is no text.
    Bad(u32),
    /// The sink failed, and holds a front of the text.
    Failed,
}

/// Writes the text of a document into a sink, as `write_text` does, unless a name, a text or a part of a regular
/// expression isn't UTF-8: then tells the first such place, as `first_bad_text` does. Allocates nothing, and reads the
/// document once.
pub fn show_text<O: Sink>(document: &RawDoc<'_>, out: &mut O) -> Shown
    ensures shows { Shows (O.seen out.old) (O.seen out.new) result (first_bad document.now.start document.now.tree)
        (text document.now.tree) }
{
    show_inside(LEVELS, true, document, out)
}

// A document (named) or an array that takes at most so many levels.
#[cycle(shown)]
fn show_inside<O: Sink>(levels: u32, named: bool, document: &RawDoc<'_>, out: &mut O) -> Shown
    ensures { Shows (O.seen out.old) (O.seen out.new) result (inside_bad levels document.now.start document.now.tree)
        (inside_text levels named document.now.tree) }
{
    if levels == 0 {
        return Shown::Written;
    }
    let below = levels - 1;
    match write_whole(out, opening(named)) {
        Ok(()) => {}
        Err(Failed) => return Shown::Failed,
    }
    match show_elements(below, named, document, out) {
        Shown::Written => {}
        Shown::Bad(at) => return Shown::Bad(at),
        Shown::Failed => return Shown::Failed,
    }
    match write_whole(out, closing(named)) {
        Ok(()) => Shown::Written,
        Err(Failed) => Shown::Failed,
    }
}

// The elements of a document (named) or an array, with a comma between two.
#[cycle(shown)]
fn show_elements<O: Sink>(levels: u32, named: bool, document: &RawDoc<'_>, out: &mut O) -> Shown
    ensures { Shows (O.seen out.old) (O.seen out.new) result
        (elements_bad (inside_bad levels) (document.now.start + 4) document.now.tree)
        (elements_text (value_text (inside_text levels)) named [] document.now.tree) }
{
    let mut first = true;
    for item in document.items() {
        match show_element(levels, named, first, &item, out) {
            Shown::Written => {}
            Shown::Bad(at) => return Shown::Bad(at),
            Shown::Failed => return Shown::Failed,
        }
        first = false;
    }
    Shown::Written
}

// An element, behind a comma unless it is the first.
#[cycle(shown)]
fn show_element<O: Sink>(
    levels: u32,
    named: bool,
    first: bool,
    item: &RawItem<'_>,
    out: &mut O,
) -> Shown
    ensures { Shows (O.seen out.old) (O.seen out.new) result
        (element_bad (inside_bad levels) item.now.start item.now.name item.now.tree)
        (separator first ++ (name_text named item.now.name ++ value_text (inside_text levels) item.now.tree)) }
{
    if !is_text(item.name()) {
        return Shown::Bad(offset_of(item));
    }
    match put_separator(first, out) {
        Ok(()) => {}
        Err(Failed) => return Shown::Failed,
    }
    match put_name(named, item.name(), out) {
        Ok(()) => {}
        Err(Failed) => return Shown::Failed,
    }
    show_value(levels, item, out)
}

// A value that adds at most so many levels.
#[cycle(shown)]
fn show_value<O: Sink>(levels: u32, item: &RawItem<'_>, out: &mut O) -> Shown
    ensures { Shows (O.seen out.old) (O.seen out.new) result
        (value_bad (inside_bad levels) item.now.start item.now.tree) (value_text (inside_text levels) item.now.tree) }
{
    match item.child() {
        Some(inside) => show_inside(levels, item.tag() == types::DOCUMENT, &inside, out),
        None => show_leaf(levels, item, out),
    }
}

// A value that is no document and no array.
fn show_leaf<O: Sink>(levels: u32, item: &RawItem<'_>, out: &mut O) -> Shown
    ensures { Shows (O.seen out.old) (O.seen out.new) result
        (offset_if (is_bad_leaf (λ start is. is_some (inside_bad levels start is)) item.now.start
        (form_of_type (tag_of item.now.tree)) (value_bytes item.now.tree)) item.now.start)
        (leaf_text (inside_text levels true) (form_of_type (tag_of item.now.tree)) (value_bytes item.now.tree)) }
{
    let value = item.value();
    match item.scope() {
        Some(_) => show_scoped(levels, item, out),
        None => show_plain(item, value, out),
    }
}

// The same for a value that may hold a document: it is read twice.
fn show_scoped<O: Sink>(levels: u32, item: &RawItem<'_>, out: &mut O) -> Shown
    ensures { Shows (O.seen out.old) (O.seen out.new) result
        (offset_if (is_bad_leaf (λ start is. is_some (inside_bad levels start is)) item.now.start
        (form_of_type (tag_of item.now.tree)) (value_bytes item.now.tree)) item.now.start)
        (leaf_text (inside_text levels true) (form_of_type (tag_of item.now.tree)) (value_bytes item.now.tree)) }
{
    if is_bad(levels, item) {
        return Shown::Bad(offset_of(item));
    }
    match put_leaf(levels, item, out) {
        Ok(()) => Shown::Written,
        Err(Failed) => Shown::Failed,
    }
}

// A value that holds no document, not in a scope either.
fn show_plain<O: Sink>(item: &RawItem<'_>, value: &[u8], out: &mut O) -> Shown
    requires bytes { value.now ≡ value_bytes item.now.tree }
    requires laid { IsValue (IsItems (level_limit - 1)) item.now.tree }
    ensures { (B : ℕ → Items → Bool) (D : Items → List ℕ) → (tag_of item.now.tree ≡ 0x0F → ⊥)
        → Shows (O.seen out.old) (O.seen out.new) result
        (offset_if (is_bad_leaf B item.now.start (form_of_type (tag_of item.now.tree)) (value_bytes item.now.tree))
        item.now.start)
        (leaf_text D (form_of_type (tag_of item.now.tree)) (value_bytes item.now.tree)) }
{
    let tag = item.tag();
    match form_of(tag) {
        None => Shown::Written,
        Some(form) => show_form(form, value, offset_of(item), out),
    }
}

// A raw value of a form, which begins at this offset.
fn show_form<O: Sink>(form: Form, value: &[u8], at: u32, out: &mut O) -> Shown
    requires { IsRaw (IsItems (level_limit - 1)) (form_layout form) value.now }
    ensures { (B : ℕ → Items → Bool) (D : Items → List ℕ) → (form ≡ Form.Scope → ⊥)
        → Shows (O.seen out.old) (O.seen out.new) result (offset_if (is_bad_raw B at form value.now) at)
        (raw_text D form value.now) }
{
    if is_bad_form(form, value) {
        return Shown::Bad(at);
    }
    match put_raw(form, value, out) {
        Ok(()) => Shown::Written,
        Err(Failed) => Shown::Failed,
    }
}

// The comma before an element that isn't the first.
fn put_separator<O: Sink>(first: bool, out: &mut O) -> Result<(), Failed>
    ensures { WritesWhole (O.seen out.old) (O.seen out.new) result (separator first) }
{
    if first {
        return Ok(());
    }
    write_whole(out, comma())
}
