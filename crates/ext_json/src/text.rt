//! Documents as text: compact JSON (RFC 8259), after MongoDB Extended JSON v2 in its canonical form.

ghost use Rattle.std.specs.Prelude.{◌≡◌, ◌++◌, ◌∷◌, ◌==◌, ◌-◌, ℕ, [], true, List};
ghost use Rattle.fle_outside.specs.Writing.{WritesWhole};
ghost use Rattle.bson_tree.specs.Spelling.{value_bytes};
ghost use Rattle.bson_tree.specs.Tree.{tag_of, Items};
ghost use Rattle.bson_codec.specs.Layout.{IsValue, IsItems, level_limit};
ghost use Rattle.ext_json.specs.Fixed.{head_text, middle_text, tail_text};
ghost use Rattle.ext_json.specs.Forms.{form_of as form_of_type};
ghost use Rattle.ext_json.specs.Quoted.{quoted};
ghost use Rattle.ext_json.specs.Text.{elements_text, inside_text, leaf_text, name_text, value_text, text};

use crate::fixed::{closing, colon, comma, head, middle, opening, tail};
use crate::form::{Form, form_of};
use crate::quoted::put_quoted;
use crate::raw_text::put_raw;
use bson_codec::{RawDoc, RawItem};
use bson_tree::types;
use fle_outside::{Failed, Sink, write_whole};

// A document has at most so many levels of nesting, its own included.
const LEVELS: u32 = 100;

/// Writes the text of a document into a sink, without memory; after `Failed` the sink holds a front of it.
///
/// The text is UTF-8 where `first_bad_text` finds no place.
pub fn write_text<O: Sink>(document: &RawDoc<'_>, out: &mut O) -> Result<(), Failed>
    ensures text { WritesWhole (O.seen out.old) (O.seen out.new) result (text document.now.tree) }
{
    put_inside(LEVELS, true, document, out)
}

// A document (named) or an array that takes at most so many levels.
#[cycle(text)]
#[tactic(auto, unfolding(crate::specs::Text::inside_text))]
fn put_inside<O: Sink>(
    levels: u32,
    named: bool,
    document: &RawDoc<'_>,
    out: &mut O,
) -> Result<(), Failed>
    ensures { WritesWhole (O.seen out.old) (O.seen out.new) result (inside_text levels named document.now.tree) }
{
    if levels == 0 {
        return Ok(());
    }
    let below = levels - 1;
    match write_whole(out, opening(named)) {
        Ok(()) => {}
        Err(Failed) => return Err(Failed),
    }
    match put_elements(below, named, document, out) {
        Ok(()) => {}
        Err(Failed) => return Err(Failed),
    }
    write_whole(out, closing(named))
}

// The elements of a document (named) or an array, with a comma between two.
#[cycle(text)]
fn put_elements<O: Sink>(
    levels: u32,
    named: bool,
    document: &RawDoc<'_>,
    out: &mut O,
) -> Result<(), Failed>
    ensures { WritesWhole (O.seen out.old) (O.seen out.new) result
        (elements_text (value_text (inside_text levels)) named [] document.now.tree) }
{
    let mut before: &[u8] = &[];
    for item in document.items() {
        match put_element(levels, named, before, &item, out) {
            Ok(()) => {}
            Err(Failed) => return Err(Failed),
        }
        before = comma();
    }
    Ok(())
}

// An element of a document (named) or an array, behind the bytes `before`.
#[cycle(text)]
pub(crate) fn put_element<O: Sink>(
    levels: u32,
    named: bool,
    before: &[u8],
    item: &RawItem<'_>,
    out: &mut O,
) -> Result<(), Failed>
    ensures { WritesWhole (O.seen out.old) (O.seen out.new) result
        (before.now ++ (name_text named item.now.name ++ value_text (inside_text levels) item.now.tree)) }
{
    match write_whole(out, before) {
        Ok(()) => {}
        Err(Failed) => return Err(Failed),
    }
    match put_name(named, item.name(), out) {
        Ok(()) => {}
        Err(Failed) => return Err(Failed),
    }
    put_value(levels, item, out)
}

// A value that adds at most so many levels.
#[cycle(text)]
fn put_value<O: Sink>(levels: u32, item: &RawItem<'_>, out: &mut O) -> Result<(), Failed>
    ensures { WritesWhole (O.seen out.old) (O.seen out.new) result (value_text (inside_text levels) item.now.tree) }
{
    match item.child() {
        Some(inside) => put_inside(levels, item.tag() == types::DOCUMENT, &inside, out),
        None => put_leaf(levels, item, out),
    }
}

// A value that is no document and no array.
#[cycle(text)]
pub(crate) fn put_leaf<O: Sink>(levels: u32, item: &RawItem<'_>, out: &mut O) -> Result<(), Failed>
    ensures { WritesWhole (O.seen out.old) (O.seen out.new) result
        (leaf_text (inside_text levels true) (form_of_type (tag_of item.now.tree)) (value_bytes item.now.tree)) }
{
    let value = item.value();
    match item.scope() {
        Some((code, scope)) => put_scope(levels, code, &scope, out),
        None => put_plain(item, value, out),
    }
}

// Code with its scope.
#[cycle(text)]
fn put_scope<O: Sink>(
    levels: u32,
    code: &[u8],
    scope: &RawDoc<'_>,
    out: &mut O,
) -> Result<(), Failed>
    ensures { WritesWhole (O.seen out.old) (O.seen out.new) result
        (head_text Form.Scope ++ ((quoted code.now ++ (middle_text Form.Scope
        ++ inside_text levels true scope.now.tree)) ++ tail_text Form.Scope)) }
{
    match put_code(code, out) {
        Ok(()) => {}
        Err(Failed) => return Err(Failed),
    }
    match put_inside(levels, true, scope, out) {
        Ok(()) => {}
        Err(Failed) => return Err(Failed),
    }
    write_whole(out, tail(Form::Scope))
}

// The code, and what its scope stands behind.
fn put_code<O: Sink>(code: &[u8], out: &mut O) -> Result<(), Failed>
    ensures { WritesWhole (O.seen out.old) (O.seen out.new) result
        (head_text Form.Scope ++ (quoted code.now ++ middle_text Form.Scope)) }
{
    match write_whole(out, head(Form::Scope)) {
        Ok(()) => {}
        Err(Failed) => return Err(Failed),
    }
    match put_quoted(code, out) {
        Ok(()) => {}
        Err(Failed) => return Err(Failed),
    }
    write_whole(out, middle(Form::Scope))
}

// A value that holds no document, not in a scope either.
fn put_plain<O: Sink>(item: &RawItem<'_>, value: &[u8], out: &mut O) -> Result<(), Failed>
    requires bytes { value.now ≡ value_bytes item.now.tree }
    requires laid { IsValue (IsItems (level_limit - 1)) item.now.tree }
    ensures { (D : Items → List ℕ) → (tag_of item.now.tree ≡ 0x0F → ⊥)
        → WritesWhole (O.seen out.old) (O.seen out.new) result
        (leaf_text D (form_of_type (tag_of item.now.tree)) (value_bytes item.now.tree)) }
{
    let tag = item.tag();
    match form_of(tag) {
        None => Ok(()),
        Some(form) => put_raw(form, value, out),
    }
}

// The name of an element and a colon; in an array nothing.
pub(crate) fn put_name<O: Sink>(named: bool, name: &[u8], out: &mut O) -> Result<(), Failed>
    ensures { WritesWhole (O.seen out.old) (O.seen out.new) result (name_text named name.now) }
{
    if named {
        put_member_name(name, out)
    } else {
        Ok(())
    }
}

// A name in quotes, and a colon.
fn put_member_name<O: Sink>(name: &[u8], out: &mut O) -> Result<(), Failed>
    ensures { WritesWhole (O.seen out.old) (O.seen out.new) result (quoted name.now ++ 58 ∷ []) }
{
    match put_quoted(name, out) {
        Ok(()) => {}
        Err(Failed) => return Err(Failed),
    }
    write_whole(out, colon())
}
