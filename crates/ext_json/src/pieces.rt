//! Texts of any length in pieces of bounded size: what is written together is gathered in a piece first.

ghost use Rattle.std.specs.Prelude.{◌≡◌, ◌++◌, [], Some, true};
ghost use Rattle.bson_tree.specs.Spelling.{value_bytes};
ghost use Rattle.bson_tree.specs.Tree.{tag_of};
ghost use Rattle.fle_outside.specs.Writing.{WritesWhole};
ghost use Rattle.ext_json.specs.Forms.{form_of as form_of_type};
ghost use Rattle.ext_json.specs.BadText.{first_bad};
ghost use Rattle.ext_json.specs.Pieces.{Sends, ShowsWhole};
ghost use Rattle.ext_json.specs.Showing.{Shows};
ghost use Rattle.ext_json.specs.Text.{elements_text, inside_text, leaf_text, name_text, value_text, text};

use crate::bad_text::first_bad_text;
use crate::fixed::{closing, comma, opening};
use crate::showing::{Shown, show_text};
use crate::text::{put_element, put_leaf, put_name};
use bson_codec::{RawDoc, RawItem};
use bson_tree::types;
use fle_outside::{Failed, Sink, WriteAnswer, write_whole};
use std::alloc::Global;

// A document has at most so many levels of nesting, its own included.
const LEVELS: u32 = 100;

/// The most bytes of a piece.
pub const ROOM: usize = 65_536;

/// Bytes that are written together. As a sink it takes what it has room and memory for.
#[derive(Drop)]
pub struct Piece {
    /// The bytes so far.
    pub bytes: Vec<u8>,
    /// How many of its calls failed, up to 2^64 - 1.
    faults: u64,
}

impl Piece {
    /// No bytes so far.
    pub fn new(alloc: Global) -> Piece
        ensures empty { result.bytes.items ≡ [] }
    {
        Piece {
            bytes: Vec::new(alloc),
            faults: 0,
        }
    }
}

impl Sink for Piece {
    ghost seen = { λ s. record { told = Some s.bytes.items; faults = s.faults; assured = 0 } };

    fn write(&mut self, piece: &[u8]) -> WriteAnswer {
        if ROOM < self.bytes.len().saturating_add(piece.len()) {
            self.faults = self.faults.saturating_add(1);
            return WriteAnswer::Failed;
        }
        match self.bytes.extend_from_slice(piece) {
            Ok(()) => WriteAnswer::Took(piece.len()),
            Err(_) => {
                self.faults = self.faults.saturating_add(1);
                WriteAnswer::Failed
            }
        }
    }
}

/// Writes the text of a document and the bytes behind it into a sink, unless a name, a text or a part of a regular
/// expression isn't UTF-8: then nothing is written, and the first such place told, as `first_bad_text` does.
///
/// What fits the piece is read once and written by one call; a longer text is judged first, and then written in pieces.
/// What the piece holds before and after has no meaning.
pub fn show_whole<O: Sink>(
    document: &RawDoc<'_>,
    behind: &[u8],
    piece: &mut Piece,
    out: &mut O,
) -> Shown
    ensures shows { ShowsWhole (O.seen out.old) (O.seen out.new) result
        (first_bad document.now.start document.now.tree) (text document.now.tree ++ behind.now) }
{
    piece.bytes.clear();
    match show_ended(document, behind, piece) {
        Shown::Written => match write_whole(out, &piece.bytes) {
            Ok(()) => Shown::Written,
            Err(Failed) => Shown::Failed,
        },
        Shown::Bad(at) => Shown::Bad(at),
        Shown::Failed => show_long(document, behind, piece, out),
    }
}

// A text and the bytes behind it in one walk.
fn show_ended<O: Sink>(document: &RawDoc<'_>, behind: &[u8], out: &mut O) -> Shown
    ensures shows { Shows (O.seen out.old) (O.seen out.new) result
        (first_bad document.now.start document.now.tree) (text document.now.tree ++ behind.now) }
{
    match show_text(document, out) {
        Shown::Written => match write_whole(out, behind) {
            Ok(()) => Shown::Written,
            Err(Failed) => Shown::Failed,
        },
        Shown::Bad(at) => Shown::Bad(at),
        Shown::Failed => Shown::Failed,
    }
}

// A text that is longer than a piece, and the bytes behind it.
fn show_long<O: Sink>(document: &RawDoc<'_>, behind: &[u8], piece: &mut Piece, out: &mut O) -> Shown
    ensures shows { ShowsWhole (O.seen out.old) (O.seen out.new) result
        (first_bad document.now.start document.now.tree) (text document.now.tree ++ behind.now) }
{
    match first_bad_text(document) {
        Some(at) => return Shown::Bad(at),
        None => {}
    }
    match send_text(document, piece, out) {
        Ok(()) => {}
        Err(Failed) => return Shown::Failed,
    }
    match write_whole(out, behind) {
        Ok(()) => Shown::Written,
        Err(Failed) => Shown::Failed,
    }
}

/// Writes the text of a document into a sink, as `write_text` does, in few calls: a piece is filled and written again
/// and again. What the piece holds before and after has no meaning.
pub fn send_text<O: Sink>(
    document: &RawDoc<'_>,
    piece: &mut Piece,
    out: &mut O,
) -> Result<(), Failed>
    ensures text { WritesWhole (O.seen out.old) (O.seen out.new) result (text document.now.tree) }
{
    send_inside(LEVELS, true, document, piece, out)
}

// A document (named) or an array that takes at most so many levels.
#[cycle(sent)]
#[tactic(auto, unfolding(crate::specs::Text::inside_text))]
fn send_inside<O: Sink>(
    levels: u32,
    named: bool,
    document: &RawDoc<'_>,
    piece: &mut Piece,
    out: &mut O,
) -> Result<(), Failed>
    ensures wrote { WritesWhole (O.seen out.old) (O.seen out.new) result
        (inside_text levels named document.now.tree) }
{
    if levels == 0 {
        return Ok(());
    }
    let below = levels - 1;
    match write_whole(out, opening(named)) {
        Ok(()) => {}
        Err(Failed) => return Err(Failed),
    }
    match send_elements(below, named, document, piece, out) {
        Ok(()) => {}
        Err(Failed) => return Err(Failed),
    }
    write_whole(out, closing(named))
}

// Its elements: the piece is begun anew, and what it holds in the end is written.
#[cycle(sent)]
fn send_elements<O: Sink>(
    levels: u32,
    named: bool,
    document: &RawDoc<'_>,
    piece: &mut Piece,
    out: &mut O,
) -> Result<(), Failed>
    ensures wrote { WritesWhole (O.seen out.old) (O.seen out.new) result
        (elements_text (value_text (inside_text levels)) named [] document.now.tree) }
{
    piece.bytes.clear();
    let mut before: &[u8] = &[];
    for item in document.items() {
        match send_element(levels, named, before, &item, piece, out) {
            Ok(()) => {}
            Err(Failed) => return Err(Failed),
        }
        before = comma();
    }
    write_whole(out, &piece.bytes)
}

// An element into the piece behind what it holds; where it has no room, both into the sink.
#[cycle(sent)]
fn send_element<O: Sink>(
    levels: u32,
    named: bool,
    before: &[u8],
    item: &RawItem<'_>,
    piece: &mut Piece,
    out: &mut O,
) -> Result<(), Failed>
    ensures sent { Sends piece.old.bytes.items piece.new.bytes.items (O.seen out.old) (O.seen out.new) result
        (before.now ++ (name_text named item.now.name ++ value_text (inside_text levels) item.now.tree)) }
{
    let held = piece.bytes.len();
    match put_element(levels, named, before, item, piece) {
        Ok(()) => return Ok(()),
        Err(Failed) => piece.bytes.truncate(held),
    }
    match write_whole(out, &piece.bytes) {
        Ok(()) => {}
        Err(Failed) => return Err(Failed),
    }
    let sent = send_long(levels, named, before, item, piece, out);
    piece.bytes.clear();
    sent
}

// An element straight into the sink, its value in pieces.
#[cycle(sent)]
fn send_long<O: Sink>(
    levels: u32,
    named: bool,
    before: &[u8],
    item: &RawItem<'_>,
    piece: &mut Piece,
    out: &mut O,
) -> Result<(), Failed>
    ensures wrote { WritesWhole (O.seen out.old) (O.seen out.new) result
        (before.now ++ (name_text named item.now.name ++ value_text (inside_text levels) item.now.tree)) }
{
    match write_whole(out, before) {
        Ok(()) => {}
        Err(Failed) => return Err(Failed),
    }
    match put_name(named, item.name(), out) {
        Ok(()) => {}
        Err(Failed) => return Err(Failed),
    }
    send_value(levels, item, piece, out)
}

// A value: a document or an array in pieces, another by its form.
#[cycle(sent)]
fn send_value<O: Sink>(
    levels: u32,
    item: &RawItem<'_>,
    piece: &mut Piece,
    out: &mut O,
) -> Result<(), Failed>
    ensures wrote { WritesWhole (O.seen out.old) (O.seen out.new) result
        (value_text (inside_text levels) item.now.tree) }
{
    match item.child() {
        Some(inside) => send_inside(levels, item.tag() == types::DOCUMENT, &inside, piece, out),
        None => send_leaf(levels, item, piece, out),
    }
}

// A value that is no document and no array: through the piece where it fits, else straight into the sink.
fn send_leaf<O: Sink>(
    levels: u32,
    item: &RawItem<'_>,
    piece: &mut Piece,
    out: &mut O,
) -> Result<(), Failed>
    ensures wrote { WritesWhole (O.seen out.old) (O.seen out.new) result
        (leaf_text (inside_text levels true) (form_of_type (tag_of item.now.tree)) (value_bytes item.now.tree)) }
{
    piece.bytes.clear();
    match put_leaf(levels, item, piece) {
        Ok(()) => write_whole(out, &piece.bytes),
        Err(Failed) => put_leaf(levels, item, out),
    }
}
