//! A document with its payloads opened, written into a slice.

ghost use Rattle.std.specs.Prelude.{◌≡◌, ◌+◌, ◌<◌, ◌≤◌, ◌^◌, length, IfOk, None};
ghost use Rattle.bson_tree.specs.Spelling.{doc_bytes, items_bytes, value_bytes};
ghost use Rattle.bson_tree.specs.Tree.{leaf, tag_of};
ghost use Rattle.doc_rewrite.specs.Finding.{HasKeysFor, IsFoundIn};
ghost use Rattle.doc_rewrite.specs.Founds.{founds, founds_in};
ghost use Rattle.doc_rewrite.specs.Keys.{key_by_id};
ghost use Rattle.doc_rewrite.specs.Opened.{first_wrong, keyless, misshapen, ring_of};
ghost use Rattle.doc_rewrite.specs.Opening.{Fits, OpensAs, OpensWhole, document_opened, element_bytes};
ghost use Rattle.doc_rewrite.specs.Opening.{element_opened, elements_opened, room_to_open};

use crate::finding::LEVELS;
use crate::found::Found;
use crate::key_table::{KeyTable, key_of};
use crate::leaf::{Leaf, leaf_of};
use crate::unsealing::{Spot, open_value};
use bson_codec::{RawDoc, RawItem};
use bson_splice::writing::{close, put, put_item, put_name};
use crypto_hooks::Block256;

/// Opens a raw value, where it is a payload.
fn open_leaf<B: Block256>(
    item: &RawItem<'_>,
    levels: u32,
    keys: &KeyTable,
    hooks: &B,
    out: &mut [u8],
    at: usize,
) -> Result<usize, Spot>
    requires hooks { B.answers hooks.now }
    requires levels { levels ≤ 99 }
    requires raw { item.now.tree ≡ leaf (tag_of item.now.tree) (value_bytes item.now.tree) }
    requires small { length out.old < 2 ^ 31 }
    requires shaped { first_wrong misshapen (founds_in levels item.now.start item.now.tree) ≡ None }
    requires keyed { first_wrong (keyless (ring_of (key_by_id keys.now.ids)))
        (founds_in levels item.now.start item.now.tree) ≡ None }
    requires room { at + length (element_bytes item.now) ≤ length out.old }
    ensures size { length out.new ≡ length out.old }
    ensures opened { OpensAs (ring_of (key_by_id keys.now.ids)) (founds_in levels item.now.start item.now.tree)
        (element_opened (ring_of (key_by_id keys.now.ids)) item.now) out.old out.new at
        (length (element_bytes item.now)) result }
{
    match leaf_of(item) {
        Leaf::Payload(payload) => {
            let _value = item.value();
            let named = put_name(out, at, payload.tag, item.name());
            let key = key_of(keys, &payload.key_id);
            open_value(
                hooks,
                key,
                &payload,
                levels,
                item.start() as u32,
                out,
                named,
            )
        }
        Leaf::Other => Ok(put_item(out, at, item)),
        Leaf::Misshapen => unreachable!(),
    }
}

/// Opens the payloads of an element.
#[cycle(open)]
fn open_item<B: Block256>(
    item: &RawItem<'_>,
    levels: u32,
    keys: &KeyTable,
    hooks: &B,
    out: &mut [u8],
    at: usize,
) -> Result<usize, Spot>
    requires hooks { B.answers hooks.now }
    requires levels { levels ≤ 99 }
    requires small { length out.old < 2 ^ 31 }
    requires shaped { first_wrong misshapen (founds_in levels item.now.start item.now.tree) ≡ None }
    requires keyed { first_wrong (keyless (ring_of (key_by_id keys.now.ids)))
        (founds_in levels item.now.start item.now.tree) ≡ None }
    requires room { Fits at (length (element_bytes item.now)) (founds_in levels item.now.start item.now.tree)
        (length out.old) }
    ensures size { length out.new ≡ length out.old }
    ensures opened { OpensAs (ring_of (key_by_id keys.now.ids)) (founds_in levels item.now.start item.now.tree)
        (element_opened (ring_of (key_by_id keys.now.ids)) item.now) out.old out.new at
        (length (element_bytes item.now)) result }
{
    match item.child() {
        Some(document) => {
            let named = put_name(out, at, item.tag(), item.name());
            open_document(&document, levels.saturating_sub(1), keys, hooks, out, named)
        }
        None => open_leaf(item, levels, keys, hooks, out, at),
    }
}

/// Opens the payloads of a document.
#[cycle(open)]
fn open_document<B: Block256>(
    document: &RawDoc<'_>,
    levels: u32,
    keys: &KeyTable,
    hooks: &B,
    out: &mut [u8],
    at: usize,
) -> Result<usize, Spot>
    requires hooks { B.answers hooks.now }
    requires levels { levels ≤ 99 }
    requires small { length out.old < 2 ^ 31 }
    requires shaped { first_wrong misshapen (founds levels (document.now.start + 4) document.now.tree) ≡ None }
    requires keyed { first_wrong (keyless (ring_of (key_by_id keys.now.ids)))
        (founds levels (document.now.start + 4) document.now.tree) ≡ None }
    requires room { Fits at (length (doc_bytes document.now.tree))
        (founds levels (document.now.start + 4) document.now.tree) (length out.old) }
    ensures size { length out.new ≡ length out.old }
    ensures opened { OpensAs (ring_of (key_by_id keys.now.ids))
        (founds levels (document.now.start + 4) document.now.tree)
        (document_opened (ring_of (key_by_id keys.now.ids)) document.now) out.old out.new at
        (length (doc_bytes document.now.tree)) result }
{
    match open_items(document, levels, keys, hooks, out, at + 4) {
        Ok(end) => Ok(close(out, at, end)),
        stopped => stopped,
    }
}

/// Opens the payloads of the elements of a document.
#[cycle(open)]
fn open_items<B: Block256>(
    document: &RawDoc<'_>,
    levels: u32,
    keys: &KeyTable,
    hooks: &B,
    out: &mut [u8],
    at: usize,
) -> Result<usize, Spot>
    requires hooks { B.answers hooks.now }
    requires levels { levels ≤ 99 }
    requires small { length out.old < 2 ^ 31 }
    requires shaped { first_wrong misshapen (founds levels (document.now.start + 4) document.now.tree) ≡ None }
    requires keyed { first_wrong (keyless (ring_of (key_by_id keys.now.ids)))
        (founds levels (document.now.start + 4) document.now.tree) ≡ None }
    requires room { Fits at (length (items_bytes document.now.tree))
        (founds levels (document.now.start + 4) document.now.tree) (length out.old) }
    ensures size { length out.new ≡ length out.old }
    ensures opened { OpensAs (ring_of (key_by_id keys.now.ids))
        (founds levels (document.now.start + 4) document.now.tree)
        (elements_opened (ring_of (key_by_id keys.now.ids)) (document.now.start + 4) document.now.tree)
        out.old out.new at (length (items_bytes document.now.tree)) result }
{
    let mut end = at;
    for item in document.items() {
        match open_item(&item, levels, keys, hooks, out, end) {
            Ok(behind) => end = behind,
            stopped => return stopped,
        }
    }
    Ok(end)
}

/// Writes the document to the front of `out` with each payload opened, the value of its original type in its place,
/// and answers how many bytes that are, at most as many as the document has. What a payload opens to isn't looked into.
///
/// `found` is what `find_payloads` gives for the document, `keys` has the key of each of its ids, and `out` has the
/// room that `found` tells, which is at most as many bytes as the document has. Otherwise the first payload, in
/// reading order, whose tag, padding or value is wrong; `out` may hold anything then. It allocates nothing.
pub fn open_through<B: Block256>(
    found: &Found<'_>,
    document: &RawDoc<'_>,
    keys: &KeyTable,
    hooks: &B,
    out: &mut [u8],
) -> Result<usize, Spot>
    requires hooks { B.answers hooks.now }
    requires found { IsFoundIn document.now found.now }
    requires keyed { HasKeysFor (key_by_id keys.now.ids) found.now }
    requires room { room_to_open document.now found.now ≤ length out.old }
    ensures size { length out.new ≡ length out.old }
    ensures opened { OpensWhole (ring_of (key_by_id keys.now.ids)) document.now out.new result }
    ensures short { IfOk result (λ n. n ≤ length (doc_bytes document.now.tree)) }
{
    let bytes = document.bytes();
    if found.len() == 0 {
        return Ok(put(out, 0, bytes));
    }
    let (front, _) = out.split_at_mut(found.room(document));
    open_document(document, LEVELS, keys, hooks, front, 0)
}
