//! A sealed document opened some times over.

ghost use Rattle.std.specs.Prelude.{◌≡◌, ◌<◌, ◌≤◌, length, map, take, IfSome};
ghost use Rattle.doc_rewrite.specs.Finding.{HasKeysFor, found_at};
ghost use Rattle.doc_rewrite.specs.Founds.{payloads_of};
ghost use Rattle.doc_rewrite.specs.Keys.{key_by_id};
ghost use Rattle.doc_rewrite.specs.Opening.{room_to_open};
ghost use Rattle.fle_bench.specs.Checksum.{checksum};
ghost use Rattle.fle_bench.specs.Documents.{opened_bytes, the_keys};

use crate::checksum::checksum;
use crate::documents::keys;
use bson_codec::{RawDoc, check_bson};
use crypto_hooks::Tables;
use doc_rewrite::{FoundAt, KeyTable, Listener, find_payloads, open_through, tell_payloads};
use std::alloc::Global;

/// Opens the payloads of a document, some times over, and gives the checksum of what was written last; `None` where the
/// bytes aren't a document, where it isn't opened, where another key is asked for, or for want of memory.
pub fn run_opening(alloc: Global, bytes: &[u8], turns: u32) -> Option<u32>
    requires { length bytes.now ≤ 67108864 }
{
    match check_bson(bytes) {
        Ok(document) => open_document(alloc, &document, turns),
        Err(_) => None,
    }
}

/// The checksum of a document that was opened some times over.
fn open_document(alloc: Global, document: &RawDoc<'_>, turns: u32) -> Option<u32>
    ensures sum { IfSome result (λ sum. 0 < turns → sum ≡ checksum (opened_bytes the_keys document.now)) }
{
    let keys = keys(alloc)?;
    let room = keyed_room(document, &keys)?;
    match vec![in alloc; 0u8; room] {
        Ok(out) => opened_sum(document, &keys, out, turns),
        Err(_) => None,
    }
}

/// Who is told of payloads, and looks up the key of each.
#[derive(Drop)]
struct Asking<'k> {
    keys: &'k KeyTable,
    /// Whether the keys of all were there so far.
    all: bool,
}

impl<'k> Listener for Asking<'k> {
    ghost use Rattle.std.specs.Prelude.{◌≡◌, is_some, true};
    ghost use Rattle.doc_rewrite.specs.Keys.{key_by_id};

    ghost tells = { λ a b f. (b.keys.now ≡ a.keys.now)
        × (b.all ≡ true → (a.all ≡ true) × (is_some (key_by_id a.keys.now.ids f.key_id) ≡ true)) };

    fn tell(&mut self, payload: FoundAt) {
        if self.keys.find(&payload.key_id).is_none() {
            self.all = false;
        }
    }
}

/// How much room it takes to open a document; `None` where the key of a payload is missing, and where one has a length
/// that none has.
fn keyed_room(document: &RawDoc<'_>, keys: &KeyTable) -> Option<usize>
    ensures keyed { IfSome result (λ _. HasKeysFor (key_by_id keys.now.ids) (map found_at (payloads_of document.now))) }
    ensures room { IfSome result (λ n. n ≡ room_to_open document.now (map found_at (payloads_of document.now))) }
{
    let mut asking = Asking { keys, all: true };
    let Ok(found) = tell_payloads(document, &mut asking) else {
        return None;
    };
    if asking.all {
        Some(found.room(document))
    } else {
        None
    }
}

/// The same under keys that are there, in room for it.
fn opened_sum(document: &RawDoc<'_>, keys: &KeyTable, mut out: Vec<u8>, turns: u32) -> Option<u32>
    requires keyed { HasKeysFor (key_by_id keys.now.ids) (map found_at (payloads_of document.now)) }
    requires room { room_to_open document.now (map found_at (payloads_of document.now)) ≤ length out.items }
    ensures sum { IfSome result (λ sum. 0 < turns → sum ≡ checksum (opened_bytes keys.now document.now)) }
{
    match open(document, keys, &mut out, turns) {
        Some(n) => Some(front_sum(out, n)),
        None => None,
    }
}

/// The checksum of the first so many bytes.
fn front_sum(mut out: Vec<u8>, n: usize) -> u32
    ensures sum { result ≡ checksum (take n out.items) }
{
    out.truncate(n);
    checksum(&out)
}

/// Opens a document some times over, to the front of `out`, and says how long it was the last time.
fn open(document: &RawDoc<'_>, keys: &KeyTable, out: &mut [u8], turns: u32) -> Option<usize>
    requires keyed { HasKeysFor (key_by_id keys.now.ids) (map found_at (payloads_of document.now)) }
    requires room { room_to_open document.now (map found_at (payloads_of document.now)) ≤ length out.old }
    ensures opened { 0 < turns → IfSome result (λ n. take n out.new ≡ opened_bytes keys.now document.now) }
{
    let mut opened = Some(0);
    for _turn in 0..turns {
        opened = open_once(document, keys, out);
    }
    opened
}

/// Finds the payloads of a document and opens them; `None` where one isn't opened.
fn open_once(document: &RawDoc<'_>, keys: &KeyTable, out: &mut [u8]) -> Option<usize>
    requires keyed { HasKeysFor (key_by_id keys.now.ids) (map found_at (payloads_of document.now)) }
    requires room { room_to_open document.now (map found_at (payloads_of document.now)) ≤ length out.old }
    ensures size { length out.new ≡ length out.old }
    ensures opened { IfSome result (λ n. take n out.new ≡ opened_bytes keys.now document.now) }
{
    let Ok(found) = find_payloads(document) else {
        return None;
    };
    match open_through(&found, document, keys, &Tables, out) {
        Ok(n) => Some(n),
        Err(_) => None,
    }
}
