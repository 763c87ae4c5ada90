//! An element with the payload of its value, written into a slice.

ghost use Rattle.std.specs.Prelude.{◌≡◌, ◌+◌, ◌*◌, ◌/◌, ◌≤◌, ◌++◌, List, ℕ, length, take};
ghost use Rattle.bson_tree.specs.Spelling.{items_bytes, value_bytes};
ghost use Rattle.bson_tree.specs.Tree.{item as element, no_items};
ghost use Rattle.fle_outside.specs.Blocks.{Block};
ghost use Rattle.payload6.specs.Marking.{binary};
ghost use Rattle.doc_rewrite.specs.Payloads.{payload_under, iv_under};
ghost use Rattle.doc_rewrite.specs.Sites.{sealed_width};

use crate::label::Label;
use bson_codec::RawItem;
use bson_splice::writing::{put, put_name};
use bson_tree::types;
use crypto_hooks::Block256;
use fle_aead::DataKey;
use payload6::{kind_of, payload_len, seal_payload_into};

/// The subtype of a binary that holds a payload.
const PAYLOAD: u8 = 6;

/// Puts the payload of a value at offset `at`.
fn put_payload<B: Block256>(
    hooks: &B,
    key: &DataKey,
    label: &Label,
    iv: [u8; 16],
    item: &RawItem<'_>,
    out: &mut [u8],
    at: usize,
) -> usize
    requires hooks { B.answers hooks.now }
    requires room { at + (66 + 16 * (length (value_bytes item.now.tree) / 16 + 1)) ≤ length out.old }
    ensures end { result ≡ at + (66 + 16 * (length (value_bytes item.now.tree) / 16 + 1)) }
    ensures id { length label.now.key_id ≡ 16 }
    ensures size { length out.new ≡ length out.old }
    ensures within { result ≤ length out.new }
    ensures payload { (block : Block) → iv ≡ iv_under label.now key.now item.now.tree block
        → take result out.new ≡ take at out.old ++ payload_under label.now key.now item.now.tree block }
{
    let end = at + payload_len(item.value().len());
    seal_payload_into(
        hooks,
        key,
        kind_of(label.algorithm),
        label.key_id,
        item.tag(),
        iv,
        item.value(),
        &mut out[at..end],
    );
    end
}

/// Puts an element at offset `at`, with the payload of its value in a binary of subtype 06; the offset behind it.
pub(crate) fn put_sealed<B: Block256>(
    hooks: &B,
    key: &DataKey,
    label: &Label,
    iv: [u8; 16],
    item: &RawItem<'_>,
    out: &mut [u8],
    at: usize,
) -> usize
    requires hooks { B.answers hooks.now }
    requires room { at + 2 + length item.now.name + sealed_width (length (value_bytes item.now.tree)) ≤ length out.old }
    ensures end { result ≡ at + 2 + length item.now.name + sealed_width (length (value_bytes item.now.tree)) }
    ensures size { length out.new ≡ length out.old }
    ensures within { result ≤ length out.new }
    ensures id { length label.now.key_id ≡ 16 }
    ensures element { (block : Block) → iv ≡ iv_under label.now key.now item.now.tree block
        → take result out.new ≡ take at out.old
        ++ items_bytes (element item.now.name (binary 6 (payload_under label.now key.now item.now.tree block))
        no_items) }
{
    let size = payload_len(item.value().len()) as u32;
    let named = put_name(out, at, types::BINARY, item.name());
    let sized = put(out, named, &size.to_le_bytes());
    let typed = put(out, sized, &[PAYLOAD]);
    put_payload(hooks, key, label, iv, item, out, typed)
}
