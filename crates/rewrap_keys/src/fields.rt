//! The document of a local key with new material, written into a slice field by field.

ghost use Rattle.std.specs.Prelude.{◌≡◌, ◌+◌, ◌<◌, ◌≤◌, ◌^◌, ◌++◌, length, take};
ghost use Rattle.bson_tree.specs.Spelling.{doc_bytes, items_bytes, value_bytes};
ghost use Rattle.bson_tree.specs.Tree.{item as element, no_items};
ghost use Rattle.data_key.specs.Written.{binary};
ghost use Rattle.rewrap_keys.specs.Fields.{new_value, with_material};

use bson_codec::{RawDoc, RawItem};
use bson_splice::writing::{close, put, put_item, put_name};
use bson_tree::types;

/// What stands before the contents of a material: their number, 160, and the subtype 00.
const HEAD: [u8; 5] = [160, 0, 0, 0, 0];

/// Writes the document behind `at`, with this material and this date of the last change. The end of what is written.
pub(crate) fn put_document(
    out: &mut [u8],
    at: usize,
    document: &RawDoc<'_>,
    material: &[u8; 160],
    time: u64,
) -> usize
    requires small { length out.old < 2 ^ 31 }
    requires room { at + length (doc_bytes (with_material material.now time document.now.tree))
        ≤ length out.old }
    ensures end { result ≡ at
        + length (doc_bytes (with_material material.now time document.now.tree)) }
    ensures size { length out.new ≡ length out.old }
    ensures written { take result out.new ≡ take at out.old
        ++ doc_bytes (with_material material.now time document.now.tree) }
{
    let end = put_fields(out, at + 4, document, material, time);
    close(out, at, end)
}

/// Writes the fields behind `at`. The end of what is written.
fn put_fields(
    out: &mut [u8],
    at: usize,
    document: &RawDoc<'_>,
    material: &[u8; 160],
    time: u64,
) -> usize
    requires room { at + length (items_bytes (with_material material.now time document.now.tree))
        ≤ length out.old }
    ensures end { result ≡ at
        + length (items_bytes (with_material material.now time document.now.tree)) }
    ensures size { length out.new ≡ length out.old }
    ensures written { take result out.new ≡ take at out.old
        ++ items_bytes (with_material material.now time document.now.tree) }
{
    let mut end = at;
    for field in document.items() {
        let behind = put_field(out, end, &field, material, time);
        end = behind;
    }
    end
}

/// Writes a field behind `at`: the new material, the new date of the last change, or the field as it stands.
fn put_field(
    out: &mut [u8],
    at: usize,
    field: &RawItem<'_>,
    material: &[u8; 160],
    time: u64,
) -> usize
    requires room { at + length (items_bytes (element field.now.name
        (new_value material.now time field.now.name field.now.tree) no_items)) ≤ length out.old }
    ensures end { result ≡ at + length (items_bytes (element field.now.name
        (new_value material.now time field.now.name field.now.tree) no_items)) }
    ensures size { length out.new ≡ length out.old }
    ensures written { take result out.new ≡ take at out.old ++ items_bytes (element field.now.name
        (new_value material.now time field.now.name field.now.tree) no_items) }
{
    if field.name() == b"keyMaterial".as_slice() {
        let named = put_name(out, at, types::BINARY, field.name());
        return put_material(out, named, material);
    }
    if field.name() == b"updateDate".as_slice() && field.tag() == types::DATE {
        let named = put_name(out, at, types::DATE, field.name());
        return put(out, named, &time.to_le_bytes());
    }
    put_item(out, at, field)
}

/// Writes the material behind `at`, as a binary of subtype 00.
#[tactic(auto, using(crate::proofs::Filled::material_bytes))]
fn put_material(out: &mut [u8], at: usize, material: &[u8; 160]) -> usize
    requires room { at + 165 ≤ length out.old }
    ensures end { result ≡ at + 165 }
    ensures size { length out.new ≡ length out.old }
    ensures written { take result out.new ≡ take at out.old ++ value_bytes (binary 0 material.now) }
{
    let headed = put(out, at, &HEAD);
    put(out, headed, material)
}
