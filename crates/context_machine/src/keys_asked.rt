//! The filter by which a caller asks for keys.

ghost use Rattle.std.specs.Prelude.{◌≡◌, ◌+◌, ◌<◌, ◌≤◌, ◌++◌, ◌∷◌, [], codes, decimal, length, map, true, IfOk};
ghost use Rattle.std.specs.Prelude.{OnOk};
ghost use Rattle.bson_tree.specs.Spelling.{doc_bytes, items_bytes, value_bytes};
ghost use Rattle.bson_tree.specs.Tree.{item, no_items, node};
ghost use Rattle.payload6.specs.Needs.{need_seen};
ghost use Rattle.context_machine.specs.Asks.{among, key_filter, listed, listed_one, numbered, room_for, room_in, text};
ghost use Rattle.context_machine.specs.Asks.{uuid};
ghost use Rattle.context_machine.specs.Needs.{ids_of, names_of, needs_seen};
ghost use Rattle.context_machine.specs.declared.keys_asked.Choice.TheVariants as choices;

use crate::need::NeedAt;
use bson_codec::writing::{append, close, open, put_name};
use bson_tree::{subtypes, types};
use fle_outside::Memory;
use itoa::Buffer;
use payload6::Need;
use std::alloc::Global;

/// More bytes than a filter has that is sent to a server.
const MOST: usize = 1 << 30;

/// One of the two lists of a filter.
#[derive(Clone, Copy)]
enum Choice {
    /// That of the ids.
    Ids,
    /// That of the alternate names.
    Names,
}

/// The filter `{$or: [{_id: {$in: [ids]}}, {keyAltNames: {$in: [names]}}]}`. `Memory` where there is none for it; so
/// also where the bytes of the needs, with 63 more for each, are more than 2^30, which is counted first.
pub(crate) fn key_filter(alloc: Global, needs: &[NeedAt<'_>]) -> Result<Vec<u8>, Memory>
    ensures filter { IfOk result (λ out. out.items
        ≡ doc_bytes (key_filter (ids_of (needs_seen needs.now)) (names_of (needs_seen needs.now)))) }
{
    if !are_few(needs) {
        return Err(Memory);
    }
    let mut out = Vec::new(alloc);
    open(&mut out)?;
    put_or(&mut out, needs)?;
    close(&mut out, 0)?;
    Ok(out)
}

/// Whether the bytes of the needs, with 63 more for each, are at most 2^30.
fn are_few(needs: &[NeedAt<'_>]) -> bool
    ensures few { result ≡ true → room_for choices.Ids (needs_seen needs.now)
        + room_for choices.Names (needs_seen needs.now) ≤ 1073741824 }
{
    let mut left = MOST;
    for n in needs {
        let size = 63 + name_len(n.need);
        if size > left {
            return false;
        }
        left -= size;
    }
    true
}

/// How many bytes an alternate name has; 0 for an id.
fn name_len(need: Need<'_>) -> usize
    ensures len { 63 + result ≡ room_in choices.Ids (need_seen need.entry)
        + room_in choices.Names (need_seen need.entry) }
    ensures small { result ≤ 9223372036854775807 }
{
    match need {
        Need::Id(_) => 0,
        Need::Name(name) => name.len(),
    }
}

/// Appends the field `$or`.
fn put_or(out: &mut Vec<u8>, needs: &[NeedAt<'_>]) -> Result<(), Memory>
    requires room { length out.old.items + (room_for choices.Ids (needs_seen needs.now)
        + room_for choices.Names (needs_seen needs.now)) ≤ 1073741900 }
    ensures put { OnOk result (out.new.items ≡ out.old.items ++ items_bytes
        (key_filter (ids_of (needs_seen needs.now)) (names_of (needs_seen needs.now)))) }
    ensures size { OnOk result (length out.new.items ≤ length out.old.items
        + (74 + (room_for choices.Ids (needs_seen needs.now) + room_for choices.Names (needs_seen needs.now)))) }
{
    put_name(out, types::ARRAY, b"$or")?;
    let at = out.len();
    open(out)?;
    put_choices(out, needs)?;
    close(out, at)?;
    Ok(())
}

/// Appends the elements of the array `$or`.
fn put_choices(out: &mut Vec<u8>, needs: &[NeedAt<'_>]) -> Result<(), Memory>
    requires room { length out.old.items + (room_for choices.Ids (needs_seen needs.now)
        + room_for choices.Names (needs_seen needs.now)) ≤ 1073741910 }
    ensures put { OnOk result (out.new.items ≡ out.old.items ++ items_bytes
        (item (codes "0") (node 3 (among (codes "_id") (listed choices.Ids (needs_seen needs.now))))
        (item (codes "1") (node 3 (among (codes "keyAltNames") (listed choices.Names (needs_seen needs.now))))
        no_items))) }
    ensures size { OnOk result (length out.new.items ≤ length out.old.items
        + (64 + (room_for choices.Ids (needs_seen needs.now) + room_for choices.Names (needs_seen needs.now)))) }
{
    put_by_id(out, needs)?;
    put_by_name(out, needs)?;
    Ok(())
}

/// Appends the first element of that array, which looks for the ids.
fn put_by_id(out: &mut Vec<u8>, needs: &[NeedAt<'_>]) -> Result<(), Memory>
    requires room { length out.old.items + room_for choices.Ids (needs_seen needs.now) ≤ 1073742000 }
    ensures put { OnOk result (out.new.items ≡ out.old.items ++ items_bytes
        (item (codes "0") (node 3 (among (codes "_id") (listed choices.Ids (needs_seen needs.now)))) no_items)) }
    ensures size { OnOk result (length out.new.items
        ≤ length out.old.items + (28 + room_for choices.Ids (needs_seen needs.now))) }
{
    put_name(out, types::DOCUMENT, b"0")?;
    let at = out.len();
    open(out)?;
    put_id(out, needs)?;
    close(out, at)?;
    Ok(())
}

/// Appends the field `_id`.
fn put_id(out: &mut Vec<u8>, needs: &[NeedAt<'_>]) -> Result<(), Memory>
    requires room { length out.old.items + room_for choices.Ids (needs_seen needs.now) ≤ 1073742010 }
    ensures put { OnOk result (out.new.items ≡ out.old.items ++ items_bytes
        (among (codes "_id") (listed choices.Ids (needs_seen needs.now)))) }
    ensures size { OnOk result (length out.new.items
        ≤ length out.old.items + (20 + room_for choices.Ids (needs_seen needs.now))) }
{
    put_name(out, types::DOCUMENT, b"_id")?;
    let at = out.len();
    open(out)?;
    put_in(out, needs, Choice::Ids)?;
    close(out, at)?;
    Ok(())
}

/// Appends the second element of that array, which looks for the alternate names.
fn put_by_name(out: &mut Vec<u8>, needs: &[NeedAt<'_>]) -> Result<(), Memory>
    requires room { length out.old.items + room_for choices.Names (needs_seen needs.now) ≤ 1073742000 }
    ensures put { OnOk result (out.new.items ≡ out.old.items ++ items_bytes (item (codes "1")
        (node 3 (among (codes "keyAltNames") (listed choices.Names (needs_seen needs.now)))) no_items)) }
    ensures size { OnOk result (length out.new.items
        ≤ length out.old.items + (36 + room_for choices.Names (needs_seen needs.now))) }
{
    put_name(out, types::DOCUMENT, b"1")?;
    let at = out.len();
    open(out)?;
    put_alternate(out, needs)?;
    close(out, at)?;
    Ok(())
}

/// Appends the field `keyAltNames`.
fn put_alternate(out: &mut Vec<u8>, needs: &[NeedAt<'_>]) -> Result<(), Memory>
    requires room { length out.old.items + room_for choices.Names (needs_seen needs.now) ≤ 1073742010 }
    ensures put { OnOk result (out.new.items ≡ out.old.items ++ items_bytes
        (among (codes "keyAltNames") (listed choices.Names (needs_seen needs.now)))) }
    ensures size { OnOk result (length out.new.items
        ≤ length out.old.items + (28 + room_for choices.Names (needs_seen needs.now))) }
{
    put_name(out, types::DOCUMENT, b"keyAltNames")?;
    let at = out.len();
    open(out)?;
    put_in(out, needs, Choice::Names)?;
    close(out, at)?;
    Ok(())
}

/// Appends the field `$in`.
fn put_in(out: &mut Vec<u8>, needs: &[NeedAt<'_>], choice: Choice) -> Result<(), Memory>
    requires room { length out.old.items + room_for choice (needs_seen needs.now) ≤ 1073742040 }
    ensures put { OnOk result (out.new.items ≡ out.old.items ++ items_bytes
        (item (codes "$in") (node 4 (numbered 0 (listed choice (needs_seen needs.now)))) no_items)) }
    ensures size { OnOk result (length out.new.items
        ≤ length out.old.items + (10 + room_for choice (needs_seen needs.now))) }
{
    put_name(out, types::ARRAY, b"$in")?;
    let at = out.len();
    open(out)?;
    put_values(out, needs, choice)?;
    close(out, at)?;
    Ok(())
}

/// Appends the elements of an array of ids, or of names.
fn put_values(out: &mut Vec<u8>, needs: &[NeedAt<'_>], choice: Choice) -> Result<(), Memory>
    requires room { length out.old.items + room_for choice (needs_seen needs.now) ≤ 1073742060 }
    ensures put { OnOk result (out.new.items ≡ out.old.items ++ items_bytes
        (numbered 0 (listed choice (needs_seen needs.now)))) }
    ensures size { OnOk result (length out.new.items
        ≤ length out.old.items + room_for choice (needs_seen needs.now)) }
{
    let mut i = 0;
    for n in needs {
        i = put_one(out, n.need, choice, i)?;
    }
    Ok(())
}

/// Appends element `i` of such an array where the need stands in it, and gives the number of the next one.
fn put_one(out: &mut Vec<u8>, need: Need<'_>, choice: Choice, i: usize) -> Result<usize, Memory>
    requires count { i < 9223372036854775808 }
    requires short { room_in choice (need_seen need) ≤ 1073742060 }
    ensures put { OnOk result (out.new.items ≡ out.old.items ++ items_bytes
        (numbered i (listed_one choice (need_seen need.entry)))) }
    ensures next { IfOk result (λ next. next ≡ i + length (listed_one choice (need_seen need.entry))) }
    ensures size { OnOk result (length out.new.items
        ≤ length out.old.items + room_in choice (need_seen need.entry)) }
{
    match choice {
        Choice::Ids => match need {
            Need::Id(id) => {
                put_uuid(out, i, &id)?;
                Ok(i + 1)
            }
            Need::Name(_) => Ok(i),
        },
        Choice::Names => match need {
            Need::Id(_) => Ok(i),
            Need::Name(name) => {
                put_text(out, i, name)?;
                Ok(i + 1)
            }
        },
    }
}

/// Appends element `i` of an array, a UUID.
fn put_uuid(out: &mut Vec<u8>, i: usize, id: &[u8; 16]) -> Result<(), Memory>
    ensures put { OnOk result (out.new.items ≡ out.old.items ++ items_bytes (item (decimal i) (uuid id.now) no_items)) }
    ensures size { OnOk result (length out.new.items ≤ length out.old.items + 63) }
{
    let mut buffer = Buffer::new();
    put_name(out, types::BINARY, buffer.format(i).as_bytes())?;
    put_uuid_value(out, id)?;
    Ok(())
}

/// Appends the value of a UUID.
fn put_uuid_value(out: &mut Vec<u8>, id: &[u8; 16]) -> Result<(), Memory>
    ensures put { OnOk result (out.new.items ≡ out.old.items ++ value_bytes (uuid id.now)) }
    ensures size { OnOk result (length out.new.items ≡ length out.old.items + 21) }
{
    append(out, &16u32.to_le_bytes())?;
    append(out, &[subtypes::UUID])?;
    append(out, id)?;
    Ok(())
}

/// Appends element `i` of an array, a string.
fn put_text(out: &mut Vec<u8>, i: usize, string: &[u8]) -> Result<(), Memory>
    requires short { length string.now ≤ 1073742060 }
    ensures put { OnOk result (out.new.items ≡ out.old.items ++ items_bytes
        (item (decimal i) (text string.now) no_items)) }
    ensures size { OnOk result (length out.new.items ≤ length out.old.items + (63 + length string.now)) }
{
    let mut buffer = Buffer::new();
    put_name(out, types::STRING, buffer.format(i).as_bytes())?;
    put_text_value(out, string)?;
    Ok(())
}

/// Appends the value of a string.
fn put_text_value(out: &mut Vec<u8>, string: &[u8]) -> Result<(), Memory>
    requires short { length string.now ≤ 1073742060 }
    ensures put { OnOk result (out.new.items ≡ out.old.items ++ value_bytes (text string.now)) }
    ensures size { OnOk result (length out.new.items ≡ length out.old.items + (5 + length string.now)) }
{
    append(out, &(string.len() as u32 + 1).to_le_bytes())?;
    append(out, string)?;
    append(out, &[0])?;
    Ok(())
}
