//! The calls of C that make key documents, and that tell the version.

ghost use Rattle.fle_c.specs.Calls.{StaysIn, opener_in};
ghost use Rattle.fle_c.specs.Keys.{MakesKeyAs, RewrapsAs, Writes, version};

use crate::keys::{make_key, rewrap_key, write_version};
use crate::slot::Slot;
use crate::told::Told;
use std::alloc::Global;

/// Seals a key document anew into `out`: what the master key of the client opens comes under a new one, with the first
/// block in these bytes as IV, and the date of its last change is this time, by the 64 bits of its milliseconds since
/// 1970. All else stays, and a key of another provider as a whole.
#[unsafe(no_mangle)]
pub extern "C" fn fle_rewrap_key(
    alloc: Global,
    slot: &mut Slot,
    new_master: &[u8],
    time_ms: u64,
    key: &[u8],
    blocks: &[u8],
    out: &mut [u8],
) -> Told
    ensures stays { StaysIn slot.old.kept.value slot.new.kept.value }
    ensures rewrapped { RewrapsAs (opener_in slot.old.kept.value) new_master.now time_ms key.now blocks.now out.old
        out.new result }
{
    let Some(client) = slot.take(alloc) else {
        return Told::not_open();
    };
    let told = rewrap_key(alloc, &client, new_master, time_ms, key, blocks, out);
    slot.put(client);
    told
}

/// Writes the document of a new key into `out`, under the master key of the client: with the names in a document
/// `{keyAltNames: [..]}`, or none where it is empty, made at this time, by the 64 bits of its milliseconds since 1970,
/// of the first eight blocks in these bytes.
#[unsafe(no_mangle)]
pub extern "C" fn fle_make_key(
    alloc: Global,
    slot: &mut Slot,
    names: &[u8],
    time_ms: u64,
    blocks: &[u8],
    out: &mut [u8],
) -> Told
    ensures stays { StaysIn slot.old.kept.value slot.new.kept.value }
    ensures made { MakesKeyAs (opener_in slot.old.kept.value) names.now time_ms blocks.now out.old out.new result }
{
    let Some(client) = slot.take(alloc) else {
        return Told::not_open();
    };
    let told = make_key(alloc, &client, names, time_ms, blocks, out);
    slot.put(client);
    told
}

/// Writes the version of the library into `out`, as `fle --version` tells it, with a 00 behind it.
#[unsafe(no_mangle)]
pub extern "C" fn fle_version(out: &mut [u8]) -> Told
    ensures told { Writes 0 version out.old out.new result }
{
    write_version(out)
}
