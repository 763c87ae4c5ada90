//! Sealing and opening in process, for C: a client is opened, or started and filled, once in a slot, and each command
//! or document is a call.
//!
//! ```text
//! fle_slot slot = {0};
//! fle_answer answer = fle_start(&slot, FLE_COMMANDS_MORE, master, 96);
//! answer = fle_put_info(&slot, db, 2, info, n);
//! answer = fle_put_key(&slot, key, m);
//! answer = fle_seal(&slot, db, 2, command, size, blocks, 256, out, room);
//! if (answer.status == 7 || answer.status == 10) .. once more, with answer.random bytes and answer.length of room ..
//! if (answer.status == 13) .. fle_info_wanted says what to ask a server for; fle_put_info; once more ..
//! fle_close(&slot);
//! ```
//!
//! The caller hands in random blocks as bytes, and room for each answer: nothing here reads a file, asks a server or
//! draws a block. What C owes, and nothing checks, stands in contrib/c/fle.h.
#![tactic(auto)]

ghost use Rattle.std.specs.Prelude.{◌≡◌, ◌≤◌, ◌*◌, ℕ, List, None, length};
ghost use Rattle.bson_tree.specs.Spelling.{doc_bytes};
ghost use Rattle.bson_tree.specs.Tree.{Items};
ghost use Rattle.context_machine.specs.Rings.{Finder};
ghost use Rattle.encrypt_schema.specs.Language.Collection.{Collection};
ghost use Rattle.fle_c.specs.Calls.{MarksAs, OpensAs, SealsAs, StaysIn, UnsealsAs, WantsAs, WantsInfoAs};
ghost use Rattle.fle_c.specs.Calls.{WantsToOpenAs, document_limit, opener_in};
ghost use Rattle.fle_c.specs.Values.{SealsValueAs, WantsValueKeyAs};
ghost use Rattle.fle_client.specs.CommandSets.{seal_by};
ghost use Rattle.fle_client.specs.declared.commands.CommandSet.{CommandSet};
ghost use Rattle.fle_engine.specs.Loading.{parts_in};
ghost use Rattle.fle_engine.specs.Rulings.{makes};
ghost use Rattle.fle_stream.specs.Plan.{Plan};

mod blocks;
mod calls;
mod filling;
mod filling_calls;
mod flags;
mod kept;
mod key_calls;
mod keys;
mod laws;
mod need;
mod opening;
mod parts;
mod slot;
mod starting;
mod told;
mod values;

use calls::{ask, ask_info, ask_to_open, mark, seal, unseal};
use flags::set_of_flags;
use need::{Need, most_wanted};
use opening::open;
use slot::Slot;
use std::alloc::Global;
use told::Told;
use values::{ask_for_key, seal_value};

/// Opens a client in a slot, of one database, by the bytes of three files as the program reads them; one that was there
/// is freed first. It knows each collection of its database: one without an info has no rules. The flag 1 says that it
/// takes more commands than insert, update, delete and find; that any other has no meaning is told with status 15.
#[unsafe(no_mangle)]
pub extern "C" fn fle_open(
    alloc: Global,
    slot: &mut Slot,
    flags: u32,
    db: &[u8],
    keys: &[u8],
    infos: &[u8],
    master: &[u8],
) -> Told
    ensures opened { OpensAs flags db.now (parts_in db.now keys.now infos.now master.now) slot.new.kept.value
        result }
{
    let _ = slot.take(alloc);
    let Some(commands) = set_of_flags(flags) else {
        return Told::no_flag();
    };
    match open(alloc, commands, db, keys, infos, master) {
        Ok(client) => {
            slot.put(client);
            Told::done(0, 0)
        }
        Err(fault) => Told::fault(fault),
    }
}

/// Seals a command that is sent to this database into `out`, with the blocks in these bytes, one for each value of the
/// random algorithm in reading order. Where these are too few, or the room is, it tells how much of both is wanted; and
/// with status 13 that the client wasn't told of the command's collection.
#[unsafe(no_mangle)]
pub extern "C" fn fle_seal(
    alloc: Global,
    slot: &mut Slot,
    db: &[u8],
    command: &[u8],
    blocks: &[u8],
    out: &mut [u8],
) -> Told
    ensures stays { StaysIn slot.old.kept.value slot.new.kept.value }
    ensures sealed { SealsAs db.now slot.old.kept.value command.now blocks.now out.old out.new result }
{
    let Some(mut client) = slot.take(alloc) else {
        return Told::not_open();
    };
    let told = seal(alloc, &mut client, db, command, blocks, out);
    slot.put(client);
    told
}

/// Opens a document of at most 48,000,000 bytes into `out`, where as many bytes of room are enough.
#[unsafe(no_mangle)]
pub extern "C" fn fle_unseal(
    alloc: Global,
    slot: &mut Slot,
    document: &[u8],
    out: &mut [u8],
) -> Told
    ensures stays { StaysIn slot.old.kept.value slot.new.kept.value }
    ensures opened { UnsealsAs (opener_in slot.old.kept.value) document.now out.old out.new result }
    ensures room { length document.now ≤ length out.old → result.status ≡ 10 → ⊥ }
{
    let Some(mut client) = slot.take(alloc) else {
        return Told::not_open();
    };
    let told = unseal(alloc, &mut client, document, out);
    slot.put(client);
    told
}

/// Writes the marking reply to a command into `out`, which is sent to this database, under the rules of the client:
/// neither its keys nor its master key are used. It tells with status 13 that it wasn't told of the command's
/// collection.
#[unsafe(no_mangle)]
pub extern "C" fn fle_mark(
    alloc: Global,
    slot: &mut Slot,
    db: &[u8],
    command: &[u8],
    out: &mut [u8],
) -> Told
    ensures stays { StaysIn slot.old.kept.value slot.new.kept.value }
    ensures marked { MarksAs db.now slot.old.kept.value command.now out.old out.new result }
{
    let Some(client) = slot.take(alloc) else {
        return Told::not_open();
    };
    let told = mark(alloc, &client, db, command, out);
    slot.put(client);
    told
}

/// Writes the filter `{name: collection}` of the infos into `out` that a command needs, which is sent to this database;
/// no byte where it passes.
#[unsafe(no_mangle)]
pub extern "C" fn fle_info_wanted(
    alloc: Global,
    slot: &mut Slot,
    db: &[u8],
    command: &[u8],
    out: &mut [u8],
) -> Told
    ensures stays { StaysIn slot.old.kept.value slot.new.kept.value }
    ensures asked { WantsInfoAs db.now slot.old.kept.value command.now out.old out.new result }
{
    let Some(client) = slot.take(alloc) else {
        return Told::not_open();
    };
    let told = ask_info(alloc, &client, db, command, out);
    slot.put(client);
    told
}

/// Writes the filter of the keys into `out` that a command needs, which is sent to this database, and that the client
/// lacks; no byte where it lacks none. The random bytes told are those that the command wants as it is sealed. It tells
/// with status 13 that the client wasn't told of the command's collection.
#[unsafe(no_mangle)]
pub extern "C" fn fle_keys_wanted(
    alloc: Global,
    slot: &mut Slot,
    db: &[u8],
    command: &[u8],
    out: &mut [u8],
) -> Told
    ensures stays { StaysIn slot.old.kept.value slot.new.kept.value }
    ensures asked { WantsAs db.now slot.old.kept.value command.now out.old out.new result }
{
    let Some(client) = slot.take(alloc) else {
        return Told::not_open();
    };
    let told = ask(alloc, &client, db, command, out);
    slot.put(client);
    told
}

/// Writes the filter of the keys into `out` that a document needs which is to be opened, and that the client lacks; no
/// byte where it lacks none. It needs no master key.
#[unsafe(no_mangle)]
pub extern "C" fn fle_keys_wanted_open(
    alloc: Global,
    slot: &mut Slot,
    document: &[u8],
    out: &mut [u8],
) -> Told
    ensures stays { StaysIn slot.old.kept.value slot.new.kept.value }
    ensures asked { WantsToOpenAs slot.old.kept.value document.now out.old out.new result }
{
    let Some(client) = slot.take(alloc) else {
        return Told::not_open();
    };
    let told = ask_to_open(alloc, client.keys.vault(), document, out);
    slot.put(client);
    told
}

/// Writes the filter of the key into `out` that an alternate name, or an id of 16 bytes, leads to, where the client
/// lacks it; else no byte. It needs no master key.
#[unsafe(no_mangle)]
pub extern "C" fn fle_value_keys_wanted(
    alloc: Global,
    slot: &mut Slot,
    named: bool,
    key: &[u8],
    out: &mut [u8],
) -> Told
    ensures stays { StaysIn slot.old.kept.value slot.new.kept.value }
    ensures asked { WantsValueKeyAs slot.old.kept.value named key.now out.old out.new result }
{
    let Some(client) = slot.take(alloc) else {
        return Told::not_open();
    };
    let told = ask_for_key(alloc, client.keys.vault(), named, key, out);
    slot.put(client);
    told
}

/// Seals one value into `out`, that of a document of one element: under the key of an alternate name, or of an id of 16
/// bytes, by the random algorithm with the first block in these bytes, or by the deterministic one.
#[unsafe(no_mangle)]
pub extern "C" fn fle_seal_value(
    alloc: Global,
    slot: &mut Slot,
    named: bool,
    key: &[u8],
    random: bool,
    document: &[u8],
    blocks: &[u8],
    out: &mut [u8],
) -> Told
    ensures stays { StaysIn slot.old.kept.value slot.new.kept.value }
    ensures sealed { SealsValueAs (opener_in slot.old.kept.value) named key.now random document.now blocks.now
        out.old out.new result }
{
    let Some(mut client) = slot.take(alloc) else {
        return Told::not_open();
    };
    let told = seal_value(
        alloc,
        &mut client,
        named,
        key,
        random,
        document,
        blocks,
        out,
    );
    slot.put(client);
    told
}

/// Frees the client of a slot, where there is one.
#[unsafe(no_mangle)]
pub extern "C" fn fle_close(alloc: Global, slot: &mut Slot)
    ensures closed { slot.new.kept.value ≡ None }
{
    let _ = slot.take(alloc);
}

/// How much room and how many random bytes a command of so many bytes may want, under any client: at most 48,000,000
/// bytes, and 16 for each of 666,666 values.
#[unsafe(no_mangle)]
pub extern "C" fn fle_needed(size: usize) -> Need
    ensures enough { (set : CommandSet) (keys : Finder) (infos : List Collection) (db : List ℕ) (c : Items)
        (plan : Plan) → length (doc_bytes c) ≤ size → length (doc_bytes c) ≤ document_limit
        → seal_by set keys infos db c ≡ makes plan
        → (plan.size ≤ result.room) × (16 * plan.draws ≤ result.random) }
    ensures close { (result.room ≤ 48000000) × (result.random ≤ 16 * 666666)
        × (result.room ≤ 45 * size) × (result.random ≤ 8 * size) }
{
    most_wanted(size)
}
