//! The loop of `demo`: each command is made, sealed, opened again and counted.

ghost use Rattle.std.specs.Prelude.{◌≡◌, ◌≤◌, ◌<◌, ◌+◌, ◌∷◌, [], IfOk, OnOk, length};
ghost use Rattle.bson_codec.specs.Layout.{IsDoc};
ghost use Rattle.bson_tree.specs.Spelling.{doc_bytes};
ghost use Rattle.bson_tree.specs.Tree.{Items};
ghost use Rattle.context_machine.specs.Rings.{ring};
ghost use Rattle.fle_demo.specs.Sums.{Sums, alone};
ghost use Rattle.fle_demo.specs.Commands.{rules};
ghost use Rattle.fle_demo.specs.Totals.{AreSummed, IsDemoKey, IsWithin, Reaches};
ghost use Rattle.fle_demo.specs.Generator.{after_two, blocks_behind};

use crate::commands::command_of;
use crate::generator::{Generated, next_output};
use crate::laws::{commands_are_accepted, commands_are_keyed, info_is_read};
use crate::opening::opens_to;
use crate::sealing::seal_command;
use crate::totals::Totals;
use bson_codec::{RawDoc, check_bson};
use crypto_hooks::Block256;
use data_key::KeyDoc;
use encrypt_schema::Info;
use fle_outside::Memory;
use key_vault::KeyCache;
use std::alloc::Global;

/// What `n` commands come to under the only key. Nothing is kept of a command but what it adds to the totals.
pub fn sum_commands<B: Block256>(
    alloc: Global,
    db: &[u8],
    n: u32,
    key: &KeyDoc,
    info: &Info,
    cache: &mut KeyCache,
    blocks: &mut Generated,
    hooks: &B,
) -> Result<Totals, Memory>
    requires hooks { B.answers hooks.now }
    requires short { length db.now ≤ 63 }
    requires few { n ≤ 100000 }
    requires known { IsDemoKey cache.old.master key.now info.now }
    requires enough { blocks.old.left ≡ n }
    ensures summed { IfOk result
        (AreSummed cache.old.master key.now db.now n (blocks_behind blocks.old.left blocks.old.x)) }
{
    let mut totals = Totals::none();
    let mut x = n as u64;
    for i in 0..n {
        add_command(
            alloc,
            db,
            i,
            x,
            key,
            info,
            cache,
            blocks,
            hooks,
            &mut totals,
        )?;
        let second = next_output(next_output(x));
        x = second;
    }
    Ok(totals)
}

/// Makes the command behind `i` others, of the two outputs behind `x`; seals it, opens it again and counts it.
fn add_command<B: Block256>(
    alloc: Global,
    db: &[u8],
    i: u32,
    x: u64,
    key: &KeyDoc,
    info: &Info,
    cache: &mut KeyCache,
    blocks: &mut Generated,
    hooks: &B,
    totals: &mut Totals,
) -> Result<(), Memory>
    requires hooks { B.answers hooks.now }
    requires short { length db.now ≤ 63 }
    requires few { i < 100000 }
    requires known { IsDemoKey cache.old.master key.now info.now }
    requires some { 0 < blocks.old.left }
    requires within { IsWithin totals.old i }
    ensures master { cache.new.master ≡ cache.old.master }
    ensures left { OnOk result (blocks.new.left + 1 ≡ blocks.old.left) }
    ensures within { OnOk result (IsWithin totals.new (i + 1)) }
    ensures reached { (all : Sums) → Reaches (ring (key.now ∷ []) cache.old.master) (rules key.now.id) db.now totals.old
        (i + 1) x (blocks_behind blocks.old.left blocks.old.x) all
        → OnOk result (Reaches (ring (key.now ∷ []) cache.old.master) (rules key.now.id) db.now totals.new
        (i + 1 + 1) (after_two x) (blocks_behind blocks.new.left blocks.new.x) all) }
{
    info_is_read();
    commands_are_accepted();
    commands_are_keyed();
    let command = command_of(alloc, db, i + 1, x)?;
    let sealed = seal_command(alloc, db, read(&command), info, key, cache, blocks, hooks)?;
    let same = opens_to(alloc, &sealed, &command, key, cache, hooks)?;
    totals.add(&command, &sealed, same);
    Ok(())
}

/// The document of bytes that spell one.
fn read<'a>(bytes: &'a [u8]) -> RawDoc<'a>
    requires spelled { (is : Items) × IsDoc is × (bytes.now ≡ doc_bytes is) }
    requires short { length bytes.now ≤ 1000 }
    ensures document { (is : Items) → IsDoc is → bytes.entry.now ≡ doc_bytes is → result ≡ alone is }
{
    match check_bson(bytes) {
        Ok(document) => document,
        Err(_) => unreachable!(),
    }
}
