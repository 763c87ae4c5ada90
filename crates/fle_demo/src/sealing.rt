//! A command of the demo, sealed through the states of client-side field level encryption. None of them refuses it.

ghost use Rattle.std.specs.Prelude.{◌≡◌, ◌<◌, ◌≤◌, ◌∷◌, [], List, IfOk, OnOk, None, Some, false, true, length};
ghost use Rattle.bson_tree.specs.Spelling.{doc_bytes};
ghost use Rattle.command_marker.specs.Commands.{collection_in, passes};
ghost use Rattle.context_machine.specs.Ready.{sealed_size, values_of};
ghost use Rattle.context_machine.specs.Rings.{by_ids, found_in, ring};
ghost use Rattle.context_machine.specs.Waiting.{IsRefusal};
ghost use Rattle.doc_rewrite.specs.Keys.{key_in};
ghost use Rattle.doc_rewrite.specs.Sealed.{sealed};
ghost use Rattle.doc_rewrite.specs.Sites.{draws_of};
ghost use Rattle.encrypt_schema.specs.Commands.Targets.{rows_in};
ghost use Rattle.encrypt_schema.specs.Commands.Visits.{content_verdict, target_verdict};
ghost use Rattle.encrypt_schema.specs.Language.Collection.{Collection};
ghost use Rattle.encrypt_schema.specs.Language.Names.{named};
ghost use Rattle.fle_outside.specs.Blocks.{Block};
ghost use Rattle.fle_demo.specs.States.{IsAccepted, IsKeyed, IsReadyUnder, IsWant, waiting};
ghost use Rattle.fle_demo.specs.Generator.{blocks_behind};

use crate::generator::Generated;
use bson_codec::RawDoc;
use context_machine::laws::{kept_answer, kept_rings, table_seals};
use context_machine::{Begun, EncryptStart, KeysStop, NeedCollInfo, NeedKeys, NeedMarkings, Ready};
use crypto_hooks::Block256;
use data_key::KeyDoc;
use encrypt_schema::{Info, MarkFault};
use fle_outside::Memory;
use key_vault::KeyCache;
use std::alloc::Global;

/// Seals a command that no state refuses, with the next block of the generator.
pub fn seal_command<'a, B: Block256>(
    alloc: Global,
    db: &'a [u8],
    command: RawDoc<'a>,
    info: &'a Info,
    key: &'a KeyDoc,
    cache: &mut KeyCache,
    blocks: &mut Generated,
    hooks: &B,
) -> Result<Vec<u8>, Memory>
    requires hooks { B.answers hooks.now }
    requires accepted { IsAccepted db.now info.now command }
    requires keyed { IsKeyed (ring (key.now ∷ []) cache.old.master) info.now command }
    requires one { draws_of (values_of (Some info.now) command) ≡ 1 }
    requires some { 0 < blocks.old.left }
    ensures master { cache.new.master ≡ cache.old.master }
    ensures sealed { (block : Block) (rest : List Block) → blocks_behind blocks.old.left blocks.old.x ≡ block ∷ rest
        → IfOk result (λ out. out.items
        ≡ doc_bytes (sealed (found_in (by_ids (ring (key.entry.now ∷ []) cache.old.master)))
        (values_of (Some info.entry.now) command.entry) (block ∷ []) command.entry)) }
    ensures left { (block : Block) (rest : List Block) → blocks_behind blocks.old.left blocks.old.x ≡ block ∷ rest
        → OnOk result (blocks_behind blocks.new.left blocks.new.x ≡ rest) }
    ensures short { IfOk result (λ out. length out.items ≤ 48000000) }
{
    table_seals();
    let waits = wait(alloc, db, command, info)?;
    let ready = unlock(alloc, waits, key, cache, hooks)?;
    Ok(seal(ready, hooks, blocks))
}

/// A command that waits for its keys.
fn wait<'a>(
    alloc: Global,
    db: &'a [u8],
    command: RawDoc<'a>,
    info: &'a Info,
) -> Result<NeedKeys<'a>, Memory>
    requires accepted { IsAccepted db.now info.now command }
    ensures waits { IfOk result (λ k. k ≡ waiting info.entry.now command.entry) }
{
    mark(alloc, ask(db, command), info)
}

/// A command for whose info is asked.
fn ask<'a>(db: &'a [u8], command: RawDoc<'a>) -> NeedCollInfo<'a>
    requires target { target_verdict db.now command.start command.tree ≡ None }
    requires unpassed { passes command.tree ≡ false }
    ensures asks { result ≡ record { command = command.entry; info = None } }
{
    match EncryptStart::new(db, command).begin() {
        Ok(Begun::Ask(asks)) => asks,
        Ok(Begun::Pass(_)) => unreachable!(),
        Err(_) => unreachable!(),
    }
}

/// The same with its info, and marked.
fn mark<'a>(alloc: Global, asks: NeedCollInfo<'a>, info: &'a Info) -> Result<NeedKeys<'a>, Memory>
    requires infoless { asks.info ≡ None }
    requires into { named info.now.name (collection_in asks.command.tree) ≡ true }
    requires viewless { info.now.view ≡ false }
    requires content { content_verdict (rows_in (Some info.now)) asks.command.start asks.command.tree ≡ None }
    ensures waits { IfOk result (λ k. k ≡ waiting info.entry.now asks.entry.command) }
{
    let mut asks = asks;
    asks.feed(info);
    match asks.done() {
        Ok(markings) => wait_for(alloc, markings),
        Err(_) => unreachable!(),
    }
}

/// The same, once its marks are known.
fn wait_for<'a>(alloc: Global, markings: NeedMarkings<'a>) -> Result<NeedKeys<'a>, Memory>
    requires content { content_verdict (rows_in markings.info) markings.command.start markings.command.tree ≡ None }
    ensures waits { IfOk result (λ k.
        k ≡ record { command = markings.entry.command; info = markings.entry.info; kept = [] }) }
{
    match markings.mark_here(alloc) {
        Ok(waits) => Ok(waits),
        Err((_, fault)) => Err(unrefused(fault)),
    }
}

/// A fault that is no refusal.
fn unrefused(fault: MarkFault) -> Memory
    requires none { IsRefusal None fault }
{
    match fault {
        MarkFault::Refused { .. } => unreachable!(),
        MarkFault::Memory => Memory,
    }
}

/// The command with the data key, which is opened or found in the cache.
fn unlock<'a, B: Block256>(
    alloc: Global,
    waits: NeedKeys<'a>,
    key: &'a KeyDoc,
    cache: &mut KeyCache,
    hooks: &B,
) -> Result<Ready<'a>, Memory>
    requires hooks { B.answers hooks.now }
    requires fresh { waits.kept ≡ [] }
    requires keyed { (info : Collection) × (waits.info ≡ Some info)
        × IsKeyed (ring (key.now ∷ []) cache.old.master) info waits.command }
    ensures master { cache.new.master ≡ cache.old.master }
    ensures ready { (info : Collection) → waits.entry.info ≡ Some info → IfOk result
        (IsReadyUnder (ring (key.entry.now ∷ []) cache.old.master) info waits.entry.command) }
{
    kept_answer();
    kept_rings();
    let mut waits = waits;
    waits.feed(key);
    match waits.done_cached(alloc, cache, hooks) {
        Ok(ready) => Ok(ready),
        Err((_, stop)) => Err(unstopped(stop)),
    }
}

/// What stops a command whose key is to be had.
fn unstopped(stop: KeysStop) -> Memory
    requires want { IsWant stop }
{
    match stop {
        KeysStop::Memory => Memory,
        KeysStop::Refused { .. } => unreachable!(),
        KeysStop::TooLong => unreachable!(),
    }
}

/// Seals a command that takes one block, the next of the generator.
fn seal<B: Block256>(ready: Ready<'_>, hooks: &B, blocks: &mut Generated) -> Vec<u8>
    requires hooks { B.answers hooks.now }
    requires one { draws_of (values_of ready.info ready.command) ≡ 1 }
    requires some { 0 < blocks.old.left }
    ensures sealed { (block : Block) (rest : List Block) → blocks_behind blocks.old.left blocks.old.x ≡ block ∷ rest
        → result.items ≡ doc_bytes (sealed (key_in ready.entry.table)
        (values_of ready.entry.info ready.entry.command) (block ∷ []) ready.entry.command) }
    ensures left { (block : Block) (rest : List Block) → blocks_behind blocks.old.left blocks.old.x ≡ block ∷ rest
        → blocks_behind blocks.new.left blocks.new.x ≡ rest }
    ensures size { length result.items ≡ sealed_size ready.entry.info ready.entry.command }
{
    match ready.finalize(hooks, blocks) {
        Ok(done) => done.into_bytes(),
        Err(_) => unreachable!(),
    }
}
