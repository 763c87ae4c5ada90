//! The line of the demo: a key and N commands are made by generators, each command is sealed and opened again, and a
//! line sums it up.

ghost use Rattle.std.specs.Prelude.{◌≡◌, ◌≤◌, ◌+◌, ◌∷◌, [], ℕ, List, Ok, IfOk, OnOk, drop, length, take};
ghost use Rattle.encrypt_schema.specs.Language.Collection.{Collection};
ghost use Rattle.fle_demo.specs.Generator.{blocks_behind};
ghost use Rattle.fle_demo.specs.Sums.{demo_text};
ghost use Rattle.fle_demo.specs.Totals.{AreSummed, IsAlone};
ghost use Rattle.key_vault.specs.Lookup.{key_of};
ghost use Rattle.local_kms.specs.Made.{key_of_blocks, six_blocks};

use crate::commands::info_of;
use crate::generator::Generated;
use crate::laws::{info_is_read, made_key_opens};
use crate::summing::sum_commands;
use crate::totals::{Totals, line_of};
use bson_tree::Names;
use crypto_hooks::Block256;
use data_key::KeyDoc;
use encrypt_schema::{Info, InfoFault, Infos};
use fle_outside::Memory;
use key_vault::KeyCache;
use local_kms::{MasterKey, NewFault, new_key};
use std::alloc::Global;

/// By how much the numbers at which the generators start differ: the blocks' is N + 2^32, the commands' N.
const BLOCKS_START: u64 = 4_294_967_296;

/// The line of N commands, N at most 100,000, of a database of at most 63 bytes: a key is made, and then they are. It
/// reads nothing, draws no block from outside, and fails for want of memory alone.
pub fn demo_line<B: Block256>(
    alloc: Global,
    db: &[u8],
    n: u32,
    hooks: &B,
) -> Result<Vec<u8>, Memory>
    requires hooks { B.answers hooks.now }
    requires short { length db.now ≤ 63 }
    requires few { n ≤ 100000 }
    ensures text { IfOk result (λ text. text.items ≡ demo_text db.now n) }
{
    let master = MasterKey::new([42; 96]);
    let mut blocks = Generated::new(n as u64 + BLOCKS_START, n as u64 + 8);
    let key = make_key(alloc, &master, &mut blocks, hooks)?;
    let totals = run(alloc, db, n, &key, master, &mut blocks, hooks)?;
    let text = line_of(alloc, n, totals)?;
    Ok(text)
}

/// The key that the next eight blocks make.
fn make_key<B: Block256>(
    alloc: Global,
    master: &MasterKey,
    blocks: &mut Generated,
    hooks: &B,
) -> Result<KeyDoc, Memory>
    requires hooks { B.answers hooks.now }
    requires eight { 8 ≤ blocks.old.left }
    ensures made { IfOk result (λ key. key
        ≡ key_of_blocks master.now [] (take 8 (blocks_behind blocks.old.left blocks.old.x))) }
    ensures long { IfOk result (λ key. length key.id ≡ 16) }
    ensures opens { IfOk result (λ key. key_of (key ∷ []) master.now key.id
        ≡ Ok (six_blocks 1 (take 8 (blocks_behind blocks.old.left blocks.old.x)))) }
    ensures others { OnOk result (blocks_behind blocks.new.left blocks.new.x
        ≡ drop 8 (blocks_behind blocks.old.left blocks.old.x)) }
    ensures left { OnOk result (blocks.new.left + 8 ≡ blocks.old.left) }
{
    made_key_opens();
    match new_key(alloc, blocks, hooks, master, Names::new(alloc)) {
        Ok(key) => Ok(key),
        Err(NewFault::EntropyFailed) => unreachable!(),
        Err(NewFault::Memory) => Err(Memory),
    }
}

/// What N commands come to under this key.
fn run<B: Block256>(
    alloc: Global,
    db: &[u8],
    n: u32,
    key: &KeyDoc,
    master: MasterKey,
    blocks: &mut Generated,
    hooks: &B,
) -> Result<Totals, Memory>
    requires hooks { B.answers hooks.now }
    requires short { length db.now ≤ 63 }
    requires few { n ≤ 100000 }
    requires long { length key.now.id ≡ 16 }
    requires opens { (plain : List ℕ) × (key_of (key.now ∷ []) master key.now.id ≡ Ok plain) }
    requires enough { blocks.old.left ≡ n }
    ensures summed { IfOk result
        (AreSummed master key.now db.now n (blocks_behind blocks.old.left blocks.old.x)) }
{
    let infos = read_info(alloc, &key.id)?;
    let mut cache = KeyCache::new(alloc, master)?;
    let totals = sum_commands(
        alloc,
        db,
        n,
        key,
        only_info(&infos),
        &mut cache,
        blocks,
        hooks,
    )?;
    Ok(totals)
}

/// The info of the collection, whose schema names the key of this id.
fn read_info(alloc: Global, id: &[u8; 16]) -> Result<Infos, Memory>
    ensures read { IfOk result (IsAlone id.now) }
{
    info_is_read();
    let bytes = info_of(alloc, id)?;
    match Infos::load(alloc, &bytes) {
        Ok(infos) => Ok(infos),
        Err(InfoFault::Bad { .. }) => unreachable!(),
        Err(InfoFault::Memory) => Err(Memory),
    }
}

/// The only info there is.
fn only_info<'a>(infos: &'a Infos) -> &'a Info
    requires alone { (id : List ℕ) × IsAlone id infos.now }
    ensures info { (c : Collection) → infos.entry.now ≡ c ∷ [] → result.now ≡ c }
{
    match infos.info_of(b"demo") {
        Some(info) => info,
        None => unreachable!(),
    }
}
