//! A command sealed some times over, at marks that are made once.

ghost use Rattle.std.specs.Prelude.{◌≡◌, ◌<◌, ◌≤◌, is_some, length, IfSome, IsTrue};
ghost use Rattle.doc_rewrite.specs.Keys.{key_in};
ghost use Rattle.doc_rewrite.specs.Plans.{AreMarksOf};
ghost use Rattle.doc_rewrite.specs.Sealing.{HasKeys};
ghost use Rattle.doc_rewrite.specs.Sites.{sites_of as sites_by};
ghost use Rattle.encrypt_schema.specs.Commands.Visits.{roles};
ghost use Rattle.fle_bench.specs.Checksum.{checksum};
ghost use Rattle.fle_bench.specs.Documents.{sealed_bytes, sealed_command};
ghost use Rattle.payload6.specs.Needs.{need_seen};

use crate::checksum::checksum;
use crate::documents::{SameBlock, keys};
use bson_codec::{RawDoc, check_bson, first_doc};
use command_marker::{Marked, Target, mark_command, target};
use crypto_hooks::Tables;
use doc_rewrite::{KeyTable, Sites, plan_seal, seal_through, sites_of};
use encrypt_schema::{Infos, Marks, Rows};
use fle_outside::Failed;
use payload6::Need;
use std::alloc::Global;

/// Seals the protected values of a command, some times over, and gives the checksum of what was written last. The bytes
/// are those of collection infos, one, and of the command, on the database `hr`; `None` where they aren't, where the
/// command is refused, where another key is asked for, or for want of memory.
pub fn run_sealing(alloc: Global, bytes: &[u8], turns: u32) -> Option<u32>
    requires { length bytes.now ≤ 67108864 }
{
    let Ok((info, rest)) = first_doc(bytes) else {
        return None;
    };
    let Ok(command) = check_bson(rest) else {
        return None;
    };
    let Ok(infos) = Infos::load(alloc, info.bytes()) else {
        return None;
    };
    let Ok(Target::Collection(name)) = target(b"hr", &command) else {
        return None;
    };
    let Some(info) = infos.info_of(name) else {
        return None;
    };
    match mark_command(alloc, info.rows(), command) {
        Ok(marked) => seal_marked(alloc, &marked, turns),
        Err(_) => None,
    }
}

/// The checksum of a marked command that was sealed some times over.
fn seal_marked(alloc: Global, marked: &Marked<'_>, turns: u32) -> Option<u32>
    ensures sum { IfSome result (λ sum. 0 < turns
        → sum ≡ checksum (sealed_command marked.now.rows marked.now.command)) }
{
    let keys = keys(alloc)?;
    if !are_keyed(marked, &keys) {
        return None;
    }
    let mut out = room(alloc, marked)?;
    if seal(
        &marked.command(),
        marked.marks(),
        marked.rows(),
        &keys,
        &mut out,
        turns,
    ) {
        Some(checksum(&out))
    } else {
        None
    }
}

/// The room for a marked command when it is sealed.
fn room(alloc: Global, marked: &Marked<'_>) -> Option<Vec<u8>> {
    match plan_seal(&marked.command(), marked.marks(), marked.rows()) {
        Ok(plan) => match vec![in alloc; 0u8; plan.output_len()] {
            Ok(out) => Some(out),
            Err(_) => None,
        },
        Err(_) => None,
    }
}

/// Whether the key of each protected value is there.
fn are_keyed(marked: &Marked<'_>, keys: &KeyTable) -> bool
    ensures keyed { IsTrue result → HasKeys (key_in keys.now)
        (sites_by marked.now.rows marked.now.command
        (roles marked.now.rows marked.now.command.start marked.now.command.tree)) }
{
    let command = marked.command();
    sites_keyed(&sites_of(&command, marked.marks(), marked.rows()), keys)
}

/// The same of values that are to be sealed.
fn sites_keyed(sites: &Sites<'_>, keys: &KeyTable) -> bool
    ensures keyed { IsTrue result → HasKeys (key_in keys.now) sites.now }
{
    for i in 0..sites.len() {
        match sites.get(i) {
            Some(site) => if !has_key(keys, site.need) {
                return false;
            },
            None => return false,
        }
    }
    true
}

/// Whether the key of a need is there.
fn has_key(keys: &KeyTable, need: Need<'_>) -> bool
    ensures has { result ≡ is_some (key_in keys.now (need_seen need.entry)) }
{
    match need {
        Need::Id(id) => keys.find(&id).is_some(),
        Need::Name(name) => keys.find_named(name).is_some(),
    }
}

/// Seals a document some times over, and says whether it did the last time.
fn seal(
    document: &RawDoc<'_>,
    marks: &Marks,
    rows: &Rows,
    keys: &KeyTable,
    out: &mut [u8],
    turns: u32,
) -> bool
    requires stands { AreMarksOf rows.now marks.now document.now }
    requires keyed { HasKeys (key_in keys.now) (sites_by rows.now document.now marks.now) }
    ensures sealed { 0 < turns → IsTrue result
        → out.new ≡ sealed_bytes keys.now (sites_by rows.now document.now marks.now) document.now }
{
    let mut done = true;
    for _turn in 0..turns {
        done = seal_once(document, marks, rows, keys, out);
    }
    done
}

/// Plans a document and seals it, where it fits; false where it doesn't.
fn seal_once(
    document: &RawDoc<'_>,
    marks: &Marks,
    rows: &Rows,
    keys: &KeyTable,
    out: &mut [u8],
) -> bool
    requires stands { AreMarksOf rows.now marks.now document.now }
    requires keyed { HasKeys (key_in keys.now) (sites_by rows.now document.now marks.now) }
    ensures sealed { IsTrue result → out.new ≡ sealed_bytes keys.now (sites_by rows.now document.now marks.now)
        document.now }
{
    let Ok(plan) = plan_seal(document, marks, rows) else {
        return false;
    };
    if plan.output_len() != out.len() {
        return false;
    }
    let mut blocks = SameBlock {
        left: marks.len(),
        faults: 0,
    };
    match seal_through(&plan, document, keys, &Tables, &mut blocks, out) {
        Ok(()) => true,
        Err(Failed) => false,
    }
}
