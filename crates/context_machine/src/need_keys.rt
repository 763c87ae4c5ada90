//! A command that waits for keys (libmongocrypt's state NEED_MONGO_KEYS).

ghost use Rattle.std.specs.Prelude.{◌≡◌, ◌<◌, ◌≤◌, length, option_copied, option_map, slice_get, IfErr, IfOk, OnErr};
ghost use Rattle.bson_tree.specs.Spelling.{doc_bytes};
ghost use Rattle.context_machine.specs.Asks.{filter_of, key_filter};
ghost use Rattle.context_machine.specs.Kept.{unmet};
ghost use Rattle.context_machine.specs.Needs.{ids_of, names_of, needs_seen};
ghost use Rattle.context_machine.specs.Ready.{IsPlanOf, IsReady, IsTooLong, StopsWaiting, finished, readied};
ghost use Rattle.context_machine.specs.Ready.{sealed_size, values_of};
ghost use Rattle.context_machine.specs.Rings.{AreOpened, finder, needs_of};
ghost use Rattle.context_machine.specs.Waiting.{IsMarked, IsWaiting, fed_key, wanted_of};
ghost use Rattle.doc_rewrite.specs.Keys.{GivesLongIds, key_in};
ghost use Rattle.doc_rewrite.specs.Sealing.{FellShort, HasKeys, IsSealedWhole};
ghost use Rattle.doc_rewrite.specs.Sites.{draws_of};
ghost use Rattle.encrypt_schema.specs.Commands.Targets.{rows_in};
ghost use Rattle.payload6.specs.Needs.{need_seen};

use crate::done::Done;
use crate::keys_asked;
use crate::need::NeedAt;
use crate::opened_keys::{KeysStop, open_keys, open_keys_cached};
use crate::ready::Ready;
use crate::vault_keys::{filter_beside, open_found};
use crate::wanted::Wanted;
use bson_codec::RawDoc;
use bson_splice::TooLong;
use command_marker::Marked;
use crypto_hooks::Block256;
use data_key::KeyDoc;
use doc_rewrite::{KeyTable, Plan, plan_clear, plan_seal, seal_through, sites_of};
use encrypt_schema::Info;
use fle_outside::{Entropy, Failed, Memory};
use key_vault::{KeyCache, Vault};
use local_kms::MasterKey;
use payload6::Need;
use std::alloc::Global;
use std::marker::Model;

/// A command with the marks of its protected values, of which nothing is refused, and the keys that are kept.
#[derive(Drop)]
pub struct NeedKeys<'a> {
    command: RawDoc<'a>,
    info: Option<&'a Info>,
    /// None where the collection has no info: nothing of the command is protected.
    marked: Option<Marked<'a>>,
    wanted: Wanted<'a>,
}

impl<'a> Model for NeedKeys<'a> {
    ghost use Rattle.std.specs.Prelude.{option_copied};
    ghost use Rattle.context_machine.specs.SealingCodes.{coded_waits};
    ghost use Rattle.context_machine.specs.States.{Waits};
    ghost use Rattle.context_machine.specs.Waiting.{IsWaiting};

    ghost Value = { Waits };

    ghost coded = { coded_waits };

    ghost view = { λ s. record { command = s.command; info = option_copied s.info; kept = s.wanted.kept } };

    ghost invariant = { λ s. IsWaiting (option_copied s.info) s.command s.marked s.wanted };
}

impl<'a> NeedKeys<'a> {
    /// A command that is marked under the rules of its info, and the keys that its values need.
    pub(crate) fn new(
        command: RawDoc<'a>,
        info: Option<&'a Info>,
        marked: Option<Marked<'a>>,
        wanted: Wanted<'a>,
    ) -> NeedKeys<'a>
        requires waiting { IsWaiting (option_copied info) command marked wanted }
        ensures waits { result ≡ record {
          command = command.entry;
          info = option_copied info.entry;
          kept = wanted.entry.kept;
        } }
    {
        NeedKeys {
            command,
            info,
            marked,
            wanted,
        }
    }

    /// The command itself.
    pub fn command(&self) -> &RawDoc<'a>
        ensures command { result.now ≡ self.now.command }
    {
        &self.command
    }

    /// The filter `{$or: [{_id: {$in: [ids]}}, {keyAltNames: {$in: [names]}}]}` by which a caller asks for the keys,
    /// both lists in order of first use. `Memory` where there is none for it.
    pub fn op(&self, alloc: Global) -> Result<Vec<u8>, Memory>
        ensures filter { IfOk result (λ out. out.items
            ≡ doc_bytes (key_filter (ids_of (wanted_of self.now.info self.now.command))
            (names_of (wanted_of self.now.info self.now.command)))) }
    {
        keys_asked::key_filter(alloc, self.wanted.needs())
    }

    /// The filter of those keys that a vault lacks, likewise; no byte where it lacks none. `Memory` where there is none
    /// for it.
    pub fn op_beside(&self, alloc: Global, keys: &Vault) -> Result<Vec<u8>, Memory>
        ensures filter { IfOk result (λ out. out.items
            ≡ filter_of (unmet keys.now (wanted_of self.now.info self.now.command))) }
    {
        let out = filter_beside(alloc, self.wanted.needs(), keys)?;
        Ok(out)
    }

    /// The first value of each need, in reading order.
    pub fn needs(&self) -> &[NeedAt<'a>]
        ensures needs { needs_seen result.now ≡ wanted_of self.now.info self.now.command }
    {
        self.wanted.needs()
    }

    /// What names key `i` of those that the command needs, counted from 0, in order of first use: its id, or an
    /// alternate name that stands in the command; `None` past the last.
    pub fn needed(&self, i: usize) -> Option<Need<'a>>
        ensures need { option_map need_seen result
            ≡ option_map (λ n. n.need) (slice_get (wanted_of self.now.info self.now.command) i) }
    {
        self.wanted.needed(i)
    }

    /// Keeps a key where it meets a need of the command that no kept key meets: by its id, or by one of its alternate
    /// names. It allocates nothing.
    pub fn feed(&mut self, key: &'a KeyDoc)
        ensures fed { self.new ≡ fed_key self.old key.entry.now }
    {
        self.wanted.feed(key)
    }

    /// Gets the command ready: the data key of each value is opened under the master key, the sealed command's length
    /// is computed, and as much allocated. Refused is the first value whose key isn't to be had; else `TooLong`
    /// comes exactly where the sealed command would have more than 48,000,000 bytes. After a fault the state is given
    /// back as it was: more keys may be handed in. `Memory` may come at any time.
    pub fn done<B: Block256>(
        self,
        alloc: Global,
        master: &MasterKey,
        hooks: &B,
    ) -> Result<Ready<'a>, (NeedKeys<'a>, KeysStop)>
        requires hooks { B.answers hooks.now }
        ensures ready { IfOk result (λ r. r ≡ readied self.entry r.table) }
        ensures opened { IfOk result (λ r. AreOpened (finder self.entry.kept master.now)
            (needs_of (rows_in self.entry.info) self.entry.command) r.table) }
        ensures fits { IfOk result (λ _. sealed_size self.entry.info self.entry.command ≤ 48000000) }
        ensures back { IfErr result (λ e. e.0 ≡ self.entry) }
        ensures stop { IfErr result (λ e. StopsWaiting (finder self.entry.kept master.now) self.entry e.1) }
    {
        match open_keys(alloc, &self.wanted, master, hooks) {
            Ok(table) => self.with_keys(alloc, table),
            Err(stop) => Err((self, stop)),
        }
    }

    /// The same under the master key of a cache, where keys that were opened before are found.
    pub fn done_cached<B: Block256>(
        self,
        alloc: Global,
        cache: &mut KeyCache,
        hooks: &B,
    ) -> Result<Ready<'a>, (NeedKeys<'a>, KeysStop)>
        requires hooks { B.answers hooks.now }
        ensures master { cache.new.master ≡ cache.old.master }
        ensures ready { IfOk result (λ r. r ≡ readied self.entry r.table) }
        ensures opened { IfOk result (λ r. AreOpened (finder self.entry.kept cache.old.master)
            (needs_of (rows_in self.entry.info) self.entry.command) r.table) }
        ensures fits { IfOk result (λ _. sealed_size self.entry.info self.entry.command ≤ 48000000) }
        ensures back { IfErr result (λ e. e.0 ≡ self.entry) }
        ensures stop { IfErr result (λ e. StopsWaiting (finder self.entry.kept cache.old.master) self.entry e.1) }
    {
        match open_keys_cached(alloc, &self.wanted, cache, hooks) {
            Ok(table) => self.with_keys(alloc, table),
            Err(stop) => Err((self, stop)),
        }
    }

    /// The same with the keys of a vault in place of those that were handed in: each need has the vault's own answer.
    /// It takes a time that grows with n log n in the number of needs, however many names a key has.
    pub fn done_from_vault<B: Block256>(
        self,
        alloc: Global,
        keys: &Vault,
        cache: &mut KeyCache,
        hooks: &B,
    ) -> Result<Ready<'a>, (NeedKeys<'a>, KeysStop)>
        requires hooks { B.answers hooks.now }
        ensures master { cache.new.master ≡ cache.old.master }
        ensures ready { IfOk result (λ r. r ≡ readied self.entry r.table) }
        ensures opened { IfOk result (λ r. AreOpened (finder keys.now cache.old.master)
            (needs_of (rows_in self.entry.info) self.entry.command) r.table) }
        ensures fits { IfOk result (λ _. sealed_size self.entry.info self.entry.command ≤ 48000000) }
        ensures back { IfErr result (λ e. e.0 ≡ self.entry) }
        ensures stop { IfErr result (λ e. StopsWaiting (finder keys.now cache.old.master) self.entry e.1) }
    {
        match open_found(alloc, self.wanted.needs(), keys, cache, hooks) {
            Ok(table) => self.with_keys(alloc, table),
            Err(stop) => Err((self, stop)),
        }
    }

    /// The command with the data key of each value; or it would be too long.
    fn with_keys(
        self,
        alloc: Global,
        table: KeyTable,
    ) -> Result<Ready<'a>, (NeedKeys<'a>, KeysStop)>
        requires keyed { HasKeys (key_in table) (values_of self.info self.command) }
        ensures ready { IfOk result (λ r. r ≡ readied self.entry table) }
        ensures fits { IfOk result (λ _. sealed_size self.entry.info self.entry.command ≤ 48000000) }
        ensures back { IfErr result (λ e. e.0 ≡ self.entry) }
        ensures stop { IfErr result (λ e. IsTooLong (sealed_size self.entry.info self.entry.command) e.1) }
    {
        match self.output_len() {
            Ok(size) => match vec![in alloc; 0; size] {
                Ok(out) => {
                    let ready = Ready::new(self, table, out);
                    Ok(ready)
                }
                Err(_) => Err((self, KeysStop::Memory)),
            },
            Err(TooLong) => Err((self, KeysStop::TooLong)),
        }
    }

    /// How many bytes the sealed command has.
    fn output_len(&self) -> Result<usize, TooLong>
        ensures size { IfOk result (λ n. n ≡ sealed_size self.now.info self.now.command) }
        ensures fits { IfOk result (λ _. sealed_size self.now.info self.now.command ≤ 48000000) }
        ensures too_long { IfErr result (λ _. 48000000 < sealed_size self.now.info self.now.command) }
    {
        match plan_of(self.info, &self.command, &self.marked) {
            Ok(plan) => Ok(plan.output_len()),
            Err(TooLong) => Err(TooLong),
        }
    }

    /// How many random blocks are drawn as the command is sealed: one for each value of the random algorithm.
    pub fn draws(&self) -> usize
        ensures draws { result ≡ draws_of (values_of self.now.info self.now.command) }
    {
        draws_by(self.info, &self.command, &self.marked)
    }

    /// Seals the command into as many bytes as it is sealed to, as `seal_through` does.
    pub(crate) fn seal_into<B: Block256, N: Entropy>(
        &self,
        table: &KeyTable,
        hooks: &B,
        entropy: &mut N,
        out: &mut [u8],
    ) -> Result<(), Failed>
        requires hooks { B.answers hooks.now }
        requires ready { IsReady self.now table.now out.old }
        ensures size { length out.new ≡ length out.old }
        ensures long { GivesLongIds (key_in table.now) }
        ensures sealed { IfOk result (λ _. IsSealedWhole (key_in table.now) (values_of self.now.info self.now.command)
            self.now.command (N.seen entropy.old) (N.seen entropy.new) out.new) }
        ensures failed { OnErr result (FellShort (N.seen entropy.old) (N.seen entropy.new)
            (draws_of (values_of self.now.info self.now.command))) }
    {
        match plan_of(self.info, &self.command, &self.marked) {
            Ok(plan) => seal_through(&plan, &self.command, table, hooks, entropy, out),
            Err(TooLong) => unreachable!(),
        }
    }

    /// The command with the bytes that it was sealed to.
    pub(crate) fn sealed(self, table: KeyTable, out: Vec<u8>) -> Done<'a>
        ensures done { result ≡ finished (readied self.entry table) out.items }
    {
        Done::new(self.command, self.info, self.wanted, table, out)
    }
}

/// The plan of a command, by its marks; of one without marks nothing is sealed.
fn plan_of<'m>(
    info: Option<&Info>,
    command: &RawDoc<'m>,
    marked: &'m Option<Marked<'m>>,
) -> Result<Plan<'m>, TooLong>
    requires marked { IsMarked (option_copied info) command.now marked.now }
    ensures plan { IfOk result (λ plan. IsPlanOf (option_copied info.entry) command.now plan) }
    ensures too_long { IfErr result (λ _. 48000000 < sealed_size (option_copied info.entry) command.now) }
{
    match marked {
        Some(marked) => match plan_seal(command, marked.marks(), marked.rows()) {
            Ok(plan) => Ok(plan),
            Err(TooLong) => Err(TooLong),
        },
        None => match plan_clear(command) {
            Ok(plan) => Ok(plan),
            Err(TooLong) => Err(TooLong),
        },
    }
}

/// How many random blocks are drawn for a command, by its marks; of one without marks nothing is sealed.
fn draws_by<'m>(info: Option<&Info>, command: &RawDoc<'m>, marked: &'m Option<Marked<'m>>) -> usize
    requires marked { IsMarked (option_copied info) command.now marked.now }
    ensures draws { result ≡ draws_of (values_of (option_copied info.entry) command.now) }
{
    match marked {
        Some(marked) => sites_of(command, marked.marks(), marked.rows()).draws(),
        None => 0,
    }
}
