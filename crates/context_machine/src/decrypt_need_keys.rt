//! Opening a document, while its keys are asked for (libmongocrypt's state NEED_MONGO_KEYS).

ghost use Rattle.std.specs.Prelude.{◌≡◌, [], length, map, option_map, slice_get, IfErr, IfOk, None};
ghost use Rattle.bson_tree.specs.Spelling.{doc_bytes};
ghost use Rattle.doc_rewrite.specs.Finding.{found_at};
ghost use Rattle.doc_rewrite.specs.Founds.{payloads_of};
ghost use Rattle.doc_rewrite.specs.Opened.{first_wrong, misshapen};
ghost use Rattle.doc_rewrite.specs.Opening.{room_to_open};
ghost use Rattle.context_machine.specs.Asks.{filter_of, key_filter};
ghost use Rattle.context_machine.specs.Decrypting.{IsMisshapen};
ghost use Rattle.context_machine.specs.Kept.{fed, unmet};
ghost use Rattle.context_machine.specs.Needs.{first_needs, ids_of, needs_seen};
ghost use Rattle.context_machine.specs.Rings.{AreOpened, by_ids, needs_in, ring};
ghost use Rattle.context_machine.specs.Tables.{KeysFail};
ghost use Rattle.payload6.specs.Needs.{need_seen};

use crate::decrypt_ready::DecryptReady;
use crate::keys_asked::key_filter;
use crate::need::NeedAt;
use crate::opened_keys::{KeysStop, open_keys, open_keys_cached};
use crate::payload_needs::PayloadNeeds;
use crate::vault_keys::{filter_beside, open_found};
use crate::wanted::Wanted;
use bson_codec::RawDoc;
use crypto_hooks::Block256;
use data_key::KeyDoc;
use doc_rewrite::{FindFault, Found, tell_payloads};
use encrypt_schema::{MarkFault, Reason};
use fle_outside::Memory;
use key_vault::{KeyCache, Vault};
use local_kms::MasterKey;
use payload6::Need;
use std::alloc::Global;
use std::marker::Model;

/// A document whose payloads need keys, and the keys kept so far.
#[derive(Drop)]
pub struct DecryptNeedKeys<'a> {
    pub(crate) document: RawDoc<'a>,
    pub(crate) found: Found<'a>,
    wanted: Wanted<'a>,
}

impl<'a> Model for DecryptNeedKeys<'a> {
    ghost use Rattle.std.specs.Prelude.{◌≡◌};
    ghost use Rattle.doc_rewrite.specs.Finding.{IsFoundIn};
    ghost use Rattle.context_machine.specs.Needs.{first_needs};
    ghost use Rattle.context_machine.specs.Rings.{needs_in};
    ghost use Rattle.std.specs.Coded.{codes};
    ghost use Rattle.bson_tree.specs.Code.{coded_items};
    ghost use Rattle.context_machine.specs.States.{Opens};

    ghost Value = { Opens };

    ghost coded = { Prim.hlevel (codes, coded_items) };

    ghost view = { λ s. record { document = s.document; kept = s.wanted.kept } };

    ghost invariant = { λ s. IsFoundIn s.document s.found × (s.wanted.needs ≡ first_needs (needs_in s.document)) };
}

impl<'a> DecryptNeedKeys<'a> {
    /// Begins to open a document. `Refused` exactly where one of its payloads has a length that none has, at the first
    /// of them. No key is asked for yet.
    pub fn begin(alloc: Global, document: RawDoc<'a>) -> Result<DecryptNeedKeys<'a>, MarkFault>
        ensures begun { IfOk result (λ k. k ≡ record { document = document.entry; kept = [] }) }
        ensures shaped { IfOk result (λ _. first_wrong misshapen (payloads_of document.entry) ≡ None) }
        ensures refused { IfErr result (IsMisshapen document.entry) }
    {
        let mut needs = PayloadNeeds::new(alloc);
        match tell_payloads(&document, &mut needs) {
            Ok(found) => match needs.wanted(alloc) {
                Ok(wanted) => Ok(DecryptNeedKeys {
                    document,
                    found,
                    wanted,
                }),
                Err(_) => Err(MarkFault::Memory),
            },
            Err(FindFault { at }) => Err(MarkFault::Refused {
                reason: Reason::PayloadShape,
                at,
            }),
        }
    }

    /// The document itself.
    pub fn document(&self) -> &RawDoc<'a>
        ensures document { result.now ≡ self.now.document }
    {
        &self.document
    }

    /// The filter by which the caller asks its key vault for the keys that are needed, all of them by their ids.
    /// `Memory` where there is none for it.
    pub fn op(&self, alloc: Global) -> Result<Vec<u8>, Memory>
        ensures filter { IfOk result (λ out. out.items
            ≡ doc_bytes (key_filter (ids_of (first_needs (needs_in self.now.document))) [])) }
    {
        key_filter(alloc, self.wanted.needs())
    }

    /// The filter of those keys that a vault lacks, likewise; no byte where it lacks none. `Memory` where there is none
    /// for it.
    pub fn op_beside(&self, alloc: Global, keys: &Vault) -> Result<Vec<u8>, Memory>
        ensures filter { IfOk result (λ out. out.items
            ≡ filter_of (unmet keys.now (first_needs (needs_in self.now.document)))) }
    {
        let out = filter_beside(alloc, self.wanted.needs(), keys)?;
        Ok(out)
    }

    /// The first payload that needs each key, in reading order.
    pub fn needs(&self) -> &[NeedAt<'a>]
        ensures needs { needs_seen result.now ≡ first_needs (needs_in self.now.document) }
    {
        self.wanted.needs()
    }

    /// The id of key `i` of those that are needed, in the order in which the document needs them first, counted from 0;
    /// `None` past the last.
    pub fn needed(&self, i: usize) -> Option<Need<'a>>
        ensures need { option_map need_seen result
            ≡ option_map (λ n. n.need) (slice_get (first_needs (needs_in self.now.document)) i) }
    {
        self.wanted.needed(i)
    }

    /// Keeps a key where it meets a need, by its id, that no kept key meets. It allocates nothing.
    pub fn feed(&mut self, key: &'a KeyDoc)
        ensures fed { self.new ≡ record {
          document = self.old.document;
          kept = fed (first_needs (needs_in self.old.document)) self.old.kept key.entry.now;
        } }
    {
        self.wanted.feed(key)
    }

    /// Ends the asking: the keys kept are opened under a master key, and there is room for the opened document.
    ///
    /// `Refused` exactly where the key of a payload isn't to be had, with the first such payload. It is never
    /// `TooLong`. This state comes back then, as it was.
    pub fn done<B: Block256>(
        self,
        alloc: Global,
        master: &MasterKey,
        hooks: &B,
    ) -> Result<DecryptReady<'a>, (DecryptNeedKeys<'a>, KeysStop)>
        requires hooks { B.answers hooks.now }
        ensures ready { IfOk result (λ r. r
            ≡ record { document = self.entry.document; kept = self.entry.kept; table = r.table }) }
        ensures opened { IfOk result (λ r.
            AreOpened (by_ids (ring self.entry.kept master.now)) (needs_in self.entry.document) r.table) }
        ensures back { IfErr result (λ e. e.0 ≡ self.entry) }
        ensures refused { IfErr result (λ e.
            KeysFail (by_ids (ring self.entry.kept master.now)) (needs_in self.entry.document) e.1) }
    {
        let Ok(out) = self.room(alloc) else {
            return Err((self, KeysStop::Memory));
        };
        match open_keys(alloc, &self.wanted, master, hooks) {
            Ok(table) => Ok(DecryptReady::new(self, table, out)),
            Err(stop) => Err((self, stop)),
        }
    }

    /// The same under the master key of a cache, which may have some of the keys opened already.
    pub fn done_cached<B: Block256>(
        self,
        alloc: Global,
        cache: &mut KeyCache,
        hooks: &B,
    ) -> Result<DecryptReady<'a>, (DecryptNeedKeys<'a>, KeysStop)>
        requires hooks { B.answers hooks.now }
        ensures master { cache.new.master ≡ cache.old.master }
        ensures ready { IfOk result (λ r. r
            ≡ record { document = self.entry.document; kept = self.entry.kept; table = r.table }) }
        ensures opened { IfOk result (λ r.
            AreOpened (by_ids (ring self.entry.kept cache.old.master)) (needs_in self.entry.document) r.table) }
        ensures back { IfErr result (λ e. e.0 ≡ self.entry) }
        ensures refused { IfErr result (λ e.
            KeysFail (by_ids (ring self.entry.kept cache.old.master)) (needs_in self.entry.document) e.1) }
    {
        let Ok(out) = self.room(alloc) else {
            return Err((self, KeysStop::Memory));
        };
        match open_keys_cached(alloc, &self.wanted, cache, hooks) {
            Ok(table) => Ok(DecryptReady::new(self, table, out)),
            Err(stop) => Err((self, stop)),
        }
    }

    /// The same with the keys of a vault in place of those that were handed in: each payload has the vault's own
    /// answer. It takes a time that grows with n log n in the number of needs, however many names a key has.
    pub fn done_from_vault<B: Block256>(
        self,
        alloc: Global,
        keys: &Vault,
        cache: &mut KeyCache,
        hooks: &B,
    ) -> Result<DecryptReady<'a>, (DecryptNeedKeys<'a>, KeysStop)>
        requires hooks { B.answers hooks.now }
        ensures master { cache.new.master ≡ cache.old.master }
        ensures ready { IfOk result (λ r. r
            ≡ record { document = self.entry.document; kept = self.entry.kept; table = r.table }) }
        ensures opened { IfOk result (λ r.
            AreOpened (by_ids (ring keys.now cache.old.master)) (needs_in self.entry.document) r.table) }
        ensures back { IfErr result (λ e. e.0 ≡ self.entry) }
        ensures refused { IfErr result (λ e.
            KeysFail (by_ids (ring keys.now cache.old.master)) (needs_in self.entry.document) e.1) }
    {
        let Ok(out) = self.room(alloc) else {
            return Err((self, KeysStop::Memory));
        };
        match open_found(alloc, self.wanted.needs(), keys, cache, hooks) {
            Ok(table) => Ok(DecryptReady::new(self, table, out)),
            Err(stop) => Err((self, stop)),
        }
    }

    /// Room for the opened document, and for opening it.
    fn room(&self, alloc: Global) -> Result<Vec<u8>, Memory>
        ensures long { IfOk result (λ out. length out.items
            ≡ room_to_open self.now.document (map found_at (payloads_of self.now.document))) }
    {
        match vec![in alloc; 0; self.found.room(&self.document)] {
            Ok(out) => Ok(out),
            Err(_) => Err(Memory),
        }
    }
}
