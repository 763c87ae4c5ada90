//! Opening a document, once its keys are there (libmongocrypt's state READY).

ghost use Rattle.std.specs.Prelude.{◌≡◌, ◌≤◌, length, map, IfErr, IfOk};
ghost use Rattle.bson_tree.specs.Spelling.{doc_bytes};
ghost use Rattle.doc_rewrite.specs.Finding.{HasKeysFor, found_at};
ghost use Rattle.doc_rewrite.specs.Founds.{payloads_of};
ghost use Rattle.doc_rewrite.specs.Keys.{key_by_id};
ghost use Rattle.doc_rewrite.specs.Opened.{ring_of};
ghost use Rattle.doc_rewrite.specs.Opening.{room_to_open};
ghost use Rattle.context_machine.specs.Decrypting.{OpensTo, StaysSealed};

use crate::decrypt_done::DecryptDone;
use crate::decrypt_need_keys::DecryptNeedKeys;
use bson_codec::RawDoc;
use crypto_hooks::Block256;
use doc_rewrite::{KeyTable, Spot, open_through};
use std::marker::Model;

/// A document with the data key of each of its payloads, and the room for the opened one.
#[derive(Drop)]
pub struct DecryptReady<'a> {
    asked: DecryptNeedKeys<'a>,
    table: KeyTable,
    out: Vec<u8>,
}

impl<'a> Model for DecryptReady<'a> {
    ghost use Rattle.std.specs.Prelude.{◌≤◌, length, map};
    ghost use Rattle.doc_rewrite.specs.Finding.{HasKeysFor, found_at};
    ghost use Rattle.doc_rewrite.specs.Founds.{payloads_of};
    ghost use Rattle.doc_rewrite.specs.Keys.{key_by_id};
    ghost use Rattle.doc_rewrite.specs.Opening.{room_to_open};
    ghost use Rattle.std.specs.Coded.{codes};
    ghost use Rattle.bson_tree.specs.Code.{coded_items};
    ghost use Rattle.context_machine.specs.States.{OpensWith};

    ghost Value = { OpensWith };

    ghost coded = { Prim.hlevel (codes, coded_items) };

    ghost view = { λ s. record { document = s.asked.document; kept = s.asked.kept; table = s.table } };

    ghost invariant = { λ s. HasKeysFor (key_by_id s.table.ids) (map found_at (payloads_of s.asked.document))
        × (room_to_open s.asked.document (map found_at (payloads_of s.asked.document)) ≤ length s.out.items) };
}

impl<'a> DecryptReady<'a> {
    /// What is asked for is there, and so is the room.
    pub(crate) fn new(asked: DecryptNeedKeys<'a>, table: KeyTable, out: Vec<u8>) -> DecryptReady<'a>
        requires keyed { HasKeysFor (key_by_id table.ids) (map found_at (payloads_of asked.document)) }
        requires room { room_to_open asked.document (map found_at (payloads_of asked.document)) ≤ length out.items }
        ensures ready { result
            ≡ record { document = asked.entry.document; kept = asked.entry.kept; table = table } }
    {
        DecryptReady { asked, table, out }
    }

    /// The document itself.
    pub fn document(&self) -> &RawDoc<'a>
        ensures document { result.now ≡ self.now.document }
    {
        self.asked.document()
    }

    /// Opens the document: the value of its original type in the place of each payload. The opened document has at most
    /// as many bytes as the document. It allocates nothing.
    ///
    /// Otherwise the first payload, in reading order, whose tag, padding or value is wrong.
    pub fn finalize<B: Block256>(self, hooks: &B) -> Result<DecryptDone<'a>, Spot>
        requires hooks { B.answers hooks.now }
        ensures done { IfOk result (λ d. d ≡ record {
          document = self.entry.document;
          kept = self.entry.kept;
          table = self.entry.table;
          bytes = d.bytes;
        }) }
        ensures opened { IfOk result (λ d.
            OpensTo (ring_of (key_by_id self.entry.table.ids)) self.entry.document d.bytes) }
        ensures short { IfOk result (λ d. length d.bytes ≤ length (doc_bytes self.entry.document.tree)) }
        ensures refused { IfErr result (StaysSealed (ring_of (key_by_id self.entry.table.ids)) self.entry.document) }
    {
        let DecryptReady {
            asked,
            table,
            mut out,
        } = self;
        match open_through(&asked.found, &asked.document, &table, hooks, &mut out) {
            Ok(n) => {
                out.truncate(n);
                Ok(DecryptDone::new(asked, table, out))
            }
            Err(spot) => Err(spot),
        }
    }
}
