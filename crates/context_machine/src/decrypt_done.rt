//! A document that is opened (libmongocrypt's state DONE).

ghost use Rattle.std.specs.Prelude.{◌≡◌};

use crate::decrypt_need_keys::DecryptNeedKeys;
use doc_rewrite::KeyTable;
use std::marker::Model;

/// A document, and the bytes of the opened one.
#[derive(Drop)]
pub struct DecryptDone<'a> {
    asked: DecryptNeedKeys<'a>,
    table: KeyTable,
    bytes: Vec<u8>,
}

impl<'a> Model for DecryptDone<'a> {
    ghost use Rattle.std.specs.Coded.{codes};
    ghost use Rattle.bson_tree.specs.Code.{coded_items};
    ghost use Rattle.context_machine.specs.States.{OpenedDone};

    ghost Value = { OpenedDone };

    ghost coded = { Prim.hlevel (codes, coded_items) };

    ghost view = { λ s. record {
      document = s.asked.document;
      kept = s.asked.kept;
      table = s.table;
      bytes = s.bytes.items;
    } };
}

impl<'a> DecryptDone<'a> {
    /// The document was opened to these bytes.
    pub(crate) fn new(
        asked: DecryptNeedKeys<'a>,
        table: KeyTable,
        bytes: Vec<u8>,
    ) -> DecryptDone<'a>
        ensures done { result ≡ record {
          document = asked.entry.document;
          kept = asked.entry.kept;
          table = table;
          bytes = bytes.items;
        } }
    {
        DecryptDone {
            asked,
            table,
            bytes,
        }
    }

    /// The bytes of the opened document.
    pub fn bytes(&self) -> &[u8]
        ensures bytes { result.now ≡ self.now.bytes }
    {
        self.bytes.as_slice()
    }

    /// The same bytes, given over.
    pub fn into_bytes(self) -> Vec<u8>
        ensures bytes { result.items ≡ self.entry.bytes }
    {
        self.bytes
    }
}
