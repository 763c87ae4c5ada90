//! A command that was sealed (libmongocrypt's state DONE).

ghost use Rattle.std.specs.Prelude.{◌≡◌, option_copied};

use crate::wanted::Wanted;
use bson_codec::RawDoc;
use doc_rewrite::KeyTable;
use encrypt_schema::Info;
use std::marker::Model;

/// A command that was sealed, and the bytes of what it became.
#[derive(Drop)]
pub struct Done<'a> {
    command: RawDoc<'a>,
    info: Option<&'a Info>,
    wanted: Wanted<'a>,
    table: KeyTable,
    out: Vec<u8>,
}

impl<'a> Model for Done<'a> {
    ghost use Rattle.std.specs.Prelude.{option_copied};
    ghost use Rattle.context_machine.specs.SealingCodes.{coded_finished};
    ghost use Rattle.context_machine.specs.States.{Finished};

    ghost Value = { Finished };

    ghost coded = { coded_finished };

    ghost view = { λ s. record {
      command = s.command;
      info = option_copied s.info;
      kept = s.wanted.kept;
      table = s.table;
      bytes = s.out.items;
    } };
}

impl<'a> Done<'a> {
    /// A command, and the bytes that it was sealed to.
    pub(crate) fn new(
        command: RawDoc<'a>,
        info: Option<&'a Info>,
        wanted: Wanted<'a>,
        table: KeyTable,
        out: Vec<u8>,
    ) -> Done<'a>
        ensures done { result ≡ record {
          command = command.entry;
          info = option_copied info.entry;
          kept = wanted.entry.kept;
          table = table;
          bytes = out.items;
        } }
    {
        Done {
            command,
            info,
            wanted,
            table,
            out,
        }
    }

    /// The bytes of the sealed command.
    pub fn bytes(&self) -> &[u8]
        ensures bytes { result.now ≡ self.now.bytes }
    {
        &self.out
    }

    /// The same bytes, for keeps: nothing is copied.
    pub fn into_bytes(self) -> Vec<u8>
        ensures bytes { result.items ≡ self.entry.bytes }
    {
        self.out
    }
}
