//! A command that can be sealed (libmongocrypt's state READY).

ghost use Rattle.std.specs.Prelude.{◌≡◌, length, IfErr, IfOk, OnErr};
ghost use Rattle.context_machine.specs.Ready.{IsReady, finished, readied, sealed_size, values_of};
ghost use Rattle.doc_rewrite.specs.Keys.{GivesLongIds, key_in};
ghost use Rattle.doc_rewrite.specs.Sealing.{FellShort, IsSealedWhole};
ghost use Rattle.doc_rewrite.specs.Sites.{draws_of};

use crate::done::Done;
use crate::need_keys::NeedKeys;
use bson_codec::RawDoc;
use crypto_hooks::Block256;
use doc_rewrite::KeyTable;
use fle_outside::{Entropy, Failed};
use std::marker::Model;

/// A command whose protected values have their keys, and the bytes that it is to be sealed into.
#[derive(Drop)]
pub struct Ready<'a> {
    waited: NeedKeys<'a>,
    table: KeyTable,
    out: Vec<u8>,
}

impl<'a> Model for Ready<'a> {
    ghost use Rattle.context_machine.specs.Ready.{IsReady, readied};
    ghost use Rattle.context_machine.specs.SealingCodes.{coded_readied};
    ghost use Rattle.context_machine.specs.States.{Readied};

    ghost Value = { Readied };

    ghost coded = { coded_readied };

    ghost view = { λ s. readied s.waited s.table };

    ghost invariant = { λ s. IsReady s.waited s.table s.out.items };
}

impl<'a> Ready<'a> {
    /// A command that waited for its keys, with these and the bytes that it is to be sealed into.
    pub(crate) fn new(waited: NeedKeys<'a>, table: KeyTable, out: Vec<u8>) -> Ready<'a>
        requires ready { IsReady waited table out.items }
        ensures ready { result ≡ readied waited.entry table }
    {
        Ready { waited, table, out }
    }

    /// The command itself.
    pub fn command(&self) -> &RawDoc<'a>
        ensures command { result.now ≡ self.now.command }
    {
        self.waited.command()
    }

    /// How many bytes the sealed command has.
    pub fn output_len(&self) -> usize
        ensures size { result ≡ sealed_size self.now.info self.now.command }
    {
        self.out.len()
    }

    /// How many random blocks are drawn as the command is sealed: one for each value of the random algorithm.
    pub fn draws(&self) -> usize
        ensures draws { result ≡ draws_of (values_of self.now.info self.now.command) }
    {
        self.waited.draws()
    }

    /// Seals the command: each of its values under the key of its rule, those of the random algorithm with a block
    /// each, drawn in reading order. `Failed` where a block couldn't be drawn: the state is given back as it was, and
    /// sealing it again draws all blocks anew. It allocates nothing.
    pub fn finalize<B: Block256, N: Entropy>(
        self,
        hooks: &B,
        entropy: &mut N,
    ) -> Result<Done<'a>, (Ready<'a>, Failed)>
        requires hooks { B.answers hooks.now }
        ensures done { IfOk result (λ d. d ≡ finished self.entry d.bytes) }
        ensures sealed { IfOk result (λ d. IsSealedWhole (key_in self.entry.table)
            (values_of self.entry.info self.entry.command) self.entry.command
            (N.seen entropy.old) (N.seen entropy.new) d.bytes) }
        ensures long { GivesLongIds (key_in self.entry.table) }
        ensures size { IfOk result (λ d. length d.bytes ≡ sealed_size self.entry.info self.entry.command) }
        ensures back { IfErr result (λ e. e.0 ≡ self.entry) }
        ensures failed { OnErr result (FellShort (N.seen entropy.old) (N.seen entropy.new)
            (draws_of (values_of self.entry.info self.entry.command))) }
    {
        let Ready {
            waited,
            table,
            mut out,
        } = self;
        match waited.seal_into(&table, hooks, entropy, &mut out) {
            Ok(()) => {
                let done = waited.sealed(table, out);
                Ok(done)
            }
            Err(Failed) => {
                let ready = Ready::new(waited, table, out);
                Err((ready, Failed))
            }
        }
    }
}
