//! A command that waits for its marks (libmongocrypt's state NEED_MONGO_MARKINGS).

ghost use Rattle.std.specs.Prelude.{◌≡◌, [], false, true, None, Some, option_copied, IfErr, IfOk};
ghost use Rattle.bson_tree.specs.Spelling.{doc_bytes};
ghost use Rattle.command_marker.specs.Commands.{is_wide_command};
ghost use Rattle.context_machine.specs.Replying.{RepliesMore, RepliesTo};
ghost use Rattle.context_machine.specs.Waiting.{IsMarked, IsRefusal};
ghost use Rattle.encrypt_schema.specs.Commands.More.{beyond_verdict, contents_verdict};
ghost use Rattle.encrypt_schema.specs.Commands.Offences.{is_view};
ghost use Rattle.encrypt_schema.specs.Commands.Targets.{rows_in};
ghost use Rattle.encrypt_schema.specs.Commands.Visits.{content_verdict};

use crate::command_needs::wanted_by;
use crate::need_keys::NeedKeys;
use crate::replying;
use crate::replying::{ReplyStop, reply_marked, reply_unmarked};
use crate::wanted::Wanted;
use bson_codec::RawDoc;
use command_marker::{Marked, mark_more, mark_wide};
use encrypt_schema::{Info, MarkFault};
use fle_outside::Memory;
use std::alloc::Global;
use std::marker::Model;

/// A command with protected values perhaps, and the info of its collection, if there is one. It is no view.
#[derive(Drop)]
pub struct NeedMarkings<'a> {
    command: RawDoc<'a>,
    info: Option<&'a Info>,
}

impl<'a> Model for NeedMarkings<'a> {
    ghost use Rattle.std.specs.Prelude.{◌≡◌, false, option_copied, true};
    ghost use Rattle.command_marker.specs.Commands.{is_wide_command};
    ghost use Rattle.context_machine.specs.States.{Asks};
    ghost use Rattle.encrypt_schema.specs.Commands.Offences.{is_view};
    ghost use Rattle.context_machine.specs.SealingCodes.{coded_asks};

    ghost Value = { Asks };

    ghost coded = { coded_asks };

    ghost view = { λ s. record { command = s.command; info = option_copied s.info } };

    ghost invariant = { λ s. (is_wide_command s.command.tree ≡ true) × (is_view (option_copied s.info) ≡ false) };
}

impl<'a> NeedMarkings<'a> {
    /// A command of a collection that is no view.
    pub(crate) fn new(command: RawDoc<'a>, info: Option<&'a Info>) -> NeedMarkings<'a>
        requires wide { is_wide_command command.tree ≡ true }
        requires real { is_view (option_copied info) ≡ false }
        ensures asks { result ≡ record { command = command.entry; info = option_copied info.entry } }
    {
        NeedMarkings { command, info }
    }

    /// What is to be marked: the bytes of the command.
    pub fn op(&self) -> &'a [u8]
        ensures command { result.now ≡ doc_bytes self.now.command.tree }
    {
        self.command.bytes()
    }

    /// The command itself.
    pub fn command(&self) -> &RawDoc<'a>
        ensures command { result.now ≡ self.now.command }
    {
        &self.command
    }

    /// The reply of a marking service to the command, under the rules of its collection; else the first place that is
    /// refused by its contents. Without an info nothing is marked and nothing refused. `TooLong` comes exactly where
    /// the reply would have more than 48,000,000 bytes, `Memory` at any time. The state stays: it may go on.
    pub fn reply(&self, alloc: Global) -> Result<Vec<u8>, ReplyStop>
        ensures replies { RepliesTo self.now result }
    {
        match self.info {
            Some(info) => reply_marked(alloc, &self.command, info),
            None => reply_unmarked(alloc, &self.command),
        }
    }

    /// The same, where a library refuses nothing beyond the contents either.
    pub fn reply_more(&self, alloc: Global) -> Result<Vec<u8>, ReplyStop>
        ensures replies { RepliesMore self.now result }
    {
        match self.info {
            Some(info) => replying::reply_more(alloc, &self.command, info),
            None => replying::reply_more_unmarked(alloc, &self.command),
        }
    }

    /// The command with the marks of its protected values under the rules of its collection, none without an info; else
    /// the first place that is refused by its contents. `Memory` may come at any time. The state stays: it may go on.
    pub fn marked(&self, alloc: Global) -> Result<Option<Marked<'a>>, MarkFault>
        ensures marked { IfOk result (IsMarked self.now.info self.now.command) }
        ensures accepted { IfOk result (λ _. content_verdict (rows_in self.now.info) self.now.command.start
            self.now.command.tree ≡ None) }
        ensures refused { IfErr result (IsRefusal (content_verdict (rows_in self.now.info) self.now.command.start
            self.now.command.tree)) }
    {
        match self.info {
            Some(info) => match mark_wide(alloc, info.rows(), self.command.again()) {
                Ok(marked) => Ok(Some(marked)),
                Err(fault) => Err(fault),
            },
            None => Ok(None),
        }
    }

    /// Marks the command's protected values under the rules of its collection, as `command_marker::mark_wide` does,
    /// and asks for their keys; else the first place that is refused by its contents. Without an info nothing is
    /// marked and nothing refused. After a fault the state is given back as it was; `Memory` may come at any time.
    pub fn mark_here(self, alloc: Global) -> Result<NeedKeys<'a>, (NeedMarkings<'a>, MarkFault)>
        ensures waits { IfOk result (λ k.
            k ≡ record { command = self.entry.command; info = self.entry.info; kept = [] }) }
        ensures accepted { IfOk result (λ _. content_verdict (rows_in self.entry.info) self.entry.command.start
            self.entry.command.tree ≡ None) }
        ensures back { IfErr result (λ e. e.0 ≡ self.entry) }
        ensures refused { IfErr result (λ e. IsRefusal (content_verdict (rows_in self.entry.info)
            self.entry.command.start self.entry.command.tree) e.1) }
    {
        match wait(alloc, &self.command, self.info) {
            Ok(waits) => Ok(waits),
            Err(fault) => Err((self, fault)),
        }
    }

    /// The same where a library refuses nothing beyond the contents either, as `command_marker::mark_more` does: this
    /// is what a library asks of each command that it sends.
    pub fn mark_more(self, alloc: Global) -> Result<NeedKeys<'a>, (NeedMarkings<'a>, MarkFault)>
        ensures waits { IfOk result (λ k.
            k ≡ record { command = self.entry.command; info = self.entry.info; kept = [] }) }
        ensures accepted { IfOk result (λ _. content_verdict (rows_in self.entry.info) self.entry.command.start
            self.entry.command.tree ≡ None) }
        ensures beyond { IfOk result (λ _. beyond_verdict (rows_in self.entry.info) self.entry.command.start
            self.entry.command.tree ≡ None) }
        ensures back { IfErr result (λ e. e.0 ≡ self.entry) }
        ensures refused { IfErr result (λ e. IsRefusal (contents_verdict (rows_in self.entry.info)
            self.entry.command.start self.entry.command.tree) e.1) }
    {
        match wait_more(alloc, &self.command, self.info) {
            Ok(waits) => Ok(waits),
            Err(fault) => Err((self, fault)),
        }
    }
}

/// A command that waits for its keys, or why it is refused.
fn wait<'a>(
    alloc: Global,
    command: &RawDoc<'a>,
    info: Option<&'a Info>,
) -> Result<NeedKeys<'a>, MarkFault>
    requires wide { is_wide_command command.now.tree ≡ true }
    requires real { is_view (option_copied info) ≡ false }
    ensures waits { IfOk result (λ k.
        k ≡ record { command = command.now; info = option_copied info.entry; kept = [] }) }
    ensures accepted { IfOk result (λ _. content_verdict (rows_in (option_copied info.entry)) command.now.start
        command.now.tree ≡ None) }
    ensures refused { IfErr result (IsRefusal (content_verdict (rows_in (option_copied info.entry)) command.now.start
        command.now.tree)) }
{
    match info {
        Some(info) => wait_marked(alloc, command, info),
        None => {
            let wanted = Wanted::none(alloc);
            Ok(NeedKeys::new(command.again(), None, None, wanted))
        }
    }
}

/// The same for a command of a collection that has an info and is no view.
fn wait_marked<'a>(
    alloc: Global,
    command: &RawDoc<'a>,
    info: &'a Info,
) -> Result<NeedKeys<'a>, MarkFault>
    requires wide { is_wide_command command.now.tree ≡ true }
    requires real { info.now.view ≡ false }
    ensures waits { IfOk result (λ k. k ≡ record { command = command.now; info = Some info.entry.now; kept = [] }) }
    ensures accepted { IfOk result (λ _. content_verdict (rows_in (Some info.entry.now)) command.now.start
        command.now.tree ≡ None) }
    ensures refused { IfErr result (IsRefusal (content_verdict (rows_in (Some info.entry.now)) command.now.start
        command.now.tree)) }
{
    match mark_wide(alloc, info.rows(), command.again()) {
        Ok(marked) => match wanted_by(alloc, &marked) {
            Ok(wanted) => Ok(NeedKeys::new(command.again(), Some(info), Some(marked), wanted)),
            Err(Memory) => Err(MarkFault::Memory),
        },
        Err(fault) => Err(fault),
    }
}

/// The same, or why a library refuses it.
fn wait_more<'a>(
    alloc: Global,
    command: &RawDoc<'a>,
    info: Option<&'a Info>,
) -> Result<NeedKeys<'a>, MarkFault>
    requires wide { is_wide_command command.now.tree ≡ true }
    requires real { is_view (option_copied info) ≡ false }
    ensures waits { IfOk result (λ k.
        k ≡ record { command = command.now; info = option_copied info.entry; kept = [] }) }
    ensures accepted { IfOk result (λ _. content_verdict (rows_in (option_copied info.entry)) command.now.start
        command.now.tree ≡ None) }
    ensures beyond { IfOk result (λ _. beyond_verdict (rows_in (option_copied info.entry)) command.now.start
        command.now.tree ≡ None) }
    ensures refused { IfErr result (IsRefusal (contents_verdict (rows_in (option_copied info.entry)) command.now.start
        command.now.tree)) }
{
    match info {
        Some(info) => wait_marked_more(alloc, command, info),
        None => {
            let wanted = Wanted::none(alloc);
            Ok(NeedKeys::new(command.again(), None, None, wanted))
        }
    }
}

/// The same for a command of a collection that has an info and is no view.
fn wait_marked_more<'a>(
    alloc: Global,
    command: &RawDoc<'a>,
    info: &'a Info,
) -> Result<NeedKeys<'a>, MarkFault>
    requires wide { is_wide_command command.now.tree ≡ true }
    requires real { info.now.view ≡ false }
    ensures waits { IfOk result (λ k. k ≡ record { command = command.now; info = Some info.entry.now; kept = [] }) }
    ensures accepted { IfOk result (λ _. content_verdict (rows_in (Some info.entry.now)) command.now.start
        command.now.tree ≡ None) }
    ensures beyond { IfOk result (λ _. beyond_verdict (rows_in (Some info.entry.now)) command.now.start
        command.now.tree ≡ None) }
    ensures refused { IfErr result (IsRefusal (contents_verdict (rows_in (Some info.entry.now)) command.now.start
        command.now.tree)) }
{
    match mark_more(alloc, info.rows(), command.again()) {
        Ok(marked) => match wanted_by(alloc, &marked) {
            Ok(wanted) => Ok(NeedKeys::new(command.again(), Some(info), Some(marked), wanted)),
            Err(Memory) => Err(MarkFault::Memory),
        },
        Err(fault) => Err(fault),
    }
}
