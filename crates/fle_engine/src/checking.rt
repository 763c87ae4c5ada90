//! Commands by themselves, and replies to them that came from elsewhere.

ghost use Rattle.std.specs.Prelude.{◌≡◌, None, Option};
ghost use Rattle.encrypt_schema.specs.Commands.Targets.{rows_in, verdict};
ghost use Rattle.encrypt_schema.specs.Commands.Visits.{Refusal, content_verdict};
ghost use Rattle.context_machine.specs.Waiting.{IsRefusal};
ghost use Rattle.fle_engine.specs.Checking.{AcceptsAs, TakesAs, offset_of, wrong_to};
ghost use Rattle.reply_check.specs.Wrong.{Tells};
ghost use Rattle.reply_check.specs.declared.wrong.WrongReply.{WrongReply as AnyWrong};

use crate::answer::Refused;
use crate::marker::Marker;
use crate::starting::{Started, start};
use bson_codec::{RawDoc, place_at};
use bson_tree::Place;
use context_machine::NeedMarkings;
use encrypt_schema::MarkFault;
use fle_outside::Memory;
use reply_check::{WrongReply, check_passed, check_reply};
use std::alloc::Global;

/// Why a command isn't accepted by itself.
#[derive(Drop)]
pub enum Declined {
    /// It is refused.
    Refused(Refused),
    /// There was no memory. It may come at any time.
    Memory,
}

/// Why a reply isn't taken for the right one.
#[derive(Drop)]
pub enum Untaken {
    /// It is wrong, and the value that begins at that offset stands at this place: the reply itself where none does.
    Wrong(WrongReply, Place),
    /// There was no memory. It may come at any time.
    Memory,
}

/// Whether a command is accepted: its fields by themselves, then its collection and its contents.
pub fn accept_command(alloc: Global, marker: &Marker, command: &RawDoc<'_>) -> Result<(), Declined>
    requires whole { command.now.start ≡ 0 }
    ensures accepts { AcceptsAs (verdict marker.now.db.items marker.now.infos 0 command.now.tree) command.now.tree
        result }
{
    match start(&marker.db, &marker.infos, command) {
        Ok(Started::Passing) => Ok(()),
        Ok(Started::Marking(state)) => accept_contents(alloc, &state),
        Err(fault) => Err(decline(alloc, command, fault)),
    }
}

/// Whether a command is accepted by its contents, under the rules of its collection.
fn accept_contents(alloc: Global, state: &NeedMarkings<'_>) -> Result<(), Declined>
    requires whole { state.now.command.start ≡ 0 }
    ensures accepts { AcceptsAs
        (content_verdict (rows_in state.now.info) state.now.command.start state.now.command.tree)
        state.now.command.tree result }
{
    match state.marked(alloc) {
        Ok(_marked) => Ok(()),
        Err(fault) => Err(decline(alloc, state.command(), fault)),
    }
}

/// The refusal of a command for a fault of marking, with its place.
fn decline(alloc: Global, command: &RawDoc<'_>, fault: MarkFault) -> Declined
    requires whole { command.now.start ≡ 0 }
    ensures declines { (r : Option Refusal) → IsRefusal r fault → AcceptsAs r command.now.tree (Err result) }
{
    match fault {
        MarkFault::Refused { reason, at } => match place_at(alloc, command, at) {
            Ok(place) => Declined::Refused(Refused { reason, at, place }),
            Err(Memory) => Declined::Memory,
        },
        MarkFault::Memory => Declined::Memory,
    }
}

/// Whether a reply is the right one to an accepted command.
pub fn take_reply(
    alloc: Global,
    marker: &Marker,
    command: &RawDoc<'_>,
    reply: &RawDoc<'_>,
) -> Result<(), Untaken>
    requires whole { command.now.start ≡ 0 }
    requires front { reply.now.start ≡ 0 }
    requires accepted { verdict marker.now.db.items marker.now.infos 0 command.now.tree ≡ None }
    ensures takes { TakesAs (wrong_to marker.now.infos command.now.tree reply.now.tree) reply.now.tree result }
{
    match start(&marker.db, &marker.infos, command) {
        Ok(Started::Passing) => tell(alloc, reply, check_passed(command, reply)),
        Ok(Started::Marking(state)) => match state.marked(alloc) {
            Ok(Some(marked)) => tell(alloc, reply, check_reply(&marked, reply)),
            Ok(None) => tell(alloc, reply, check_passed(command, reply)),
            Err(MarkFault::Refused { .. }) => unreachable!(),
            Err(MarkFault::Memory) => Err(Untaken::Memory),
        },
        Err(MarkFault::Refused { .. }) => unreachable!(),
        Err(MarkFault::Memory) => Err(Untaken::Memory),
    }
}

/// What is said of a reply, with the place of what is wrong.
fn tell(alloc: Global, reply: &RawDoc<'_>, checked: Result<(), WrongReply>) -> Result<(), Untaken>
    requires front { reply.now.start ≡ 0 }
    ensures takes { (wrong : Option AnyWrong) → Tells wrong checked → TakesAs wrong reply.now.tree result }
{
    match checked {
        Ok(()) => Ok(()),
        Err(wrong) => match place_at(alloc, reply, offset_of(wrong)) {
            Ok(place) => Err(Untaken::Wrong(wrong, place)),
            Err(Memory) => Err(Untaken::Memory),
        },
    }
}

/// The offset at which a reply is wrong.
fn offset_of(wrong: WrongReply) -> u32
    ensures offset { result ≡ offset_of wrong }
{
    match wrong {
        WrongReply::Shape { at } => at,
        WrongReply::Differs { at } => at,
    }
}
