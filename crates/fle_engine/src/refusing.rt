//! Commands and documents that are refused, at the place of a value.

ghost use Rattle.std.specs.Prelude.{◌≡◌, Err};
ghost use Rattle.fle_engine.specs.Answers.{AnswerIs};
ghost use Rattle.fle_engine.specs.Replies.{StopsReplyAs};
ghost use Rattle.fle_engine.specs.Rulings.{Ruling, StopsAs, Tells, refused};
ghost use Rattle.fle_outside.specs.Seen.{EntropySeen};

use crate::answer::{Answer, Refused};
use bson_codec::{RawDoc, place_at};
use context_machine::{KeysStop, ReplyStop};
use encrypt_schema::{MarkFault, Reason};
use fle_outside::Memory;
use std::alloc::Global;

/// The refusal of a command that isn't marked for this fault.
pub fn refuse_fault(alloc: Global, command: &RawDoc<'_>, fault: MarkFault) -> Answer
    requires whole { command.now.start ≡ 0 }
    ensures answers { (v : Ruling) (e : EntropySeen) → Tells fault v → AnswerIs v command.now.tree e e result }
{
    match fault {
        MarkFault::Refused { reason, at } => refuse(alloc, command, reason, at),
        MarkFault::Memory => Answer::Memory,
    }
}

/// What becomes of a document whose keys don't do.
pub fn refuse_stop(alloc: Global, document: &RawDoc<'_>, stop: KeysStop) -> Answer
    requires whole { document.now.start ≡ 0 }
    ensures answers { (v : Ruling) (e : EntropySeen) → StopsAs stop v → AnswerIs v document.now.tree e e result }
{
    match stop {
        KeysStop::Refused { reason, at } => refuse(alloc, document, reason, at),
        KeysStop::TooLong => Answer::TooLong,
        KeysStop::Memory => Answer::Memory,
    }
}

/// What becomes of a command to which there is no reply.
pub fn refuse_reply(alloc: Global, command: &RawDoc<'_>, stop: ReplyStop) -> Answer
    requires whole { command.now.start ≡ 0 }
    ensures answers { (v : Ruling) (e : EntropySeen) → StopsReplyAs stop v → AnswerIs v command.now.tree e e result }
{
    match stop {
        ReplyStop::Refused { reason, at } => refuse(alloc, command, reason, at),
        ReplyStop::TooLong => Answer::TooLong,
        ReplyStop::Memory => Answer::Memory,
    }
}

/// Refuses a document for the value that begins at the offset `at`, and for itself where none does.
pub fn refuse(alloc: Global, document: &RawDoc<'_>, reason: Reason, at: u32) -> Answer
    requires whole { document.now.start ≡ 0 }
    ensures answers { (e : EntropySeen)
        → AnswerIs (refused (record { reason = reason; at = at })) document.now.tree e e result }
{
    match place_at(alloc, document, at) {
        Ok(place) => Answer::Refused(Refused { reason, at, place }),
        Err(Memory) => Answer::Memory,
    }
}
