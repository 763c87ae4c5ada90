//! The reply of a marking service to a command that waits for its marks.

ghost use Rattle.std.specs.Prelude.{◌≡◌, false, true, None, Some, Err};
ghost use Rattle.command_marker.specs.Commands.{is_wide_command};
ghost use Rattle.command_marker.specs.Reply.{RepliesAs, reply_to};
ghost use Rattle.context_machine.specs.Replying.{RepliesMore, RepliesTo};
ghost use Rattle.encrypt_schema.specs.Commands.More.{contents_verdict};
ghost use Rattle.context_machine.specs.States.{Asks};
ghost use Rattle.context_machine.specs.Waiting.{IsRefusal};
ghost use Rattle.encrypt_schema.specs.Commands.Targets.{rows_in};
ghost use Rattle.encrypt_schema.specs.Commands.Visits.{content_verdict};

use bson_codec::RawDoc;
use command_marker::{ReplyFault, mark_more, mark_wide, reply, reply_clear};
use encrypt_schema::{Info, MarkFault, Reason};
use std::alloc::Global;

/// Why there is no reply to a command.
#[derive(Clone, Copy, Debug, PartialEq, Eq)]
pub enum ReplyStop {
    /// The first place that is refused by its contents.
    Refused {
        /// The reason.
        reason: Reason,
        /// The offset of the value, as in `RawItem::start`.
        at: u32,
    },
    /// The reply would have more than 48,000,000 bytes.
    TooLong,
    /// There was no memory. It may come at any time.
    Memory,
}

/// The reply to a command of a collection that has an info and is no view.
pub(crate) fn reply_marked(
    alloc: Global,
    command: &RawDoc<'_>,
    info: &Info,
) -> Result<Vec<u8>, ReplyStop>
    requires wide { is_wide_command command.now.tree ≡ true }
    requires real { info.now.view ≡ false }
    ensures replies { RepliesTo (record { command = command.now; info = Some info.now }) result }
{
    match mark_wide(alloc, info.rows(), command.again()) {
        Ok(marked) => reply_or_stop(reply(alloc, &marked)),
        Err(fault) => Err(stop_of_fault(fault)),
    }
}

/// The same, where a library refuses nothing beyond the contents of the command either.
pub(crate) fn reply_more(
    alloc: Global,
    command: &RawDoc<'_>,
    info: &Info,
) -> Result<Vec<u8>, ReplyStop>
    requires wide { is_wide_command command.now.tree ≡ true }
    requires real { info.now.view ≡ false }
    ensures replies { RepliesMore (record { command = command.now; info = Some info.now }) result }
{
    match mark_more(alloc, info.rows(), command.again()) {
        Ok(marked) => more_or_stop(reply(alloc, &marked)),
        Err(fault) => Err(more_of_fault(fault)),
    }
}

/// The same to a command of a collection without an info.
pub(crate) fn reply_more_unmarked(alloc: Global, command: &RawDoc<'_>) -> Result<Vec<u8>, ReplyStop>
    ensures replies { RepliesMore (record { command = command.now; info = None }) result }
{
    more_or_stop(reply_clear(alloc, command))
}

/// The reply to a command of which a library refuses nothing, or why there is none.
fn more_or_stop(reply: Result<Vec<u8>, ReplyFault>) -> Result<Vec<u8>, ReplyStop>
    ensures replies { (a : Asks) → contents_verdict (rows_in a.info) a.command.start a.command.tree ≡ None
        → RepliesAs (reply_to (rows_in a.info) a.command.tree) reply → RepliesMore a result }
{
    match reply {
        Ok(bytes) => Ok(bytes),
        Err(ReplyFault::TooLong) => Err(ReplyStop::TooLong),
        Err(ReplyFault::Memory) => Err(ReplyStop::Memory),
    }
}

/// Why there is no reply to a command that a library refuses.
fn more_of_fault(fault: MarkFault) -> ReplyStop
    ensures stops { (a : Asks) → IsRefusal (contents_verdict (rows_in a.info) a.command.start a.command.tree) fault
        → RepliesMore a (Err result) }
{
    match fault {
        MarkFault::Refused { reason, at } => ReplyStop::Refused { reason, at },
        MarkFault::Memory => ReplyStop::Memory,
    }
}

/// The reply to a command of a collection without an info.
pub(crate) fn reply_unmarked(alloc: Global, command: &RawDoc<'_>) -> Result<Vec<u8>, ReplyStop>
    ensures replies { RepliesTo (record { command = command.now; info = None }) result }
{
    reply_or_stop(reply_clear(alloc, command))
}

/// The reply to a command whose contents aren't refused, or why there is none.
fn reply_or_stop(reply: Result<Vec<u8>, ReplyFault>) -> Result<Vec<u8>, ReplyStop>
    ensures replies { (a : Asks) → content_verdict (rows_in a.info) a.command.start a.command.tree ≡ None
        → RepliesAs (reply_to (rows_in a.info) a.command.tree) reply → RepliesTo a result }
{
    match reply {
        Ok(bytes) => Ok(bytes),
        Err(ReplyFault::TooLong) => Err(ReplyStop::TooLong),
        Err(ReplyFault::Memory) => Err(ReplyStop::Memory),
    }
}

/// Why there is no reply to a command that isn't marked.
fn stop_of_fault(fault: MarkFault) -> ReplyStop
    ensures stops { (a : Asks) → IsRefusal (content_verdict (rows_in a.info) a.command.start a.command.tree) fault
        → RepliesTo a (Err result) }
{
    match fault {
        MarkFault::Refused { reason, at } => ReplyStop::Refused { reason, at },
        MarkFault::Memory => ReplyStop::Memory,
    }
}
