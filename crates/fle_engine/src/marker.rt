//! The marking service of a database.

ghost use Rattle.std.specs.Prelude.{◌≡◌, List, ℕ, IfOk, None};
ghost use Rattle.command_marker.specs.Reply.{RepliesAs};
ghost use Rattle.fle_engine.specs.Answers.{AnswerIs};
ghost use Rattle.fle_engine.specs.Checking.{AcceptsAs, TakesAs, wrong_to};
ghost use Rattle.fle_engine.specs.Replies.{mark_ruling, replies, sized};
ghost use Rattle.fle_engine.specs.Rulings.{contents_with};
ghost use Rattle.fle_engine.specs.Wide.{wide_marking};
ghost use Rattle.encrypt_schema.specs.Commands.Targets.{rows_in, verdict};
ghost use Rattle.fle_outside.specs.Seen.{EntropySeen};
ghost use Rattle.bson_tree.specs.Tree.{Items};

use crate::answer::Answer;
use crate::checking::{Declined, Untaken, accept_command, take_reply};
use crate::refusing::{refuse_fault, refuse_reply};
use crate::starting::{Started, start};
use crate::wide::reply_to_wide;
use bson_codec::RawDoc;
use command_marker::{ReplyFault, reply_clear};
use context_machine::NeedMarkings;
use encrypt_schema::Infos;
use fle_outside::Memory;
use std::alloc::Global;

/// A database, and the rules of its collections.
#[derive(Drop)]
pub struct Marker {
    /// The name of the database.
    pub db: Vec<u8>,
    /// The collection infos.
    pub infos: Infos,
}

impl Marker {
    /// The marking service of this database under these infos.
    pub fn new(alloc: Global, db: &[u8], infos: Infos) -> Result<Marker, Memory>
        ensures made { IfOk result (λ m. (m.db.items ≡ db.now) × (m.infos ≡ infos)) }
    {
        match Vec::from_slice(alloc, db) {
            Ok(db) => Ok(Marker { db, infos }),
            Err(_) => Err(Memory),
        }
    }

    /// The marking reply to a command. It draws no block.
    pub fn mark(&self, alloc: Global, command: &RawDoc<'_>) -> Answer
        requires whole { command.now.start ≡ 0 }
        ensures answers { (e : EntropySeen)
            → AnswerIs (mark_ruling self.now.infos self.now.db.items command.now.tree) command.now.tree e e result }
    {
        reply_to_command(alloc, &self.db, &self.infos, command)
    }

    /// The same for a library: more commands are marked, and each is refused for what says a value where none belongs.
    pub fn mark_more(&self, alloc: Global, command: &RawDoc<'_>) -> Answer
        requires whole { command.now.start ≡ 0 }
        ensures answers { (e : EntropySeen)
            → AnswerIs (wide_marking self.now.infos self.now.db.items command.now.tree) command.now.tree e e result }
    {
        reply_to_wide(alloc, &self.db, &self.infos, command)
    }

    /// Whether a command is accepted by itself, as `mark` does: it isn't refused for its fields, its collection or its
    /// contents. It draws no block.
    pub fn accept(&self, alloc: Global, command: &RawDoc<'_>) -> Result<(), Declined>
        requires whole { command.now.start ≡ 0 }
        ensures accepts { AcceptsAs (verdict self.now.db.items self.now.infos 0 command.now.tree) command.now.tree
            result }
    {
        accept_command(alloc, self, command)
    }

    /// Whether a reply that came from elsewhere is the right one to an accepted command, so that it may be sealed as
    /// this service marks it. It draws no block.
    pub fn take(
        &self,
        alloc: Global,
        command: &RawDoc<'_>,
        reply: &RawDoc<'_>,
    ) -> Result<(), Untaken>
        requires whole { command.now.start ≡ 0 }
        requires front { reply.now.start ≡ 0 }
        requires accepted { verdict self.now.db.items self.now.infos 0 command.now.tree ≡ None }
        ensures takes { TakesAs (wrong_to self.now.infos command.now.tree reply.now.tree) reply.now.tree result }
    {
        take_reply(alloc, self, command, reply)
    }
}

/// The marking reply to a command of a database, as `Marker::mark`: its fields by themselves, then its collection and
/// its contents.
pub fn reply_to_command(alloc: Global, db: &[u8], infos: &Infos, command: &RawDoc<'_>) -> Answer
    requires whole { command.now.start ≡ 0 }
    ensures answers { (e : EntropySeen)
        → AnswerIs (mark_ruling infos.now db.now command.now.tree) command.now.tree e e result }
{
    match start(db, infos, command) {
        Ok(Started::Passing) => answer_reply(reply_clear(alloc, command)),
        Ok(Started::Marking(state)) => reply_by_contents(alloc, &state),
        Err(fault) => refuse_fault(alloc, command, fault),
    }
}

/// The reply to a command by its contents, under the rules of its collection.
fn reply_by_contents(alloc: Global, state: &NeedMarkings<'_>) -> Answer
    requires whole { state.now.command.start ≡ 0 }
    ensures answers { (e : EntropySeen)
        → AnswerIs (contents_with replies (rows_in state.now.info) state.now.command.tree) state.now.command.tree e e
        result }
{
    match state.reply(alloc) {
        Ok(bytes) => Answer::Made(bytes),
        Err(stop) => refuse_reply(alloc, state.command(), stop),
    }
}

/// A reply, where there is one.
pub(crate) fn answer_reply(reply: Result<Vec<u8>, ReplyFault>) -> Answer
    ensures answers { (bytes : List ℕ) (c : Items) (e : EntropySeen) → RepliesAs bytes reply
        → AnswerIs (sized bytes) c e e result }
{
    match reply {
        Ok(bytes) => Answer::Made(bytes),
        Err(ReplyFault::TooLong) => Answer::TooLong,
        Err(ReplyFault::Memory) => Answer::Memory,
    }
}
