//! Commands that are sent to a database: one that isn't an engine's own is refused.

ghost use Rattle.std.specs.Prelude.{◌≡◌, bytes_eq};
ghost use Rattle.encrypt_schema.specs.Commands.Targets.{rows_of};
ghost use Rattle.fle_engine.specs.Answers.{AnswerIs};
ghost use Rattle.fle_engine.specs.Asked.{TellsDraws, command_draws, info_ruling, keys_ruling};
ghost use Rattle.fle_engine.specs.Replies.{mark_ruling};
ghost use Rattle.fle_engine.specs.Rulings.{sent_ruling};
ghost use Rattle.fle_outside.specs.Seen.{EntropySeen};

use crate::answer::Answer;
use crate::asking::{Asked, ask_for_command, ask_for_info};
use crate::engine::Engine;
use crate::refusing::refuse;
use bson_codec::RawDoc;
use encrypt_schema::Reason;
use std::alloc::Global;

impl Engine {
    /// The marking reply to a command that is sent to this database; reason 3 where that isn't the engine's own. It
    /// draws no block.
    pub fn mark(&self, alloc: Global, db: &[u8], command: &RawDoc<'_>) -> Answer
        requires whole { command.now.start ≡ 0 }
        ensures answers { (e : EntropySeen)
            → AnswerIs (sent_ruling self.now.marker.db.items db.now
            (mark_ruling self.now.marker.infos self.now.marker.db.items command.now.tree)) command.now.tree e e result }
    {
        if !self.is_own(db) {
            return refuse(alloc, command, Reason::WrongDb, 0);
        }
        self.marker.mark(alloc, command)
    }

    /// The filter `{name: collection}` of the collection's infos that a command needs which is sent to this database;
    /// no byte where it passes. A command is refused for its fields, 1 to 3, alone. It draws no block.
    pub fn info_wanted(&self, alloc: Global, db: &[u8], command: &RawDoc<'_>) -> Answer
        requires whole { command.now.start ≡ 0 }
        ensures answers { (e : EntropySeen)
            → AnswerIs (sent_ruling self.now.marker.db.items db.now
            (info_ruling self.now.marker.db.items command.now.tree)) command.now.tree e e result }
    {
        if !self.is_own(db) {
            return refuse(alloc, command, Reason::WrongDb, 0);
        }
        ask_for_info(alloc, &self.marker.db, command)
    }

    /// The filter of the keys that a command needs which is sent to this database, and that the vault lacks,
    /// `{$or: [{_id: {$in: [ids]}}, {keyAltNames: {$in: [names]}}]}`, both lists in order of first use, no byte where
    /// it lacks none; with how many blocks the command draws. A command is refused for itself, and by reason 3 where
    /// the database isn't the engine's own, never for a key. It draws no block.
    pub fn keys_wanted(&self, alloc: Global, db: &[u8], command: &RawDoc<'_>) -> Asked
        requires whole { command.now.start ≡ 0 }
        ensures answers { (e : EntropySeen)
            → AnswerIs (sent_ruling self.now.marker.db.items db.now (keys_ruling self.now.opener.keys
            self.now.marker.infos self.now.marker.db.items command.now.tree)) command.now.tree e e result.answer }
        ensures draws { TellsDraws (command_draws (rows_of self.now.marker.infos command.now.tree) command.now.tree)
            result.answer result.draws }
    {
        if !self.is_own(db) {
            return Asked {
                answer: refuse(alloc, command, Reason::WrongDb, 0),
                draws: 0,
            };
        }
        ask_for_command(
            alloc,
            &self.marker.db,
            &self.marker.infos,
            &self.opener.keys,
            command,
        )
    }

    /// Whether a database is the engine's own.
    fn is_own(&self, db: &[u8]) -> bool
        ensures own { result ≡ bytes_eq db.now self.now.marker.db.items }
    {
        db == self.marker.db.as_slice()
    }
}
