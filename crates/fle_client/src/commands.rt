//! The commands that a client takes, and what is asked of one by them.

ghost use Rattle.std.specs.Prelude.{◌≡◌};
ghost use Rattle.fle_client.specs.CommandSets.{BeginsBy, draws_by, info_by, keys_by, mark_by};
ghost use Rattle.fle_engine.specs.Answers.{AnswerIs};
ghost use Rattle.fle_engine.specs.Asked.{TellsDraws};
ghost use Rattle.fle_outside.specs.Seen.{EntropySeen};

use bson_codec::RawDoc;
use context_machine::{Begun, EncryptStart};
use encrypt_schema::{Infos, MarkFault};
use fle_engine::{
    Answer, Asked, ask_for_command, ask_for_info, ask_for_wide, ask_for_wide_info,
    reply_to_command, reply_to_wide,
};
use key_vault::Vault;
use std::alloc::Global;

/// Which commands a client takes.
#[derive(Clone, Copy, Debug, PartialEq, Eq)]
pub enum CommandSet {
    /// Insert, update, delete and find, as the program `fle` judges them.
    Four,
    /// Those that a library takes beside them: count, findAndModify, distinct and createIndexes, and clear ones, as
    /// drop and listIndexes. Each is refused for what says a value where none belongs.
    More,
}

/// Looks at the fields of a command by themselves.
pub(crate) fn begin<'a>(
    commands: CommandSet,
    db: &'a [u8],
    command: &RawDoc<'a>,
) -> Result<Begun<'a>, MarkFault>
    ensures begun { BeginsBy commands (record { db = db.entry.now; command = command.now }) result }
{
    match commands {
        CommandSet::Four => EncryptStart::new(db, command.again()).begin(),
        CommandSet::More => EncryptStart::new(db, command.again()).begin_more(),
    }
}

/// The marking reply to a command of a database.
pub(crate) fn reply(
    alloc: Global,
    commands: CommandSet,
    db: &[u8],
    infos: &Infos,
    command: &RawDoc<'_>,
) -> Answer
    requires whole { command.now.start ≡ 0 }
    ensures answers { (e : EntropySeen)
        → AnswerIs (mark_by commands infos.now db.now command.now.tree) command.now.tree e e result }
{
    match commands {
        CommandSet::Four => reply_to_command(alloc, db, infos, command),
        CommandSet::More => reply_to_wide(alloc, db, infos, command),
    }
}

/// The filter of the collection's infos that a command of a database needs, by its fields alone.
pub(crate) fn ask_info(
    alloc: Global,
    commands: CommandSet,
    db: &[u8],
    command: &RawDoc<'_>,
) -> Answer
    requires whole { command.now.start ≡ 0 }
    ensures answers { (e : EntropySeen)
        → AnswerIs (info_by commands db.now command.now.tree) command.now.tree e e result }
{
    match commands {
        CommandSet::Four => ask_for_info(alloc, db, command),
        CommandSet::More => ask_for_wide_info(alloc, db, command),
    }
}

/// The keys that a command of a database needs.
pub(crate) fn ask_keys(
    alloc: Global,
    commands: CommandSet,
    db: &[u8],
    infos: &Infos,
    keys: &Vault,
    command: &RawDoc<'_>,
) -> Asked
    requires whole { command.now.start ≡ 0 }
    ensures answers { (e : EntropySeen)
        → AnswerIs (keys_by commands keys.now infos.now db.now command.now.tree) command.now.tree e e
        result.answer }
    ensures draws { TellsDraws (draws_by commands infos.now command.now.tree) result.answer result.draws }
{
    match commands {
        CommandSet::Four => ask_for_command(alloc, db, infos, keys, command),
        CommandSet::More => ask_for_wide(alloc, db, infos, keys, command),
    }
}
