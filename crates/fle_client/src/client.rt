//! What marks and seals the commands of many databases, and keeps rules, keys and opened keys from call to call.

ghost use Rattle.std.specs.Prelude.{◌≡◌, IfOk};
ghost use Rattle.fle_client.specs.Clients.{AsksInfoAs, AsksKeysAs, IsStarted, MarksAs, SameKeys};
ghost use Rattle.fle_client.specs.Clients.{SealsAs, SealsUnder};
ghost use Rattle.fle_client.specs.declared.commands.CommandSet.TheVariants as sets;
ghost use Rattle.fle_outside.specs.Seen.{EntropySeen};

use crate::commands::{CommandSet, ask_info, ask_keys, reply};
use crate::keys::Keys;
use crate::rules::{Rules, Unjudged};
use bson_codec::RawDoc;
use crypto_hooks::Block256;
use encrypt_schema::{Infos, Reason};
use fle_engine::{Answer, Asked, Engine, Opener, refuse, seal_command, seal_wide};
use fle_outside::{Entropy, Memory};
use key_vault::Vault;
use local_kms::MasterKey;
use std::alloc::Global;
use std::collections::BTreeMap;

/// What seals the commands of many databases, or of one, under the keys that it has.
#[derive(Drop)]
pub struct Client {
    /// The rules.
    pub rules: Rules,
    /// The commands that it takes.
    pub commands: CommandSet,
    /// The keys.
    pub keys: Keys,
}

/// Why a client has no answer to a command.
#[derive(Clone, Copy, Debug, PartialEq, Eq)]
pub enum NoAnswer {
    /// It has no master key.
    NoMaster,
    /// It wasn't told of the command's collection.
    NoInfo,
}

impl Client {
    /// A client of these commands without infos and keys, with this master key or without one.
    pub fn start(
        alloc: Global,
        commands: CommandSet,
        master: Option<MasterKey>,
    ) -> Result<Client, Memory>
        ensures started { IfOk result (IsStarted commands master) }
    {
        let rules = Rules::Told(BTreeMap::new(alloc));
        let keys = match master {
            Some(master) => Keys::Mastered(Opener::new(alloc, Vault::empty(alloc), master)?),
            None => Keys::Unmastered(Vault::empty(alloc)),
        };
        Ok(Client {
            rules,
            commands,
            keys,
        })
    }

    /// A client of these commands and of the one database of an engine, which knows all its collections.
    pub fn of(engine: Engine, commands: CommandSet) -> Client
        ensures rules { result.rules ≡ Rules.Whole engine.marker }
        ensures commands { result.commands ≡ commands }
        ensures keys { result.keys ≡ Keys.Mastered engine.opener }
    {
        let Engine { marker, opener } = engine;
        Client {
            rules: Rules::Whole(marker),
            commands,
            keys: Keys::Mastered(opener),
        }
    }

    /// The command that is sent to this database with its protected values sealed, as by `Engine::seal` or, where the
    /// client takes more commands, by `Engine::seal_more`.
    pub fn seal<B: Block256, N: Entropy>(
        &mut self,
        alloc: Global,
        hooks: &B,
        db: &[u8],
        command: &RawDoc<'_>,
        entropy: &mut N,
    ) -> Result<Answer, NoAnswer>
        requires hooks { B.answers hooks.now }
        requires whole { command.now.start ≡ 0 }
        ensures rules { self.new.rules ≡ self.old.rules }
        ensures commands { self.new.commands ≡ self.old.commands }
        ensures same { SameKeys self.old.keys self.new.keys }
        ensures sealed { SealsAs self.old db.now command.now.tree (N.seen entropy.old) (N.seen entropy.new) result }
    {
        match &mut self.keys {
            Keys::Mastered(opener) => match self.commands {
                CommandSet::Four => {
                    seal_under(alloc, &self.rules, opener, hooks, db, command, entropy)
                }
                CommandSet::More => {
                    seal_more_under(alloc, &self.rules, opener, hooks, db, command, entropy)
                }
            },
            Keys::Unmastered(_) => Err(NoAnswer::NoMaster),
        }
    }

    /// The marking reply to a command that is sent to this database. It draws no block.
    pub fn mark(&self, alloc: Global, db: &[u8], command: &RawDoc<'_>) -> Result<Answer, NoAnswer>
        requires whole { command.now.start ≡ 0 }
        ensures marked { (e : EntropySeen)
            → MarksAs self.now.commands self.now.rules db.now command.now.tree e result }
    {
        let none = Infos::empty(alloc);
        match self.rules.judge(self.commands, db, &none, command) {
            Ok(infos) => Ok(reply(alloc, self.commands, db, infos, command)),
            Err(Unjudged::WrongDb) => Ok(refuse(alloc, command, Reason::WrongDb, 0)),
            Err(Unjudged::Untold) => Err(NoAnswer::NoInfo),
        }
    }

    /// The filter `{name: collection}` of the collection's infos that a command needs which is sent to this database;
    /// no byte where it passes. It draws no block.
    pub fn info_wanted(&self, alloc: Global, db: &[u8], command: &RawDoc<'_>) -> Answer
        requires whole { command.now.start ≡ 0 }
        ensures asked { (e : EntropySeen)
            → AsksInfoAs self.now.commands self.now.rules db.now command.now.tree e result }
    {
        if !self.rules.has(db) {
            return refuse(alloc, command, Reason::WrongDb, 0);
        }
        ask_info(alloc, self.commands, db, command)
    }

    /// The filter of the keys that a command needs which is sent to this database, and that the client lacks; no byte
    /// where it lacks none. It draws no block.
    pub fn keys_wanted(
        &self,
        alloc: Global,
        db: &[u8],
        command: &RawDoc<'_>,
    ) -> Result<Asked, NoAnswer>
        requires whole { command.now.start ≡ 0 }
        ensures asked { (e : EntropySeen) → AsksKeysAs self.now db.now command.now.tree e result }
    {
        let none = Infos::empty(alloc);
        match self.rules.judge(self.commands, db, &none, command) {
            Ok(infos) => Ok(ask_keys(alloc, self.commands, db, infos, self.keys.vault(), command)),
            Err(Unjudged::WrongDb) => Ok(Asked {
                answer: refuse(alloc, command, Reason::WrongDb, 0),
                draws: 0,
            }),
            Err(Unjudged::Untold) => Err(NoAnswer::NoInfo),
        }
    }
}

/// Seals one of the four commands under keys with their master key.
fn seal_under<B: Block256, N: Entropy>(
    alloc: Global,
    rules: &Rules,
    opener: &mut Opener,
    hooks: &B,
    db: &[u8],
    command: &RawDoc<'_>,
    entropy: &mut N,
) -> Result<Answer, NoAnswer>
    requires hooks { B.answers hooks.now }
    requires whole { command.now.start ≡ 0 }
    ensures same { (opener.new.keys ≡ opener.old.keys) × (opener.new.cache.master ≡ opener.old.cache.master) }
    ensures sealed { SealsUnder sets.Four rules.now opener.old db.now command.now.tree (N.seen entropy.old)
        (N.seen entropy.new) result }
{
    let none = Infos::empty(alloc);
    match rules.judge(CommandSet::Four, db, &none, command) {
        Ok(infos) => Ok(seal_command(alloc, db, infos, opener, hooks, command, entropy)),
        Err(Unjudged::WrongDb) => Ok(refuse(alloc, command, Reason::WrongDb, 0)),
        Err(Unjudged::Untold) => Err(NoAnswer::NoInfo),
    }
}

/// The same of the commands that a library takes.
fn seal_more_under<B: Block256, N: Entropy>(
    alloc: Global,
    rules: &Rules,
    opener: &mut Opener,
    hooks: &B,
    db: &[u8],
    command: &RawDoc<'_>,
    entropy: &mut N,
) -> Result<Answer, NoAnswer>
    requires hooks { B.answers hooks.now }
    requires whole { command.now.start ≡ 0 }
    ensures same { (opener.new.keys ≡ opener.old.keys) × (opener.new.cache.master ≡ opener.old.cache.master) }
    ensures sealed { SealsUnder sets.More rules.now opener.old db.now command.now.tree (N.seen entropy.old)
        (N.seen entropy.new) result }
{
    let none = Infos::empty(alloc);
    match rules.judge(CommandSet::More, db, &none, command) {
        Ok(infos) => Ok(seal_wide(alloc, db, infos, opener, hooks, command, entropy)),
        Err(Unjudged::WrongDb) => Ok(refuse(alloc, command, Reason::WrongDb, 0)),
        Err(Unjudged::Untold) => Err(NoAnswer::NoInfo),
    }
}
