//! What marks, seals and opens, and keeps keys, rules and opened keys from call to call.

ghost use Rattle.std.specs.Prelude.{◌≡◌, IfOk, length};
ghost use Rattle.context_machine.specs.Rings.{finder};
ghost use Rattle.fle_engine.specs.Answers.{AnswerIs};
ghost use Rattle.fle_engine.specs.Engines.{EngineIs, cache_room};
ghost use Rattle.fle_engine.specs.Loading.{parts_in};
ghost use Rattle.fle_engine.specs.Sealing.{seal_ruling};
ghost use Rattle.fle_engine.specs.Wide.{wide_ruling};

use crate::answer::Answer;
use crate::loading::{EngineFault, check_database, load_infos, load_keys, load_master};
use crate::marker::Marker;
use crate::opener::Opener;
use crate::sealing::seal_command;
use crate::wide::seal_wide;
use bson_codec::RawDoc;
use crypto_hooks::Block256;
use encrypt_schema::Infos;
use fle_outside::{Entropy, Memory};
use key_vault::Vault;
use local_kms::MasterKey;
use std::alloc::Global;

/// The rules of a database, and the keys that its values are sealed under.
#[derive(Drop)]
pub struct Engine {
    /// The database and its rules.
    pub marker: Marker,
    /// The keys.
    pub opener: Opener,
}

impl Engine {
    /// An engine for a database by the bytes of three files, as the program reads them: a key vault, collection infos
    /// in BSON or JSON, a master key. Refused are a name of no byte or of more than 63, and the first fault of the
    /// first file that has one.
    pub fn new(
        alloc: Global,
        db: &[u8],
        keys: &[u8],
        infos: &[u8],
        master: &[u8],
    ) -> Result<Engine, EngineFault>
        ensures made { EngineIs db.now (parts_in db.now keys.now infos.now master.now) result }
    {
        check_database(db)?;
        let keys = load_keys(alloc, keys)?;
        let infos = load_infos(alloc, infos)?;
        let master = load_master(master)?;
        let engine = Engine::of(alloc, db, keys, infos, master)?;
        Ok(engine)
    }

    /// An engine for a database of any name, of what was loaded.
    pub fn of(
        alloc: Global,
        db: &[u8],
        keys: Vault,
        infos: Infos,
        master: MasterKey,
    ) -> Result<Engine, Memory>
        ensures rules { IfOk result (λ e. (e.marker.db.items ≡ db.now) × (e.marker.infos ≡ infos)) }
        ensures secrets { IfOk result (λ e. (e.opener.keys ≡ keys) × (e.opener.cache.master ≡ master)) }
        ensures room { IfOk result (λ e. e.opener.cache.capacity ≡ cache_room (length keys)) }
    {
        let marker = Marker::new(alloc, db, infos)?;
        let opener = Opener::new(alloc, keys, master)?;
        Ok(Engine { marker, opener })
    }

    /// The command with its protected values sealed, one block drawn for each of the random algorithm, in reading
    /// order.
    pub fn seal<B: Block256, N: Entropy>(
        &mut self,
        alloc: Global,
        hooks: &B,
        command: &RawDoc<'_>,
        entropy: &mut N,
    ) -> Answer
        requires hooks { B.answers hooks.now }
        requires whole { command.now.start ≡ 0 }
        ensures rules { self.new.marker ≡ self.old.marker }
        ensures same { (self.new.opener.keys ≡ self.old.opener.keys)
            × (self.new.opener.cache.master ≡ self.old.opener.cache.master) }
        ensures answers { AnswerIs
            (seal_ruling (finder self.old.opener.keys self.old.opener.cache.master) self.old.marker.infos
            self.old.marker.db.items command.now.tree) command.now.tree (N.seen entropy.old) (N.seen entropy.new)
            result }
    {
        seal_command(
            alloc,
            &self.marker.db,
            &self.marker.infos,
            &mut self.opener,
            hooks,
            command,
            entropy,
        )
    }

    /// The same for a library: more commands are sealed, and each is refused for what says a value where none belongs.
    pub fn seal_more<B: Block256, N: Entropy>(
        &mut self,
        alloc: Global,
        hooks: &B,
        command: &RawDoc<'_>,
        entropy: &mut N,
    ) -> Answer
        requires hooks { B.answers hooks.now }
        requires whole { command.now.start ≡ 0 }
        ensures rules { self.new.marker ≡ self.old.marker }
        ensures same { (self.new.opener.keys ≡ self.old.opener.keys)
            × (self.new.opener.cache.master ≡ self.old.opener.cache.master) }
        ensures answers { AnswerIs
            (wide_ruling (finder self.old.opener.keys self.old.opener.cache.master) self.old.marker.infos
            self.old.marker.db.items command.now.tree) command.now.tree (N.seen entropy.old) (N.seen entropy.new)
            result }
    {
        seal_wide(
            alloc,
            &self.marker.db,
            &self.marker.infos,
            &mut self.opener,
            hooks,
            command,
            entropy,
        )
    }
}
