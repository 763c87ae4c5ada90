//! A client that is filled call by call, as infos and keys come from a server.

ghost use Rattle.std.specs.Prelude.{◌≡◌, [], List, ℕ, Result};
ghost use Rattle.encrypt_schema.specs.Language.Collection.{Collection};
ghost use Rattle.encrypt_schema.specs.Language.Putting.{Puts as PutsCollection};
ghost use Rattle.encrypt_schema.specs.declared.schema.faults.InfoKind.{InfoKind as InfoWrong};
ghost use Rattle.key_vault.specs.Putting.{put_key, Puts};
ghost use Rattle.fle_client.specs.Clients.{keys_of, master_of};
ghost use Rattle.fle_client.specs.Filling.{ForgetsInfo, PutsInfo, UnputIs};
ghost use Rattle.fle_client.specs.Known.{infos_of, own_of};
ghost use Rattle.fle_client.specs.declared.rules.Rules.TheVariants as kinds;

use crate::client::Client;
use crate::keys::Keys;
use crate::rules::Rules;
use crate::told::{forget_told, put_told};
use bson_codec::RawDoc;
use encrypt_schema::{InfoFault, InfoKind};
use fle_engine::Marker;
use key_vault::PutFault;
use std::alloc::Global;

/// Why an info isn't put.
#[derive(Debug, Drop)]
pub enum InfoUnput {
    /// The client is of another database alone.
    WrongDb,
    /// The info is faulty.
    Bad(InfoKind),
    /// There was no memory. It may come at any time.
    Memory,
}

impl Client {
    /// Puts the info of a collection of a database, in the place of the one of its name or behind the others. Where it
    /// isn't put, all is as before.
    pub fn put_info(&mut self, alloc: Global, db: &[u8], info: &RawDoc<'_>) -> Result<(), InfoUnput>
        ensures keys { self.new.keys ≡ self.old.keys }
        ensures commands { self.new.commands ≡ self.old.commands }
        ensures put { PutsInfo self.old.rules self.new.rules db.now info.now.tree result }
    {
        match &mut self.rules {
            Rules::Whole(marker) => put_own(marker, alloc, db, info),
            Rules::Told(told) => unput(put_told(told, alloc, db, info)),
        }
    }

    /// Forgets the info of the collection of a name in a database, where there is one.
    pub fn forget_info(&mut self, db: &[u8], name: &[u8])
        ensures keys { self.new.keys ≡ self.old.keys }
        ensures commands { self.new.commands ≡ self.old.commands }
        ensures forgotten { ForgetsInfo self.old.rules self.new.rules db.now name.now }
    {
        match &mut self.rules {
            Rules::Whole(marker) => forget_own(marker, db, name),
            Rules::Told(told) => forget_told(told, db, name),
        }
    }

    /// Forgets the infos of all collections of all databases.
    pub fn forget_infos(&mut self, alloc: Global)
        ensures keys { self.new.keys ≡ self.old.keys }
        ensures commands { self.new.commands ≡ self.old.commands }
        ensures none { (db : List ℕ) → infos_of self.new.rules db ≡ [] }
        ensures own { own_of self.new.rules ≡ own_of self.old.rules }
    {
        match &mut self.rules {
            Rules::Whole(marker) => marker.infos.clear(alloc),
            Rules::Told(told) => told.clear(),
        }
    }

    /// Puts a key document behind the others. After a fault, and after `Memory`, all is as before.
    pub fn put_key(&mut self, alloc: Global, key: &RawDoc<'_>) -> Result<(), PutFault>
        ensures rules { self.new.rules ≡ self.old.rules }
        ensures commands { self.new.commands ≡ self.old.commands }
        ensures master { master_of self.new.keys ≡ master_of self.old.keys }
        ensures put { Puts (keys_of self.old.keys) (keys_of self.new.keys) result
            (put_key (keys_of self.old.keys) key.now.tree) }
    {
        match &mut self.keys {
            Keys::Mastered(opener) => opener.keys.put(alloc, key),
            Keys::Unmastered(vault) => vault.put(alloc, key),
        }
    }

    /// Forgets all keys; those that were opened are kept until others take their places.
    pub fn forget_keys(&mut self, alloc: Global)
        ensures rules { self.new.rules ≡ self.old.rules }
        ensures commands { self.new.commands ≡ self.old.commands }
        ensures master { master_of self.new.keys ≡ master_of self.old.keys }
        ensures none { keys_of self.new.keys ≡ [] }
    {
        match &mut self.keys {
            Keys::Mastered(opener) => opener.keys.clear(alloc),
            Keys::Unmastered(vault) => vault.clear(alloc),
        }
    }
}

/// Puts an info into the one database of a client.
fn put_own(
    marker: &mut Marker,
    alloc: Global,
    db: &[u8],
    info: &RawDoc<'_>,
) -> Result<(), InfoUnput>
    ensures put { PutsInfo (kinds.Whole marker.old) (kinds.Whole marker.new) db.now info.now.tree result }
{
    if db != marker.db.as_slice() {
        return Err(InfoUnput::WrongDb);
    }
    unput(marker.infos.put(alloc, info))
}

/// Forgets an info of the one database of a client.
fn forget_own(marker: &mut Marker, db: &[u8], name: &[u8])
    ensures forgotten { ForgetsInfo (kinds.Whole marker.old) (kinds.Whole marker.new) db.now name.now }
{
    if db == marker.db.as_slice() {
        marker.infos.forget(name);
    }
}

/// What putting an info among those of one database answers.
fn unput(put: Result<(), InfoFault>) -> Result<(), InfoUnput>
    ensures unput { (before after : List Collection) (there : Result (List Collection) InfoWrong)
        → PutsCollection before after put there → UnputIs before after there result }
{
    match put {
        Ok(()) => Ok(()),
        Err(InfoFault::Bad { document: _, kind }) => Err(InfoUnput::Bad(kind)),
        Err(InfoFault::Memory) => Err(InfoUnput::Memory),
    }
}
