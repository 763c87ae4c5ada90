//! An engine that is filled call by call, as keys and infos come from a server.

ghost use Rattle.std.specs.Prelude.{◌≡◌, [], IfOk};
ghost use Rattle.encrypt_schema.specs.Language.Putting.{forgotten, put_info, Puts as PutsInfo};
ghost use Rattle.key_vault.specs.Putting.{put_key, Puts};

use crate::engine::Engine;
use bson_codec::RawDoc;
use encrypt_schema::{InfoFault, Infos};
use fle_outside::Memory;
use key_vault::{PutFault, Vault};
use local_kms::MasterKey;
use std::alloc::Global;

impl Engine {
    /// An engine for a database of any name, without infos and keys.
    pub fn start(alloc: Global, db: &[u8], master: MasterKey) -> Result<Engine, Memory>
        ensures rules { IfOk result (λ e. (e.marker.db.items ≡ db.now) × (e.marker.infos ≡ [])) }
        ensures secrets { IfOk result (λ e. (e.opener.keys ≡ []) × (e.opener.cache.master ≡ master)) }
    {
        let engine = Engine::of(alloc, db, Vault::empty(alloc), Infos::empty(alloc), master)?;
        Ok(engine)
    }

    /// Puts the info of a collection, in the place of the one of its name or behind the others. After a fault, and
    /// after `Memory`, the engine is as before.
    pub fn put_info(&mut self, alloc: Global, info: &RawDoc<'_>) -> Result<(), InfoFault>
        ensures same { (self.new.opener ≡ self.old.opener) × (self.new.marker.db ≡ self.old.marker.db) }
        ensures put { PutsInfo self.old.marker.infos self.new.marker.infos result
            (put_info self.old.marker.infos info.now.tree) }
    {
        self.marker.infos.put(alloc, info)
    }

    /// Forgets the info of the collection of a name, where there is one.
    pub fn forget_info(&mut self, name: &[u8])
        ensures same { (self.new.opener ≡ self.old.opener) × (self.new.marker.db ≡ self.old.marker.db) }
        ensures forgotten { self.new.marker.infos ≡ forgotten name.now self.old.marker.infos }
    {
        self.marker.infos.forget(name);
    }

    /// Forgets the infos of all collections.
    pub fn forget_infos(&mut self, alloc: Global)
        ensures same { (self.new.opener ≡ self.old.opener) × (self.new.marker.db ≡ self.old.marker.db) }
        ensures none { self.new.marker.infos ≡ [] }
    {
        self.marker.infos.clear(alloc);
    }

    /// Puts a key document behind the others. After a fault, and after `Memory`, the engine is as before.
    pub fn put_key(&mut self, alloc: Global, key: &RawDoc<'_>) -> Result<(), PutFault>
        ensures same { (self.new.marker ≡ self.old.marker) × (self.new.opener.cache ≡ self.old.opener.cache) }
        ensures put { Puts self.old.opener.keys self.new.opener.keys result
            (put_key self.old.opener.keys key.now.tree) }
    {
        self.opener.keys.put(alloc, key)
    }

    /// Forgets all keys; those that were opened are kept until others take their places.
    pub fn forget_keys(&mut self, alloc: Global)
        ensures same { (self.new.marker ≡ self.old.marker) × (self.new.opener.cache ≡ self.old.opener.cache) }
        ensures none { self.new.opener.keys ≡ [] }
    {
        self.opener.keys.clear(alloc);
    }
}
