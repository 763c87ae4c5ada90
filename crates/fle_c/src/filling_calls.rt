//! The calls of C that start a client, and that fill it as infos and keys come from a server.

ghost use Rattle.fle_c.specs.Filling.{ChangesAs, ForgetsInfoAs, ForgetsInfosAs, ForgetsKeysAs, PutsInfoAs, PutsKeyAs};
ghost use Rattle.fle_c.specs.Filling.{StartsAs};

use crate::filling::{forget_info, forget_infos, forget_keys, put_info, put_key};
use crate::flags::set_of_flags;
use crate::slot::Slot;
use crate::starting::start;
use crate::told::Told;
use std::alloc::Global;

/// Starts a client in a slot, of many databases and without infos and keys; one that was there is freed first. Its
/// master key is in these bytes, 96 or their base64 text, or it has none where there is no byte: such a client seals
/// and opens nothing. The flag 1 says that it takes more commands than insert, update, delete and find. Any other one
/// has no meaning, which is told with status 15, and a fault of the master key with status 4 and file 3.
#[unsafe(no_mangle)]
pub extern "C" fn fle_start(alloc: Global, slot: &mut Slot, flags: u32, master: &[u8]) -> Told
    ensures started { StartsAs flags master.now slot.new.kept.value result }
{
    let _ = slot.take(alloc);
    let Some(commands) = set_of_flags(flags) else {
        return Told::no_flag();
    };
    match start(alloc, commands, master) {
        Ok(client) => {
            slot.put(client);
            Told::done(0, 0)
        }
        Err(fault) => Told::fault(fault),
    }
}

/// Puts the info of a collection of a database into the client, in the place of the one of its name or behind the
/// others. A faulty info is told with status 4, file 2 and place 1, and that the client is of another database alone
/// with status 1 and reason 3; then all is as before.
#[unsafe(no_mangle)]
pub extern "C" fn fle_put_info(alloc: Global, slot: &mut Slot, db: &[u8], info: &[u8]) -> Told
    ensures put { ChangesAs (PutsInfoAs db.now info.now) slot.old.kept.value slot.new.kept.value result }
{
    let Some(mut client) = slot.take(alloc) else {
        return Told::not_open();
    };
    let told = put_info(alloc, &mut client, db, info);
    slot.put(client);
    told
}

/// Forgets the info of the collection of a name in a database, where there is one.
#[unsafe(no_mangle)]
pub extern "C" fn fle_forget_info(alloc: Global, slot: &mut Slot, db: &[u8], name: &[u8]) -> Told
    ensures forgotten { ChangesAs (ForgetsInfoAs db.now name.now) slot.old.kept.value slot.new.kept.value result }
{
    let Some(mut client) = slot.take(alloc) else {
        return Told::not_open();
    };
    let told = forget_info(&mut client, db, name);
    slot.put(client);
    told
}

/// Forgets the infos of all collections of all databases.
#[unsafe(no_mangle)]
pub extern "C" fn fle_forget_infos(alloc: Global, slot: &mut Slot) -> Told
    ensures forgotten { ChangesAs ForgetsInfosAs slot.old.kept.value slot.new.kept.value result }
{
    let Some(mut client) = slot.take(alloc) else {
        return Told::not_open();
    };
    let told = forget_infos(alloc, &mut client);
    slot.put(client);
    told
}

/// Puts a key document behind the others of the client. A faulty one is told with status 4, file 1 and place 1; then
/// all is as before.
#[unsafe(no_mangle)]
pub extern "C" fn fle_put_key(alloc: Global, slot: &mut Slot, key: &[u8]) -> Told
    ensures put { ChangesAs (PutsKeyAs key.now) slot.old.kept.value slot.new.kept.value result }
{
    let Some(mut client) = slot.take(alloc) else {
        return Told::not_open();
    };
    let told = put_key(alloc, &mut client, key);
    slot.put(client);
    told
}

/// Forgets all keys of the client.
#[unsafe(no_mangle)]
pub extern "C" fn fle_forget_keys(alloc: Global, slot: &mut Slot) -> Told
    ensures forgotten { ChangesAs ForgetsKeysAs slot.old.kept.value slot.new.kept.value result }
{
    let Some(mut client) = slot.take(alloc) else {
        return Told::not_open();
    };
    let told = forget_keys(alloc, &mut client);
    slot.put(client);
    told
}
