//! One info, or one key, that is put into a client or forgotten.

ghost use Rattle.std.specs.Prelude.{◌≡◌};
ghost use Rattle.fle_c.specs.Filling.{ForgetsInfoAs, ForgetsInfosAs, ForgetsKeysAs, PutsInfoAs, PutsKeyAs};
ghost use Rattle.fle_c.specs.Filling.{document_told, info_told, key_told};

use crate::told::Told;
use bson_codec::check_bson;
use encrypt_schema::{InfoKind, Reason};
use fle_client::{Client, InfoUnput};
use fle_engine::EngineFault;
use fle_files::{number_of_infos, number_of_vault};
use fle_stream::{Number, SetupFault};
use key_vault::{PutFault, VaultKind};
use std::alloc::Global;

/// An info, and a key document, has at most this many bytes.
const DOCUMENT_LIMIT: usize = 16_777_216;

/// The number of the file of keys.
const KEYS: u8 = 1;

/// The number of the file of infos.
const INFOS: u8 = 2;

/// Puts the info of a collection into a database.
pub(crate) fn put_info(alloc: Global, client: &mut Client, db: &[u8], info: &[u8]) -> Told
    ensures put { PutsInfoAs db.now info.now client.old client.new result }
{
    if DOCUMENT_LIMIT < info.len() {
        return Told::passed(1);
    }
    match check_bson(info) {
        Ok(info) => {
            let put = client.put_info(alloc, db, &info);
            tell_info(put)
        }
        Err(_) => tell_document(INFOS, number_of_infos(InfoKind::Bson)),
    }
}

/// What becomes of an info.
fn tell_info(put: Result<(), InfoUnput>) -> Told
    ensures told { result ≡ info_told put }
{
    match put {
        Ok(()) => Told::done(0, 0),
        Err(InfoUnput::WrongDb) => Told::refused_at(Reason::WrongDb, 0),
        Err(InfoUnput::Bad(kind)) => tell_document(INFOS, number_of_infos(kind)),
        Err(InfoUnput::Memory) => Told::no_memory(),
    }
}

/// The fault of a document that would fill a client, as of the first one in the file of this number.
fn tell_document(file: u8, number: Number) -> Told
    ensures told { result ≡ document_told file number }
{
    Told::fault(EngineFault::File {
        file,
        fault: SetupFault::Contents(number),
        document: 1,
    })
}

/// Forgets the info of the collection of a name in a database.
pub(crate) fn forget_info(client: &mut Client, db: &[u8], name: &[u8]) -> Told
    ensures forgotten { ForgetsInfoAs db.now name.now client.old client.new result }
{
    client.forget_info(db, name);
    Told::done(0, 0)
}

/// Forgets the infos of all collections.
pub(crate) fn forget_infos(alloc: Global, client: &mut Client) -> Told
    ensures forgotten { ForgetsInfosAs client.old client.new result }
{
    client.forget_infos(alloc);
    Told::done(0, 0)
}

/// Puts a key document behind the others.
pub(crate) fn put_key(alloc: Global, client: &mut Client, key: &[u8]) -> Told
    ensures put { PutsKeyAs key.now client.old client.new result }
{
    if DOCUMENT_LIMIT < key.len() {
        return Told::passed(1);
    }
    match check_bson(key) {
        Ok(key) => {
            let put = client.put_key(alloc, &key);
            tell_put(put)
        }
        Err(_) => tell_document(KEYS, number_of_vault(VaultKind::Bson)),
    }
}

/// What becomes of a key document.
fn tell_put(put: Result<(), PutFault>) -> Told
    ensures told { result ≡ key_told put }
{
    match put {
        Ok(()) => Told::done(0, 0),
        Err(PutFault::Bad(kind)) => tell_document(KEYS, number_of_vault(kind)),
        Err(PutFault::Memory) => Told::no_memory(),
    }
}

/// Forgets all keys.
pub(crate) fn forget_keys(alloc: Global, client: &mut Client) -> Told
    ensures forgotten { ForgetsKeysAs client.old client.new result }
{
    client.forget_keys(alloc);
    Told::done(0, 0)
}
