//! What an engine is made of, from bytes.

ghost use Rattle.std.specs.Prelude.{◌≡◌, List, Err, IfErr, IfOk, Result, true, false};
ghost use Rattle.data_key.specs.declared.key_doc.KeyDoc.{KeyDoc};
ghost use Rattle.encrypt_schema.specs.Language.Collection.{Collection};
ghost use Rattle.fle_engine.specs.Loading.{Reads, infos_in, infos_or, is_database, keys_in, keys_or, master_key_in};
ghost use Rattle.fle_engine.specs.declared.loading.EngineFault.TheVariants as faults;
ghost use Rattle.fle_files.specs.Infos.{ReadsAs};
ghost use Rattle.fle_files.specs.Numbers.{master_number};
ghost use Rattle.fle_stream.specs.declared.why.SetupFault.TheVariants as setups;
ghost use Rattle.key_vault.specs.Loading.{Faulty, Loads};

use encrypt_schema::Infos;
use fle_files::{InfosFault, number_of_master, number_of_vault, read_infos};
use fle_outside::Memory;
use fle_stream::SetupFault;
use key_vault::{Vault, VaultFault};
use local_kms::{MasterFault, MasterKey, read_master};
use std::alloc::Global;

/// The name of a database has at most this many bytes.
const NAME_LIMIT: usize = 63;

/// A vault, and a file of collection infos, has at most this many bytes.
const FILE_LIMIT: usize = 67_108_864;

/// A master key's file has at most this many bytes.
const MASTER_LIMIT: usize = 129;

/// Why there is no engine.
#[derive(Clone, Copy, Debug, PartialEq, Eq)]
pub enum EngineFault {
    /// The name of the database has no byte, or more than 63.
    Database,
    /// The bytes of a file are at fault.
    File {
        /// 1 for the key vault, 2 for the collection infos, 3 for the master key.
        file: u8,
        /// Its fault, as the program tells it of a named file.
        fault: SetupFault,
        /// The number of the faulty document in it, from 1; 0 where it is at fault as a whole.
        document: u32,
    },
    /// There was no memory. It may come at any time.
    Memory,
}

impl From<Memory> for EngineFault {
    ghost use Rattle.fle_engine.specs.declared.loading.EngineFault.TheVariants as faults;
    ghost use Rattle.std.specs.Prelude.{◌≡◌};

    ghost from_gives = { λ _ e. e ≡ faults.Memory };

    fn from(_memory: Memory) -> EngineFault {
        EngineFault::Memory
    }
}

/// Looks at the name of a database.
pub fn check_database(db: &[u8]) -> Result<(), EngineFault>
    ensures named { IfOk result (λ _. is_database db.now ≡ true) }
    ensures unnamed { IfErr result (λ e. (is_database db.now ≡ false) × (e ≡ faults.Database)) }
{
    if db.is_empty() || NAME_LIMIT < db.len() {
        return Err(EngineFault::Database);
    }
    Ok(())
}

/// The key documents of a vault.
pub fn load_keys(alloc: Global, bytes: &[u8]) -> Result<Vault, EngineFault>
    ensures reads { Reads (keys_in bytes.now) result }
{
    if FILE_LIMIT < bytes.len() {
        return Err(too_long(1));
    }
    match Vault::load(alloc, bytes) {
        Ok(keys) => Ok(keys),
        Err(fault) => Err(fault_of_keys(fault)),
    }
}

/// Collection infos, in BSON or as a JSON text.
pub fn load_infos(alloc: Global, bytes: &[u8]) -> Result<Infos, EngineFault>
    ensures reads { Reads (infos_in bytes.now) result }
{
    if FILE_LIMIT < bytes.len() {
        return Err(too_long(2));
    }
    match read_infos(alloc, bytes) {
        Ok(infos) => Ok(infos),
        Err(fault) => Err(fault_of_infos(fault)),
    }
}

/// A master key: 96 bytes, or their base64 text.
pub fn load_master(bytes: &[u8]) -> Result<MasterKey, EngineFault>
    ensures reads { Reads (master_key_in bytes.now) result }
{
    if MASTER_LIMIT < bytes.len() {
        return Err(too_long(3));
    }
    match read_master(bytes) {
        Ok(master) => Ok(master),
        Err(fault) => Err(fault_of_master(fault)),
    }
}

/// The file of this number has too many bytes.
fn too_long(file: u8) -> EngineFault
    ensures long { result ≡ faults.File file setups.TooLong 0 }
{
    EngineFault::File {
        file,
        fault: SetupFault::TooLong,
        document: 0,
    }
}

/// The fault of a vault.
fn fault_of_keys(fault: VaultFault) -> EngineFault
    ensures reads { (there : Result (List KeyDoc) Faulty) → Loads (Err fault) there
        → Reads (keys_or there) (Err result) }
{
    match fault {
        VaultFault::Bad { document, kind } => EngineFault::File {
            file: 1,
            fault: SetupFault::Contents(number_of_vault(kind)),
            document,
        },
        VaultFault::Memory => EngineFault::Memory,
    }
}

/// The fault of collection infos.
fn fault_of_infos(fault: InfosFault) -> EngineFault
    ensures reads { (there : Result (List Collection) InfosFault) → ReadsAs there (Err fault)
        → Reads (infos_or there) (Err result) }
{
    match fault {
        InfosFault::Bad { number, document } => EngineFault::File {
            file: 2,
            fault: SetupFault::Contents(number),
            document,
        },
        InfosFault::Memory => EngineFault::Memory,
    }
}

/// The fault of a master key.
fn fault_of_master(fault: MasterFault) -> EngineFault
    ensures master { result ≡ faults.File 3 (setups.Contents (master_number fault)) 0 }
{
    EngineFault::File {
        file: 3,
        fault: SetupFault::Contents(number_of_master(fault)),
        document: 0,
    }
}
