//! What the named files of the words hold: collection infos, a key vault, a master key.

ghost use Rattle.std.specs.Prelude.{true, ◌≡◌, ◌≤◌, length, IfErr, IfOk, Ok, Some, [], ◌∷◌};
ghost use Rattle.key_vault.specs.Loading.{vault};
ghost use Rattle.fle_outside.specs.Counts.{Rose};
ghost use Rattle.fle_outside.specs.Files.{Files, file_of};
ghost use Rattle.fle_outside.specs.Seen.{AsksOnly};
ghost use Rattle.fle_files.specs.Setup.{Leads, at_fault, infos_why, master_why, vault_why};
ghost use Rattle.fle_files.specs.Limits.{file_limit};
ghost use Rattle.fle_files.specs.Setup.{with_infos, with_keys, with_master, with_vault};
ghost use Rattle.fle_stream.specs.Files.{IsOfFiles};

use crate::infos::{InfosFault, read_infos};
use crate::numbers::{number_of_master, number_of_vault};
use bson_tree::Bytes;
use encrypt_schema::Infos;
use fle_outside::Folder;
use fle_stream::{Cut, Finish, Number, SetupFault, Why, load_file};
use key_vault::{Vault, VaultFault};
use local_kms::{MasterFault, MasterKey, read_master};
use std::alloc::Global;

/// A file of collection infos has at most this many bytes.
const INFOS_LIMIT: usize = 67_108_864;

/// A vault has at most this many bytes.
const VAULT_LIMIT: usize = 67_108_864;

/// A master key's file has at most this many bytes.
const MASTER_LIMIT: usize = 129;

/// Loads the collection infos of the file of this number in the order of the words.
pub fn load_infos<F: Folder>(
    alloc: Global,
    files: &mut F,
    number: u8,
    name: &str,
) -> Result<Infos, Why>
    ensures leads { (all : Files) → (F.seen files.old).told ≡ Some all
        → Leads (with_infos number (file_of all name.now)) result }
    ensures kind { IfErr result IsOfFiles }
    ensures same { (F.seen files.new).told ≡ (F.seen files.old).told }
    ensures asked { AsksOnly (name.now ∷ []) (F.seen files.old) (F.seen files.new) }
    ensures later { (F.seen files.old).faults ≤ (F.seen files.new).faults }
    ensures cause { IfErr result (λ why. why ≡ Why.Cut Cut.Folder
        → Rose (F.seen files.old).faults (F.seen files.new).faults) }
    ensures sure { (F.seen files.old).assured ≡ true
        → IfErr result (λ why. why ≡ Why.Cut Cut.Folder → ⊥) × ((F.seen files.new).assured ≡ true) }
{
    let bytes = match load_file(alloc, files, number, name, INFOS_LIMIT) {
        Ok(bytes) => bytes,
        Err(why) => return Err(why),
    };
    match read_infos(alloc, &bytes) {
        Ok(infos) => Ok(infos),
        Err(fault) => Err(why_infos(number, fault)),
    }
}

/// Loads the key vault of the file of this number in the order of the words.
pub fn load_vault<F: Folder>(
    alloc: Global,
    files: &mut F,
    number: u8,
    name: &str,
) -> Result<Vault, Why>
    ensures leads { (all : Files) → (F.seen files.old).told ≡ Some all
        → Leads (with_vault number (file_of all name.now)) result }
    ensures kind { IfErr result IsOfFiles }
    ensures same { (F.seen files.new).told ≡ (F.seen files.old).told }
    ensures asked { AsksOnly (name.now ∷ []) (F.seen files.old) (F.seen files.new) }
    ensures later { (F.seen files.old).faults ≤ (F.seen files.new).faults }
    ensures cause { IfErr result (λ why. why ≡ Why.Cut Cut.Folder
        → Rose (F.seen files.old).faults (F.seen files.new).faults) }
    ensures sure { (F.seen files.old).assured ≡ true
        → IfErr result (λ why. why ≡ Why.Cut Cut.Folder → ⊥) × ((F.seen files.new).assured ≡ true) }
{
    let bytes = match load_file(alloc, files, number, name, VAULT_LIMIT) {
        Ok(bytes) => bytes,
        Err(why) => return Err(why),
    };
    match Vault::load(alloc, &bytes) {
        Ok(vault) => Ok(vault),
        Err(fault) => Err(why_vault(number, fault)),
    }
}

/// A file of key documents, and the keys that it holds.
#[derive(Drop)]
pub struct KeysFile {
    /// The bytes of the file.
    pub bytes: Bytes,
    /// Its keys.
    pub keys: Vault,
}

/// Loads the key vault of the file of this number in the order of the words, and keeps the file's bytes beside its
/// keys.
pub fn load_keys<F: Folder>(
    alloc: Global,
    files: &mut F,
    number: u8,
    name: &str,
) -> Result<KeysFile, Why>
    ensures leads { (all : Files) → (F.seen files.old).told ≡ Some all
        → Leads (with_keys number (file_of all name.now)) result }
    ensures loaded { IfOk result (λ file. vault file.bytes ≡ Ok file.keys) }
    ensures small { IfOk result (λ file. length file.bytes ≤ file_limit) }
    ensures kind { IfErr result IsOfFiles }
    ensures same { (F.seen files.new).told ≡ (F.seen files.old).told }
    ensures asked { AsksOnly (name.now ∷ []) (F.seen files.old) (F.seen files.new) }
    ensures later { (F.seen files.old).faults ≤ (F.seen files.new).faults }
    ensures cause { IfErr result (λ why. why ≡ Why.Cut Cut.Folder
        → Rose (F.seen files.old).faults (F.seen files.new).faults) }
    ensures sure { (F.seen files.old).assured ≡ true
        → IfErr result (λ why. why ≡ Why.Cut Cut.Folder → ⊥) × ((F.seen files.new).assured ≡ true) }
{
    let bytes = match load_file(alloc, files, number, name, VAULT_LIMIT) {
        Ok(bytes) => bytes,
        Err(why) => return Err(why),
    };
    match Vault::load(alloc, &bytes) {
        Ok(keys) => Ok(KeysFile {
            bytes: Bytes::from_vec(bytes),
            keys,
        }),
        Err(fault) => Err(why_vault(number, fault)),
    }
}

/// Loads the master key of the file of this number in the order of the words.
pub fn load_master<F: Folder>(
    alloc: Global,
    files: &mut F,
    number: u8,
    name: &str,
) -> Result<MasterKey, Why>
    ensures leads { (all : Files) → (F.seen files.old).told ≡ Some all
        → Leads (with_master number (file_of all name.now)) result }
    ensures kind { IfErr result IsOfFiles }
    ensures same { (F.seen files.new).told ≡ (F.seen files.old).told }
    ensures asked { AsksOnly (name.now ∷ []) (F.seen files.old) (F.seen files.new) }
    ensures later { (F.seen files.old).faults ≤ (F.seen files.new).faults }
    ensures cause { IfErr result (λ why. why ≡ Why.Cut Cut.Folder
        → Rose (F.seen files.old).faults (F.seen files.new).faults) }
    ensures sure { (F.seen files.old).assured ≡ true
        → IfErr result (λ why. why ≡ Why.Cut Cut.Folder → ⊥) × ((F.seen files.new).assured ≡ true) }
{
    let bytes = match load_file(alloc, files, number, name, MASTER_LIMIT) {
        Ok(bytes) => bytes,
        Err(why) => return Err(why),
    };
    match read_master(&bytes) {
        Ok(master) => Ok(master),
        Err(fault) => Err(why_master(number, fault)),
    }
}

/// Why a run ends whose collection infos, in the file of this number, are at fault.
fn why_infos(number: u8, fault: InfosFault) -> Why
    ensures why { result ≡ infos_why number fault }
    ensures kind { IsOfFiles result }
    ensures unfailed { result ≡ Why.Cut Cut.Folder → ⊥ }
{
    match fault {
        InfosFault::Bad {
            number: code,
            document,
        } => why_contents(number, code, document),
        InfosFault::Memory => Why::Cut(Cut::Memory),
    }
}

/// Why a run ends whose vault, in the file of this number, is at fault.
fn why_vault(number: u8, fault: VaultFault) -> Why
    ensures why { result ≡ vault_why number fault }
    ensures kind { IsOfFiles result }
    ensures unfailed { result ≡ Why.Cut Cut.Folder → ⊥ }
{
    match fault {
        VaultFault::Bad { document, kind } => why_contents(number, number_of_vault(kind), document),
        VaultFault::Memory => Why::Cut(Cut::Memory),
    }
}

/// Why a run ends whose master key, in the file of this number, is at fault.
fn why_master(number: u8, fault: MasterFault) -> Why
    ensures why { result ≡ master_why number fault }
    ensures kind { IsOfFiles result }
    ensures unfailed { result ≡ Why.Cut Cut.Folder → ⊥ }
{
    why_contents(number, number_of_master(fault), 0)
}

/// Why a run ends whose file of this number has a document with this fault.
fn why_contents(number: u8, fault: Number, document: u32) -> Why
    ensures why { result ≡ Why.Finished (at_fault number fault document) }
{
    Why::Finished(Finish::Setup {
        file: number,
        fault: SetupFault::Contents(fault),
        document,
    })
}
