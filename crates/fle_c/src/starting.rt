//! A client for a slot that knows of no collection and has no key yet.

ghost use Rattle.std.specs.Prelude.{◌≡◌, IfErr, IfOk, Err};
ghost use Rattle.fle_c.specs.Filling.{Starts, start_key};
ghost use Rattle.fle_client.specs.Clients.{IsStarted};
ghost use Rattle.fle_engine.specs.Loading.{Reads, master_key_in};
ghost use Rattle.fle_engine.specs.declared.loading.EngineFault.TheVariants as faults;
ghost use Rattle.fle_files.specs.Numbers.{master_number};
ghost use Rattle.fle_stream.specs.declared.why.SetupFault.TheVariants as setups;

use fle_client::{Client, CommandSet};
use fle_engine::EngineFault;
use fle_files::number_of_master;
use fle_outside::Memory;
use fle_stream::SetupFault;
use local_kms::{MasterFault, MasterKey, read_master};
use std::alloc::Global;

/// The bytes of a master key are at most so many.
const MASTER_LIMIT: usize = 129;

/// A client of these commands with the master key in these bytes, or without one where there are none, in a block of
/// its own.
pub(crate) fn start(
    alloc: Global,
    commands: CommandSet,
    bytes: &[u8],
) -> Result<Box<Client>, EngineFault>
    ensures made { IfOk result (λ b. Starts commands (start_key bytes.now) b.value) }
    ensures none { IfErr result (λ f. Reads (start_key bytes.now) (Err f)) }
{
    match read_start_key(bytes) {
        Ok(master) => start_under(alloc, commands, master),
        Err(fault) => Err(fault),
    }
}

/// A client of these commands with this master key or without one, in a block of its own.
fn start_under(
    alloc: Global,
    commands: CommandSet,
    master: Option<MasterKey>,
) -> Result<Box<Client>, EngineFault>
    ensures made { IfOk result (λ b. IsStarted commands master b.value) }
    ensures none { IfErr result (λ f. f ≡ faults.Memory) }
{
    match Client::start(alloc, commands, master) {
        Ok(client) => match Box::new(alloc, client) {
            Ok(client) => Ok(client),
            Err(_) => Err(EngineFault::Memory),
        },
        Err(Memory) => Err(EngineFault::Memory),
    }
}

/// The master key in these bytes; none where there is no byte.
fn read_start_key(bytes: &[u8]) -> Result<Option<MasterKey>, EngineFault>
    ensures read { result ≡ start_key bytes.now }
{
    if bytes.is_empty() {
        return Ok(None);
    }
    match load_master(bytes) {
        Ok(master) => Ok(Some(master)),
        Err(fault) => Err(fault),
    }
}

/// A master key: 96 bytes, or their base64 text.
fn load_master(bytes: &[u8]) -> Result<MasterKey, EngineFault>
    ensures read { result ≡ master_key_in bytes.now }
{
    if MASTER_LIMIT < bytes.len() {
        return Err(master_fault(SetupFault::TooLong));
    }
    match read_master(bytes) {
        Ok(master) => Ok(master),
        Err(fault) => Err(contents_fault(fault)),
    }
}

/// The bytes of a master key are at fault.
fn master_fault(fault: SetupFault) -> EngineFault
    ensures fault { result ≡ faults.File 3 fault 0 }
{
    EngineFault::File {
        file: 3,
        fault,
        document: 0,
    }
}

/// The bytes of a master key hold none.
fn contents_fault(fault: MasterFault) -> EngineFault
    ensures fault { result ≡ faults.File 3 (setups.Contents (master_number fault)) 0 }
{
    master_fault(SetupFault::Contents(number_of_master(fault)))
}
