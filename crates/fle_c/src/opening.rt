//! A client for a slot, by the bytes of three files.

ghost use Rattle.std.specs.Prelude.{◌≡◌, IfErr, IfOk, Err};
ghost use Rattle.fle_c.specs.Calls.{IsOf};
ghost use Rattle.fle_engine.specs.Engines.{EngineIs};
ghost use Rattle.fle_engine.specs.Loading.{parts_in};

use fle_client::{Client, CommandSet};
use fle_engine::{Engine, EngineFault};
use std::alloc::Global;

/// A client of these commands and of an engine by the bytes of three files, in a block of its own.
pub(crate) fn open(
    alloc: Global,
    commands: CommandSet,
    db: &[u8],
    keys: &[u8],
    infos: &[u8],
    master: &[u8],
) -> Result<Box<Client>, EngineFault>
    ensures made { IfOk result (λ b. IsOf db.now (parts_in db.now keys.now infos.now master.now) commands b.value) }
    ensures none { IfErr result (λ f. EngineIs db.now (parts_in db.now keys.now infos.now master.now) (Err f)) }
{
    match Engine::new(alloc, db, keys, infos, master) {
        Ok(engine) => match Box::new(alloc, Client::of(engine, commands)) {
            Ok(client) => Ok(client),
            Err(_) => Err(EngineFault::Memory),
        },
        Err(fault) => Err(fault),
    }
}
