//! Where marking and sealing begin: the fields of a command by themselves, then its collection.

ghost use Rattle.std.specs.Prelude.{◌≡◌, None};
ghost use Rattle.command_marker.specs.Commands.{collection_in};
ghost use Rattle.context_machine.specs.Beginning.{BeginsAs, BeginsMore};
ghost use Rattle.encrypt_schema.specs.Language.Collection.{collection_of};
ghost use Rattle.fle_engine.specs.Starting.{StartsAs};
ghost use Rattle.fle_engine.specs.More.{StartsMore};

use bson_codec::RawDoc;
use context_machine::{Begun, EncryptStart, NeedCollInfo, NeedMarkings};
use encrypt_schema::{Infos, MarkFault};

/// What becomes of a command whose fields and collection aren't refused.
#[derive(Drop)]
pub enum Started<'a> {
    /// It passes as it is.
    Passing,
    /// It is to be marked under the rules of its collection.
    Marking(NeedMarkings<'a>),
}

/// Looks at the fields of a command by themselves, and at its collection.
pub fn start<'a>(
    db: &'a [u8],
    infos: &'a Infos,
    command: &RawDoc<'a>,
) -> Result<Started<'a>, MarkFault>
    requires whole { command.now.start ≡ 0 }
    ensures starts { StartsAs infos.entry.now db.entry.now command.now result }
{
    match begin(db, command) {
        Ok(Begun::Pass(_)) => Ok(Started::Passing),
        Ok(Begun::Ask(state)) => match with_info(state, infos).done() {
            Ok(state) => Ok(Started::Marking(state)),
            Err(fault) => Err(fault),
        },
        Err(fault) => Err(fault),
    }
}

/// The same of a command that a library takes.
pub fn start_more<'a>(
    db: &'a [u8],
    infos: &'a Infos,
    command: &RawDoc<'a>,
) -> Result<Started<'a>, MarkFault>
    requires whole { command.now.start ≡ 0 }
    ensures starts { StartsMore infos.entry.now db.entry.now command.now result }
{
    match begin_more(db, command) {
        Ok(Begun::Pass(_)) => Ok(Started::Passing),
        Ok(Begun::Ask(state)) => match with_info(state, infos).done() {
            Ok(state) => Ok(Started::Marking(state)),
            Err(fault) => Err(fault),
        },
        Err(fault) => Err(fault),
    }
}

/// Looks at the fields of a command that a library takes by themselves.
pub(crate) fn begin_more<'a>(db: &'a [u8], command: &RawDoc<'a>) -> Result<Begun<'a>, MarkFault>
    ensures begun { BeginsMore (record { db = db.entry.now; command = command.now }) result }
{
    EncryptStart::new(db, command.again()).begin_more()
}

/// Looks at the fields of a command by themselves.
pub(crate) fn begin<'a>(db: &'a [u8], command: &RawDoc<'a>) -> Result<Begun<'a>, MarkFault>
    ensures begun { BeginsAs (record { db = db.entry.now; command = command.now }) result }
{
    EncryptStart::new(db, command.again()).begin()
}

/// A command with the info of its collection, where there is one.
fn with_info<'a>(state: NeedCollInfo<'a>, infos: &'a Infos) -> NeedCollInfo<'a>
    requires none { state.info ≡ None }
    ensures info { result ≡ record {
      command = state.entry.command;
      info = collection_of infos.entry.now (collection_in state.entry.command.tree);
    } }
{
    let mut state = state;
    if let Some(info) = infos.info_of(state.collection()) {
        state.feed(info);
    }
    state
}
