//! Where sealing begins: a command, and the database on which it runs.

ghost use Rattle.std.specs.Prelude.{◌≡◌};
ghost use Rattle.context_machine.specs.Beginning.{BeginsAs, BeginsMore};

use crate::begun::Begun;
use crate::need_coll_info::NeedCollInfo;
use bson_codec::RawDoc;
use command_marker::{Target, target, target_more};
use encrypt_schema::MarkFault;
use std::marker::Model;

/// A command, and the name of the database on which it runs.
#[derive(Drop)]
pub struct EncryptStart<'a> {
    db: &'a [u8],
    command: RawDoc<'a>,
}

impl<'a> Model for EncryptStart<'a> {
    ghost use Rattle.context_machine.specs.States.{Started};
    ghost use Rattle.context_machine.specs.SealingCodes.{coded_started};

    ghost Value = { Started };

    ghost coded = { coded_started };

    ghost view = { λ s. record { db = s.db.now; command = s.command } };
}

impl<'a> EncryptStart<'a> {
    /// Takes a command of this database. Nothing is looked at yet.
    pub fn new(db: &'a [u8], command: RawDoc<'a>) -> EncryptStart<'a>
        ensures started { result ≡ record { db = db.entry.now; command = command.entry } }
    {
        EncryptStart { db, command }
    }

    /// Looks at the fields of the command by themselves, as `command_marker::target` does: it passes, or the info of
    /// its collection is asked for, or the first field at fault is refused. It allocates nothing, and never tells
    /// `Memory`.
    #[tactic(auto, using(command_marker::proofs::Checked::marked_wide))]
    pub fn begin(self) -> Result<Begun<'a>, MarkFault>
        ensures begun { BeginsAs self.entry result }
    {
        match target(self.db, &self.command) {
            Ok(Target::Pass) => Ok(Begun::Pass(self.command)),
            Ok(Target::Collection(name)) => Ok(Begun::Ask(NeedCollInfo::new(self.command, name))),
            Err(fault) => Err(fault),
        }
    }

    /// The same for a library, as `command_marker::target_more` does: a count, a findAndModify, a distinct or a
    /// createIndexes asks for the info of its collection too.
    pub fn begin_more(self) -> Result<Begun<'a>, MarkFault>
        ensures begun { BeginsMore self.entry result }
    {
        match target_more(self.db, &self.command) {
            Ok(Target::Pass) => Ok(Begun::Pass(self.command)),
            Ok(Target::Collection(name)) => Ok(Begun::Ask(NeedCollInfo::new(self.command, name))),
            Err(fault) => Err(fault),
        }
    }
}
