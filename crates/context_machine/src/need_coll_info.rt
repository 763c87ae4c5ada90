//! A command that waits for the info of its collection (libmongocrypt's state NEED_MONGO_COLLINFO).

ghost use Rattle.std.specs.Prelude.{◌≡◌, true, IfOk, None, option_copied};
ghost use Rattle.bson_tree.specs.Spelling.{doc_bytes};
ghost use Rattle.command_marker.specs.Commands.{collection_in, is_wide_command};
ghost use Rattle.context_machine.specs.Asks.{collection_filter};
ghost use Rattle.context_machine.specs.Beginning.{AsksMarkings, fed_info, first_value};
ghost use Rattle.encrypt_schema.specs.Commands.Offences.{is_view};

use crate::asking;
use crate::need_markings::NeedMarkings;
use bson_codec::RawDoc;
use encrypt_schema::{Info, MarkFault, Reason, is_named};
use fle_outside::Memory;
use std::alloc::Global;
use std::marker::Model;

/// A command with protected values perhaps, and the info of its collection, if one is kept.
#[derive(Drop)]
pub struct NeedCollInfo<'a> {
    command: RawDoc<'a>,
    name: &'a [u8],
    info: Option<&'a Info>,
}

impl<'a> Model for NeedCollInfo<'a> {
    ghost use Rattle.std.specs.Prelude.{◌≡◌, option_copied, true};
    ghost use Rattle.command_marker.specs.Commands.{collection_in, is_wide_command};
    ghost use Rattle.context_machine.specs.States.{Asks};
    ghost use Rattle.context_machine.specs.SealingCodes.{coded_asks};

    ghost Value = { Asks };

    ghost coded = { coded_asks };

    ghost view = { λ s. record { command = s.command; info = option_copied s.info } };

    ghost invariant = { λ s. (is_wide_command s.command.tree ≡ true) × (s.name.now ≡ collection_in s.command.tree) };
}

impl<'a> NeedCollInfo<'a> {
    /// A command on the collection of this name.
    pub(crate) fn new(command: RawDoc<'a>, name: &'a [u8]) -> NeedCollInfo<'a>
        requires wide { is_wide_command command.tree ≡ true }
        requires named { name.now ≡ collection_in command.tree }
        ensures asks { result ≡ record { command = command.entry; info = None } }
    {
        NeedCollInfo {
            command,
            name,
            info: None,
        }
    }

    /// The command itself.
    pub fn command(&self) -> &RawDoc<'a>
        ensures command { result.now ≡ self.now.command }
    {
        &self.command
    }

    /// The filter `{name: collection}` by which a caller asks for the infos of the collection. `Memory` where there is
    /// none for it.
    pub fn op(&self, alloc: Global) -> Result<Vec<u8>, Memory>
        ensures filter { IfOk result (λ out. out.items
            ≡ doc_bytes (collection_filter (collection_in self.now.command.tree))) }
    {
        asking::collection_filter(alloc, self.name)
    }

    /// The name of the command's collection.
    pub fn collection(&self) -> &'a [u8]
        ensures collection { result.now ≡ collection_in self.now.command.tree }
    {
        self.name
    }

    /// Keeps an info where it has the name of the command's collection and none is kept. It allocates nothing.
    pub fn feed(&mut self, info: &'a Info)
        ensures fed { self.new ≡ fed_info self.old info.entry.now }
    {
        if is_named(info.name(), self.name) && self.info.is_none() {
            self.info = Some(info);
        }
    }

    /// Asks for the marks, without an info where none is kept: `View` at the value of the command's first field, where
    /// the collection is a view. It allocates nothing, and never tells `Memory`.
    pub fn done(self) -> Result<NeedMarkings<'a>, MarkFault>
        ensures done { AsksMarkings self.entry result }
    {
        if is_view(self.info) {
            return Err(MarkFault::Refused {
                reason: Reason::View,
                at: first_value(&self.command),
            });
        }
        Ok(NeedMarkings::new(self.command, self.info))
    }
}

/// Whether the collection is a view.
fn is_view(info: Option<&Info>) -> bool
    ensures view { result ≡ is_view (option_copied info.entry) }
{
    match info {
        Some(info) => info.is_view(),
        None => false,
    }
}

/// The offset at which the value of the first field of a command begins; 0 where it has no field.
fn first_value(command: &RawDoc<'_>) -> u32
    ensures start { result ≡ first_value command.now.start command.now.tree }
{
    match command.items().next() {
        Some(first) => {
            let _ = first.value();
            first.start() as u32
        }
        None => 0,
    }
}
