//! A place in C's memory for a client.

ghost use Rattle.std.specs.Prelude.{◌≡◌, Option, None, Some, true, false, option_map};
ghost use Rattle.fle_c.specs.Holding.{is_full};

use crate::kept::Kept;
use crate::parts::Parts;
use fle_client::Client;
use std::alloc::Global;
use std::mem;

/// A client, or none; zeros are none.
#[repr(C)]
#[derive(Drop)]
pub struct Slot {
    /// The client.
    pub kept: Kept,
    /// There is one.
    pub full: bool,
    ghost same: { is_full kept.value ≡ full },
}

impl Slot {
    /// An empty slot.
    fn none(alloc: Global) -> Slot
        ensures empty { result.kept.value ≡ None }
    {
        Slot {
            kept: Kept::none(alloc),
            full: false,
        }
    }

    /// A slot with this client.
    fn some(client: Box<Client>) -> Slot
        ensures full { result.kept.value ≡ Some client.value }
    {
        Slot {
            kept: Kept::of_parts(Parts::of(client)),
            full: true,
        }
    }

    /// Takes the client out, where there is one.
    pub(crate) fn take(&mut self, alloc: Global) -> Option<Box<Client>>
        ensures empty { self.new.kept.value ≡ None }
        ensures client { option_map (λ b. b.value) result ≡ self.old.kept.value }
    {
        let Slot { kept, full } = mem::replace(self, Slot::none(alloc));
        if full {
            Some(kept.into_parts().into_box())
        } else {
            None
        }
    }

    /// Puts a client into an empty slot.
    pub(crate) fn put(&mut self, client: Box<Client>)
        requires empty { self.old.kept.value ≡ None }
        ensures full { self.new.kept.value ≡ Some client.value }
    {
        *self = Slot::some(client);
    }
}
