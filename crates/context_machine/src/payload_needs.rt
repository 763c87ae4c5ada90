//! The keys that the payloads of a document need, gathered while the payloads are found.

ghost use Rattle.std.specs.Prelude.{◌≡◌, [], false, IfOk};
ghost use Rattle.context_machine.specs.Decrypting.{need_found};
ghost use Rattle.context_machine.specs.Needs.{need_at_seen};

use crate::need::NeedAt;
use crate::needed::put_new;
use crate::slots::Slots;
use crate::wanted::Wanted;
use doc_rewrite::{FoundAt, Listener};
use fle_outside::Memory;
use payload6::Need;
use std::alloc::Global;
use std::marker::Model;

/// The first payload that needs each id, of those told of so far, and whether memory ran short: nothing more is kept
/// then.
#[derive(Drop)]
pub(crate) struct PayloadNeeds<'a> {
    needs: Vec<NeedAt<'a>>,
    slots: Slots<'a>,
    short: bool,
}

impl<'a> Model for PayloadNeeds<'a> {
    ghost use Rattle.std.specs.Prelude.{◌≡◌, [], false};
    ghost use Rattle.context_machine.specs.Decrypting.{Gathers};
    ghost use Rattle.context_machine.specs.Needs.{needs_seen};
    ghost use Rattle.context_machine.specs.Slots.{AreManySlots};

    ghost Value = { Gathers };

    ghost view = { λ s. record { needs = needs_seen s.needs.items; short = s.short } };

    ghost invariant = { λ s. s.short ≡ false → AreManySlots (needs_seen s.needs.items) [] s.slots };
}

impl<'a> Listener for PayloadNeeds<'a> {
    ghost use Rattle.context_machine.specs.Decrypting.{GathersOne};

    ghost tells = { GathersOne };

    fn tell(&mut self, payload: FoundAt) {
        if self.short {
            return;
        }
        match put_new(&mut self.needs, &mut self.slots, need_of(&payload)) {
            Ok(()) => {}
            Err(_) => self.short = true,
        }
    }
}

impl<'a> PayloadNeeds<'a> {
    /// No payload was told of yet. It allocates nothing.
    pub(crate) fn new(alloc: Global) -> PayloadNeeds<'a>
        ensures none { result ≡ record { needs = []; short = false } }
    {
        PayloadNeeds {
            needs: Vec::new(alloc),
            slots: Slots::new(alloc),
            short: false,
        }
    }

    /// The keys that are needed, none of them kept yet. `Memory` where it ran short, or there is no room for the keys.
    pub(crate) fn wanted(self, alloc: Global) -> Result<Wanted<'a>, Memory>
        ensures all { IfOk result (λ w. self.entry.short ≡ false) }
        ensures wanted { IfOk result (λ w. w ≡ record { needs = self.entry.needs; kept = [] }) }
    {
        let PayloadNeeds {
            needs,
            slots,
            short,
        } = self;
        if short {
            return Err(Memory);
        }
        Wanted::new(alloc, needs, slots)
    }
}

/// What a payload needs: the key of its id.
fn need_of<'a>(payload: &FoundAt) -> NeedAt<'a>
    ensures need { need_at_seen result ≡ need_found payload.now }
{
    NeedAt {
        need: Need::Id(payload.key_id),
        at: payload.start,
    }
}
