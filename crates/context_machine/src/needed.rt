//! The first value of each need. A few are looked through, one after another; of more than that each need has a slot.

ghost use Rattle.std.specs.Prelude.{◌≡◌, [], OnOk};
ghost use Rattle.payload6.specs.Needs.{need_seen};
ghost use Rattle.context_machine.specs.Needs.{is_needed, need_at_seen, needs_seen, put_new};
ghost use Rattle.context_machine.specs.Slots.{AreManySlots, AreSlots};

use crate::need::{NeedAt, is_same};
use crate::slots::Slots;
use encrypt_schema::FEW;
use fle_outside::Memory;
use payload6::Need;

/// Appends a value where its need isn't there yet, and makes slots for needs that are no longer few.
pub(crate) fn put_new<'a>(
    needs: &mut Vec<NeedAt<'a>>,
    slots: &mut Slots<'a>,
    n: NeedAt<'a>,
) -> Result<(), Memory>
    requires slots { AreManySlots (needs_seen needs.old.items) [] slots.old }
    ensures put { OnOk result (needs_seen needs.new.items ≡ put_new (needs_seen needs.old.items)
        (need_at_seen n.entry)) }
    ensures slots { OnOk result (AreManySlots (needs_seen needs.new.items) [] slots.new) }
{
    if is_needed(needs, slots, n.need) {
        return Ok(());
    }
    let before = needs.len();
    if needs.push(n).is_err() {
        return Err(Memory);
    }
    if before > FEW {
        return slots.add(n.need);
    }
    if before == FEW {
        return add_slots(slots, needs);
    }
    Ok(())
}

/// Whether this is needed.
fn is_needed(needs: &[NeedAt<'_>], slots: &Slots<'_>, need: Need<'_>) -> bool
    requires slots { AreManySlots (needs_seen needs.now) [] slots.now }
    ensures needed { result ≡ is_needed (need_seen need.entry) (needs_seen needs.now) }
{
    if needs.len() > FEW {
        slots.has(need)
    } else {
        is_among(needs, need)
    }
}

/// Whether one of these values needs this. All are looked through.
fn is_among(needs: &[NeedAt<'_>], need: Need<'_>) -> bool
    ensures needed { result ≡ is_needed (need_seen need.entry) (needs_seen needs.now) }
{
    for n in needs {
        if is_same(n.need, need) {
            return true;
        }
    }
    false
}

/// Makes a free slot for the need of each of these values.
fn add_slots<'a>(slots: &mut Slots<'a>, needs: &[NeedAt<'a>]) -> Result<(), Memory>
    requires none { AreSlots [] [] slots.old }
    ensures slots { OnOk result (AreSlots (needs_seen needs.now) [] slots.new) }
{
    for n in needs {
        slots.add(n.need)?;
    }
    Ok(())
}
