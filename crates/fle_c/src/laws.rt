//! A law of what C keeps. The functions do nothing; their clauses are the law.

ghost use denote.Param.Send.{IsSend};
ghost use Rattle.fle_c.specs.contracts.slot.Slot as Slots;

use crate::slot::Slot;

/// Any thread may own a slot, with a client or with none: C may hand one from thread to thread.
pub fn slots_of_any_thread()
    ensures slot { IsSend Slots.the_row }
{
    of_any_thread::<Slot>();
}

/// Any thread may own a value of this type.
fn of_any_thread<T: Send>()
    ensures owned { IsSend T.row }
{}
