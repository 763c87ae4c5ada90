//! Values that need keys.

ghost use Rattle.std.specs.Prelude.{◌≡◌};
ghost use Rattle.payload6.specs.Needs.{need_seen};
ghost use Rattle.context_machine.specs.Needs.{is_same};

use payload6::Need;

/// A value of a document that is sealed, or is to be, and the key that it needs.
#[derive(Clone, Copy)]
pub struct NeedAt<'a> {
    /// Its data key: by the id, a UUID, or by an alternate name.
    pub need: Need<'a>,
    /// The offset of the value's first byte, as in `RawItem::start`.
    pub at: u32,
}

/// Whether two needs are one.
pub(crate) fn is_same(need: Need<'_>, other: Need<'_>) -> bool
    ensures same { result ≡ is_same (need_seen need.entry) (need_seen other.entry) }
{
    match need {
        Need::Id(id) => match other {
            Need::Id(other) => id == other,
            Need::Name(_) => false,
        },
        Need::Name(name) => match other {
            Need::Id(_) => false,
            Need::Name(other) => name == other,
        },
    }
}
