//! Which calls of an object in memory fail.

ghost use Rattle.std.specs.Prelude.{◌≡◌};
ghost use Rattle.fle_outside.specs.Counts.{fails_at};

/// The number at which counts of calls and of faults stand still.
const LAST: u64 = u64::MAX;

/// Whether the call of this number is to fail: the list has it, and it isn't the last number.
pub(crate) fn call_fails(failing: &[u64], call: u64) -> bool
    ensures { result ≡ fails_at failing.now call }
{
    call < LAST && failing.contains(&call)
}
