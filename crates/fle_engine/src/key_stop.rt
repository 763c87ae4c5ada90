//! Why there is no key document.

ghost use Rattle.std.specs.Prelude.{◌≡◌};
ghost use Rattle.fle_engine.specs.KeyRulings.{stop_of};

use crate::answer::Wanted;
use crate::loading::EngineFault;

/// Why there is no key document.
#[derive(Clone, Copy, Drop)]
pub enum KeyStop {
    /// The key document, or the new master key, is at fault, as the vault (1) or the master key (3) of an engine. Never
    /// for want of memory.
    Faulty(EngineFault),
    /// The key doesn't open under the engine's master key.
    Damaged,
    /// A new key can't have these names.
    Names,
    /// A random block couldn't be drawn: fewer were to be had than this, which is wanted.
    Undrawn(Wanted),
    /// There was no memory. It may come at any time.
    Memory,
}

/// Why there is no key document where the bytes of one, or of a master key, are at fault.
pub fn stop_of(fault: EngineFault) -> KeyStop
    ensures stop { result ≡ stop_of fault }
{
    match fault {
        EngineFault::Database => KeyStop::Faulty(EngineFault::Database),
        EngineFault::File {
            file,
            fault,
            document,
        } => KeyStop::Faulty(EngineFault::File {
            file,
            fault,
            document,
        }),
        EngineFault::Memory => KeyStop::Memory,
    }
}
