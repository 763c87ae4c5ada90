//! What the flags say with which a client is opened, or started.

ghost use Rattle.std.specs.Prelude.{◌≡◌};
ghost use Rattle.fle_c.specs.Flags.{set_of_flags};

use fle_client::CommandSet;

/// The flag of a client that takes more commands than insert, update, delete and find: FLE_COMMANDS_MORE.
const COMMANDS_MORE: u32 = 1;

/// The commands that a client takes by its flags; none where a flag is set that has no meaning.
pub(crate) fn set_of_flags(flags: u32) -> Option<CommandSet>
    ensures set { result ≡ set_of_flags flags }
{
    if flags == 0 {
        Some(CommandSet::Four)
    } else if flags == COMMANDS_MORE {
        Some(CommandSet::More)
    } else {
        None
    }
}
