//! What holds of rules, as contracts of functions that do nothing.

ghost use denote.Param.Send.{IsSend, IsSync};
ghost use Rattle.encrypt_schema.specs.contracts.schema.collections.Infos.{the_row as infos_row};
ghost use Rattle.encrypt_schema.specs.contracts.schema.shared_names.SharedNames.{the_row as names_row};

use crate::schema::collections::Infos;
use crate::schema::shared_names::SharedNames;

/// Any thread may own the infos of a file, and names that rules share, and read them beside others: both types are
/// `Send` and `Sync`.
pub fn rules_of_any_thread()
    ensures owned { IsSend infos_row × IsSend names_row }
    ensures read { IsSync infos_row × IsSync names_row }
{
    owned_anywhere::<Infos>();
    owned_anywhere::<SharedNames>();
    read_anywhere::<Infos>();
    read_anywhere::<SharedNames>();
}

/// Any thread may own a value of a type that is `Send`.
fn owned_anywhere<T: Send>()
    ensures owned { IsSend T.row }
{}

/// Threads may read a value of a type that is `Sync` side by side.
fn read_anywhere<T: Sync>()
    ensures read { IsSync T.row }
{}
