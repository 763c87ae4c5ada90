//! Infos that are told one by one, by their databases. They are found by the order of the databases' names: whoever
//! chooses these, one takes as many comparisons as the logarithm of their number.

ghost use Rattle.std.specs.Prelude.{◌≡◌, [], List, ℕ, bytes_eq, if◌then◌else◌};
ghost use Rattle.encrypt_schema.specs.Language.Putting.{Puts, forgotten, put_info};
ghost use Rattle.fle_client.specs.Told.{OthersStay, PutsDatabase, is_untold, told_of};

use crate::commands::{CommandSet, begin};
use bson_codec::RawDoc;
use context_machine::Begun;
use encrypt_schema::{InfoFault, Infos};
use std::alloc::Global;
use std::collections::BTreeMap;

/// The infos that were told of a database; `none` where nothing was.
pub(crate) fn infos_of<'a>(
    told: &'a BTreeMap<Vec<u8>, Infos>,
    db: &[u8],
    none: &'a Infos,
) -> &'a Infos
    requires none { none.now ≡ [] }
    ensures infos { result.now ≡ told_of told.now db.now }
{
    match told.get(db) {
        Some(infos) => infos,
        None => none,
    }
}

/// Whether a command of a database is for a collection that isn't among these: it neither passes, nor is it refused for
/// a field by itself.
pub(crate) fn is_untold(
    commands: CommandSet,
    infos: &Infos,
    db: &[u8],
    command: &RawDoc<'_>,
) -> bool
    requires whole { command.now.start ≡ 0 }
    ensures untold { result ≡ is_untold commands infos.now db.now command.now.tree }
{
    match begin(commands, db, command) {
        Ok(Begun::Ask(state)) => infos.info_of(state.collection()).is_none(),
        Ok(Begun::Pass(_)) => false,
        Err(_) => false,
    }
}

/// Puts the info of a collection into its database, in the place of the one of its name or behind the others. After a
/// fault, and after `Memory`, all infos are as before.
pub(crate) fn put_told(
    told: &mut BTreeMap<Vec<u8>, Infos>,
    alloc: Global,
    db: &[u8],
    info: &RawDoc<'_>,
) -> Result<(), InfoFault>
    ensures put { Puts (told_of told.old db.now) (told_of told.new db.now) result
        (put_info (told_of told.old db.now) info.now.tree) }
    ensures others { OthersStay db.now told.old told.new }
{
    if let Some(infos) = told.get_mut(db) {
        return infos.put(alloc, info);
    }
    let mut infos = Infos::empty(alloc);
    infos.put(alloc, info)?;
    put_database(told, alloc, db, infos)
}

/// Puts the infos of a database of which none were told.
fn put_database(
    told: &mut BTreeMap<Vec<u8>, Infos>,
    alloc: Global,
    db: &[u8],
    infos: Infos,
) -> Result<(), InfoFault>
    ensures put { PutsDatabase db.now infos told.old told.new result }
    ensures others { OthersStay db.now told.old told.new }
{
    let Ok(name) = Vec::from_slice(alloc, db) else {
        return Err(InfoFault::Memory);
    };
    match told.insert(name, infos) {
        Ok(_) => Ok(()),
        Err(_) => Err(InfoFault::Memory),
    }
}

/// Forgets the info of the collection of a name in a database, where there is one.
pub(crate) fn forget_told(told: &mut BTreeMap<Vec<u8>, Infos>, db: &[u8], name: &[u8])
    ensures forgotten { (other : List ℕ) → told_of told.new other
        ≡ (if bytes_eq db.now other then forgotten name.now (told_of told.old other) else told_of told.old other) }
{
    if let Some(infos) = told.get_mut(db) {
        infos.forget(name);
    }
}
