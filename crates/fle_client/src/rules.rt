//! The rules of a client, and those by which a command is judged.

ghost use Rattle.std.specs.Prelude.{◌≡◌, [], true, false, bytes_eq, is_none, MatchResult};
ghost use Rattle.fle_client.specs.Known.{Judged, Unjudges, foreign};
ghost use Rattle.fle_client.specs.Told.{is_untold};

use crate::commands::CommandSet;
use crate::told::{infos_of, is_untold};
use bson_codec::RawDoc;
use encrypt_schema::Infos;
use fle_engine::Marker;
use std::collections::BTreeMap;

/// The rules of a client.
#[derive(Drop)]
pub enum Rules {
    /// Those of one database, whole: a collection without an info has no rules.
    Whole(Marker),
    /// The infos that were told, by their databases; nothing is known of another collection.
    Told(BTreeMap<Vec<u8>, Infos>),
}

/// Why a command isn't judged.
#[derive(Clone, Copy, Drop)]
pub(crate) enum Unjudged {
    /// It is sent to another database than the client's own.
    WrongDb,
    /// It is for a collection that the client wasn't told of.
    Untold,
}

impl Rules {
    /// The infos by which a command is judged that is sent to this database; `none` where nothing was told of it.
    pub(crate) fn judge<'a>(
        &'a self,
        commands: CommandSet,
        db: &[u8],
        none: &'a Infos,
        command: &RawDoc<'_>,
    ) -> Result<&'a Infos, Unjudged>
        requires none { none.now ≡ [] }
        requires whole { command.now.start ≡ 0 }
        ensures judged { MatchResult result (λ i. Judged commands self.now db.now command.now.tree i.now)
            (λ u. Unjudges commands self.now db.now command.now.tree u) }
    {
        match self {
            Rules::Whole(marker) => own_infos(marker, db),
            Rules::Told(told) => told_infos(commands, infos_of(told, db, none), db, command),
        }
    }

    /// Whether commands may be sent to this database.
    pub(crate) fn has(&self, db: &[u8]) -> bool
        ensures has { result ≡ is_none (foreign self.now db.now) }
    {
        match self {
            Rules::Whole(marker) => db == marker.db.as_slice(),
            Rules::Told(_) => true,
        }
    }
}

/// The infos of a database that is the client's own.
fn own_infos<'a>(marker: &'a Marker, db: &[u8]) -> Result<&'a Infos, Unjudged>
    ensures own { MatchResult result (λ i. (bytes_eq db.now marker.now.db.items ≡ true) × (i.now ≡ marker.now.infos))
        (λ u. (bytes_eq db.now marker.now.db.items ≡ false) × (u ≡ Unjudged.WrongDb)) }
{
    if db == marker.db.as_slice() {
        Ok(&marker.infos)
    } else {
        Err(Unjudged::WrongDb)
    }
}

/// The infos that were told of a database, where the collection of a command is among them.
fn told_infos<'a>(
    commands: CommandSet,
    infos: &'a Infos,
    db: &[u8],
    command: &RawDoc<'_>,
) -> Result<&'a Infos, Unjudged>
    requires whole { command.now.start ≡ 0 }
    ensures told { MatchResult result
        (λ i. (is_untold commands infos.now db.now command.now.tree ≡ false) × (i.now ≡ infos.now))
        (λ u. (is_untold commands infos.now db.now command.now.tree ≡ true) × (u ≡ Unjudged.Untold)) }
{
    if is_untold(commands, infos, db, command) {
        Err(Unjudged::Untold)
    } else {
        Ok(infos)
    }
}
