//! Fields of commands and items that are no filter, no update and no stored document.

ghost use Rattle.std.specs.Prelude.{◌≡◌, List};
ghost use Rattle.encrypt_schema.specs.Language.Row.{Row};
ghost use Rattle.encrypt_schema.specs.Commands.Stations.{inside_of};
ghost use Rattle.encrypt_schema.specs.Commands.Visits.{entry};
ghost use Rattle.encrypt_schema.specs.Views.Walking.{StandsNext, station_next};
ghost use Rattle.command_marker.specs.Places.{CommandStands, IsOther, command_station, holder_kind};

use crate::other_kinds::{Holder, other_kind};
use crate::places::CommandPlace;
use bson_codec::RawItem;
use bson_tree::types;
use encrypt_schema::{FieldKind, Next};

/// What a document is that a field of this kind holds.
fn inside_of(kind: FieldKind) -> Next<CommandPlace>
    ensures station { (rows : List Row) → station_next command_station rows result ≡ inside_of kind }
    ensures stands { (rows : List Row) → StandsNext CommandStands rows result }
{
    match kind {
        FieldKind::Keys => Next::Inside(CommandPlace::Keys),
        FieldKind::IndexKeys => Next::Inside(CommandPlace::IndexKeys),
        FieldKind::Hint => Next::Inside(CommandPlace::IndexKeys),
        FieldKind::Own(own) => Next::Inside(CommandPlace::Own(own)),
        FieldKind::Filter => Next::Passed,
        FieldKind::Update => Next::Passed,
        FieldKind::Path => Next::Passed,
        FieldKind::Indexes => Next::Passed,
        FieldKind::Word => Next::Passed,
        FieldKind::Unlisted => Next::Passed,
    }
}

/// What such a field is. Only a document is looked into, so of any other value the name isn't read.
pub(crate) fn other_field(holder: Holder, item: &RawItem<'_>) -> Next<CommandPlace>
    ensures other { (rows : List Row) →
        IsOther rows (holder_kind holder item.now.name) (entry item.now.name item.now.tree) result }
{
    if item.tag() == types::DOCUMENT {
        return inside_of(other_kind(holder, item.name()));
    }
    Next::Passed
}
