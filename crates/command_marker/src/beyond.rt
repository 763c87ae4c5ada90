//! What a library refuses of an element of a command beyond the rules of its collection: a field that isn't listed, and
//! a value where none belongs.

ghost use Rattle.std.specs.Prelude.{◌≡◌, ℕ, List, take};
ghost use Rattle.encrypt_schema.specs.Language.Row.{Row};
ghost use Rattle.encrypt_schema.specs.Commands.More.{of_more};
ghost use Rattle.encrypt_schema.specs.Commands.Offences.{least};
ghost use Rattle.encrypt_schema.specs.Commands.Stations.{Argument};
ghost use Rattle.encrypt_schema.specs.Commands.Visits.{entry, names_of};
ghost use Rattle.filter_rules.specs.Places.{station_by as filter_station};
ghost use Rattle.update_rules.specs.UpdatePlaces.{update_station};
ghost use Rattle.command_marker.specs.Places.{command_station, name_station};

use crate::beyond_fields::field_beyond;
use crate::beyond_values::{
    chosen_beyond, comment_beyond, exists_beyond, index_beyond, own_beyond, projection_beyond,
    said_beyond, unset_beyond,
};
use crate::other_kinds::Holder;
use crate::places::{CommandName, CommandPlace};
use bson_codec::{RawDoc, RawItem};
use encrypt_schema::{Operator, Reason};
use filter_rules::FilterPlace;
use update_rules::UpdatePlace;

/// Why a field of a command is refused.
fn command_beyond(
    name: CommandName,
    document: &RawDoc<'_>,
    k: usize,
    item: &RawItem<'_>,
) -> Option<Reason>
    ensures beyond { result ≡ least (of_more (name_station name) (take k (names_of document.now.tree))
        (entry item.now.name item.now.tree)) }
{
    match name {
        CommandName::Insert => field_beyond(Holder::Insert, document, k, item),
        CommandName::Update => field_beyond(Holder::Update, document, k, item),
        CommandName::Delete => field_beyond(Holder::Delete, document, k, item),
        CommandName::Find => field_beyond(Holder::Find, document, k, item),
    }
}

/// Why an element in a filter is refused.
fn filter_beyond(at: FilterPlace, item: &RawItem<'_>) -> Option<Reason>
    ensures beyond { (rows : List Row) (elder : List (List ℕ)) →
        result ≡ least (of_more (filter_station at rows) elder (entry item.now.name item.now.tree)) }
{
    match at {
        FilterPlace::Filter => comment_beyond(item),
        FilterPlace::Test(_subject) => exists_beyond(item),
        FilterPlace::Cases => None,
        FilterPlace::Elements(_subject) => None,
    }
}

/// Why an element of the argument of an update operator is refused.
fn argument_beyond(operator: Operator, item: &RawItem<'_>) -> Option<Reason>
    ensures beyond { (elder : List (List ℕ)) →
        result ≡ least (of_more (Argument operator) elder (entry item.now.name item.now.tree)) }
{
    match operator {
        Operator::Unset => unset_beyond(item),
        Operator::Rename => None,
        Operator::Other => None,
    }
}

/// Why an element in an update, or in a stored document, is refused.
fn update_beyond(at: UpdatePlace, item: &RawItem<'_>) -> Option<Reason>
    ensures beyond { (rows : List Row) (elder : List (List ℕ)) →
        result ≡ least (of_more (update_station at rows) elder (entry item.now.name item.now.tree)) }
{
    match at {
        UpdatePlace::Document(_cursor) => None,
        UpdatePlace::Operators => None,
        UpdatePlace::Sets => None,
        UpdatePlace::Argument(operator) => argument_beyond(operator, item),
    }
}

/// Why element `k` of a document at this place is refused beyond the rules.
pub(crate) fn beyond(
    at: CommandPlace,
    document: &RawDoc<'_>,
    k: usize,
    item: &RawItem<'_>,
) -> Option<Reason>
    ensures beyond { (rows : List Row) → result ≡ least (of_more (command_station at rows)
        (take k (names_of document.now.tree)) (entry item.now.name item.now.tree)) }
{
    match at {
        CommandPlace::Command(name) => command_beyond(name, document, k, item),
        CommandPlace::UpdateItem => field_beyond(Holder::UpdateItem, document, k, item),
        CommandPlace::DeleteItem => field_beyond(Holder::DeleteItem, document, k, item),
        CommandPlace::Projection => projection_beyond(item),
        CommandPlace::Chosen => chosen_beyond(item),
        CommandPlace::Bounds => said_beyond(item),
        CommandPlace::Keys => said_beyond(item),
        CommandPlace::IndexKeys => index_beyond(item),
        CommandPlace::Own(own) => own_beyond(own, item),
        CommandPlace::Filter(at) => filter_beyond(at, item),
        CommandPlace::Update(at) => update_beyond(at, item),
        CommandPlace::Inserts => None,
        CommandPlace::Updates => None,
        CommandPlace::Deletes => None,
        CommandPlace::Fields(_listed) => None,
        CommandPlace::Indexes => None,
    }
}
