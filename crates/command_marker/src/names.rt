//! Names of commands and of their fields.

ghost use Rattle.std.specs.Prelude.{◌≡◌, ◌||◌, codes};
ghost use Rattle.bson_tree.specs.Tree.{kids_of};
ghost use Rattle.encrypt_schema.specs.Language.Names.{is_among, named};
ghost use Rattle.encrypt_schema.specs.Commands.Visits.{names_of};
ghost use Rattle.encrypt_schema.specs.Commands.Offences.{is_db};
ghost use Rattle.encrypt_schema.specs.Commands.Stations.{is_passed};
ghost use Rattle.command_marker.specs.Fields.{is_library_name, is_marked_name, is_wide_name};

use bson_codec::RawItem;
use encrypt_schema::{has_name, is_named};

/// Whether this is the name of the command `insert`.
pub(crate) fn is_insert(name: &[u8]) -> bool
    ensures { result ≡ named name.now (codes "insert") }
{
    is_named(name, b"insert")
}

/// Whether this is the name of the command `update`.
pub(crate) fn is_update(name: &[u8]) -> bool
    ensures { result ≡ named name.now (codes "update") }
{
    is_named(name, b"update")
}

/// Whether this is the name of the command `delete`.
pub(crate) fn is_delete(name: &[u8]) -> bool
    ensures { result ≡ named name.now (codes "delete") }
{
    is_named(name, b"delete")
}

/// Whether this is the name of the command `find`.
fn is_find(name: &[u8]) -> bool
    ensures { result ≡ named name.now (codes "find") }
{
    is_named(name, b"find")
}

/// Whether this is the name of the command `count`.
pub(crate) fn is_count(name: &[u8]) -> bool
    ensures { result ≡ named name.now (codes "count") }
{
    is_named(name, b"count")
}

/// Whether this is the name of the command `findAndModify`.
pub(crate) fn is_find_and_modify(name: &[u8]) -> bool
    ensures { result ≡ named name.now (codes "findAndModify") }
{
    is_named(name, b"findAndModify")
}

/// Whether this is the name of a command whose values are protected.
#[tactic(auto, using(crate::proofs::Targets::marked_name))]
pub(crate) fn is_marked(name: &[u8]) -> bool
    ensures { result ≡ is_marked_name name.now }
{
    is_insert(name) || is_update(name) || is_delete(name) || is_find(name)
}

/// Whether this is the name of the command `distinct`.
pub(crate) fn is_distinct(name: &[u8]) -> bool
    ensures { result ≡ named name.now (codes "distinct") }
{
    is_named(name, b"distinct")
}

/// Whether this is the name of the command `createIndexes`.
fn is_create_indexes(name: &[u8]) -> bool
    ensures { result ≡ named name.now (codes "createIndexes") }
{
    is_named(name, b"createIndexes")
}

/// Whether this is one of the names of a library's commands.
fn is_one_of_a_library(name: &[u8]) -> bool
    ensures { result ≡ (named name.now (codes "count") || (named name.now (codes "findAndModify")
        || (named name.now (codes "distinct") || named name.now (codes "createIndexes")))) }
{
    is_count(name) || is_find_and_modify(name) || is_distinct(name) || is_create_indexes(name)
}

/// Whether this is the name of a command that a library alone takes.
pub(crate) fn is_library_name(name: &[u8]) -> bool
    ensures { result ≡ is_library_name name.now }
{
    if is_marked(name) {
        return false;
    }
    if is_passed(name) {
        return false;
    }
    is_one_of_a_library(name)
}

/// Whether this is the name of a command that a library takes.
pub(crate) fn is_wide_name(name: &[u8]) -> bool
    ensures { result ≡ is_wide_name name.now }
{
    is_marked(name) || is_library_name(name)
}

/// Whether this is the name of a command that passes unchanged.
#[tactic(auto, unfolding(encrypt_schema::specs::Commands::Stations::is_passed))]
pub(crate) fn is_passed(name: &[u8]) -> bool
    ensures { result ≡ is_passed name.now }
{
    if is_named(name, b"ping") {
        return true;
    }
    if is_named(name, b"hello") {
        return true;
    }
    if is_named(name, b"getMore") {
        return true;
    }
    if is_named(name, b"killCursors") {
        return true;
    }
    if is_named(name, b"endSessions") {
        return true;
    }
    if is_named(name, b"listCollections") {
        return true;
    }
    if is_named(name, b"commitTransaction") {
        return true;
    }
    if is_named(name, b"abortTransaction") {
        return true;
    }
    false
}

/// Whether this is the name of the database's field.
#[tactic(auto, unfolding(encrypt_schema::specs::Commands::Offences::is_db))]
pub(crate) fn is_db(name: &[u8]) -> bool
    ensures { result ≡ is_db name.now }
{
    is_named(name, b"$db")
}

/// Whether this is the name of the documents' field.
pub(crate) fn is_documents(name: &[u8]) -> bool
    ensures { result ≡ named name.now (codes "documents") }
{
    is_named(name, b"documents")
}

/// Whether this is the name of an update's items.
pub(crate) fn is_updates(name: &[u8]) -> bool
    ensures { result ≡ named name.now (codes "updates") }
{
    is_named(name, b"updates")
}

/// Whether this is the name of a delete's items.
pub(crate) fn is_deletes(name: &[u8]) -> bool
    ensures { result ≡ named name.now (codes "deletes") }
{
    is_named(name, b"deletes")
}

/// Whether this is the name of a find's filter.
pub(crate) fn is_filter(name: &[u8]) -> bool
    ensures { result ≡ named name.now (codes "filter") }
{
    is_named(name, b"filter")
}

/// Whether this is the name of a find's projection.
pub(crate) fn is_projection(name: &[u8]) -> bool
    ensures { result ≡ named name.now (codes "projection") }
{
    is_named(name, b"projection")
}

/// Whether this is the name of a command's variables.
pub(crate) fn is_let(name: &[u8]) -> bool
    ensures { result ≡ named name.now (codes "let") }
{
    is_named(name, b"let")
}

/// Whether this is the name of a find's lower bound.
pub(crate) fn is_min(name: &[u8]) -> bool
    ensures { result ≡ named name.now (codes "min") }
{
    is_named(name, b"min")
}

/// Whether this is the name of a find's upper bound.
pub(crate) fn is_max(name: &[u8]) -> bool
    ensures { result ≡ named name.now (codes "max") }
{
    is_named(name, b"max")
}

/// Whether this is the name of an item's filter.
pub(crate) fn is_query(name: &[u8]) -> bool
    ensures { result ≡ named name.now (codes "q") }
{
    is_named(name, b"q")
}

/// Whether this is the name of an item's update.
pub(crate) fn is_change(name: &[u8]) -> bool
    ensures { result ≡ named name.now (codes "u") }
{
    is_named(name, b"u")
}

/// Whether this is the name of an item's array filters.
pub(crate) fn is_array_filters(name: &[u8]) -> bool
    ensures { result ≡ named name.now (codes "arrayFilters") }
{
    is_named(name, b"arrayFilters")
}

/// Whether this is the name of an item's constants.
pub(crate) fn is_constants(name: &[u8]) -> bool
    ensures { result ≡ named name.now (codes "c") }
{
    is_named(name, b"c")
}

/// Whether this is the operator that cuts an array.
pub(crate) fn is_slice(name: &[u8]) -> bool
    ensures { result ≡ named name.now (codes "$slice") }
{
    is_named(name, b"$slice")
}

/// Whether this is the operator that shows what a search tells.
pub(crate) fn is_meta(name: &[u8]) -> bool
    ensures { result ≡ named name.now (codes "$meta") }
{
    is_named(name, b"$meta")
}

/// Whether a value states a filter.
pub(crate) fn states_query(item: &RawItem<'_>) -> bool
    ensures { result ≡ is_among (codes "q") (names_of (kids_of item.now.tree)) }
{
    match item.child() {
        Some(inside) => has_name(&inside, b"q"),
        None => false,
    }
}

/// Whether a value states an update.
pub(crate) fn states_change(item: &RawItem<'_>) -> bool
    ensures { result ≡ is_among (codes "u") (names_of (kids_of item.now.tree)) }
{
    match item.child() {
        Some(inside) => has_name(&inside, b"u"),
        None => false,
    }
}
