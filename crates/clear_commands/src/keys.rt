//! The keys of an index.

ghost use Rattle.std.specs.Prelude.{◌≡◌, ◌==◌, ◌&&◌};
ghost use Rattle.bson_tree.specs.Tree.{tag_of};
ghost use Rattle.encrypt_schema.specs.Commands.ListedFields.{is_index_type};
ghost use Rattle.encrypt_schema.specs.Commands.Offences.{is_index_key, is_said, text_of};
ghost use Rattle.encrypt_schema.specs.Commands.Visits.{entry, raw_of};

use bson_codec::RawItem;
use bson_tree::types;
use encrypt_schema::is_named;

/// Whether a value of this type is a number or a bool.
#[tactic(auto, unfolding(encrypt_schema::specs::Commands::Offences::is_said))]
fn is_said(tag: u8) -> bool
    ensures { result ≡ is_said tag }
{
    tag == types::DOUBLE || tag == types::BOOL || tag == types::INT || tag == types::LONG
}

/// Whether this is the name of a type of index.
#[tactic(auto, unfolding(encrypt_schema::specs::Commands::ListedFields::is_index_type))]
fn is_index_type(text: &[u8]) -> bool
    ensures { result ≡ is_index_type text.now }
{
    if is_named(text, b"text") {
        return true;
    }
    if is_named(text, b"hashed") {
        return true;
    }
    if is_named(text, b"2d") {
        return true;
    }
    if is_named(text, b"2dsphere") {
        return true;
    }
    if is_named(text, b"geoHaystack") {
        return true;
    }
    false
}

/// Whether a value is the name of a type of index.
#[tactic(auto, using(crate::proofs::Texts::type_found, crate::proofs::Texts::type_none))]
fn names_type(item: &RawItem<'_>) -> bool
    ensures { result ≡ ((tag_of item.now.tree == 2) && is_index_type (text_of (raw_of item.now.tree))) }
{
    match item.text() {
        Some(text) => is_index_type(text),
        None => false,
    }
}

/// Whether the keys of an index may have this value: a number, a bool, or the name of a type of index.
#[tactic(auto, unfolding(encrypt_schema::specs::Commands::Offences::is_index_key))]
pub(crate) fn is_index_key(item: &RawItem<'_>) -> bool
    ensures { result ≡ is_index_key (entry item.now.name item.now.tree) }
{
    is_said(item.tag()) || names_type(item)
}
