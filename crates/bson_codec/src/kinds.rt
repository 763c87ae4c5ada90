//! Tests of values by their type.

ghost use Rattle.std.specs.Prelude.{◌≡◌};
ghost use Rattle.bson_codec.specs.Values.{is_array_value, is_document_value, is_string_value};

use crate::item::RawItem;
use bson_tree::types;

/// Whether the value is a string.
pub fn is_string(item: &RawItem<'_>) -> bool
    ensures string { result ≡ is_string_value item.now.tree }
{
    item.tag() == types::STRING
}

/// Whether the value is a document.
pub fn is_document(item: &RawItem<'_>) -> bool
    ensures document { result ≡ is_document_value item.now.tree }
{
    item.tag() == types::DOCUMENT
}

/// Whether the value is an array.
pub fn is_array(item: &RawItem<'_>) -> bool
    ensures array { result ≡ is_array_value item.now.tree }
{
    item.tag() == types::ARRAY
}
