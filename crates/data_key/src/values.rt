//! Values of some types.

ghost use Rattle.std.specs.Prelude.{◌≡◌, option_copied, option_map, Some};
ghost use Rattle.bson_codec.specs.Values.{text_value};
ghost use Rattle.data_key.specs.Values.{are_strings, contents_of, of_length, uuid_of};

use bson_codec::{RawDoc, RawItem};
use bson_tree::{subtypes, types};

/// The subtype of a binary that is no more than bytes.
pub(crate) const GENERIC: u8 = 0x00;

/// Whether each value is a string.
pub(crate) fn are_strings(document: &RawDoc<'_>) -> bool
    ensures { result ≡ are_strings document.now.tree }
{
    for item in document.items() {
        if item.tag() != types::STRING {
            return false;
        }
    }
    true
}

/// The text of a string.
#[tactic(auto, using(crate::proofs::Texts::text_is))]
pub(crate) fn text_of<'a>(item: &RawItem<'a>) -> Option<&'a [u8]>
    ensures { option_copied result ≡ text_value item.now.tree }
{
    item.text()
}

/// The contents of a binary of this subtype.
pub(crate) fn contents_of<'a>(subtype: u8, item: &RawItem<'a>) -> Option<&'a [u8]>
    ensures { option_copied result ≡ contents_of subtype item.now.tree }
{
    let (found, contents) = item.binary()?;
    if found == subtype {
        Some(contents)
    } else {
        None
    }
}

/// The 16 bytes of a UUID.
pub(crate) fn uuid_of(item: &RawItem<'_>) -> Option<[u8; 16]>
    ensures { result ≡ uuid_of item.now.tree }
{
    let contents = contents_of(subtypes::UUID, item)?;
    array_of(contents)
}

/// The 16 bytes, where there are so many.
fn array_of(bytes: &[u8]) -> Option<[u8; 16]>
    ensures { result ≡ of_length 16 (Some bytes.now) }
{
    if bytes.len() != 16 {
        return None;
    }
    let mut array = [0; 16];
    array.copy_from_slice(bytes);
    Some(array)
}
