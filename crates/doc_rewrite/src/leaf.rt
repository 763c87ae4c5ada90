//! Whether a raw value is a payload.

ghost use Rattle.std.specs.Prelude.{◌≡◌};
ghost use Rattle.bson_tree.specs.Spelling.{value_bytes};
ghost use Rattle.bson_tree.specs.Tree.{leaf, tag_of};
ghost use Rattle.doc_rewrite.specs.Leaves.{LeafIs};

use bson_codec::RawItem;
use bson_tree::subtypes;
use payload6::{PartsFault, Payload, parts};

/// What a value is that is neither a document nor an array.
pub(crate) enum Leaf<'a> {
    /// No payload.
    Other,
    /// A payload.
    Payload(Payload<'a>),
    /// What begins as a payload does and has a length that none has.
    Misshapen,
}

/// Whether a raw value is a payload: a binary of subtype 06 whose contents begin with 1 or 2.
pub(crate) fn leaf_of<'a>(item: &RawItem<'a>) -> Leaf<'a>
    requires raw { item.now.tree ≡ leaf (tag_of item.now.tree) (value_bytes item.now.tree) }
    ensures is { LeafIs item.now.tree result }
{
    let (subtype, contents) = match item.binary() {
        Some(binary) => binary,
        None => return Leaf::Other,
    };
    if subtype != subtypes::ENCRYPTED {
        return Leaf::Other;
    }
    match parts(contents) {
        Ok(payload) => Leaf::Payload(payload),
        Err(PartsFault::Kind) => Leaf::Other,
        Err(PartsFault::Short) => Leaf::Misshapen,
    }
}
