//! The filter by which a caller asks for the infos of a collection.

ghost use Rattle.std.specs.Prelude.{◌≡◌, ◌+◌, ◌<◌, ◌≤◌, ◌^◌, ◌++◌, ◌∷◌, [], codes, length, IfOk, OnOk};
ghost use Rattle.bson_tree.specs.Spelling.{doc_bytes, items_bytes};
ghost use Rattle.context_machine.specs.Asks.{collection_filter, text};
ghost use Rattle.bson_tree.specs.Tree.{item, no_items};

use bson_codec::writing::{append, close, open, put_name};
use bson_tree::types;
use fle_outside::Memory;
use std::alloc::Global;

/// More bytes than the name of a collection has: a document has at most 67,108,864.
const LONGEST: usize = 100_000_000;

/// The filter `{name: collection}`. `Memory` where there is none for it; so also for a name of more than 100,000,000
/// bytes, which no document has room for.
pub(crate) fn collection_filter(alloc: Global, name: &[u8]) -> Result<Vec<u8>, Memory>
    ensures filter { IfOk result (λ out. out.items ≡ doc_bytes (collection_filter name.now)) }
{
    if name.len() > LONGEST {
        return Err(Memory);
    }
    let mut out = Vec::new(alloc);
    open(&mut out)?;
    put_collection(&mut out, name)?;
    close(&mut out, 0)?;
    Ok(out)
}

/// Appends the field `name`.
fn put_collection(out: &mut Vec<u8>, name: &[u8]) -> Result<(), Memory>
    requires short { length name.now ≤ 100000000 }
    ensures put { OnOk result (out.new.items ≡ out.old.items
        ++ items_bytes (item (codes "name") (text name.now) no_items)) }
    ensures size { OnOk result (length out.new.items ≡ length out.old.items + (length name.now + 11)) }
{
    put_string(out, b"name", name)
}

/// Appends a string under a name.
fn put_string(out: &mut Vec<u8>, field: &[u8], string: &[u8]) -> Result<(), Memory>
    requires short { length string.now ≤ 100000000 }
    ensures put { OnOk result (out.new.items
        ≡ out.old.items ++ items_bytes (item field.now (text string.now) no_items)) }
    ensures size { OnOk result (length out.new.items
        ≡ length out.old.items + (length field.now + length string.now + 7)) }
{
    put_name(out, types::STRING, field)?;
    append(out, &(string.len() as u32 + 1).to_le_bytes())?;
    append(out, string)?;
    append(out, &[0])?;
    Ok(())
}
