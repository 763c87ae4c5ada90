//! Equal trees in memory of their own.

ghost use Rattle.std.specs.Prelude.{◌≡◌, IfOk};
ghost use Rattle.bson_tree.specs.View.{tree};

use crate::bytes::Bytes;
use crate::tree::{Body, Doc, Kids, Value};
use fle_outside::Memory;
use std::alloc::Global;

/// An equal document. `Memory` where there is none for it.
pub fn copy_doc(alloc: Global, document: &Doc) -> Result<Doc, Memory>
    ensures equal { IfOk result (λ d. d ≡ document.now) }
{
    let kids = copy_kids(alloc, &document.kids)?;
    Ok(Doc { kids })
}

// An equal value. `Memory` where there is none for it.
#[cycle(copy)]
fn copy_value(alloc: Global, value: &Value) -> Result<Value, Memory>
    ensures equal { IfOk result (λ v. v ≡ value.now) }
{
    let body = match &value.body {
        Body::Raw(bytes) => Body::Raw(Bytes::from_slice(alloc, bytes.as_slice())?),
        Body::Kids(kids) => Body::Kids(copy_kids(alloc, kids)?),
    };
    Ok(Value {
        tag: value.tag,
        body,
    })
}

// Equal elements in the same order. `Memory` where there is none for them.
#[cycle(copy)]
fn copy_kids(alloc: Global, kids: &Kids) -> Result<Kids, Memory>
    ensures equal { IfOk result (λ k. k ≡ kids.now) }
{
    let mut copies = Vec::new(alloc);
    for (name, value) in &kids.items {
        let name = Bytes::from_slice(alloc, name.as_slice())?;
        let value = copy_value(alloc, value)?;
        match copies.push((name, value)) {
            Ok(()) => {}
            Err(_) => return Err(Memory),
        }
    }
    Ok(Kids { items: copies })
}
