//! Trees written as bytes: elements first, and a document's length when they stand.

ghost use Rattle.std.specs.Prelude.{◌≡◌, ◌<◌, ◌^◌, ◌++◌, length, IfOk, OnOk};
ghost use Rattle.bson_tree.specs.Spelling.{value_bytes, items_bytes, doc_bytes};
ghost use Rattle.bson_tree.specs.Tree.{after};
ghost use Rattle.bson_tree.specs.View.{tree};
ghost use Rattle.bson_codec.specs.Layout.{IsWellFormed};

use crate::writing::{append, close, open, put_name};
use bson_tree::{Body, Doc, Kids, Value};
use fle_outside::Memory;
use std::alloc::Global;

/// The bytes that spell a document. `Memory` where there is none for them.
pub fn encode(alloc: Global, document: &Doc) -> Result<Vec<u8>, Memory>
    requires { IsWellFormed document.now.kids }
    ensures spelling { IfOk result (λ v. v.items ≡ doc_bytes document.now.kids) }
{
    let mut out = Vec::new(alloc);
    put_document(&mut out, &document.kids)?;
    Ok(out)
}

/// Appends the bytes that spell a value, fewer than 2^31. `Memory` where there is none for them.
#[cycle(put)]
pub fn put_value(out: &mut Vec<u8>, value: &Value) -> Result<(), Memory>
    requires { length (value_bytes (tree value.now)) < 2 ^ 31 }
    ensures appended { OnOk result (out.new.items ≡ out.old.items ++ value_bytes (tree value.now)) }
{
    match &value.body {
        Body::Raw(bytes) => append(out, bytes.as_slice()),
        Body::Kids(kids) => put_document(out, kids),
    }
}

// Appends the bytes that spell a document, fewer than 2^31. `Memory` where there is none for them.
#[cycle(put)]
#[tactic(auto, using(bson_tree::proofs::Sizes::framed_size))]
fn put_document(out: &mut Vec<u8>, kids: &Kids) -> Result<(), Memory>
    requires { length (doc_bytes kids.now) < 2 ^ 31 }
    ensures appended { OnOk result (out.new.items ≡ out.old.items ++ doc_bytes kids.now) }
{
    let at = out.len();
    open(out)?;
    put_items(out, kids)?;
    close(out, at)?;
    Ok(())
}

// Appends the bytes that spell the elements, fewer than 2^31. `Memory` where there is none for them.
#[cycle(put)]
#[tactic(auto, using(bson_tree::proofs::Sizes::element_size))]
fn put_items(out: &mut Vec<u8>, kids: &Kids) -> Result<(), Memory>
    requires { length (items_bytes kids.now) < 2 ^ 31 }
    ensures appended { OnOk result (out.new.items ≡ out.old.items ++ items_bytes kids.now) }
{
    for i in 0..kids.len() {
        let (name, value) = kids.item(i);
        put_name(out, value.tag, name.as_slice())?;
        put_value(out, value)?;
    }
    Ok(())
}
