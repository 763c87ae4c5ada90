//! Collection infos from a JSON text (RFC 8259).

ghost use Rattle.std.specs.Prelude.{◌≡◌, ◌≤◌, ◌+◌, ◌*◌, ◌++◌, [], length, Some, None, IfErr, IfOk, OnOk};
ghost use Rattle.serde_json.specs.View.{view, items_view};
ghost use Rattle.bson_tree.specs.Spelling.{doc_bytes};
ghost use Rattle.bson_tree.specs.Tree.{Items, node};
ghost use Rattle.bson_tree.specs.View.{tree};
ghost use Rattle.bson_codec.specs.Layout.{longest};
ghost use Rattle.ext_json.specs.Answered.{Answers, Converts};
ghost use Rattle.ext_json.specs.Infos.{document_in, document_of, infos_in, json_infos, member_of, members_of};
ghost use Rattle.ext_json.specs.PutMember.{IsPut};

use crate::converting::convert;
use crate::fault::JsonFault;
use crate::stop::Stop;
use bson_codec::writing::append;
use bson_codec::{encode, well_formed};
use bson_tree::{Body, Doc, Kids, Value, types};
use serde_json::{Category, Value as Json};
use std::alloc::Global;

// The bytes of all infos are at most so many.
const LONGEST: usize = 67_108_864;

/// The bytes of the documents of the array that the text is, one after another: what a file of collection infos in
/// BSON holds. `Syntax` and `Form` exactly where the text has that fault.
pub fn infos_from_json(alloc: Global, text: &[u8]) -> Result<Vec<u8>, JsonFault>
    ensures infos { Answers (λ v. v.items) result (json_infos text.now) }
    ensures small { IfOk result (λ v. length v.items ≤ longest) }
{
    match Json::from_slice(alloc, text) {
        Ok(value) => infos_of(alloc, &value),
        Err(error) => match error.classify() {
            Category::Memory => Err(JsonFault::Memory),
            _ => Err(JsonFault::Syntax),
        },
    }
}

// The bytes of the documents of the array that a value is; `Form` of document 0 where it is no array.
fn infos_of(alloc: Global, value: &Json) -> Result<Vec<u8>, JsonFault>
    ensures infos { Answers (λ v. v.items) result (infos_in (Some (view value.now))) }
    ensures small { IfOk result (λ v. length v.items ≤ longest) }
{
    match value {
        Json::Array(items) => members_in(alloc, items),
        _ => Err(JsonFault::Form { document: 0 }),
    }
}

// The bytes of the members' documents, one after another, or the number of the first that has none that fits.
fn members_in(alloc: Global, items: &Vec<Json>) -> Result<Vec<u8>, JsonFault>
    ensures infos { Answers (λ v. v.items) result (members_of 1 [] (items_view items.now.items)) }
    ensures small { IfOk result (λ v. length v.items ≤ longest) }
{
    let mut out = Vec::new(alloc);
    let mut number = 1;
    for item in items {
        match put_member(alloc, &mut out, item) {
            Ok(()) => {}
            Err(Stop::Malformed) => return Err(JsonFault::Form { document: number }),
            Err(Stop::Memory) => return Err(JsonFault::Memory),
        }
        number += 1;
    }
    Ok(out)
}

// Appends the document of a member; `Malformed` exactly where it has none that fits.
fn put_member(alloc: Global, out: &mut Vec<u8>, item: &Json) -> Result<(), Stop>
    requires { length out.old.items ≤ longest }
    ensures put { OnOk result (IsPut out.old.items out.new.items (view item.now)) }
    ensures none { IfErr result (λ e. e ≡ Stop.Malformed → member_of (length out.old.items) (view item.now) ≡ None) }
{
    let document = member_document(alloc, item)?;
    if !well_formed(&document) {
        return Err(Stop::Malformed);
    }
    let bytes = match encode(alloc, &document) {
        Ok(bytes) => bytes,
        Err(_) => return Err(Stop::Memory),
    };
    if bytes.len() > LONGEST - out.len() {
        return Err(Stop::Malformed);
    }
    match append(out, &bytes) {
        Ok(()) => Ok(()),
        Err(_) => Err(Stop::Memory),
    }
}

// The document that a JSON value stands for; `Malformed` where it stands for none.
fn member_document(alloc: Global, item: &Json) -> Result<Doc, Stop>
    ensures { Converts (λ d. d.kids) result (document_of (view item.now)) }
{
    match convert(alloc, item) {
        Ok(value) => document_in(value),
        Err(stop) => Err(stop),
    }
}

// The document that a value is.
fn document_in(value: Value) -> Result<Doc, Stop>
    ensures { Converts (λ d. d.kids) result (document_in (tree value)) }
{
    let tag = value.tag;
    let body = value.body;
    match body {
        Body::Kids(kids) => document_by(tag, kids),
        Body::Raw(_) => Err(Stop::Malformed),
    }
}

// The document of these elements, where the type byte is a document's and not an array's.
fn document_by(tag: u8, kids: Kids) -> Result<Doc, Stop>
    ensures { Converts (λ d. d.kids) result (document_in (node tag kids)) }
{
    if tag == types::DOCUMENT {
        Ok(Doc { kids })
    } else {
        Err(Stop::Malformed)
    }
}
