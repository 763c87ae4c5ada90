//! MongoDB Extended JSON v2, "Type wrapper objects": JSON objects that stand for binaries.

ghost use Rattle.std.specs.Prelude.{◌≡◌, ◌+◌, ◌∷◌, ◌++◌, [], ◌<◌, ◌^◌, ℕ, List, Some, None, IfOk, length};
ghost use Rattle.std.specs.Prelude.{option_map, option_and_then, codes};
ghost use Rattle.serde_json.specs.Data.{object};
ghost use Rattle.serde_json.specs.Find.{as_str};
ghost use Rattle.serde_json.specs.View.{view, members_view};
ghost use Rattle.bson_tree.specs.View.{tree};
ghost use Rattle.bson_codec.specs.Layout.{binary_bytes};
ghost use Rattle.ext_json.specs.Answered.{Converts};
ghost use Rattle.ext_json.specs.Binaries as spec;
ghost use Rattle.ext_json.specs.JsonTrees.{binary_tree};
ghost use Rattle.ext_json.specs.WrapperView.{IsWrapper};

use crate::stop::Stop;
use base64::DecodeAllocError;
use base64::engine::general_purpose::STANDARD;
use bson_codec::writing::append;
use bson_tree::{Body, Bytes, Value, subtypes, types};
use fle_outside::Memory;
use serde_json::{Map, Value as Json};
use std::alloc::Global;
use uuid::Uuid;

/// What an object stands for.
pub enum Wrapper<'a> {
    /// A document.
    Plain,
    /// The binary that stands under `$binary`.
    Binary(&'a Json),
    /// The UUID that stands under `$uuid`.
    Uuid(&'a Json),
}

/// What an object stands for, by its single name.
#[tactic(auto, using(crate::proofs::Members::count_is))]
pub fn wrapper_of<'a>(value: &'a Json, members: &Map<String, Json>) -> Wrapper<'a>
    requires { view value.now ≡ object (members_view members.now.entries) }
    ensures wrapper { IsWrapper (spec.wrapped (members_view members.now.entries)) result }
{
    if members.len() != 1 {
        return Wrapper::Plain;
    }
    if let Some(found) = value.get("$binary") {
        return Wrapper::Binary(found);
    }
    if let Some(found) = value.get("$uuid") {
        return Wrapper::Uuid(found);
    }
    Wrapper::Plain
}

/// The binary of the text of a UUID.
pub fn uuid_value(alloc: Global, found: &Json) -> Result<Value, Stop>
    ensures converts { Converts tree result (option_map binary_tree (spec.uuid_of (view found.now))) }
{
    let Some(text) = found.as_str() else {
        return Err(Stop::Malformed);
    };
    match Uuid::parse_str(text) {
        Ok(id) => value_of(alloc, subtypes::UUID, id.as_bytes()),
        Err(_) => Err(Stop::Malformed),
    }
}

/// The binary of an object of exactly the texts `base64` and `subType`.
pub fn binary_value(alloc: Global, found: &Json) -> Result<Value, Stop>
    ensures converts { Converts tree result (option_map binary_tree (spec.binary_of (view found.now))) }
{
    match found {
        Json::Object(members) => match texts_in(found, members) {
            Some((base64, subtype)) => decoded(alloc, base64, subtype),
            None => Err(Stop::Malformed),
        },
        _ => Err(Stop::Malformed),
    }
}

// The texts `base64` and `subType` of an object that has exactly these two members.
#[tactic(auto, using(crate::proofs::Members::count_is))]
fn texts_in<'a>(found: &'a Json, members: &Map<String, Json>) -> Option<(&'a str, &'a str)>
    requires { view found.now ≡ object (members_view members.now.entries) }
    ensures { option_map (λ t. (t.0.now, t.1.now)) result ≡ spec.texts_in (members_view members.now.entries) }
{
    if members.len() != 2 {
        return None;
    }
    let base64 = text_of(found.get("base64"))?;
    let subtype = text_of(found.get("subType"))?;
    Some((base64, subtype))
}

// The text that a member is; `None` where there is no such member or it is no text.
fn text_of<'a>(found: Option<&'a Json>) -> Option<&'a str>
    ensures { option_map (λ t. t.now) result ≡ option_and_then (λ v. as_str (view v.now)) found.entry }
{
    match found {
        Some(value) => value.as_str(),
        None => None,
    }
}

// The binary of the contents in base64 and the subtype's digits; `Malformed` where one of them has another form.
fn decoded(alloc: Global, base64: &str, subtype: &str) -> Result<Value, Stop>
    ensures { Converts tree result (option_map binary_tree (spec.binary_in base64.now subtype.now)) }
{
    let Some(kind) = subtype_in(subtype) else {
        return Err(Stop::Malformed);
    };
    match STANDARD.decode(alloc, base64.as_bytes()) {
        Ok(bytes) => value_of(alloc, kind, &bytes),
        Err(DecodeAllocError::OutOfMemory) => Err(Stop::Memory),
        Err(DecodeAllocError::DecodeError(_)) => Err(Stop::Malformed),
    }
}

// The byte of exactly two hexadecimal digits, of any case.
fn subtype_in(text: &str) -> Option<u8>
    ensures { result ≡ spec.subtype_in text.now }
{
    let mut byte = [0u8; 1];
    match hex::decode_to_slice(text.as_bytes(), &mut byte) {
        Ok(()) => Some(byte[0]),
        Err(_) => None,
    }
}

// A binary. Contents of 2^31 bytes or more, which no binary has, are told as want of memory.
fn value_of(alloc: Global, kind: u8, contents: &[u8]) -> Result<Value, Stop>
    ensures { Converts tree result (Some (binary_tree (kind, contents.now))) }
{
    if contents.len() >= 0x8000_0000 {
        return Err(Stop::Memory);
    }
    match laid_out(alloc, kind, contents) {
        Ok(bytes) => Ok(Value {
            tag: types::BINARY,
            body: Body::Raw(Bytes::from_vec(bytes)),
        }),
        Err(_) => Err(Stop::Memory),
    }
}

// The bytes of a binary (BSON 1.1): the number of its contents, the subtype, the contents.
fn laid_out(alloc: Global, kind: u8, contents: &[u8]) -> Result<Vec<u8>, Memory>
    requires { length contents.now < 2 ^ 31 }
    ensures { IfOk result (λ v. v.items ≡ binary_bytes kind contents.now) }
{
    let mut out = Vec::new(alloc);
    let size = contents.len() as u32;
    append(&mut out, &size.to_le_bytes())?;
    append(&mut out, &[kind])?;
    append(&mut out, contents)?;
    Ok(out)
}
