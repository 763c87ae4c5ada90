//! JSON values (RFC 8259) as BSON values.

ghost use Rattle.std.specs.Prelude.{◌≡◌, ◌+◌, Some, ◌∷◌, [], ◌<◌, ◌^◌, ◌++◌, IfOk, length};
ghost use Rattle.std.specs.Fmt.{decimal};
ghost use Rattle.serde_json.specs.View.{view, items_view, members_view};
ghost use Rattle.bson_tree.specs.View.{tree};
ghost use Rattle.bson_tree.specs.Tree.{leaf};
ghost use Rattle.bson_codec.specs.Layout.{string_bytes};
ghost use Rattle.ext_json.specs.Answered.{Converts};
ghost use Rattle.ext_json.specs.JsonTrees.{json_tree, array_items, object_items, number_tree};

use crate::binaries::{Wrapper, binary_value, uuid_value, wrapper_of};
use crate::stop::Stop;
use bson_codec::writing::append;
use bson_tree::{Body, Bytes, Kids, Value, types};
use fle_outside::Memory;
use itoa::Buffer;
use serde_json::{Map, Value as Json};
use std::alloc::Global;

/// The value that a JSON value stands for; `Malformed` exactly where something in it is malformed.
#[cycle(convert)]
pub fn convert(alloc: Global, value: &Json) -> Result<Value, Stop>
    ensures converts { Converts tree result (json_tree (view value.now)) }
{
    match value {
        Json::Null => raw_value(alloc, types::NULL, &[]),
        Json::Bool(truth) => raw_value(alloc, types::BOOL, &[*truth as u8]),
        Json::Number(number) => number_value(alloc, number.as_i64()),
        Json::String(text) => string_value(alloc, text.as_str().as_bytes()),
        Json::Array(items) => match convert_items(alloc, items) {
            Ok(kids) => Ok(Value {
                tag: types::ARRAY,
                body: Body::Kids(kids),
            }),
            Err(stop) => Err(stop),
        },
        Json::Object(members) => match wrapper_of(value, members) {
            Wrapper::Binary(found) => binary_value(alloc, found),
            Wrapper::Uuid(found) => uuid_value(alloc, found),
            Wrapper::Plain => match convert_members(alloc, members) {
                Ok(kids) => Ok(Value {
                    tag: types::DOCUMENT,
                    body: Body::Kids(kids),
                }),
                Err(stop) => Err(stop),
            },
        },
    }
}

// What the items of an array stand for, each under its number as the name.
#[cycle(convert)]
fn convert_items(alloc: Global, items: &Vec<Json>) -> Result<Kids, Stop>
    ensures { Converts (λ k. k) result (array_items 0 (items_view items.now.items)) }
{
    let mut kids = Kids::new(alloc);
    for item in items {
        let name = index_name(alloc, kids.len())?;
        let value = convert(alloc, item)?;
        match kids.push(name, value) {
            Ok(()) => {}
            Err(_) => return Err(Stop::Memory),
        }
    }
    Ok(kids)
}

// What the members of an object stand for, each under its own name.
#[cycle(convert)]
fn convert_members(alloc: Global, members: &Map<String, Json>) -> Result<Kids, Stop>
    ensures { Converts (λ k. k) result (object_items (members_view members.now.entries)) }
{
    let mut kids = Kids::new(alloc);
    for (key, member) in members.iter() {
        let name = copied(alloc, key.as_str().as_bytes())?;
        let value = convert(alloc, member)?;
        match kids.push(name, value) {
            Ok(()) => {}
            Err(_) => return Err(Stop::Memory),
        }
    }
    Ok(kids)
}

// The name of an array's element: its number in decimal digits.
fn index_name(alloc: Global, index: usize) -> Result<Bytes, Stop>
    ensures { Converts (λ b. b) result (Some (decimal index)) }
{
    let mut buffer = Buffer::new();
    copied(alloc, buffer.format(index).as_bytes())
}

// The same bytes in memory of their own.
fn copied(alloc: Global, bytes: &[u8]) -> Result<Bytes, Stop>
    ensures { Converts (λ b. b) result (Some bytes.now) }
{
    match Bytes::from_slice(alloc, bytes) {
        Ok(copy) => Ok(copy),
        Err(_) => Err(Stop::Memory),
    }
}

// The value of this type that the bytes spell.
fn raw_value(alloc: Global, tag: u8, bytes: &[u8]) -> Result<Value, Stop>
    ensures { Converts tree result (Some (leaf tag bytes.now)) }
{
    match Bytes::from_slice(alloc, bytes) {
        Ok(copy) => Ok(Value {
            tag,
            body: Body::Raw(copy),
        }),
        Err(_) => Err(Stop::Memory),
    }
}

// An integer of 64 signed bits, or undefined for any other number.
fn number_value(alloc: Global, number: Option<i64>) -> Result<Value, Stop>
    ensures { Converts tree result (Some (number_tree number)) }
{
    match number {
        None => raw_value(alloc, types::UNDEFINED, &[]),
        Some(integer) => integer_value(alloc, integer),
    }
}

// An int where 32 signed bits hold the integer, else a long.
fn integer_value(alloc: Global, integer: i64) -> Result<Value, Stop>
    ensures { Converts tree result (Some (number_tree (Some integer))) }
{
    if integer >= -0x8000_0000 && integer <= 0x7FFF_FFFF {
        raw_value(alloc, types::INT, &(integer as i32).to_le_bytes())
    } else {
        raw_value(alloc, types::LONG, &integer.to_le_bytes())
    }
}

// A string. A text whose length needs more than 31 bits, which no string has, is told as want of memory.
fn string_value(alloc: Global, text: &[u8]) -> Result<Value, Stop>
    ensures { Converts tree result (Some (leaf 0x02 (string_bytes text.now))) }
{
    if text.len() >= 0x7FFF_FFFF {
        return Err(Stop::Memory);
    }
    match laid_out(alloc, text) {
        Ok(bytes) => Ok(Value {
            tag: types::STRING,
            body: Body::Raw(Bytes::from_vec(bytes)),
        }),
        Err(_) => Err(Stop::Memory),
    }
}

// The bytes of a string (BSON 1.1): the number of those behind it, the text, a 00.
fn laid_out(alloc: Global, text: &[u8]) -> Result<Vec<u8>, Memory>
    requires { length text.now + 1 < 2 ^ 31 }
    ensures { IfOk result (λ v. v.items ≡ string_bytes text.now) }
{
    let mut out = Vec::new(alloc);
    let size = text.len() as u32 + 1;
    append(&mut out, &size.to_le_bytes())?;
    append(&mut out, text)?;
    append(&mut out, &[0])?;
    Ok(out)
}
