//! The elements of a reply that are read: `hasEncryptionPlaceholders`, `schemaRequiresEncryption` and `result`.

ghost use Rattle.std.specs.Prelude.{◌≡◌, ◌+◌, [], codes, option_map, length, take};
ghost use Rattle.encrypt_schema.specs.Commands.Visits.{names_of};
ghost use Rattle.encrypt_schema.specs.Language.Names.{named};
ghost use Rattle.reply_check.specs.Wrong.{field, first_misshapen, is_misshapen, type_read};

use bson_codec::{RawDoc, RawItem};
use bson_tree::types;
use encrypt_schema::{is_named, stands_before};

/// Whether this is the name of the first flag, `hasEncryptionPlaceholders`.
fn is_first(name: &[u8]) -> bool
    ensures named { result ≡ named name.now (codes "hasEncryptionPlaceholders") }
{
    is_named(name, b"hasEncryptionPlaceholders")
}

/// Whether this is the name of the second flag, `schemaRequiresEncryption`.
fn is_second(name: &[u8]) -> bool
    ensures named { result ≡ named name.now (codes "schemaRequiresEncryption") }
{
    is_named(name, b"schemaRequiresEncryption")
}

/// Whether this is the name of the result, `result`.
fn is_result(name: &[u8]) -> bool
    ensures named { result ≡ named name.now (codes "result") }
{
    is_named(name, b"result")
}

/// The type that an element of this name has to have; `None` where it isn't read.
#[tactic(auto, unfolding(crate::specs::Wrong::type_read))]
fn type_read(name: &[u8]) -> Option<u8>
    ensures read { result ≡ type_read name.now }
{
    if is_first(name) {
        return Some(types::BOOL);
    }
    if is_second(name) {
        return Some(types::BOOL);
    }
    if is_result(name) {
        return Some(types::DOCUMENT);
    }
    None
}

/// Whether element `k` of a reply, counted from 0, is read, and has another type or stands behind one of its name.
fn is_misshapen(reply: &RawDoc<'_>, k: usize, item: &RawItem<'_>) -> bool
    ensures misshapen { result ≡ is_misshapen (take k (names_of reply.now.tree)) item.now.name item.now.tree }
{
    match type_read(item.name()) {
        Some(tag) => item.tag() != tag || stands_before(reply, k, item.name()),
        None => false,
    }
}

/// Where the value of the first misshapen element of a reply begins.
pub(crate) fn first_misshapen(reply: &RawDoc<'_>) -> Option<u32>
    ensures first { result ≡ first_misshapen [] (reply.now.start + 4) reply.now.tree }
{
    let mut k = 0;
    for item in reply.items() {
        let _ = item.value();
        if is_misshapen(reply, k, &item) {
            return Some(item.start() as u32);
        }
        k += 1;
    }
    None
}

/// The first element of a reply that has this name.
fn field<'a>(reply: &RawDoc<'a>, name: &[u8]) -> Option<RawItem<'a>>
    ensures field { option_map (λ x. x) result ≡ field name.now (reply.now.start + 4) reply.now.tree }
{
    for item in reply.items() {
        if is_named(item.name(), name) {
            return Some(item);
        }
    }
    None
}

/// The first flag of a reply.
pub(crate) fn first_flag<'a>(reply: &RawDoc<'a>) -> Option<RawItem<'a>>
    ensures field { option_map (λ x. x) result
        ≡ field (codes "hasEncryptionPlaceholders") (reply.now.start + 4) reply.now.tree }
{
    field(reply, b"hasEncryptionPlaceholders")
}

/// The second flag of a reply.
pub(crate) fn second_flag<'a>(reply: &RawDoc<'a>) -> Option<RawItem<'a>>
    ensures field { option_map (λ x. x) result
        ≡ field (codes "schemaRequiresEncryption") (reply.now.start + 4) reply.now.tree }
{
    field(reply, b"schemaRequiresEncryption")
}

/// The result of a reply.
pub(crate) fn result_of<'a>(reply: &RawDoc<'a>) -> Option<RawItem<'a>>
    ensures field { option_map (λ x. x) result ≡ field (codes "result") (reply.now.start + 4) reply.now.tree }
{
    field(reply, b"result")
}
