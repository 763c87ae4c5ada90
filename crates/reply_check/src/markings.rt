//! Markings as they stand in a reply: `v`, `a`, and `ki` or `ka`, in any order.

ghost use Rattle.std.specs.Prelude.{◌≡◌, ◌++◌, ◌∷◌, [], List, ℕ, ◌+◌, length, bytes_eq, MatchOption};
ghost use Rattle.std.specs.Int.{to_le_bytes, w32};
ghost use Rattle.std.specs.List.{list_any};
ghost use Rattle.bson_tree.specs.Spelling.{doc_bytes, value_bytes};
ghost use Rattle.payload6.specs.Marking.{marking_fields};
ghost use Rattle.payload6.specs.Needs.{Name, need_bytes, need_seen};
ghost use Rattle.payload6.specs.Payload.{algorithm_number};
ghost use Rattle.reply_check.specs.Fields.{field_bytes, key_field};
ghost use Rattle.reply_check.specs.Ordered.{is_marking};
ghost use Rattle.reply_check.specs.Orders.{orders};

use bson_codec::RawItem;
use bson_tree::{subtypes, types};
use encrypt_schema::Algorithm;
use payload6::{Need, length_bytes};

/// How many bytes the document of a marking has more than its value and the key's id or name.
const DOCUMENT: usize = 24;

/// A field of a marking.
#[derive(Clone, Copy, Debug, PartialEq, Eq)]
pub(crate) enum Field {
    /// `v`: the value.
    Value,
    /// `a`: the algorithm's number.
    Algorithm,
    /// `ki`, the key's id, or `ka`, its alternate name.
    Key,
}

/// Whether a value of a reply is the marking of an element's value by this algorithm and key, its fields in any order.
pub(crate) fn is_marking(
    other: &RawItem<'_>,
    item: &RawItem<'_>,
    algorithm: Algorithm,
    need: Need<'_>,
) -> bool
    ensures marking { result ≡ is_marking (marking_fields algorithm (need_seen need.entry) item.now.tree)
        other.now.tree }
{
    let Some((subtype, contents)) = other.binary() else {
        return false;
    };
    if subtype != subtypes::ENCRYPTED {
        return false;
    }
    holds_marking(contents, item, algorithm, need)
}

/// Whether the contents of a binary are 00 and the document of this marking, its fields in any order.
fn holds_marking(contents: &[u8], item: &RawItem<'_>, algorithm: Algorithm, need: Need<'_>) -> bool
    ensures holds { result ≡ list_any (λ js. bytes_eq contents.now (0 ∷ doc_bytes js))
        (orders (marking_fields algorithm (need_seen need.entry) item.now.tree)) }
{
    let size = item.value().len() + need.len() + DOCUMENT;
    match behind_both(contents, &[0], &length_bytes(size)) {
        Some(fields) => are_fields(fields, item, algorithm, need),
        None => false,
    }
}

/// Whether these bytes are the fields of this marking in any order, and the document's last 00.
fn are_fields(bytes: &[u8], item: &RawItem<'_>, algorithm: Algorithm, need: Need<'_>) -> bool
    ensures fields { (contents : List ℕ)
        → contents ≡ (0 ∷ []) ++ (to_le_bytes w32
        (length (value_bytes item.now.tree) + length (need_bytes (need_seen need.entry)) + 24) ++ bytes.now)
        → result ≡ list_any (λ js. bytes_eq contents (0 ∷ doc_bytes js))
        (orders (marking_fields algorithm (need_seen need.entry) item.now.tree)) }
{
    let v = Field::Value;
    let a = Field::Algorithm;
    let k = Field::Key;
    if are_in_order(bytes, item, algorithm, need, v, a, k) {
        return true;
    }
    if are_in_order(bytes, item, algorithm, need, a, v, k) {
        return true;
    }
    if are_in_order(bytes, item, algorithm, need, a, k, v) {
        return true;
    }
    if are_in_order(bytes, item, algorithm, need, v, k, a) {
        return true;
    }
    if are_in_order(bytes, item, algorithm, need, k, v, a) {
        return true;
    }
    are_in_order(bytes, item, algorithm, need, k, a, v)
}

/// Whether these bytes are the fields of this marking in this order, and the document's last 00.
fn are_in_order(
    bytes: &[u8],
    item: &RawItem<'_>,
    algorithm: Algorithm,
    need: Need<'_>,
    first: Field,
    second: Field,
    third: Field,
) -> bool
    ensures order { result ≡ bytes_eq bytes.now (field_bytes algorithm (need_seen need.entry) item.now.tree first
        ++ (field_bytes algorithm (need_seen need.entry) item.now.tree second
        ++ (field_bytes algorithm (need_seen need.entry) item.now.tree third ++ 0 ∷ []))) }
{
    let Some(others) = behind_field(bytes, item, algorithm, need, first) else {
        return false;
    };
    let Some(last) = behind_field(others, item, algorithm, need, second) else {
        return false;
    };
    let Some(end) = behind_field(last, item, algorithm, need, third) else {
        return false;
    };
    is_end(end)
}

/// Whether this is the last 00 of a document.
fn is_end(bytes: &[u8]) -> bool
    ensures end { result ≡ bytes_eq bytes.now (0 ∷ []) }
{
    bytes == [0].as_slice()
}

/// What stands behind a field of this marking; `None` where the bytes don't begin with it.
fn behind_field<'a>(
    bytes: &'a [u8],
    item: &RawItem<'_>,
    algorithm: Algorithm,
    need: Need<'_>,
    field: Field,
) -> Option<&'a [u8]>
    ensures behind { MatchOption result
        ((rest : List ℕ) → bytes.entry.now
        ≡ field_bytes algorithm (need_seen need.entry) item.now.tree field ++ rest → ⊥)
        (λ x. bytes.entry.now ≡ field_bytes algorithm (need_seen need.entry) item.now.tree field ++ x.now) }
{
    match field {
        Field::Value => behind_both(bytes, &[item.tag(), b'v', 0], item.value()),
        Field::Algorithm => {
            behind_both(
                bytes,
                &[types::INT, b'a', 0, kind_of(algorithm), 0, 0, 0],
                &[],
            )
        }
        Field::Key => behind_key(bytes, need),
    }
}

/// What stands behind the field that names the key; `None` where the bytes don't begin with it.
fn behind_key<'a>(bytes: &'a [u8], need: Need<'_>) -> Option<&'a [u8]>
    ensures behind { MatchOption result
        ((rest : List ℕ) → bytes.entry.now ≡ key_field (need_seen need.entry) ++ rest → ⊥)
        (λ x. bytes.entry.now ≡ key_field (need_seen need.entry) ++ x.now) }
{
    match need {
        Need::Id(id) => behind_both(
            bytes,
            &[types::BINARY, b'k', b'i', 0, 16, 0, 0, 0, subtypes::UUID],
            &id,
        ),
        Need::Name(name) => behind_name(bytes, name),
    }
}

/// What stands behind the field `ka`; `None` where the bytes don't begin with it.
fn behind_name<'a>(bytes: &'a [u8], name: &[u8]) -> Option<&'a [u8]>
    ensures behind { MatchOption result
        ((rest : List ℕ) → bytes.entry.now ≡ key_field (Name name.now) ++ rest → ⊥)
        (λ x. bytes.entry.now ≡ key_field (Name name.now) ++ x.now) }
{
    let size = name.len() + 1;
    match behind_both(bytes, &[types::STRING, b'k', b'a', 0], &length_bytes(size)) {
        Some(text) => behind_both(text, name, &[0]),
        None => None,
    }
}

/// What stands behind two pieces of bytes; `None` where the bytes don't begin with them.
fn behind_both<'a>(bytes: &'a [u8], first: &[u8], second: &[u8]) -> Option<&'a [u8]>
    ensures behind { MatchOption result
        ((rest : List ℕ) → bytes.entry.now ≡ first.now ++ (second.now ++ rest) → ⊥)
        (λ x. bytes.entry.now ≡ first.now ++ (second.now ++ x.now)) }
{
    match behind(bytes, first) {
        Some(rest) => behind(rest, second),
        None => None,
    }
}

/// What stands behind a piece of bytes; `None` where the bytes don't begin with it.
fn behind<'a>(bytes: &'a [u8], front: &[u8]) -> Option<&'a [u8]>
    ensures behind { MatchOption result ((rest : List ℕ) → bytes.entry.now ≡ front.now ++ rest → ⊥)
        (λ x. bytes.entry.now ≡ front.now ++ x.now) }
{
    bytes.strip_prefix(front)
}

/// The number of an algorithm.
fn kind_of(algorithm: Algorithm) -> u8
    ensures kind { result ≡ algorithm_number algorithm }
{
    match algorithm {
        Algorithm::Deterministic => 1,
        Algorithm::Random => 2,
    }
}
