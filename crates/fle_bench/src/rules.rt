//! The names of a document looked up among the rules of a schema.

ghost use Rattle.std.specs.Prelude.{◌≡◌, ◌<◌, ◌≤◌, length};
ghost use Rattle.fle_bench.specs.Protected.{is_protected, protected_names};

use bson_codec::{RawDoc, first_doc};
use encrypt_schema::{Class, Infos, Rows};
use std::alloc::Global;

/// How many names of a document are those of rules, counted some times over. The bytes are those of one
/// collection info, of the collection `people`, and of the document; 0 where they aren't.
pub fn run(alloc: Global, bytes: &[u8], turns: u32) -> u32
    requires { length bytes.now ≤ 67108864 }
{
    let Ok((info, rest)) = first_doc(bytes) else {
        return 0;
    };
    let Ok((document, _)) = first_doc(rest) else {
        return 0;
    };
    let Ok(infos) = Infos::load(alloc, info.bytes()) else {
        return 0;
    };
    match infos.info_of(b"people") {
        Some(people) => count(people.rows(), &document, turns),
        None => 0,
    }
}

/// The names of a document that are those of rules, counted some times over.
fn count(rows: &Rows, document: &RawDoc<'_>, turns: u32) -> u32
    ensures { 0 < turns → result ≡ protected_names rows.now document.now.tree }
{
    let mut names = 0;
    for _turn in 0..turns {
        names = protected_names(rows, document);
    }
    names
}

/// How many names of a document are those of rules.
fn protected_names(rows: &Rows, document: &RawDoc<'_>) -> u32
    ensures { result ≡ protected_names rows.now document.now.tree }
{
    let mut names = 0;
    for item in document.items() {
        if is_protected(rows, item.name()) {
            names += 1;
        }
    }
    names
}

/// Whether the name is that of a rule.
fn is_protected(rows: &Rows, name: &[u8]) -> bool
    ensures { result ≡ is_protected rows.now name.now }
{
    match rows.class(rows.step(rows.root(), name)) {
        Class::Protected(_) => true,
        _ => false,
    }
}
