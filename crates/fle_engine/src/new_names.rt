//! The names of a new key, from a document.

ghost use Rattle.std.specs.Prelude.{◌≡◌, ◌≤◌, ◌++◌, ◌∷◌, [], IfOk, OnOk, length, map, option_copied, string_bytes};
ghost use Rattle.bson_codec.specs.Values.{text_value};
ghost use Rattle.data_key.specs.Written.{size_of as names_size};
ghost use Rattle.fle_engine.specs.NewNames.{TextsAre, named_texts, names_said, new_names, texts_in, utf8_text};

use crate::key_stop::KeyStop;
use bson_codec::{RawDoc, RawItem, is_array};
use fle_outside::Memory;
use fle_words::are_names;
use std::alloc::Global;
use std::str;

/// The names in a document, such as `keygen` accepts.
pub fn read_names(alloc: Global, document: &RawDoc<'_>) -> Result<Vec<String>, KeyStop>
    ensures read { TextsAre (new_names document.now.tree) result }
    ensures number { IfOk result (λ texts. length texts.items ≤ 1000) }
    ensures small { IfOk result (λ texts. names_size (map string_bytes texts.items) ≤ 15999840) }
{
    match names_said(alloc, document) {
        Ok(texts) => if are_names(&texts) {
            Ok(texts)
        } else {
            Err(KeyStop::Names)
        },
        Err(stop) => Err(stop),
    }
}

/// The names in a document: of its only element, `keyAltNames`; none where it is empty.
fn names_said(alloc: Global, document: &RawDoc<'_>) -> Result<Vec<String>, KeyStop>
    ensures read { TextsAre (names_said document.now.tree) result }
{
    let mut items = document.items();
    match items.next() {
        Some(item) => match items.next() {
            Some(_) => Err(KeyStop::Names),
            None => named_texts(alloc, &item),
        },
        None => Ok(Vec::new(alloc)),
    }
}

/// The names in an element.
fn named_texts(alloc: Global, item: &RawItem<'_>) -> Result<Vec<String>, KeyStop>
    ensures read { TextsAre (named_texts item.now.name item.now.tree) result }
{
    if item.name() != b"keyAltNames".as_slice() || !is_array(item) {
        return Err(KeyStop::Names);
    }
    let Some(array) = item.child() else {
        return Err(KeyStop::Names);
    };
    texts_in(alloc, &array)
}

/// The texts of an array, each of UTF-8.
#[tactic(auto, using(crate::proofs::NewTexts::before_none, crate::proofs::NewTexts::all_texts))]
fn texts_in(alloc: Global, array: &RawDoc<'_>) -> Result<Vec<String>, KeyStop>
    ensures read { TextsAre (texts_in array.now.tree) result }
{
    let mut texts = Vec::new(alloc);
    for item in array.items() {
        let Some(text) = utf8_of(&item) else {
            return Err(KeyStop::Names);
        };
        match push_text(alloc, &mut texts, text) {
            Ok(()) => {}
            Err(Memory) => return Err(KeyStop::Memory),
        }
    }
    Ok(texts)
}

/// The text of a string of UTF-8.
#[tactic(auto, using(crate::proofs::NewTexts::utf8_is, crate::proofs::NewTexts::utf8_isnt))]
fn utf8_of<'a>(item: &RawItem<'a>) -> Option<&'a str>
    ensures text { option_copied result ≡ utf8_text (text_value item.now.tree) }
{
    let text = text_of(item)?;
    match str::from_utf8(text) {
        Ok(text) => Some(text),
        Err(_) => None,
    }
}

/// The bytes of a string.
#[tactic(auto, using(data_key::proofs::Texts::text_is))]
fn text_of<'a>(item: &RawItem<'a>) -> Option<&'a [u8]>
    ensures text { option_copied result ≡ text_value item.now.tree }
{
    item.text()
}

/// Appends a copy of a text.
fn push_text(alloc: Global, texts: &mut Vec<String>, text: &str) -> Result<(), Memory>
    ensures put { OnOk result (map string_bytes texts.new.items ≡ map string_bytes texts.old.items ++ text.now ∷ []) }
{
    let Ok(copy) = String::from_str(alloc, text) else {
        return Err(Memory);
    };
    if texts.push(copy).is_err() {
        return Err(Memory);
    }
    Ok(())
}
