//! What a value is by its type, and by those of its elements.

ghost use Rattle.std.specs.Prelude.{◌≡◌};
ghost use Rattle.bson_tree.specs.Tree.{kids_of};
ghost use Rattle.encrypt_schema.specs.Language.Values.{all_values};
ghost use Rattle.clear_commands.specs.ClearVerdicts.{is_branch, is_flat, is_list, is_word};

use bson_codec::{RawDoc, RawItem, is_array, is_document};

/// Whether a value is a document or an array.
pub(crate) fn is_branch(item: &RawItem<'_>) -> bool
    ensures { result ≡ is_branch item.now.tree }
{
    is_document(item) || is_array(item)
}

/// Whether no element is a document or an array.
fn are_words(document: &RawDoc<'_>) -> bool
    ensures { result ≡ all_values is_word document.now.tree }
{
    for item in document.items() {
        if is_branch(&item) {
            return false;
        }
    }
    true
}

/// Whether what a value holds has no elements.
fn is_flat(item: &RawItem<'_>) -> bool
    ensures { result ≡ is_flat item.now.tree }
{
    match item.child() {
        Some(document) => are_words(&document),
        None => true,
    }
}

/// Whether what each element holds has no elements.
fn are_flat(document: &RawDoc<'_>) -> bool
    ensures { result ≡ all_values is_flat document.now.tree }
{
    for item in document.items() {
        if !is_flat(&item) {
            return false;
        }
    }
    true
}

/// Whether what each element of a value holds has no elements.
fn holds_flat(item: &RawItem<'_>) -> bool
    ensures { result ≡ all_values is_flat (kids_of item.now.tree) }
{
    match item.child() {
        Some(document) => are_flat(&document),
        None => true,
    }
}

/// Whether a value is no document, and no array but one of flat values.
pub(crate) fn is_list(item: &RawItem<'_>) -> bool
    ensures { result ≡ is_list item.now.tree }
{
    !is_document(item) && holds_flat(item)
}
