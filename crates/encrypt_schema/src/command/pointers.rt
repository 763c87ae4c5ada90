//! JSON pointers that name keys (RFC 6901, section 4): where those of rules lead in a stored document.

ghost use Rattle.std.specs.Prelude.{◌≡◌, ◌+◌, [], None, Some, IfErr, IfOk, option_map};
ghost use Rattle.bson_tree.specs.Tree.{node};
ghost use Rattle.encrypt_schema.specs.Commands.Offences.{pointer_offence};
ghost use Rattle.encrypt_schema.specs.Commands.Pointers.{nth_span, only, target_in, target_of};
ghost use Rattle.encrypt_schema.specs.Commands.Stations.{Store};
ghost use Rattle.encrypt_schema.specs.Paths.Classes.{class};
ghost use Rattle.encrypt_schema.specs.Paths.Dotted.{is_clear};
ghost use Rattle.encrypt_schema.specs.Views.Walking.{targets_seen};

use crate::command::marks::Span;
use crate::command::reason::Reason;
use crate::path::class::Class;
use crate::path::rows::Rows;
use crate::schema::names::is_named;
use crate::schema::policy::KeyRef;
use bson_codec::{RawDoc, RawItem};
use bson_tree::{Bytes, types};

/// The only element of this name; `None` where there are none or several.
#[tactic(auto, using(crate::proofs::Commands::Only::left_is))]
pub(crate) fn find_only<'a>(document: &RawDoc<'a>, word: &[u8]) -> Option<RawItem<'a>>
    ensures only { result ≡ only word.now (document.now.start + 4) document.now.tree }
{
    let mut found = None;
    for item in document.items() {
        if is_named(word, item.name()) {
            if found.is_some() {
                return None;
            }
            found = Some(item);
        }
    }
    found
}

/// Where the text of a string stands; `None` exactly where the value is none.
#[tactic(auto, using(crate::proofs::Commands::PointerSpans::strings))]
fn text_span(item: &RawItem<'_>) -> Option<Span>
    ensures span { result ≡ option_map (λ t. t.span) (target_in [] item.now.start item.now.tree) }
{
    let _ = item.value();
    match item.text() {
        Some(text) => {
            let start = item.start() as u32 + 4;
            let end = start + text.len() as u32;
            Some(Span { start, end })
        }
        None => None,
    }
}

/// Where the text stands to which names lead from a document.
#[cycle(pointer)]
fn span_from(document: &RawDoc<'_>, names: &[Bytes]) -> Option<Span>
    ensures span { result ≡ option_map (λ t. t.span)
        (target_in names.now document.now.start (node 3 document.now.tree)) }
{
    match names {
        [] => None,
        [name, others @ ..] => match find_only(document, name.as_slice()) {
            Some(item) => span_in(&item, others),
            None => None,
        },
    }
}

/// The same from a value.
#[tactic(auto, using(crate::proofs::Commands::PointerSpans::no_document_span))]
#[cycle(pointer)]
fn span_in(item: &RawItem<'_>, names: &[Bytes]) -> Option<Span>
    ensures span { result ≡ option_map (λ t. t.span) (target_in names.now item.now.start item.now.tree) }
{
    match names {
        [] => text_span(item),
        [_, ..] => {
            if item.tag() != types::DOCUMENT {
                return None;
            }
            match item.child() {
                Some(document) => span_from(&document, names),
                None => None,
            }
        }
    }
}

/// Whether no rule concerns a path.
fn is_clear_path(rows: &Rows, names: &[Bytes]) -> bool
    ensures clear { result ≡ is_clear (class rows.now names.now) }
{
    let mut at = rows.root();
    for name in names {
        at = rows.step(at, name.as_slice());
    }
    match rows.class(at) {
        Class::Clear => true,
        _ => false,
    }
}

/// Where the target of a key's pointer stands in a document.
fn span_of(rows: &Rows, document: &RawDoc<'_>, key: &KeyRef) -> Option<Span>
    ensures span { result ≡ option_map (λ t. t.span)
        (target_of rows.now document.now.start document.now.tree key.now) }
{
    match key {
        KeyRef::Id(_) => None,
        KeyRef::Pointer(names) => {
            if is_clear_path(rows, names.as_slice()) {
                span_from(document, names.as_slice())
            } else {
                None
            }
        }
    }
}

/// Where the text stands that names the key of the rule of this number, where its key is a pointer, by the document
/// from which pointers are read; `PointerBad` where the rule has a pointer and its target isn't there.
#[tactic(auto, using(crate::proofs::Commands::PointerSpans::names))]
pub(crate) fn name_under(
    rows: &Rows,
    root: &Option<RawDoc<'_>>,
    i: u32,
) -> Result<Option<Span>, Reason>
    ensures name { IfOk result (λ name. name ≡ nth_span i (targets_seen rows.now root.now)) }
    ensures clean { IfOk result (λ _. None ≡ pointer_offence rows.now (targets_seen rows.now root.now) (Store i)) }
    ensures refused { IfErr result (λ reason.
        Some reason ≡ pointer_offence rows.now (targets_seen rows.now root.now) (Store i)) }
{
    let Some(policy) = rows.policy(i) else {
        return Ok(None);
    };
    let KeyRef::Pointer(_) = &policy.key else {
        return Ok(None);
    };
    let Some(document) = root else {
        return Err(Reason::PointerBad);
    };
    match span_of(rows, document, &policy.key) {
        Some(span) => Ok(Some(span)),
        None => Err(Reason::PointerBad),
    }
}
