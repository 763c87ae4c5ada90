//! The name that led to a key last. It may be megabytes long, and the name of each value's key: so the place where it
//! stands is compared with the next one's, and not its text.

ghost use Rattle.std.specs.Prelude.{◌≡◌, is_some, true, unwrap_or, IfSome, MatchOption, Some};
ghost use Rattle.payload6.specs.Needs.{need_seen};
ghost use Rattle.doc_rewrite.specs.Keys.{key_in};
ghost use Rattle.doc_rewrite.specs.LastNames.{found_last};
ghost use Rattle.doc_rewrite.specs.Sealed.{any_key};

use crate::key_table::{KeyTable, key_for};
use encrypt_schema::Span;
use fle_aead::DataKey;
use payload6::Need;

/// Where a name stands in a document, and the entry of a table that it leads to.
#[derive(Clone, Copy)]
pub(crate) struct LastName<'k> {
    /// Where it stands.
    pub(crate) span: Span,
    /// The id of the entry.
    pub(crate) id: [u8; 16],
    /// The key of the entry.
    pub(crate) key: &'k DataKey,
}

/// The key to which a need leads, which is there, with its id: where its name stands in the place of the last one, what
/// that led to; else what is found.
pub(crate) fn key_by<'k>(
    keys: &'k KeyTable,
    last: Option<LastName<'k>>,
    name: Option<Span>,
    need: Need<'_>,
) -> ([u8; 16], &'k DataKey)
    requires there { is_some (key_in keys.now (need_seen need)) ≡ true }
    requires last { IfSome last (λ l. name ≡ Some l.span
        → key_in keys.now (need_seen need) ≡ Some (found_last l)) }
    ensures key { record { id = result.0; key = result.1.now }
        ≡ unwrap_or (key_in keys.now (need_seen need.entry)) any_key }
{
    match (last, name) {
        (Some(last), Some(span)) => if last.span == span {
            (last.id, last.key)
        } else {
            key_for(keys, need)
        },
        _ => key_for(keys, need),
    }
}

/// The last name, behind a value whose key has this name, if any, and was found.
pub(crate) fn last_behind<'k>(
    last: Option<LastName<'k>>,
    name: Option<Span>,
    found: ([u8; 16], &'k DataKey),
) -> Option<LastName<'k>>
    ensures last { MatchOption name (result ≡ last.entry)
        (λ span. result ≡ Some (record { span = span; id = found.entry.0; key = found.entry.1 })) }
{
    match name {
        Some(span) => Some(LastName {
            span,
            id: found.0,
            key: found.1,
        }),
        None => last,
    }
}
