//! Commands that stand inside another document: offsets are those of the bytes that were checked.

use crate::documents::{document_of, rows_of};
use crate::marker::reply_tests::reply_of;
use crate::marker::target_tests::{AGGREGATE, Outcome, outcome_of, stored};
use bson_codec::RawDoc;
use encrypt_schema::Reason;
use sample_documents::{NESTED, NESTED_REPLY, NO_DOCUMENTS, NULL, OTHER_DB, PEOPLE_SCHEMA, STAFF};
use std::alloc::Global;

/// `{c: ..}` around a document, which then begins at 7.
fn around(alloc: Global, document: &[u8]) -> Option<Vec<u8>> {
    if document.len() > 1000 {
        return None;
    }
    let size = document.len() as u32 + 8;
    let mut out = Vec::new(alloc);
    out.extend_from_slice(&size.to_le_bytes()).ok()?;
    out.extend_from_slice(b"\x03c\x00").ok()?;
    out.extend_from_slice(document).ok()?;
    out.push(0).ok()?;
    Some(out)
}

/// The document in the first field of one.
fn inside<'a>(document: &RawDoc<'a>) -> Option<RawDoc<'a>> {
    let field = document.items().next()?;
    field.child()
}

/// What becomes of a command of the database `hr` under a schema, where it begins at 7; `None` where that couldn't be
/// tried.
fn what_becomes(alloc: Global, schema: &[u8], command: &[u8]) -> Option<Outcome> {
    let rows = rows_of(alloc, schema)?;
    let bytes = around(alloc, command)?;
    let document = document_of(&bytes)?;
    outcome_of(alloc, &rows, inside(&document)?)
}

/// The reply to an insert of the database `hr` under a schema, where it begins at 7; `None` where there is none.
fn what_is_replied(alloc: Global, schema: &[u8], command: &[u8]) -> Option<Vec<u8>> {
    let rows = rows_of(alloc, schema)?;
    let bytes = around(alloc, command)?;
    let document = document_of(&bytes)?;
    reply_of(alloc, &rows, inside(&document)?)
}

#[test]
fn values_are_marked_by_the_offsets_of_what_was_checked(rt: HostRuntime) {
    let marked = what_becomes(rt.alloc(), STAFF, NESTED);
    assert!(rt; marked == Some(Outcome::Marked(1, stored(61, 65, 0x10, 0))));
}

#[test]
fn values_are_refused_by_the_offsets_of_what_was_checked(rt: HostRuntime) {
    let cases: &[(&[u8], Reason, u32)] = &[
        (NULL, Reason::TypeNotAllowed, 57),
        (OTHER_DB, Reason::WrongDb, 51),
        (AGGREGATE, Reason::NotACommand, 22),
    ];
    for (command, reason, at) in cases {
        let refused = what_becomes(rt.alloc(), PEOPLE_SCHEMA, command);
        assert!(rt; refused == Some(Outcome::Refused(*reason, *at)));
    }
}

#[test]
fn a_command_itself_is_refused_at_0_wherever_it_begins(rt: HostRuntime) {
    let cases: &[(&[u8], Reason)] = &[
        (NO_DOCUMENTS, Reason::BadField),
        (b"\x05\x00\x00\x00\x00", Reason::NotACommand),
    ];
    for (command, reason) in cases {
        let refused = what_becomes(rt.alloc(), PEOPLE_SCHEMA, command);
        assert!(rt; refused == Some(Outcome::Refused(*reason, 0)));
    }
}

#[test]
fn the_reply_is_that_of_the_command_by_itself(rt: HostRuntime) {
    let reply = what_is_replied(rt.alloc(), STAFF, NESTED);
    assert!(rt; matches!(&reply, Some(bytes) if bytes.as_slice() == NESTED_REPLY));
}
