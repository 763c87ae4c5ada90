//! Which values of commands are marked, and where commands are refused.

use crate::documents::{document_of, rows_of};
use bson_codec::RawDoc;
use command_marker::{Target, mark_command, target};
use encrypt_schema::{Mark, MarkFault, Reason, Role, Rows};
use sample_documents::{
    ARRAY, NESTED, NO_DOCUMENTS, NULL, NUMBER, OTHER_DB, PEOPLE_SCHEMA, PING, SET, STAFF,
};
use std::alloc::Global;

/// `{insert: "people", documents: [{ssn: "x", n: 1, salary: 7}], $db: "hr"}`.
const TWO: &[u8] =
    b"Z\x00\x00\x00\x02insert\x00\x07\x00\x00\x00people\x00\x04documents\x00+\x00\x00\x00\
\x030\x00#\x00\x00\x00\x02ssn\x00\x02\x00\x00\x00x\x00\x10n\x00\x01\x00\x00\x00\x10s\
alary\x00\x07\x00\x00\x00\x00\x00\x02$db\x00\x03\x00\x00\x00hr\x00\x00";

/// `{insert: "people", documents: [{salary: an empty binary of subtype 06}], $db: "hr"}`.
const SEALED: &[u8] =
    b"I\x00\x00\x00\x02insert\x00\x07\x00\x00\x00people\x00\x04documents\x00\x1a\x00\x00\
\x00\x030\x00\x12\x00\x00\x00\x05salary\x00\x00\x00\x00\x00\x06\x00\x00\x02$db\x00\
\x03\x00\x00\x00hr\x00\x00";

/// `{insert: "people", documents: [], documents: [], $db: "hr"}`.
const TWICE: &[u8] =
    b"D\x00\x00\x00\x02insert\x00\x07\x00\x00\x00people\x00\x04documents\x00\x05\x00\x00\
\x00\x00\x04documents\x00\x05\x00\x00\x00\x00\x02$db\x00\x03\x00\x00\x00hr\x00\x00";

/// `{insert: "people", documents: [1], $db: "hr"}`.
const NO_DOCUMENT: &[u8] =
    b";\x00\x00\x00\x02insert\x00\x07\x00\x00\x00people\x00\x04documents\x00\x0c\x00\x00\
\x00\x100\x00\x01\x00\x00\x00\x00\x02$db\x00\x03\x00\x00\x00hr\x00\x00";

/// `{aggregate: "people", $db: "hr"}`.
pub(crate) const AGGREGATE: &[u8] =
    b"'\x00\x00\x00\x02aggregate\x00\x07\x00\x00\x00people\x00\x02$db\x00\x03\x00\x00\x00h\
r\x00\x00";

/// `{insert: "", $db: "hr"}`.
const NO_NAME: &[u8] =
    b"\x1e\x00\x00\x00\x02insert\x00\x01\x00\x00\x00\x00\x02$db\x00\x03\x00\x00\x00hr\x00\x00";

/// `{insert: "people", insert: "people", $db: "hr"}`.
const AGAIN: &[u8] =
    b"7\x00\x00\x00\x02insert\x00\x07\x00\x00\x00people\x00\x02insert\x00\x07\x00\x00\x00p\
eople\x00\x02$db\x00\x03\x00\x00\x00hr\x00\x00";

/// `{insert: "people", $db: "hr", $db: "hr"}`.
const TWO_DBS: &[u8] =
    b"0\x00\x00\x00\x02insert\x00\x07\x00\x00\x00people\x00\x02$db\x00\x03\x00\x00\x00hr\
\x00\x02$db\x00\x03\x00\x00\x00hr\x00\x00";

/// `{find: "people", filter: {ssn: "x"}, $db: "hr"}`.
const FIND: &[u8] =
    b":\x00\x00\x00\x02find\x00\x07\x00\x00\x00people\x00\x03filter\x00\x10\x00\x00\x00\
\x02ssn\x00\x02\x00\x00\x00x\x00\x00\x02$db\x00\x03\x00\x00\x00hr\x00\x00";

/// `{delete: "people", deletes: [{q: {ssn: {$not: {$eq: "x"}}}, limit: int 1}], $db: "hr"}`.
const DELETE: &[u8] =
    b"m\x00\x00\x00\x02delete\x00\x07\x00\x00\x00people\x00\x04deletes\x00@\x00\x00\x00\
\x030\x008\x00\x00\x00\x03q\x00%\x00\x00\x00\x03ssn\x00\x1b\x00\x00\x00\x03$not\x00\
\x10\x00\x00\x00\x02$eq\x00\x02\x00\x00\x00x\x00\x00\x00\x00\x10limit\x00\x01\x00\
\x00\x00\x00\x00\x02$db\x00\x03\x00\x00\x00hr\x00\x00";

/// What becomes of a command.
#[derive(Clone, Copy, Debug, PartialEq, Eq)]
pub(crate) enum Outcome {
    /// This many values are marked; the last of them.
    Marked(usize, Option<Mark>),
    /// It is refused for this reason at this offset.
    Refused(Reason, u32),
    /// It passes.
    Passed,
}

/// The outcome of a refusal; `None` where there was no memory.
pub(crate) fn refusal(fault: MarkFault) -> Option<Outcome> {
    match fault {
        MarkFault::Refused { reason, at } => Some(Outcome::Refused(reason, at)),
        MarkFault::Memory => None,
    }
}

/// What becomes of a command of the database `hr` under these rules; `None` where there was no memory.
pub(crate) fn outcome_of(alloc: Global, rows: &Rows, command: RawDoc<'_>) -> Option<Outcome> {
    match target(b"hr", &command) {
        Ok(Target::Pass) => Some(Outcome::Passed),
        Ok(Target::Collection(_)) => match mark_command(alloc, rows, command) {
            Ok(marked) => {
                let count = marked.marks().len();
                Some(Outcome::Marked(count, marked.marks().get(count.saturating_sub(1))))
            }
            Err(fault) => refusal(fault),
        },
        Err(fault) => refusal(fault),
    }
}

/// What becomes of a command of the database `hr` under a schema; `None` where that couldn't be tried.
fn what_becomes(alloc: Global, schema: &[u8], command: &[u8]) -> Option<Outcome> {
    let rows = rows_of(alloc, schema)?;
    outcome_of(alloc, &rows, document_of(command)?)
}

/// Whether a command of the database `hr` is refused under a schema, for this reason at this offset.
fn is_refused(alloc: Global, schema: &[u8], command: &[u8], reason: Reason, at: u32) -> bool {
    what_becomes(alloc, schema, command) == Some(Outcome::Refused(reason, at))
}

/// One mark of a stored value.
pub(crate) fn stored(start: u32, end: u32, tag: u8, policy: u32) -> Option<Mark> {
    Some(Mark {
        start,
        end,
        tag,
        policy,
        role: Role::Store,
        name: None,
    })
}

/// One mark of a compared value.
pub(crate) fn compared(start: u32, end: u32, tag: u8, policy: u32) -> Option<Mark> {
    Some(Mark {
        start,
        end,
        tag,
        policy,
        role: Role::Compare,
        name: None,
    })
}

#[test]
fn protected_values_are_marked(rt: HostRuntime) {
    let cases: &[(&[u8], &[u8], Outcome)] = &[
        (STAFF, NESTED, Outcome::Marked(1, stored(54, 58, 0x10, 0))),
        (STAFF, NUMBER, Outcome::Marked(0, None)),
        (
            PEOPLE_SCHEMA,
            TWO,
            Outcome::Marked(2, stored(71, 75, 0x10, 1)),
        ),
    ];
    for (schema, command, expected) in cases {
        assert!(rt; what_becomes(rt.alloc(), schema, command) == Some(*expected));
    }
}

#[test]
fn compared_and_updated_values_are_marked(rt: HostRuntime) {
    let cases: &[(&[u8], &[u8], Option<Mark>)] = &[
        (PEOPLE_SCHEMA, FIND, compared(38, 44, 0x02, 0)),
        (PEOPLE_SCHEMA, DELETE, compared(74, 80, 0x02, 0)),
        (STAFF, SET, stored(72, 76, 0x10, 0)),
    ];
    for (schema, command, mark) in cases {
        let marked = what_becomes(rt.alloc(), schema, command);
        assert!(rt; marked == Some(Outcome::Marked(1, *mark)));
    }
}

#[test]
fn contents_are_refused_where_they_stand(rt: HostRuntime) {
    let cases: &[(&[u8], &[u8], Reason, u32)] = &[
        (STAFF, ARRAY, Reason::ArrayOnPath, 47),
        (PEOPLE_SCHEMA, NULL, Reason::TypeNotAllowed, 50),
        (PEOPLE_SCHEMA, SEALED, Reason::AlreadyEncrypted, 53),
        (PEOPLE_SCHEMA, NO_DOCUMENTS, Reason::BadField, 0),
        (PEOPLE_SCHEMA, TWICE, Reason::BadField, 50),
        (PEOPLE_SCHEMA, NO_DOCUMENT, Reason::BadField, 41),
    ];
    for (schema, command, reason, at) in cases {
        assert!(rt; is_refused(rt.alloc(), schema, command, *reason, *at));
    }
}

#[test]
fn fields_are_refused_before_contents(rt: HostRuntime) {
    let cases: &[(&[u8], Reason, u32)] = &[
        (OTHER_DB, Reason::WrongDb, 44),
        (AGGREGATE, Reason::NotACommand, 15),
        (b"\x05\x00\x00\x00\x00", Reason::NotACommand, 0),
        (NO_NAME, Reason::BadField, 12),
        (AGAIN, Reason::BadField, 31),
        (TWO_DBS, Reason::BadField, 40),
    ];
    for (command, reason, at) in cases {
        assert!(rt; is_refused(rt.alloc(), PEOPLE_SCHEMA, command, *reason, *at));
    }
}

#[test]
fn a_command_passes_whatever_its_database(rt: HostRuntime) {
    assert!(rt; what_becomes(rt.alloc(), PEOPLE_SCHEMA, PING) == Some(Outcome::Passed));
}
