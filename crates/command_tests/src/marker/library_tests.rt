//! Commands that a library alone takes: which of their values are marked, and where they are refused. The bytes and the
//! offsets were made by pymongo.

use crate::documents::{document_of, rows_of};
use crate::marker::target_tests::{Outcome, compared, outcome_of, refusal, stored};
use bson_codec::RawDoc;
use command_marker::{is_wide, mark_more};
use encrypt_schema::{Reason, Rows};
use sample_documents::{PEOPLE_SCHEMA, PING};
use std::alloc::Global;

/// `{findAndModify: "people", query: {ssn: "x"}, update: {$set: {ssn: "y"}}, sort: {ssn: int 1}, $db: "hr"}`.
const MODIFY: &[u8] =
    b"y\x00\x00\x00\x02findAndModify\x00\x07\x00\x00\x00people\x00\x03query\x00\x10\
\x00\x00\x00\x02ssn\x00\x02\x00\x00\x00x\x00\x00\x03update\x00\x1b\x00\x00\x00\x03$s\
et\x00\x10\x00\x00\x00\x02ssn\x00\x02\x00\x00\x00y\x00\x00\x00\x03sort\x00\x0e\x00\
\x00\x00\x10ssn\x00\x01\x00\x00\x00\x00\x02$db\x00\x03\x00\x00\x00hr\x00\x00";

/// `{findAndModify: "people", query: {}, remove: true, sort: {ssn: "x"}, $db: "hr"}`.
const ORDER: &[u8] =
    b"V\x00\x00\x00\x02findAndModify\x00\x07\x00\x00\x00people\x00\x03query\x00\x05\
\x00\x00\x00\x00\x08remove\x00\x01\x03sort\x00\x10\x00\x00\x00\x02ssn\x00\x02\x00\
\x00\x00x\x00\x00\x02$db\x00\x03\x00\x00\x00hr\x00\x00";

/// `{count: "people", query: {ssn: "x"}, limit: int 1, $db: "hr"}`.
const COUNT: &[u8] =
    b"E\x00\x00\x00\x02count\x00\x07\x00\x00\x00people\x00\x03query\x00\x10\x00\x00\
\x00\x02ssn\x00\x02\x00\x00\x00x\x00\x00\x10limit\x00\x01\x00\x00\x00\x02$db\x00\x03\
\x00\x00\x00hr\x00\x00";

/// `{distinct: "people", key: "salary", $db: "hr"}`.
const DISTINCT: &[u8] =
    b"6\x00\x00\x00\x02distinct\x00\x07\x00\x00\x00people\x00\x02key\x00\x07\x00\x00\
\x00salary\x00\x02$db\x00\x03\x00\x00\x00hr\x00\x00";

/// `{createIndexes: "people", indexes: [{key: {ssn: "text"}, name: "n"}], $db: "hr"}`.
const INDEX: &[u8] = b"e\x00\x00\x00\x02createIndexes\x00\x07\x00\x00\x00people\x00\x04indexes\x001\
\x00\x00\x00\x030\x00)\x00\x00\x00\x03key\x00\x13\x00\x00\x00\x02ssn\x00\x05\x00\x00\
\x00text\x00\x00\x02name\x00\x02\x00\x00\x00n\x00\x00\x00\x02$db\x00\x03\x00\x00\x00\
hr\x00\x00";

/// `{createIndexes: "people", indexes: [{key: {ssn: int 1}, partialFilterExpression: {}}], $db: "hr"}`.
const PARTIAL: &[u8] =
    b"r\x00\x00\x00\x02createIndexes\x00\x07\x00\x00\x00people\x00\x04indexes\x00>\
\x00\x00\x00\x030\x006\x00\x00\x00\x03key\x00\x0e\x00\x00\x00\x10ssn\x00\x01\x00\x00\
\x00\x00\x03partialFilterExpression\x00\x05\x00\x00\x00\x00\x00\x00\x02$db\x00\x03\
\x00\x00\x00hr\x00\x00";

/// `{find: "people", sort: {ssn: "x"}, $db: "hr"}`.
const FIND_BY_VALUE: &[u8] =
    b"8\x00\x00\x00\x02find\x00\x07\x00\x00\x00people\x00\x03sort\x00\x10\x00\x00\x00\x02s\
sn\x00\x02\x00\x00\x00x\x00\x00\x02$db\x00\x03\x00\x00\x00hr\x00\x00";

/// `{find: "people", projection: {ssn: {$slice: [int 1, "x"]}}, $db: "hr"}`.
const SLICE_BY_VALUE: &[u8] =
    b"Z\x00\x00\x00\x02find\x00\x07\x00\x00\x00people\x00\x03projection\x00,\x00\x00\x00\
\x03ssn\x00\x22\x00\x00\x00\x04$slice\x00\x15\x00\x00\x00\x100\x00\x01\x00\x00\x00\
\x021\x00\x02\x00\x00\x00x\x00\x00\x00\x00\x02$db\x00\x03\x00\x00\x00hr\x00\x00";

/// `{find: "people", lsid: {id: {ssn: "x"}}, $db: "hr"}`.
const FIND_IN_SESSION: &[u8] =
    b"A\x00\x00\x00\x02find\x00\x07\x00\x00\x00people\x00\x03lsid\x00\x19\x00\x00\x00\x03i\
d\x00\x10\x00\x00\x00\x02ssn\x00\x02\x00\x00\x00x\x00\x00\x00\x02$db\x00\x03\x00\x00\
\x00hr\x00\x00";

/// What a library makes of a command under these rules; `None` where it takes none such, or where there was no memory.
fn marked_for(alloc: Global, rows: &Rows, command: RawDoc<'_>) -> Option<Outcome> {
    if !is_wide(&command) {
        return None;
    }
    match mark_more(alloc, rows, command) {
        Ok(marked) => {
            let count = marked.marks().len();
            Some(Outcome::Marked(count, marked.marks().get(count.saturating_sub(1))))
        }
        Err(fault) => refusal(fault),
    }
}

/// The same under the rules of people; `None` also where that couldn't be tried.
fn what_becomes(alloc: Global, command: &[u8]) -> Option<Outcome> {
    let rows = rows_of(alloc, PEOPLE_SCHEMA)?;
    marked_for(alloc, &rows, document_of(command)?)
}

/// What the verbs say of a command.
fn verbs_say(alloc: Global, command: &[u8]) -> Option<Outcome> {
    let rows = rows_of(alloc, PEOPLE_SCHEMA)?;
    outcome_of(alloc, &rows, document_of(command)?)
}

#[test]
fn values_of_a_library_s_commands_are_marked(rt: HostRuntime) {
    let cases: &[(&[u8], Outcome)] = &[
        (MODIFY, Outcome::Marked(2, stored(80, 86, 0x02, 0))),
        (COUNT, Outcome::Marked(1, compared(38, 44, 0x02, 0))),
        (INDEX, Outcome::Marked(0, None)),
    ];
    for (command, expected) in cases {
        assert!(rt; what_becomes(rt.alloc(), command) == Some(*expected));
    }
}

#[test]
fn what_may_hold_a_value_is_refused(rt: HostRuntime) {
    let cases: &[(&[u8], Reason, u32)] = &[
        (ORDER, Reason::FieldNotAllowed, 66),
        (DISTINCT, Reason::BelowProtected, 30),
        (PARTIAL, Reason::FieldNotAllowed, 94),
        (FIND_BY_VALUE, Reason::FieldNotAllowed, 36),
        (SLICE_BY_VALUE, Reason::FieldNotAllowed, 68),
        (FIND_IN_SESSION, Reason::FieldNotAllowed, 35),
    ];
    for (command, reason, at) in cases {
        assert!(rt; what_becomes(rt.alloc(), command) == Some(Outcome::Refused(*reason, *at)));
    }
}

#[test]
fn the_verbs_know_none_of_them(rt: HostRuntime) {
    let cases: &[(&[u8], u32)] = &[(MODIFY, 19), (COUNT, 11), (DISTINCT, 14), (INDEX, 19)];
    for (command, at) in cases {
        assert!(rt;
            verbs_say(rt.alloc(), command) == Some(Outcome::Refused(Reason::NotACommand, *at))
        );
    }
}

#[test]
fn the_verbs_let_such_values_stand(rt: HostRuntime) {
    let cases: &[&[u8]] = &[FIND_BY_VALUE, SLICE_BY_VALUE, FIND_IN_SESSION];
    for command in cases {
        assert!(rt; verbs_say(rt.alloc(), command) == Some(Outcome::Marked(0, None)));
    }
}

#[test]
fn no_other_command_is_a_library_s(rt: HostRuntime) {
    let cases: &[&[u8]] = &[PING];
    for command in cases {
        assert!(rt; what_becomes(rt.alloc(), command).is_none());
    }
}
