//! Whole runs over single commands: which are sealed, and for which reason and at which place the others
//! are refused.

use crate::runs::{accepts, document, refuses};
use sample_documents::reply_parts::FIRST_OFF;
use sample_documents::{
    ARRAY, INTO_UNKNOWN, INTO_VIEW, NESTED, NESTED_REPLY, NO_DOCUMENTS, NULL, NUMBER, OTHER_DB,
    PING,
};
use std::alloc::Global;
use std::process::Abort;

/// It sealed, 157 bytes.
const SEALED_NESTED: &[u8] =
    b"\x9d\x00\x00\x00\x02insert\x00\x06\x00\x00\x00staff\x00\x04documents\x00o\x00\x00\x00\x030\
     \x00g\x00\x00\x00\x03a\x00_\x00\x00\x00\x05b\x00R\x00\x00\x00\x06\x01\x00\x11\"3DUFw\x88\x99\
     \xaa\xbb\xcc\xdd\xee\xff\x10\xe3l\xf4%\xab\xb5\xe3auy\x1d&p\x08\xb9\xd921]\xe4\xd8[\x15b\xbdK\
     \xcbL]\x1dRY%we\x1f\xa6\xd1\xce\x8de\x90x\x16\x96\x04u\x89\xf65P\x1b'\xe5\xf0\xd6\xb9\xdc82\
     \xbd\xe9\xfd&\x00\x00\x00\x02$db\x00\x03\x00\x00\x00hr\x00\x00";

/// `{insert: "people", documents: [{}, {n: int 1, ssn: null}], $db: "hr"}`.
const SECOND: &[u8] =
    b"P\x00\x00\x00\x02insert\x00\x07\x00\x00\x00people\x00\x04documents\x00!\x00\x00\x00\
\x030\x00\x05\x00\x00\x00\x00\x031\x00\x11\x00\x00\x00\x10n\x00\x01\x00\x00\x00\x0as\
sn\x00\x00\x00\x02$db\x00\x03\x00\x00\x00hr\x00\x00";

/// `{insert: "people", documents: [{salary: a binary of subtype 06}], $db: "hr"}`.
const SEALED: &[u8] =
    b"L\x00\x00\x00\x02insert\x00\x07\x00\x00\x00people\x00\x04documents\x00\x1d\x00\x00\x00\x030\
     \x00\x15\x00\x00\x00\x05salary\x00\x03\x00\x00\x00\x06\x01\x02\x03\x00\x00\x02$db\x00\x03\x00\
     \x00\x00hr\x00\x00";

/// `{aggregate: "people", pipeline: [], cursor: {}}`.
const AGGREGATE: &[u8] =
    b"7\x00\x00\x00\x02aggregate\x00\x07\x00\x00\x00people\x00\x04pipeline\x00\x05\x00\x00\
\x00\x00\x03cursor\x00\x05\x00\x00\x00\x00\x00";

/// `{insert: "people", documents: [], $db: "hr", $db: "hr"}`.
const TWO_DBS: &[u8] =
    b"@\x00\x00\x00\x02insert\x00\x07\x00\x00\x00people\x00\x04documents\x00\x05\x00\x00\
\x00\x00\x02$db\x00\x03\x00\x00\x00hr\x00\x02$db\x00\x03\x00\x00\x00hr\x00\x00";

/// `{insert: "people", documents: [{ssn: null}], $db: "x"}`.
const NULL_OTHER_DB: &[u8] =
    b"@\x00\x00\x00\x02insert\x00\x07\x00\x00\x00people\x00\x04documents\x00\x12\x00\x00\
\x00\x030\x00\x0a\x00\x00\x00\x0assn\x00\x00\x00\x02$db\x00\x02\x00\x00\x00x\x00\x00";

/// A command of which nothing is protected passes as it is through `encrypt` and `decrypt`, and `mark` says so; the
/// second flag of its reply has this byte.
pub(crate) fn passes(rt: &impl Abort, alloc: Global, command: &[u8], ruled: &[u8]) {
    let reply = unmarked(rt, alloc, ruled, command);
    accepts(rt, alloc, command, &reply, command);
}

/// The reply to a command of which nothing is marked: its second flag has this byte.
pub(crate) fn unmarked(rt: &impl Abort, alloc: Global, ruled: &[u8], command: &[u8]) -> Vec<u8> {
    document(
        rt,
        alloc,
        &[
            FIRST_OFF,
            b"\x08schemaRequiresEncryption\x00",
            ruled,
            b"\x03result\x00",
            command,
            b"\x01ok\x00\x00\x00\x00\x00\x00\x00\xf0?",
        ],
    )
}

#[test]
fn a_nested_rule_is_sealed_and_other_values_pass(rt: HostRuntime) {
    let alloc = rt.alloc();
    accepts(&rt, alloc, NESTED, NESTED_REPLY, SEALED_NESTED);
    passes(&rt, alloc, NUMBER, b"\x01");
}

#[test]
fn a_refused_value_is_told_at_its_place(rt: HostRuntime) {
    let cases: &[(&[u8], &str)] = &[
        (NULL, "fle: 1 1 5 1.0.0\n"),
        (SECOND, "fle: 1 1 5 1.1.1\n"),
        (SEALED, "fle: 1 1 6 1.0.0\n"),
        (ARRAY, "fle: 1 1 7 1.0.0\n"),
    ];
    for (command, line) in cases {
        refuses(&rt, rt.alloc(), command, line);
    }
}

#[test]
fn the_fields_of_a_command_are_judged_before_its_contents(rt: HostRuntime) {
    let cases: &[(&[u8], &str)] = &[
        (AGGREGATE, "fle: 1 1 1 0\n"),
        // {}
        (b"\x05\x00\x00\x00\x00", "fle: 1 1 1 -\n"),
        (OTHER_DB, "fle: 1 1 3 2\n"),
        (TWO_DBS, "fle: 1 1 2 3\n"),
        (NULL_OTHER_DB, "fle: 1 1 3 2\n"),
        (NO_DOCUMENTS, "fle: 1 1 2 -\n"),
        (INTO_VIEW, "fle: 1 1 4 0\n"),
    ];
    for (command, line) in cases {
        refuses(&rt, rt.alloc(), command, line);
    }
}

#[test]
fn commands_that_no_rule_concerns_pass(rt: HostRuntime) {
    passes(&rt, rt.alloc(), PING, b"\x00");
    passes(&rt, rt.alloc(), INTO_UNKNOWN, b"\x00");
}
