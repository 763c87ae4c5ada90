//! Replies, byte for byte. The expected bytes were made from the layout of commands and markings, outside this
//! code.

use crate::documents::{document_of, rows_of};
use bson_codec::RawDoc;
use command_marker::{Target, mark_command, reply, reply_clear, target};
use encrypt_schema::Rows;
use sample_documents::{
    INSERT, NESTED, NESTED_REPLY, NOTES, NOTES_REPLY, PEOPLE_SCHEMA, PING, REPLY, STAFF,
};
use std::alloc::Global;

/// A schema without rules.
const NO_RULES: &[u8] = b"\x05\x00\x00\x00\x00";

/// `{insert: "people", documents: [{ssn: "x", salary: 7, ssn: "yz", n: 1}], $db: "hr"}`.
const EQUAL_NAMES: &[u8] =
    b"f\x00\x00\x00\x02insert\x00\x07\x00\x00\x00people\x00\x04documents\x007\x00\x00\x00\
\x030\x00/\x00\x00\x00\x02ssn\x00\x02\x00\x00\x00x\x00\x10salary\x00\x07\x00\x00\x00\
\x02ssn\x00\x03\x00\x00\x00yz\x00\x10n\x00\x01\x00\x00\x00\x00\x00\x02$db\x00\x03\
\x00\x00\x00hr\x00\x00";

/// Its reply, 320 bytes: three markings, one of them under the random algorithm.
const EQUAL_NAMES_REPLY: &[u8] =
    b"@\x01\x00\x00\x08hasEncryptionPlaceholders\x00\x01\x08schemaRequiresEncryption\x00\
\x01\x03result\x00\xf0\x00\x00\x00\x02insert\x00\x07\x00\x00\x00people\x00\x04docume\
nts\x00\xc1\x00\x00\x00\x030\x00\xb9\x00\x00\x00\x05ssn\x00/\x00\x00\x00\x06\x00.\
\x00\x00\x00\x02v\x00\x02\x00\x00\x00x\x00\x10a\x00\x01\x00\x00\x00\x05ki\x00\x10\
\x00\x00\x00\x04\x00\x11\x223DUFw\x88\x99\xaa\xbb\xcc\xdd\xee\xff\x00\x05salary\x00-\
\x00\x00\x00\x06\x00,\x00\x00\x00\x10v\x00\x07\x00\x00\x00\x10a\x00\x02\x00\x00\x00\
\x05ki\x00\x10\x00\x00\x00\x04\x00\x11\x223DUFw\x88\x99\xaa\xbb\xcc\xdd\xee\xff\x00\
\x05ssn\x000\x00\x00\x00\x06\x00/\x00\x00\x00\x02v\x00\x03\x00\x00\x00yz\x00\x10a\
\x00\x01\x00\x00\x00\x05ki\x00\x10\x00\x00\x00\x04\x00\x11\x223DUFw\x88\x99\xaa\xbb\
\xcc\xdd\xee\xff\x00\x10n\x00\x01\x00\x00\x00\x00\x00\x02$db\x00\x03\x00\x00\x00hr\
\x00\x00\x01ok\x00\x00\x00\x00\x00\x00\x00\xf0?\x00";

/// The reply to `PING`, 110 bytes.
const PING_REPLY: &[u8] =
    b"n\x00\x00\x00\x08hasEncryptionPlaceholders\x00\x00\x08schemaRequiresEncryption\x00\
\x00\x03result\x00\x1e\x00\x00\x00\x10ping\x00\x01\x00\x00\x00\x02$db\x00\x06\x00\
\x00\x00admin\x00\x00\x01ok\x00\x00\x00\x00\x00\x00\x00\xf0?\x00";

/// The reply to an insert of the database `hr` under these rules; `None` where there is none.
pub(crate) fn reply_of(alloc: Global, rows: &Rows, command: RawDoc<'_>) -> Option<Vec<u8>> {
    match target(b"hr", &command) {
        Ok(Target::Collection(_)) => match mark_command(alloc, rows, command) {
            Ok(marked) => reply(alloc, &marked).ok(),
            Err(_) => None,
        },
        _ => None,
    }
}

/// The reply to an insert of the database `hr` under a schema; `None` where there is none.
fn reply_under(alloc: Global, schema: &[u8], command: &[u8]) -> Option<Vec<u8>> {
    let rows = rows_of(alloc, schema)?;
    reply_of(alloc, &rows, document_of(command)?)
}

/// Whether this is the reply to an insert of the database `hr` under a schema.
fn replies(alloc: Global, schema: &[u8], command: &[u8], reply: &[u8]) -> bool {
    matches!(&reply_under(alloc, schema, command), Some(bytes) if bytes.as_slice() == reply)
}

/// Whether this is the reply to a command of which nothing is marked.
fn replies_clear(alloc: Global, command: &[u8], reply: &[u8]) -> bool {
    match document_of(command) {
        Some(command) => {
            matches!(&reply_clear(alloc, &command), Ok(bytes) if bytes.as_slice() == reply)
        }
        None => false,
    }
}

#[test]
fn a_protected_field_is_marked(rt: HostRuntime) {
    assert!(rt; replies(rt.alloc(), PEOPLE_SCHEMA, INSERT, REPLY));
}

#[test]
fn a_nested_protected_field_is_marked(rt: HostRuntime) {
    assert!(rt; replies(rt.alloc(), STAFF, NESTED, NESTED_REPLY));
}

#[test]
fn both_fields_of_one_name_are_marked(rt: HostRuntime) {
    assert!(rt; replies(rt.alloc(), PEOPLE_SCHEMA, EQUAL_NAMES, EQUAL_NAMES_REPLY));
}

#[test]
fn without_rules_nothing_is_marked(rt: HostRuntime) {
    assert!(rt; replies(rt.alloc(), NO_RULES, NOTES, NOTES_REPLY));
}

#[test]
fn a_clear_reply_holds_the_command(rt: HostRuntime) {
    let cases: &[(&[u8], &[u8])] = &[(NOTES, NOTES_REPLY), (PING, PING_REPLY)];
    for (command, reply) in cases {
        assert!(rt; replies_clear(rt.alloc(), command, reply));
    }
}
