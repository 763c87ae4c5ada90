//! The right reply to `INSERT` in parts, and what a reply that is made of such parts is found to be. The parts were
//! made from the layout of commands and markings, outside this code.

use crate::documents::{document_of, rows_of, whole};
use bson_codec::RawDoc;
use command_marker::{Target, mark_command, target};
use encrypt_schema::Rows;
use reply_check::{WrongReply, check_reply};
use sample_documents::reply_parts::OK;
use sample_documents::{INSERT, PEOPLE_SCHEMA};
use std::alloc::Global;

/// The first flag without its value.
pub(crate) const FIRST_NAME: &[u8] = b"\x08hasEncryptionPlaceholders\x00";

/// The value of a flag that isn't set.
pub(crate) const OFF: &[u8] = b"\x00";

/// That insert as it is, as a result, 96 bytes.
pub(crate) const PLAIN: &[u8] =
    b"\x03result\x00X\x00\x00\x00\x02insert\x00\x07\x00\x00\x00people\x00\x04documents\x00)\x00\
    \x00\x00\x030\x00!\x00\x00\x00\x02ssn\x00\x0c\x00\x00\x00123-45-6789\x00\x10n\x00\x01\x00\
    \x00\x00\x00\x00\x02$db\x00\x03\x00\x00\x00hr\x00\x00";

/// A document or an array of these elements, and those before and behind them.
pub(crate) fn document(
    alloc: Global,
    before: &[u8],
    inside: &[u8],
    behind: &[u8],
) -> Option<Vec<u8>> {
    if before.len() > 300 || inside.len() > 600 || behind.len() > 300 {
        return None;
    }
    let size = (before.len() + inside.len() + behind.len()) as u32 + 5;
    let mut out = Vec::new(alloc);
    let is_whole = out.extend_from_slice(&size.to_le_bytes()).is_ok()
        && out.extend_from_slice(before).is_ok()
        && out.extend_from_slice(inside).is_ok()
        && out.extend_from_slice(behind).is_ok()
        && out.push(0).is_ok();
    if is_whole { Some(out) } else { None }
}

/// The document of these elements.
pub(crate) fn document_with(alloc: Global, elements: &[&[u8]]) -> Option<Vec<u8>> {
    let inside = whole(alloc, elements)?;
    document(alloc, b"", &inside, b"")
}

/// `{insert: "people", documents: [..], $db: "hr"}` with a document of these elements.
pub(crate) fn insert_with(alloc: Global, elements: &[u8]) -> Option<Vec<u8>> {
    let one = document(alloc, b"", elements, b"")?;
    let list = document(alloc, b"\x030\x00", &one, b"")?;
    document(
        alloc,
        b"\x02insert\x00\x07\x00\x00\x00people\x00\x04documents\x00",
        &list,
        b"\x02$db\x00\x03\x00\x00\x00hr\x00",
    )
}

/// A reply with both flags set and this result.
pub(crate) fn reply_with(alloc: Global, answer: &[u8]) -> Option<Vec<u8>> {
    document(
        alloc,
        b"\x08hasEncryptionPlaceholders\x00\x01\x08schemaRequiresEncryption\x00\x01\x03result\x00",
        answer,
        OK,
    )
}

/// What is found of a reply to a command of the database `hr` under these rules; `None` where that couldn't be tried.
pub(crate) fn found(
    alloc: Global,
    rows: &Rows,
    command: RawDoc<'_>,
    reply: &RawDoc<'_>,
) -> Option<Result<(), WrongReply>> {
    match target(b"hr", &command) {
        Ok(Target::Collection(_)) => match mark_command(alloc, rows, command) {
            Ok(marked) => Some(check_reply(&marked, reply)),
            Err(_) => None,
        },
        _ => None,
    }
}

/// What is found of a reply to a command of the database `hr` under a schema; `None` where that couldn't be tried.
pub(crate) fn found_under(
    alloc: Global,
    schema: &[u8],
    command: &[u8],
    reply: &[u8],
) -> Option<Result<(), WrongReply>> {
    let rows = rows_of(alloc, schema)?;
    let reply = document_of(reply)?;
    found(alloc, &rows, document_of(command)?, &reply)
}

/// Whether a reply to `INSERT` is right.
pub(crate) fn is_right(alloc: Global, reply: &[u8]) -> bool {
    matches!(
        found_under(alloc, PEOPLE_SCHEMA, INSERT, reply),
        Some(Ok(()))
    )
}

/// Whether this differs in a reply to `INSERT`: the element whose value begins there.
pub(crate) fn differs_at(alloc: Global, reply: &[u8], place: u32) -> bool {
    match found_under(alloc, PEOPLE_SCHEMA, INSERT, reply) {
        Some(Err(WrongReply::Differs { at })) => at == place,
        _ => false,
    }
}

/// Whether the shape of a reply to `INSERT` is wrong at the element whose value begins there, or at 0 where one is
/// missing.
pub(crate) fn is_misshapen_at(alloc: Global, reply: &[u8], place: u32) -> bool {
    match found_under(alloc, PEOPLE_SCHEMA, INSERT, reply) {
        Some(Err(WrongReply::Shape { at })) => at == place,
        _ => false,
    }
}
