//! How many bytes a reply has, known before the first of them is written.

ghost use Rattle.std.specs.Prelude.{◌≡◌, ◌+◌, ◌*◌, ◌<◌, ◌≤◌, ◌^◌, length, drop, MatchResult};
ghost use Rattle.bson_tree.specs.Spelling.{doc_bytes};
ghost use Rattle.command_marker.specs.Reply.{reply_limit};
ghost use Rattle.command_marker.specs.Splices.{added};
ghost use Rattle.command_marker.specs.Written.{AreRuled, SizesAs, growth_by};

use crate::splicing::{growth_of, key_of, next_mark};
use crate::stop::ReplyFault;
use bson_codec::RawDoc;
use encrypt_schema::{Marks, Rows};

/// The most bytes that a reply may have.
const REPLY_LIMIT: usize = 48_000_000;

/// How many bytes a reply has more than its command.
const AROUND_COMMAND: usize = 80;

/// How many bytes the marking of this number adds to a command; none behind the last one.
fn growth_at(rows: &Rows, marks: &Marks, command: &RawDoc<'_>, i: usize) -> usize
    requires ruled { AreRuled rows.now marks.now }
    requires short { length (doc_bytes command.now.tree) ≤ reply_limit }
    ensures growth { added (growth_by rows.now command.now) (drop i marks.now)
        ≡ result + added (growth_by rows.now command.now) (drop (i + 1) marks.now) }
    ensures most { result ≤ 48000046 }
{
    match next_mark(rows, marks, i) {
        Some(mark) => growth_of(key_of(rows, command, &mark)),
        None => 0,
    }
}

/// How many bytes the markings add to a command.
fn growth(rows: &Rows, marks: &Marks, command: &RawDoc<'_>) -> usize
    requires ruled { AreRuled rows.now marks.now }
    requires few { length marks.now < 2 ^ 32 }
    requires short { length (doc_bytes command.now.tree) ≤ reply_limit }
    ensures growth { result ≡ added (growth_by rows.now command.now) marks.now }
    ensures most { result ≤ 48000046 * length marks.now }
{
    let mut sum = 0;
    for i in 0..marks.len() {
        sum += growth_at(rows, marks, command, i);
    }
    sum
}

/// The number of bytes of the reply to a command of so many bytes.
fn size_around(command: usize) -> Result<u32, ReplyFault>
    requires { command < 2 ^ 62 }
    ensures size { SizesAs (command + 80) result }
{
    let size = command + AROUND_COMMAND;
    if size > REPLY_LIMIT {
        return Err(ReplyFault::TooLong);
    }
    Ok(size as u32)
}

/// The number of bytes of the reply to a command that stands in it as it is.
pub(crate) fn clear_size(command: &RawDoc<'_>) -> Result<u32, ReplyFault>
    ensures size { SizesAs (length (doc_bytes command.now.tree) + 80) result }
{
    let bytes = command.bytes().len();
    if bytes > REPLY_LIMIT {
        return Err(ReplyFault::TooLong);
    }
    size_around(bytes)
}

/// The number of bytes of the reply to a command with these marks.
pub(crate) fn marked_size(
    rows: &Rows,
    marks: &Marks,
    command: &RawDoc<'_>,
) -> Result<u32, ReplyFault>
    requires ruled { AreRuled rows.now marks.now }
    requires few { length marks.now ≤ length (doc_bytes command.now.tree) }
    ensures size { SizesAs (length (doc_bytes command.now.tree) + added (growth_by rows.now command.now) marks.now + 80)
        result }
{
    let bytes = command.bytes().len();
    if bytes > REPLY_LIMIT {
        return Err(ReplyFault::TooLong);
    }
    size_around(bytes + growth(rows, marks, command))
}
