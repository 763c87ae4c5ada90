//! The reply of a marking service: two flags, the command with its markings, and `ok`.

ghost use Rattle.std.specs.Prelude.{◌≡◌, ◌<◌, ◌^◌, ◌∷◌, [], ◌++◌, codes, false, if◌then◌else◌, nat_lt, length, IfOk};
ghost use Rattle.std.specs.Prelude.{OnOk};
ghost use Rattle.bson_tree.specs.Spelling.{doc_bytes, items_bytes};
ghost use Rattle.bson_tree.specs.Tree.{item, no_items};
ghost use Rattle.command_marker.specs.Marked.{marked as marked_command};
ghost use Rattle.command_marker.specs.Reply.{RepliesAs, flag, one, reply as reply_bytes, reply_clear_to, reply_to};
ghost use Rattle.command_marker.specs.Written.{IsPlan, reply_end, reply_head};

use crate::marked::Marked;
use crate::sizes::{clear_size, marked_size};
use crate::splicing::put_document;
use crate::stop::ReplyFault;
use bson_codec::RawDoc;
use bson_codec::writing::{append, put_name};
use bson_tree::types;
use encrypt_schema::{Marks, Rows};
use fle_outside::Memory;
use std::alloc::Global;

/// The double 1.0 (IEEE 754, little-endian).
const ONE: [u8; 8] = [0, 0, 0, 0, 0, 0, 0xf0, 0x3f];

/// What a reply says of its command.
#[derive(Clone, Copy)]
struct Flags {
    /// A value is marked.
    marked: bool,
    /// The collection has rules.
    ruled: bool,
}

/// The reply to a marked command: whether a value of it is marked, whether its collection has rules, the command with
/// the marking of each protected value in its place, and `ok`.
///
/// `TooLong` exactly where it would have more than 48,000,000 bytes; `Memory` where there is none for it.
pub fn reply(alloc: Global, marked: &Marked<'_>) -> Result<Vec<u8>, ReplyFault>
    ensures replies { RepliesAs (reply_to marked.now.rows marked.now.command.tree) result }
{
    let command = marked.command();
    reply_by(alloc, marked.rows(), marked.marks(), &command)
}

/// The reply to a command with these marks.
fn reply_by(
    alloc: Global,
    rows: &Rows,
    marks: &Marks,
    command: &RawDoc<'_>,
) -> Result<Vec<u8>, ReplyFault>
    requires plan { IsPlan rows.now command.now marks.now }
    ensures replies { RepliesAs (reply_bytes (nat_lt 0 (length marks.now)) (nat_lt 0 (length rows.now))
        (marked_command rows.now command.now.tree)) result }
{
    match marked_size(rows, marks, command) {
        Ok(size) => {
            let out = write_marked(alloc, size, rows, marks, command)?;
            Ok(out)
        }
        Err(fault) => Err(fault),
    }
}

/// The reply of so many bytes to a command with these marks.
fn write_marked(
    alloc: Global,
    size: u32,
    rows: &Rows,
    marks: &Marks,
    command: &RawDoc<'_>,
) -> Result<Vec<u8>, Memory>
    requires plan { IsPlan rows.now command.now marks.now }
    requires few { length (doc_bytes (marked_command rows.now command.now.tree)) < 2 ^ 30 }
    ensures parts { IfOk result (λ out. out.items
        ≡ (reply_head size (nat_lt 0 (length marks.now)) (nat_lt 0 (length rows.now))
        ++ doc_bytes (marked_command rows.now command.now.tree)) ++ reply_end) }
{
    let flags = Flags {
        marked: marks.len() > 0,
        ruled: rows.len() > 0,
    };
    let mut out = begin(alloc, size, flags)?;
    put_document(&mut out, rows, marks, command, 0, command)?;
    end(&mut out)?;
    Ok(out)
}

/// The reply to a command that no rule concerns: it passes, or its collection has no rules. Both flags are false, and
/// the command stands in it as it is.
///
/// `TooLong` exactly where it would have more than 48,000,000 bytes; `Memory` where there is none for it.
pub fn reply_clear(alloc: Global, command: &RawDoc<'_>) -> Result<Vec<u8>, ReplyFault>
    ensures replies { RepliesAs (reply_clear_to command.now.tree) result }
{
    match clear_size(command) {
        Ok(size) => {
            let out = write_clear(alloc, size, command)?;
            Ok(out)
        }
        Err(fault) => Err(fault),
    }
}

/// The reply of so many bytes in which a command stands as it is.
fn write_clear(alloc: Global, size: u32, command: &RawDoc<'_>) -> Result<Vec<u8>, Memory>
    ensures parts { IfOk result (λ out. out.items
        ≡ (reply_head size false false ++ doc_bytes command.now.tree) ++ reply_end) }
{
    let flags = Flags {
        marked: false,
        ruled: false,
    };
    let mut out = begin(alloc, size, flags)?;
    append(&mut out, command.bytes())?;
    end(&mut out)?;
    Ok(out)
}

/// A reply of so many bytes, up to its command. Room for all of it is taken here.
fn begin(alloc: Global, size: u32, flags: Flags) -> Result<Vec<u8>, Memory>
    ensures head { IfOk result (λ out. out.items ≡ reply_head size flags.marked flags.ruled) }
{
    let Ok(mut out) = Vec::with_capacity(alloc, size as usize) else {
        return Err(Memory);
    };
    append(&mut out, &size.to_le_bytes())?;
    put_marked_flag(&mut out, flags.marked)?;
    put_ruled_flag(&mut out, flags.ruled)?;
    put_result_name(&mut out)?;
    Ok(out)
}

/// Appends what stands in a reply behind its command.
fn end(out: &mut Vec<u8>) -> Result<(), Memory>
    ensures ended { OnOk result (out.new.items ≡ out.old.items ++ reply_end) }
{
    put_ok(out)?;
    append(out, &[0])?;
    Ok(())
}

/// The byte of a bool.
fn bit(set: bool) -> u8
    ensures { result ≡ (if set then 1 else 0) }
{
    if set { 1 } else { 0 }
}

/// Appends a flag under this name.
fn put_flag(out: &mut Vec<u8>, name: &[u8], set: bool) -> Result<(), Memory>
    ensures flag { OnOk result (out.new.items ≡ out.old.items ++ items_bytes (item name.now (flag set) no_items)) }
{
    put_name(out, types::BOOL, name)?;
    append(out, &[bit(set)])?;
    Ok(())
}

/// Appends the flag that says whether a value is marked.
fn put_marked_flag(out: &mut Vec<u8>, set: bool) -> Result<(), Memory>
    ensures flag { OnOk result (out.new.items ≡ out.old.items
        ++ items_bytes (item (codes "hasEncryptionPlaceholders") (flag set) no_items)) }
{
    put_flag(out, b"hasEncryptionPlaceholders", set)
}

/// Appends the flag that says whether the schema has rules.
fn put_ruled_flag(out: &mut Vec<u8>, set: bool) -> Result<(), Memory>
    ensures flag { OnOk result (out.new.items ≡ out.old.items
        ++ items_bytes (item (codes "schemaRequiresEncryption") (flag set) no_items)) }
{
    put_flag(out, b"schemaRequiresEncryption", set)
}

/// Appends the type byte and the name of the command in a reply.
fn put_result_name(out: &mut Vec<u8>) -> Result<(), Memory>
    ensures named { OnOk result (out.new.items ≡ out.old.items ++ (3 ∷ (codes "result" ++ 0 ∷ []))) }
{
    put_name(out, types::DOCUMENT, b"result")
}

/// Appends `ok`.
fn put_ok(out: &mut Vec<u8>) -> Result<(), Memory>
    ensures ok { OnOk result (out.new.items ≡ out.old.items ++ items_bytes (item (codes "ok") one no_items)) }
{
    put_name(out, types::DOUBLE, b"ok")?;
    append(out, &ONE)?;
    Ok(())
}
