//! Bytes written whole into a sink.

ghost use Rattle.fle_outside.specs.Writing.{WritesWhole, joined};

use crate::answers::{Failed, WriteAnswer};
use crate::sink::Sink;

/// Writes all of the bytes into a sink.
pub fn write_whole<O: Sink>(out: &mut O, bytes: &[u8]) -> Result<(), Failed>
    ensures wrote { WritesWhole (O.seen out.old) (O.seen out.new) result bytes.now }
{
    let mut left = bytes;
    while !left.is_empty() {
        match out.write(left) {
            WriteAnswer::Took(n) => {
                let (_, rest) = left.split_at(n);
                left = rest;
            }
            WriteAnswer::Failed => return Err(Failed),
        }
    }
    Ok(())
}

/// Writes parts into a sink, one after another.
pub fn put_parts<O: Sink>(out: &mut O, parts: &[&[u8]]) -> Result<(), Failed>
    ensures wrote { WritesWhole (O.seen out.old) (O.seen out.new) result (joined parts.now) }
{
    for part in parts {
        match write_whole(out, part) {
            Ok(()) => {}
            Err(Failed) => return Err(Failed),
        }
    }
    Ok(())
}
