//! RFC 8259, section 7: strings in quotes.

ghost use Rattle.std.specs.Prelude.{◌≡◌, ◌⊎◌, ◌<◌, ◌≤◌, ◌==◌, ◌||◌, not, nat_lt};
ghost use Rattle.std.specs.Prelude.{◌∷◌, [], ◌++◌, length, take};
ghost use Rattle.fle_outside.specs.Writing.{WritesWhole};
ghost use Rattle.hex.specs.Hex.{encode_lower};
ghost use Rattle.ext_json.specs.Quoted.{control_start, escape, escaped, quoted};

use crate::digits::put_byte;
use crate::fixed::{control, quote};
use fle_outside::{Failed, Sink, write_whole};

/// Writes a string in quotes.
pub fn put_quoted<O: Sink>(text: &[u8], out: &mut O) -> Result<(), Failed>
    ensures wrote { WritesWhole (O.seen out.old) (O.seen out.new) result (quoted text.now) }
{
    match write_whole(out, quote()) {
        Ok(()) => {}
        Err(Failed) => return Err(Failed),
    }
    match put_escaped(text, out) {
        Ok(()) => {}
        Err(Failed) => return Err(Failed),
    }
    write_whole(out, quote())
}

/// Writes the bytes of a string, with the escapes that are needed.
pub fn put_escaped<O: Sink>(text: &[u8], out: &mut O) -> Result<(), Failed>
    ensures wrote { WritesWhole (O.seen out.old) (O.seen out.new) result (escaped text.now) }
{
    let mut left = text;
    while !left.is_empty() {
        let n = front_length(left);
        let (front, rest) = left.split_at(n);
        match put_front(front, out) {
            Ok(()) => {}
            Err(Failed) => return Err(Failed),
        }
        left = rest;
    }
    Ok(())
}

// A run of bytes that stand as they are, or one byte.
fn put_front<O: Sink>(front: &[u8], out: &mut O) -> Result<(), Failed>
    requires { (length front.now ≡ 1) ⊎ (escaped front.now ≡ front.now) }
    ensures { WritesWhole (O.seen out.old) (O.seen out.new) result (escaped front.now) }
{
    if front.len() == 1 {
        put_escape(front[0], out)
    } else {
        write_whole(out, front)
    }
}

// A byte of a string: `"` and `\` behind a `\`, bytes below 20 as `\u00hh`, others as they stand.
fn put_escape<O: Sink>(byte: u8, out: &mut O) -> Result<(), Failed>
    ensures { WritesWhole (O.seen out.old) (O.seen out.new) result (escape byte) }
{
    if byte == b'"' || byte == b'\\' {
        return write_whole(out, &[b'\\', byte]);
    }
    if byte < 0x20 {
        return put_control(byte, out);
    }
    write_whole(out, &[byte])
}

// A byte below 20 as `\u00hh`.
fn put_control<O: Sink>(byte: u8, out: &mut O) -> Result<(), Failed>
    ensures { WritesWhole (O.seen out.old) (O.seen out.new) result (control_start ++ encode_lower (byte ∷ [])) }
{
    match write_whole(out, control()) {
        Ok(()) => {}
        Err(Failed) => return Err(Failed),
    }
    put_byte(byte, out)
}

// How many bytes at the front are written together: those that stand as they are, or one.
fn front_length(text: &[u8]) -> usize
    requires { 0 < length text.now }
    ensures within { (0 < result) × (result ≤ length text.now) }
    ensures front { (length (take result text.now) ≡ 1) ⊎ (escaped (take result text.now) ≡ take result text.now) }
{
    let n = plain_length(text);
    if n == 0 { 1 } else { n }
}

// How many bytes at the front stand as they are.
fn plain_length(text: &[u8]) -> usize
    ensures within { result ≤ length text.now }
    ensures plain { escaped (take result text.now) ≡ take result text.now }
{
    let mut n = 0;
    while n < text.len() && is_plain(text[n]) {
        n += 1;
    }
    n
}

// Whether a byte of a string needs no escape.
fn is_plain(byte: u8) -> bool
    ensures { result ≡ not (byte == 34 || byte == 92 || nat_lt byte 32) }
{
    !(byte == b'"' || byte == b'\\' || byte < 0x20)
}
