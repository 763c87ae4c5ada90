//! Bytes as hexadecimal digits, in base64 (RFC 4648, section 4), and numbers in decimal digits, into a sink.

ghost use Rattle.std.specs.Prelude.{◌≡◌, ◌≤◌, ◌*◌, ◌∷◌, [], length};
ghost use Rattle.std.specs.Fmt.{decimal, signed_decimal};
ghost use Rattle.base64.specs.Engines.{standard};
ghost use Rattle.base64.specs.GeneralPurpose.{encode_of};
ghost use Rattle.hex.specs.Hex.{encode_lower};
ghost use Rattle.fle_outside.specs.Writing.{WritesWhole};

use base64::engine::general_purpose::STANDARD;
use fle_outside::{Failed, Sink, write_whole};
use itoa::Buffer;

// How many bytes are written in base64 at a time: a number of threes.
const PIECE: usize = 768;

/// Writes at most 16 bytes as pairs of lower-case hexadecimal digits.
pub fn put_hex<O: Sink>(bytes: &[u8], out: &mut O) -> Result<(), Failed>
    requires { length bytes.now ≤ 16 }
    ensures wrote { WritesWhole (O.seen out.old) (O.seen out.new) result (encode_lower bytes.now) }
{
    let mut buffer = [0u8; 32];
    let digits = &mut buffer[..2 * bytes.len()];
    let Ok(()) = hex::encode_to_slice(bytes, digits) else {
        unreachable!();
    };
    write_whole(out, digits)
}

/// Writes a byte as two lower-case hexadecimal digits.
pub fn put_byte<O: Sink>(byte: u8, out: &mut O) -> Result<(), Failed>
    ensures wrote { WritesWhole (O.seen out.old) (O.seen out.new) result (encode_lower (byte ∷ [])) }
{
    put_hex(&[byte], out)
}

/// Writes the base64 text of bytes, padding included.
pub fn put_base64<O: Sink>(bytes: &[u8], out: &mut O) -> Result<(), Failed>
    ensures wrote { WritesWhole (O.seen out.old) (O.seen out.new) result (encode_of standard bytes.now) }
{
    let mut left = bytes;
    while left.len() > PIECE {
        let (front, rest) = left.split_at(PIECE);
        match put_piece(front, out) {
            Ok(()) => {}
            Err(Failed) => return Err(Failed),
        }
        left = rest;
    }
    match put_piece(left, out) {
        Ok(()) => Ok(()),
        Err(Failed) => Err(Failed),
    }
}

// Writes the base64 text of at most 768 bytes, padding included.
fn put_piece<O: Sink>(piece: &[u8], out: &mut O) -> Result<(), Failed>
    requires { length piece.now ≤ 768 }
    ensures { WritesWhole (O.seen out.old) (O.seen out.new) result (encode_of standard piece.now) }
{
    let mut buffer = [0u8; 1024];
    let Ok(n) = STANDARD.encode_slice(piece, &mut buffer) else {
        unreachable!();
    };
    let (text, _) = buffer.split_at(n);
    write_whole(out, text)
}

/// Writes a signed number in decimal digits.
pub fn put_signed<O: Sink>(number: i64, out: &mut O) -> Result<(), Failed>
    ensures wrote { WritesWhole (O.seen out.old) (O.seen out.new) result (signed_decimal number) }
{
    let mut buffer = Buffer::new();
    let digits = buffer.format(number);
    write_whole(out, digits.as_bytes())
}

/// Writes an unsigned number in decimal digits.
pub fn put_unsigned<O: Sink>(number: u32, out: &mut O) -> Result<(), Failed>
    ensures wrote { WritesWhole (O.seen out.old) (O.seen out.new) result (decimal number) }
{
    let mut buffer = Buffer::new();
    let digits = buffer.format(number);
    write_whole(out, digits.as_bytes())
}
