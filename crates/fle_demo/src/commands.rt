//! The commands of `demo`, and the collection that they insert into.

ghost use Rattle.std.specs.Prelude.{◌≡◌, ◌<◌, ◌≤◌, ◌+◌, ◌++◌, ◌∷◌, [], IfOk, OnOk, length};
ghost use Rattle.std.specs.Int.{to_le_bytes, w32};
ghost use Rattle.bson_tree.specs.Spelling.{doc_bytes};
ghost use Rattle.fle_demo.specs.Commands.{command, digit, info, salary_of, ssn_of, ssn_text};

use crate::generator::next_output;
use bson_codec::writing::append;
use fle_outside::Memory;
use std::alloc::Global;

/// What stands before the key's id in the info of the collection, between the two, and behind.
const INFO_FRONT: [u8; 163] =
    *b"~\x01\0\0\x02name\0\x05\0\0\0demo\0\x02type\0\x0b\0\0\0collection\0\x03options\0L\x01\0\0\x03validator\0<\x01\0\
       \0\x03$jsonSchema\0*\x01\0\0\x02bsonType\0\x07\0\0\0object\0\x03properties\0\x04\x01\0\0\x03ssn\0\x87\0\0\0\x03e\
       ncrypt\0y\0\0\0\x04keyId\0\x1d\0\0\0\x050\0\x10\0\0\0\x04";

const INFO_MIDDLE: [u8; 127] =
    *b"\0\x02algorithm\0,\0\0\0AEAD_AES_256_CBC_HMAC_SHA_512-Deterministic\0\x02bsonType\0\x07\0\0\0string\0\0\0\x03sal\
       ary\0k\0\0\0\x03encrypt\0]\0\0\0\x04keyId\0\x1d\0\0\0\x050\0\x10\0\0\0\x04";

const INFO_BACK: [u8; 60] =
    *b"\0\x02algorithm\0%\0\0\0AEAD_AES_256_CBC_HMAC_SHA_512-Random\0\0\0\0\0\0\0\0";

/// What stands in a command between its length and the text of `ssn`, before the number of `salary`, before that of
/// `n`, and before the text of `$db`.
const FRONT: [u8; 48] =
    *b"\x02insert\0\x05\0\0\0demo\0\x04documents\0\x35\0\0\0\x030\0\x2d\0\0\0\x02ssn\0\x0c\0\0\0";

const SALARY: [u8; 9] = *b"\0\x10salary\0";

const NUMBER: [u8; 3] = *b"\x10n\0";

const DB: [u8; 7] = *b"\0\0\x02$db\0";

/// What the two numbers that are made of outputs are divided by.
const TWO_33: u64 = 8_589_934_592;

/// The info of the collection, whose schema names the key of this id.
pub fn info_of(alloc: Global, id: &[u8; 16]) -> Result<Vec<u8>, Memory>
    ensures info { IfOk result (λ out. out.items ≡ doc_bytes (info id.now)) }
{
    let mut out = Vec::new(alloc);
    append(&mut out, &INFO_FRONT)?;
    append(&mut out, id)?;
    append(&mut out, &INFO_MIDDLE)?;
    append(&mut out, id)?;
    append(&mut out, &INFO_BACK)?;
    Ok(out)
}

/// Command number `i` on this database, of the two outputs behind `x`.
pub fn command_of(alloc: Global, db: &[u8], i: u32, x: u64) -> Result<Vec<u8>, Memory>
    requires short { length db.now ≤ 63 }
    ensures command { IfOk result (λ out. out.items ≡ doc_bytes (command db.now i x)) }
{
    let first = next_output(x);
    let second = next_output(first);
    let mut out = Vec::new(alloc);
    let size = db.len() as u32 + 96;
    append(&mut out, &size.to_le_bytes())?;
    put_person(&mut out, first, second, i)?;
    put_db(&mut out, db)?;
    Ok(out)
}

/// Appends what stands between a command's length and `$db`, with what two outputs make of a person.
fn put_person(out: &mut Vec<u8>, first: u64, second: u64, i: u32) -> Result<(), Memory>
    ensures put { OnOk result (out.new.items ≡ out.old.items ++ (FRONT ++ (ssn_text (ssn_of first)
        ++ (SALARY ++ (to_le_bytes w32 (salary_of second) ++ (NUMBER ++ to_le_bytes w32 i)))))) }
{
    append(out, &FRONT)?;
    append(out, &ssn_text(ssn_of(first)))?;
    append(out, &SALARY)?;
    append(out, &salary_of(second).to_le_bytes())?;
    append(out, &NUMBER)?;
    append(out, &i.to_le_bytes())?;
    Ok(())
}

/// Appends the ends of the person and of the array of documents, `$db`, and the end of the command.
fn put_db(out: &mut Vec<u8>, db: &[u8]) -> Result<(), Memory>
    requires short { length db.now ≤ 63 }
    ensures put { OnOk result (out.new.items ≡ out.old.items
        ++ (DB ++ (to_le_bytes w32 (length db.now + 1) ++ (db.now ++ (0 ∷ 0 ∷ []))))) }
{
    append(out, &DB)?;
    append(out, &(db.len() as u32 + 1).to_le_bytes())?;
    append(out, db)?;
    append(out, &[0; 2])?;
    Ok(())
}

/// The number below 10^9 that an output makes.
fn ssn_of(output: u64) -> u32
    ensures number { result ≡ ssn_of output }
{
    (output / TWO_33 % 1_000_000_000) as u32
}

/// The number below 2^31 that an output makes.
fn salary_of(output: u64) -> u32
    ensures number { result ≡ salary_of output }
{
    (output / TWO_33) as u32
}

/// The nine digits of a number, as ddd-dd-dddd.
fn ssn_text(n: u32) -> [u8; 11]
    ensures text { result ≡ ssn_text n }
{
    [
        digit(n, 100_000_000),
        digit(n, 10_000_000),
        digit(n, 1_000_000),
        b'-',
        digit(n, 100_000),
        digit(n, 10_000),
        b'-',
        digit(n, 1000),
        digit(n, 100),
        digit(n, 10),
        digit(n, 1),
    ]
}

/// The digit that counts so much.
fn digit(n: u32, unit: u32) -> u8
    requires some { 0 < unit }
    ensures digit { result ≡ digit n unit }
{
    b'0' + (n / unit % 10) as u8
}
