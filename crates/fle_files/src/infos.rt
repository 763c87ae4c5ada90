//! A file of collection infos: BSON documents one after another, or a JSON text (RFC 8259), an array of them.

ghost use Rattle.std.specs.Prelude.{◌≡◌, ◌≤◌, length};
ghost use Rattle.encrypt_schema.specs.Language.Collections.{collections};
ghost use Rattle.ext_json.specs.Infos.{json_infos};
ghost use Rattle.fle_files.specs.Infos as spec;
ghost use Rattle.fle_files.specs.Infos.{ReadsAs, bson_read, infos_read, json_read};

use crate::numbers::number_of_infos;
use encrypt_schema::{InfoFault, Infos};
use ext_json::{JsonFault, infos_from_json};
use fle_stream::Number;
use std::alloc::Global;

/// A fourth byte above this one belongs to a text: a document that has it is longer than any file.
const LAST_OF_LENGTH: u8 = 8;

/// Why a file gives no infos.
#[derive(Clone, Copy, Drop)]
pub enum InfosFault {
    /// The file is at fault.
    Bad {
        /// The fault's number.
        number: Number,
        /// The number of the faulty document or member, from 1; 0 where the file is at fault as a whole.
        document: u32,
    },
    /// There was no memory for it.
    Memory,
}

/// Reads a file of collection infos: as JSON where it has one to three bytes or its fourth is above 08, else as BSON.
pub fn read_infos(alloc: Global, bytes: &[u8]) -> Result<Infos, InfosFault>
    requires { length bytes.now ≤ 67108864 }
    ensures read { ReadsAs (infos_read bytes.now) result }
{
    if is_json(bytes) {
        read_json(alloc, bytes)
    } else {
        read_bson(alloc, bytes)
    }
}

/// Whether the bytes of a file are read as JSON.
fn is_json(bytes: &[u8]) -> bool
    ensures json { result ≡ spec.is_json bytes.now }
{
    if bytes.len() < 4 {
        return !bytes.is_empty();
    }
    LAST_OF_LENGTH < bytes[3]
}

/// Reads the infos of a JSON text.
fn read_json(alloc: Global, text: &[u8]) -> Result<Infos, InfosFault>
    ensures read { ReadsAs (json_read (json_infos text.now)) result }
{
    match infos_from_json(alloc, text) {
        Ok(bson) => read_bson(alloc, &bson),
        Err(fault) => Err(fault_of_json(fault)),
    }
}

/// The fault of a JSON text as one of the file.
fn fault_of_json(fault: JsonFault) -> InfosFault
    ensures fault { result ≡ spec.json_fault fault }
{
    match fault {
        JsonFault::Syntax => InfosFault::Bad {
            number: Number { value: 33 },
            document: 0,
        },
        JsonFault::Form { document } => InfosFault::Bad {
            number: Number { value: 34 },
            document,
        },
        JsonFault::Memory => InfosFault::Memory,
    }
}

/// Reads infos in BSON.
fn read_bson(alloc: Global, bytes: &[u8]) -> Result<Infos, InfosFault>
    requires { length bytes.now ≤ 67108864 }
    ensures read { ReadsAs (bson_read (collections bytes.now)) result }
{
    match Infos::load(alloc, bytes) {
        Ok(infos) => Ok(infos),
        Err(InfoFault::Bad { document, kind }) => Err(InfosFault::Bad {
            number: number_of_infos(kind),
            document,
        }),
        Err(InfoFault::Memory) => Err(InfosFault::Memory),
    }
}
