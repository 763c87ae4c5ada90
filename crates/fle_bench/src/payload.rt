//! One payload (MongoDB Client Side Encryption, BSON binary subtype 6) of a binary, deterministic or
//! under an IV that is given.

ghost use Rattle.std.specs.Prelude.{◌≡◌, ◌≤◌, ◌<◌, ◌+◌, ◌*◌, ◌/◌, ◌^◌, length, take, IfOk};
ghost use Rattle.fle_bench.specs.Checksum.{checksum};
ghost use Rattle.fle_bench.specs.Payload.{binary_value, iv_for, IsOpened};
ghost use Rattle.fle_bench.specs.Turns.{payload_turns};
ghost use Rattle.payload6.specs.Opening.{IsOriginal};
ghost use Rattle.payload6.specs.Payload.{algorithm_number, IsSealedPayload};

use crate::checksum::checksum;
use crate::input::{last_block, message};
use crate::job::MOST_BYTES;
use bson_tree::types::BINARY;
use crypto_hooks::Tables;
use encrypt_schema::Algorithm;
use fle_aead::DataKey;
use fle_vectors::DATA_KEY;
use payload6::{
    DETERMINISTIC, PartsFault, RANDOM, det_iv, open_payload_into, parts, payload_len,
    seal_payload_into,
};
use std::alloc::{AllocError, Global};

/// The id of the data key, until an answer stands in its place.
pub(crate) const KEY_ID: [u8; 16] = [
    0x00, 0x11, 0x22, 0x33, 0x44, 0x55, 0x46, 0x77, 0x88, 0x99, 0xaa, 0xbb, 0xcc, 0xdd, 0xee, 0xff,
];

/// The IV of a random payload.
pub(crate) const IV: [u8; 16] = [
    0x00, 0x01, 0x02, 0x03, 0x04, 0x05, 0x06, 0x07, 0x08, 0x09, 0x0a, 0x0b, 0x0c, 0x0d, 0x0e, 0x0f,
];

/// Seals a binary with contents of some length, and gives the checksum of the payload that it wrote
/// last.
pub fn run_sealing(
    alloc: Global,
    algorithm: Algorithm,
    size: usize,
    turns: u32,
) -> Result<u32, AllocError>
    requires { size ≤ MOST_BYTES }
    ensures sum { IfOk result (λ sum. 0 < turns
        → sum ≡ checksum (payload_turns algorithm DATA_KEY KEY_ID BINARY IV (binary_value size) turns)) }
{
    let plain = binary(alloc, size)?;
    let mut payload = vec![in alloc; 0u8; payload_len(size + 5)]?;
    seal(algorithm, &plain, &mut payload, turns);
    Ok(checksum(&payload))
}

/// Opens the payload of a binary with contents of some length, and gives the checksum of the value
/// that it found last.
pub fn run_opening(
    alloc: Global,
    algorithm: Algorithm,
    size: usize,
    turns: u32,
) -> Result<u32, AllocError>
    requires { size ≤ MOST_BYTES }
    ensures sum { IfOk result (λ sum. 0 < turns → sum ≡ checksum (binary_value size)) }
{
    let plain = binary(alloc, size)?;
    let mut payload = vec![in alloc; 0u8; payload_len(size + 5)]?;
    let mut opened = vec![in alloc; 0u8; payload_len(size + 5)]?;
    seal_and_open(algorithm, &plain, &mut payload, &mut opened, turns);
    Ok(checksum(&opened[..size + 5]))
}

/// The bytes of a binary whose contents are the message.
#[tactic(auto, unfolding(crate::specs::Payload::binary_value))]
fn binary(alloc: Global, size: usize) -> Result<Vec<u8>, AllocError>
    requires { size ≤ MOST_BYTES }
    ensures bytes { IfOk result (λ v. v.items ≡ binary_value size) }
    ensures len { IfOk result (λ v. length v.items ≡ size + 5) }
{
    let contents = message(alloc, size)?;
    let mut bytes = Vec::new(alloc);
    bytes.extend_from_slice(&(size as u32).to_le_bytes())?;
    bytes.extend_from_slice(&[0])?;
    bytes.extend_from_slice(&contents)?;
    Ok(bytes)
}

/// Seals a binary some times over, the last block of each payload being the next one's key id.
fn seal(algorithm: Algorithm, plain: &[u8], out: &mut [u8], turns: u32)
    requires room { length out.old ≡ 66 + 16 * (length plain.now / 16 + 1) }
    ensures { 0 < turns
        → out.new ≡ payload_turns algorithm DATA_KEY KEY_ID BINARY IV plain.now turns }
{
    let key = DataKey::new(DATA_KEY);
    let mut id = KEY_ID;
    for _turn in 0..turns {
        seal_once(&key, algorithm, id, plain, out);
        id = last_block(out);
    }
}

/// Seals a binary.
#[tactic(auto, unfolding(crate::specs::Payload::iv_for))]
fn seal_once(key: &DataKey, algorithm: Algorithm, id: [u8; 16], plain: &[u8], out: &mut [u8])
    requires room { length out.old ≡ 66 + 16 * (length plain.now / 16 + 1) }
    ensures { IsSealedPayload (algorithm_number algorithm) id key.now BINARY
        (iv_for algorithm key.now id BINARY IV plain.now) plain.now out.new }
{
    match algorithm {
        Algorithm::Deterministic => {
            let iv = det_iv(key, id, BINARY, plain);
            seal_payload_into(&Tables, key, DETERMINISTIC, id, BINARY, iv, plain, out);
        }
        Algorithm::Random => {
            seal_payload_into(&Tables, key, RANDOM, id, BINARY, IV, plain, out);
        }
    }
}

/// Seals a binary, and opens the payload some times over, to the front of `out`.
fn seal_and_open(algorithm: Algorithm, plain: &[u8], payload: &mut [u8], out: &mut [u8], turns: u32)
    requires original { IsOriginal 100 BINARY plain.now }
    requires len { length payload.old ≡ 66 + 16 * (length plain.now / 16 + 1) }
    requires short { length payload.old < 2 ^ 31 }
    requires room { length payload.old ≤ length out.old }
    ensures { 0 < turns → take (length plain.now) out.new ≡ plain.now }
{
    seal_once(&DataKey::new(DATA_KEY), algorithm, KEY_ID, plain, payload);
    open(payload, out, turns);
}

/// Opens a payload some times over, to the front of `out`.
fn open(payload: &[u8], out: &mut [u8], turns: u32)
    requires short { length payload.now < 2 ^ 31 }
    requires room { length payload.now ≤ length out.old }
    ensures { 0 < turns → IsOpened DATA_KEY payload.now out.new }
{
    let key = DataKey::new(DATA_KEY);
    for _turn in 0..turns {
        open_once(&key, payload, out);
    }
}

/// Takes a payload apart and opens it.
fn open_once(key: &DataKey, payload: &[u8], out: &mut [u8])
    requires short { length payload.now < 2 ^ 31 }
    requires room { length payload.now ≤ length out.old }
    ensures { IsOpened key.now payload.now out.new }
{
    match parts(payload) {
        Ok(parts) => {
            let _outcome = open_payload_into(&Tables, key, &parts, 100, out);
        }
        Err(PartsFault::Kind) => {}
        Err(PartsFault::Short) => {}
    }
}
