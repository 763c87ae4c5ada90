//! One key document by one client, from bytes to bytes; and the version.

ghost use Rattle.std.specs.Prelude.{◌≡◌};
ghost use Rattle.fle_c.specs.Calls.{opener_of};
ghost use Rattle.fle_c.specs.Keys.{FewBlocks, MakesKey, MakesKeyAs, Rewraps, RewrapsAs, ShowsKey, Writes, numbered};
ghost use Rattle.fle_c.specs.Keys.{stop_told, version};
ghost use Rattle.fle_engine.specs.KeyRulings.{WantsFew};

use crate::blocks::{BLOCK, Blocks};
use crate::told::{Told, random_of, tell};
use bson_codec::check_bson;
use crypto_hooks::Tables;
use encrypt_schema::Reason;
use fle_client::{Client, Keys};
use fle_engine::{Answer, KeyStop, Opener};
use std::alloc::Global;

/// A key document, and one of names, has at most this many bytes.
const DOCUMENT_LIMIT: usize = 16_777_216;

/// The status of a call for which fewer blocks were handed in than it draws.
const NO_BLOCKS: u32 = 7;

/// The status of a call for which there was no memory.
const NO_MEMORY: u32 = 8;

/// The status of an output that has less room than it wants.
const NO_ROOM: u32 = 10;

/// The status of a call that hands in names which a new key can't have.
const NO_NAMES: u32 = 14;

/// The version, as `fle --version` tells it, with a 00 behind it.
const VERSION: &[u8] = b"0.2.0\0";

/// Seals a key document anew, with the block in these bytes.
pub(crate) fn rewrap_key(
    alloc: Global,
    client: &Client,
    new_master: &[u8],
    time: u64,
    key: &[u8],
    blocks: &[u8],
    out: &mut [u8],
) -> Told
    ensures rewrapped { RewrapsAs (opener_of client.now.keys) new_master.now time key.now blocks.now out.old out.new
        result }
{
    match &client.keys {
        Keys::Mastered(opener) => rewrap_under(alloc, opener, new_master, time, key, blocks, out),
        Keys::Unmastered(_) => Told::not_open(),
    }
}

/// The same where there is a master key.
fn rewrap_under(
    alloc: Global,
    opener: &Opener,
    new_master: &[u8],
    time: u64,
    key: &[u8],
    blocks: &[u8],
    out: &mut [u8],
) -> Told
    ensures rewrapped { Rewraps opener.now new_master.now time key.now blocks.now out.old out.new result }
{
    if DOCUMENT_LIMIT < key.len() {
        return Told::passed(1);
    }
    match check_bson(key) {
        Ok(_document) => {
            let mut entropy = Blocks::new(blocks);
            let made = opener.rewrap_key(alloc, &Tables, new_master, time, key, &mut entropy);
            tell_key(made, blocks.len(), entropy.left(), out)
        }
        Err(fault) => Told::malformed(fault),
    }
}

/// Makes a new key document, with the first eight blocks in these bytes.
pub(crate) fn make_key(
    alloc: Global,
    client: &Client,
    names: &[u8],
    time: u64,
    blocks: &[u8],
    out: &mut [u8],
) -> Told
    ensures made { MakesKeyAs (opener_of client.now.keys) names.now time blocks.now out.old out.new result }
{
    match &client.keys {
        Keys::Mastered(opener) => make_under(alloc, opener, names, time, blocks, out),
        Keys::Unmastered(_) => Told::not_open(),
    }
}

/// The same where there is a master key.
fn make_under(
    alloc: Global,
    opener: &Opener,
    names: &[u8],
    time: u64,
    blocks: &[u8],
    out: &mut [u8],
) -> Told
    ensures made { MakesKey opener.now names.now time blocks.now out.old out.new result }
{
    if DOCUMENT_LIMIT < names.len() {
        return Told::passed(1);
    }
    match check_bson(names) {
        Ok(names) => {
            let mut entropy = Blocks::new(blocks);
            let made = opener.make_key(alloc, &Tables, &names, time, &mut entropy);
            tell_key(made, blocks.len(), entropy.left(), out)
        }
        Err(fault) => Told::malformed(fault),
    }
}

/// What became of a key document, by the number of bytes that were handed in as blocks and of those that are left; it
/// is written where it fits.
fn tell_key(made: Result<Vec<u8>, KeyStop>, handed: usize, left: usize, out: &mut [u8]) -> Told
    requires few { WantsFew made }
    ensures shows { ShowsKey made handed left out.old out.new result }
{
    match made {
        Ok(document) => {
            let answer = Answer::Made(document);
            let random = random_of(&answer, handed, left);
            tell(&answer, random, out)
        }
        Err(stop) => tell_stop(stop),
    }
}

/// Why there is no key document.
fn tell_stop(stop: KeyStop) -> Told
    requires few { FewBlocks stop }
    ensures told { result ≡ stop_told stop }
{
    match stop {
        KeyStop::Faulty(fault) => Told::fault(fault),
        KeyStop::Damaged => numbered(1, Reason::KeyDamaged.code() as u32, 0, 0),
        KeyStop::Names => numbered(NO_NAMES, 0, 0, 0),
        KeyStop::Undrawn(wanted) => numbered(NO_BLOCKS, 0, wanted.size, BLOCK * wanted.draws),
        KeyStop::Memory => numbered(NO_MEMORY, 0, 0, 0),
    }
}

/// A status with a reason, a length and random bytes.
fn numbered(status: u32, reason: u32, length: usize, random: usize) -> Told
    ensures told { result ≡ numbered status reason length random }
{
    Told {
        status,
        reason,
        file: 0,
        place: 0,
        length,
        random,
    }
}

/// Writes the version into the front of `out`, where it fits.
pub(crate) fn write_version(out: &mut [u8]) -> Told
    ensures told { Writes 0 version out.old out.new result }
{
    let wanted = VERSION.len();
    if out.len() < wanted {
        return numbered(NO_ROOM, 0, wanted, 0);
    }
    let (front, _) = out.split_at_mut(wanted);
    front.copy_from_slice(VERSION);
    numbered(0, 0, wanted, 0)
}
