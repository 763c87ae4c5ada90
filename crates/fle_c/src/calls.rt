//! One document by one client, from bytes to bytes.

ghost use Rattle.fle_c.specs.Calls.{JudgesAs, AnswersAs, SameClient, SealsBy, MarksBy, UnsealsAs, WantsBy, WantsInfoBy};
ghost use Rattle.fle_c.specs.Calls.{WantsToOpenBy, opener_of, opening_of};
ghost use Rattle.fle_c.specs.Blocks.{handed_seen};
ghost use Rattle.fle_outside.specs.Limits.{output_limit};
ghost use Rattle.std.specs.Prelude.{◌≡◌, ◌≤◌, [], length};

use crate::blocks::Blocks;
use crate::told::{Told, reply_random, tell, tell_asked, tell_reply};
use bson_codec::check_bson;
use crypto_hooks::Tables;
use fle_client::{Client, Keys};
use fle_engine::{Opener, ask_for_document};
use key_vault::Vault;
use std::alloc::Global;

/// A command has at most this many bytes.
const DOCUMENT_LIMIT: usize = 16_777_216;

/// A document that is opened has at most this many bytes.
const OPENED_LIMIT: usize = 48_000_000;

/// Seals a command that is sent to this database, with the blocks in these bytes.
pub(crate) fn seal(
    alloc: Global,
    client: &mut Client,
    db: &[u8],
    command: &[u8],
    blocks: &[u8],
    out: &mut [u8],
) -> Told
    ensures same { SameClient client.old client.new }
    ensures sealed { SealsBy db.now client.old command.now blocks.now out.old out.new result }
{
    if DOCUMENT_LIMIT < command.len() {
        return Told::passed(1);
    }
    match check_bson(command) {
        Ok(command) => {
            let mut entropy = Blocks::new(blocks);
            let reply = client.seal(alloc, &Tables, db, &command, &mut entropy);
            let random = reply_random(&reply, blocks.len(), entropy.left());
            tell_reply(&reply, random, out)
        }
        Err(fault) => Told::malformed(fault),
    }
}

/// Opens a document, for which as much room is enough as it has bytes.
pub(crate) fn unseal(alloc: Global, client: &mut Client, document: &[u8], out: &mut [u8]) -> Told
    ensures same { SameClient client.old client.new }
    ensures opened { UnsealsAs (opener_of client.old.keys) document.now out.old out.new result }
    ensures room { length document.now ≤ length out.old → result.status ≡ 10 → ⊥ }
{
    match &mut client.keys {
        Keys::Mastered(opener) => unseal_under(alloc, opener, document, out),
        Keys::Unmastered(_) => Told::not_open(),
    }
}

/// The same under keys with their master key.
fn unseal_under(alloc: Global, opener: &mut Opener, document: &[u8], out: &mut [u8]) -> Told
    ensures same { (opener.new.keys ≡ opener.old.keys) × (opener.new.cache.master ≡ opener.old.cache.master) }
    ensures opened { JudgesAs output_limit
        (λ d. AnswersAs (opening_of opener.old d) d (handed_seen [] 0) out.old out.new result) document.now out.old
        out.new result }
    ensures room { length document.now ≤ length out.old → result.status ≡ 10 → ⊥ }
{
    if OPENED_LIMIT < document.len() {
        return Told::passed(1);
    }
    match check_bson(document) {
        Ok(document) => {
            let answer = opener.open(alloc, &Tables, &document);
            tell(&answer, 0, out)
        }
        Err(fault) => Told::malformed(fault),
    }
}

/// The marking reply to a command that is sent to this database.
pub(crate) fn mark(
    alloc: Global,
    client: &Client,
    db: &[u8],
    command: &[u8],
    out: &mut [u8],
) -> Told
    ensures marked { MarksBy db.now client.now.commands client.now.rules command.now out.old out.new result }
{
    if DOCUMENT_LIMIT < command.len() {
        return Told::passed(1);
    }
    match check_bson(command) {
        Ok(command) => {
            let reply = client.mark(alloc, db, &command);
            tell_reply(&reply, 0, out)
        }
        Err(fault) => Told::malformed(fault),
    }
}

/// The info that a command needs which is sent to this database.
pub(crate) fn ask_info(
    alloc: Global,
    client: &Client,
    db: &[u8],
    command: &[u8],
    out: &mut [u8],
) -> Told
    ensures asked { WantsInfoBy db.now client.now.commands client.now.rules command.now out.old out.new result }
{
    if DOCUMENT_LIMIT < command.len() {
        return Told::passed(1);
    }
    match check_bson(command) {
        Ok(command) => {
            let answer = client.info_wanted(alloc, db, &command);
            tell(&answer, 0, out)
        }
        Err(fault) => Told::malformed(fault),
    }
}

/// The keys that a command needs which is sent to this database, and that the client lacks; with the random bytes that
/// the command wants.
pub(crate) fn ask(alloc: Global, client: &Client, db: &[u8], command: &[u8], out: &mut [u8]) -> Told
    ensures asked { WantsBy db.now client.now command.now out.old out.new result }
{
    if DOCUMENT_LIMIT < command.len() {
        return Told::passed(1);
    }
    match check_bson(command) {
        Ok(command) => {
            let asked = client.keys_wanted(alloc, db, &command);
            tell_asked(&asked, out)
        }
        Err(fault) => Told::malformed(fault),
    }
}

/// The keys that a document needs which is to be opened, and that aren't among these.
pub(crate) fn ask_to_open(alloc: Global, keys: &Vault, document: &[u8], out: &mut [u8]) -> Told
    ensures asked { WantsToOpenBy keys.now document.now out.old out.new result }
{
    if OPENED_LIMIT < document.len() {
        return Told::passed(1);
    }
    match check_bson(document) {
        Ok(document) => {
            let answer = ask_for_document(alloc, keys, &document);
            tell(&answer, 0, out)
        }
        Err(fault) => Told::malformed(fault),
    }
}
