//! HMAC-SHA-512 (RFC 2104), under a key that is kept or made ready in each turn.

ghost use Rattle.std.specs.Prelude.{◌≡◌, ◌<◌, ◌≤◌, ◌++◌, drop, length, ℕ, List, IfOk};
ghost use Rattle.hmac_sha512.specs.Hmac.{hmac};
ghost use Rattle.hmac_sha512.specs.States.{HasKey};
ghost use Rattle.fle_bench.specs.Checksum.{checksum};
ghost use Rattle.fle_bench.specs.Message.{message_bytes};
ghost use Rattle.fle_bench.specs.Turns.{mac_turns};

use crate::checksum::checksum;
use crate::input::{last_block, message};
use crate::job::KeySetup;
use fle_vectors::CBC_AES256;
use hmac_sha512::KeyedMac;
use std::alloc::{AllocError, Global};

/// Makes the MAC of a message of some length, 16 bytes or more, under the 32 bytes of the cipher's key, and gives the
/// checksum of the last. In place of the message's first 16 bytes stands the cipher's IV, and then the last 16
/// bytes of the MAC before.
pub fn run(alloc: Global, setup: KeySetup, size: usize, turns: u32) -> Result<u32, AllocError>
    requires { 16 ≤ size }
    ensures sum { IfOk result (λ sum. 0 < turns
        → sum ≡ checksum (mac_turns CBC_AES256.key CBC_AES256.iv (message_bytes size) turns)) }
{
    let text = message(alloc, size)?;
    let mac = match setup {
        KeySetup::Kept => kept_turns(&CBC_AES256.key, CBC_AES256.iv, &text, turns),
        KeySetup::Fresh => fresh_turns(&CBC_AES256.key, CBC_AES256.iv, &text, turns),
    };
    Ok(checksum(&mac))
}

/// The MAC of a message, made some times over under a key that is kept.
fn kept_turns(key: &[u8], first: [u8; 16], text: &[u8], turns: u32) -> [u8; 64]
    requires { 16 ≤ length text.now }
    ensures { 0 < turns → result ≡ mac_turns key.now first text.now turns }
{
    let keyed = KeyedMac::new(key);
    let mut block = first;
    let mut mac = [0; 64];
    for _turn in 0..turns {
        mac = mac_once(&keyed, block, text);
        block = last_block(&mac);
    }
    mac
}

/// The MAC of a message, made some times over with nothing kept.
fn fresh_turns(key: &[u8], first: [u8; 16], text: &[u8], turns: u32) -> [u8; 64]
    requires { 16 ≤ length text.now }
    ensures { 0 < turns → result ≡ mac_turns key.now first text.now turns }
{
    let mut block = first;
    let mut mac = [0; 64];
    for _turn in 0..turns {
        mac = mac_once(&KeyedMac::new(key), block, text);
        block = last_block(&mac);
    }
    mac
}

/// The MAC of a message, with a block in place of its first 16 bytes.
fn mac_once(keyed: &KeyedMac, block: [u8; 16], text: &[u8]) -> [u8; 64]
    requires { 16 ≤ length text.now }
    ensures { (k : List ℕ) → HasKey keyed.now k → result ≡ hmac k (block ++ drop 16 text.now) }
{
    let (_, rest) = text.split_at(16);
    let mut running = keyed.begin();
    running.update(&block);
    running.update(rest);
    running.finish()
}
