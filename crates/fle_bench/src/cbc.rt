//! CBC with AES-256 (SP 800-38A, 6.2), through each way to the block cipher.

ghost use Rattle.std.specs.Prelude.{◌≡◌, ◌≤◌, ◌<◌, ◌+◌, ◌*◌, ◌/◌, length, IfOk};
ghost use Rattle.aes_block.specs.Cipher.{cipher, inv_cipher};
ghost use Rattle.aes_block.specs.Expansion.{expanded};
ghost use Rattle.cbc_mode.specs.Cbc.{cbc_opened, cbc_sealed, IsWholeBlocks};
ghost use Rattle.cbc_mode.specs.Padding.{pad};
ghost use Rattle.fle_bench.specs.Checksum.{checksum};
ghost use Rattle.fle_bench.specs.Message.{message_bytes};
ghost use Rattle.fle_bench.specs.Turns.{sealed_turns};

use crate::checksum::checksum;
use crate::input::{last_block, message};
use crate::job::{Direction, MOST_BYTES, Way};
use aes_block::{Schedule, cipher_tables, expand, inv_cipher_tables, inv_cipher_tables_pair};
use cbc_mode::{cbc_open_into, cbc_seal_into, padded_len};
use crypto_hooks::{Block256, BlockBox, BoxHooks, Hooks, Tables};
use fle_vectors::CBC_AES256;
use std::alloc::{AllocError, Global};

/// Runs one direction over a message of some length, and gives the checksum of what it wrote last.
pub fn run(
    alloc: Global,
    direction: Direction,
    way: Way,
    size: usize,
    turns: u32,
) -> Result<u32, AllocError>
    requires { size ≤ MOST_BYTES }
    ensures sealed { IfOk result (λ sum. direction ≡ Direction.Seal → 0 < turns
        → sum ≡ checksum (sealed_turns (expanded CBC_AES256.key) CBC_AES256.iv (message_bytes size) turns)) }
    ensures opened { IfOk result (λ sum. direction ≡ Direction.Open → 0 < turns
        → sum ≡ checksum (cbc_opened (expanded CBC_AES256.key) CBC_AES256.iv
        (cbc_sealed (expanded CBC_AES256.key) CBC_AES256.iv (pad (message_bytes size))))) }
{
    let seal = |s: &Schedule, b: [u8; 16]| -> [u8; 16]
        ensures { result ≡ cipher s.entry.now b }
    { cipher_tables(s, b) };
    let unseal = |s: &Schedule, b: [u8; 16]| -> [u8; 16]
        ensures { result ≡ inv_cipher s.entry.now b }
    { inv_cipher_tables(s, b) };
    let unseal_two = |s: &Schedule, a: [u8; 16], b: [u8; 16]| -> ([u8; 16], [u8; 16])
        ensures first { result.0 ≡ inv_cipher s.entry.now a }
        ensures second { result.1 ≡ inv_cipher s.entry.now b }
    { inv_cipher_tables_pair(s, a, b) };
    match way {
        Way::Tables => through(alloc, &Tables, direction, size, turns),
        Way::Closures => {
            let hooks = Hooks::with_pairs(seal, unseal, unseal_two);
            through(alloc, &hooks, direction, size, turns)
        }
        Way::Boxes => {
            let boxed_seal: BlockBox = Box::new(alloc, seal)?;
            let boxed_unseal: BlockBox = Box::new(alloc, unseal)?;
            let hooks = BoxHooks::new(boxed_seal, boxed_unseal);
            through(alloc, &hooks, direction, size, turns)
        }
    }
}

/// The same through one implementation of the block cipher.
fn through<B: Block256>(
    alloc: Global,
    hooks: &B,
    direction: Direction,
    size: usize,
    turns: u32,
) -> Result<u32, AllocError>
    requires hooks { B.answers hooks.now }
    requires bounded { size ≤ MOST_BYTES }
    ensures sealed { IfOk result (λ sum. direction ≡ Direction.Seal → 0 < turns
        → sum ≡ checksum (sealed_turns (expanded CBC_AES256.key) CBC_AES256.iv (message_bytes size) turns)) }
    ensures opened { IfOk result (λ sum. direction ≡ Direction.Open → 0 < turns
        → sum ≡ checksum (cbc_opened (expanded CBC_AES256.key) CBC_AES256.iv
        (cbc_sealed (expanded CBC_AES256.key) CBC_AES256.iv (pad (message_bytes size))))) }
{
    let schedule = expand(&CBC_AES256.key);
    let plain = message(alloc, size)?;
    let mut sealed = vec![in alloc; 0u8; padded_len(size)]?;
    match direction {
        Direction::Seal => {
            seal_turns(hooks, &schedule, CBC_AES256.iv, &plain, &mut sealed, turns);
            Ok(checksum(&sealed))
        }
        Direction::Open => {
            cbc_seal_into(hooks, &schedule, CBC_AES256.iv, &plain, &mut sealed);
            let mut opened = vec![in alloc; 0u8; padded_len(size)]?;
            open_turns(hooks, &schedule, CBC_AES256.iv, &sealed, &mut opened, turns);
            Ok(checksum(&opened))
        }
    }
}

/// Seals a message some times over, the last block of each time being the next IV.
fn seal_turns<B: Block256>(
    hooks: &B,
    schedule: &Schedule,
    first: [u8; 16],
    plain: &[u8],
    out: &mut [u8],
    turns: u32,
)
    requires hooks { B.answers hooks.now }
    requires room { length out.old ≡ 16 * (length plain.now / 16 + 1) }
    ensures { 0 < turns → out.new ≡ sealed_turns schedule.now first plain.now turns }
{
    let mut iv = first;
    for _turn in 0..turns {
        cbc_seal_into(hooks, schedule, iv, plain, out);
        iv = last_block(out);
    }
}

/// Opens a sealed message some times over.
fn open_turns<B: Block256>(
    hooks: &B,
    schedule: &Schedule,
    iv: [u8; 16],
    sealed: &[u8],
    out: &mut [u8],
    turns: u32,
)
    requires hooks { B.answers hooks.now }
    requires room { length out.old ≡ length sealed.now }
    requires whole { IsWholeBlocks (length sealed.now) }
    ensures { 0 < turns → out.new ≡ cbc_opened schedule.now iv sealed.now }
{
    for _turn in 0..turns {
        let _outcome = cbc_open_into(hooks, schedule, iv, sealed, out);
    }
}
