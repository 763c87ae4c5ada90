//! How a caller hands in the two calls: there and back through each kind of hooks.

ghost use Rattle.std.specs.Prelude.{◌≡◌, IfOk};
ghost use Rattle.aes_block.specs.Cipher.{cipher, inv_cipher};

use crate::block256::Block256;
use crate::boxed::{BlockBox, BoxHooks};
use crate::closures::Hooks;
use aes_block::{Schedule, cipher_tables, inv_cipher_tables, inv_cipher_tables_pair};
use std::alloc::{AllocError, Global};

/// Encrypts a block by one closure, and decrypts what came by another.
pub fn there_and_back(schedule: &Schedule, block: [u8; 16]) -> [u8; 16]
    ensures back { result ≡ inv_cipher schedule.now (cipher schedule.now block) }
{
    let seal = |s: &Schedule, b: [u8; 16]| -> [u8; 16]
        ensures { result ≡ cipher s.entry.now b }
    { cipher_tables(s, b) };
    let unseal = |s: &Schedule, b: [u8; 16]| -> [u8; 16]
        ensures { result ≡ inv_cipher s.entry.now b }
    { inv_cipher_tables(s, b) };
    let hooks = Hooks::new(seal, unseal);
    let sealed = hooks.seal_block(schedule, block);
    hooks.open_block(schedule, sealed)
}

/// The same by two boxed closures. Fails only where memory runs out.
pub fn there_and_back_boxed(
    alloc: Global,
    schedule: &Schedule,
    block: [u8; 16],
) -> Result<[u8; 16], AllocError>
    ensures back { IfOk result (λ r. r ≡ inv_cipher schedule.now (cipher schedule.now block)) }
{
    let seal = |s: &Schedule, b: [u8; 16]| -> [u8; 16]
        ensures { result ≡ cipher s.entry.now b }
    { cipher_tables(s, b) };
    let unseal = |s: &Schedule, b: [u8; 16]| -> [u8; 16]
        ensures { result ≡ inv_cipher s.entry.now b }
    { inv_cipher_tables(s, b) };
    let boxed_seal: BlockBox = Box::new(alloc, seal)?;
    let boxed_unseal: BlockBox = Box::new(alloc, unseal)?;
    let hooks = BoxHooks::new(boxed_seal, boxed_unseal);
    let sealed = hooks.seal_block(schedule, block);
    Ok(hooks.open_block(schedule, sealed))
}

/// Encrypts two blocks by one closure, and decrypts what came by another that takes two.
pub fn two_there_and_back(
    schedule: &Schedule,
    first: [u8; 16],
    second: [u8; 16],
) -> ([u8; 16], [u8; 16])
    ensures first { result.0 ≡ inv_cipher schedule.now (cipher schedule.now first) }
    ensures second { result.1 ≡ inv_cipher schedule.now (cipher schedule.now second) }
{
    let seal = |s: &Schedule, b: [u8; 16]| -> [u8; 16]
        ensures { result ≡ cipher s.entry.now b }
    { cipher_tables(s, b) };
    let unseal = |s: &Schedule, b: [u8; 16]| -> [u8; 16]
        ensures { result ≡ inv_cipher s.entry.now b }
    { inv_cipher_tables(s, b) };
    let unseal_two = |s: &Schedule, a: [u8; 16], b: [u8; 16]| -> ([u8; 16], [u8; 16])
        ensures first { result.0 ≡ inv_cipher s.entry.now a }
        ensures second { result.1 ≡ inv_cipher s.entry.now b }
    { inv_cipher_tables_pair(s, a, b) };
    let hooks = Hooks::with_pairs(seal, unseal, unseal_two);
    let sealed = hooks.seal_block(schedule, first);
    let behind = hooks.seal_block(schedule, second);
    hooks.open_two(schedule, sealed, behind)
}
