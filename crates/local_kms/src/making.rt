//! New data keys, made of random blocks (MongoDB Client Side Encryption, "Data key creation").

ghost use Rattle.std.specs.Prelude.{◌≡◌, ◌≢◌, ◌<◌, ◌≤◌, ◌++◌, length, Err, IsOk, IfOk};
ghost use Rattle.local_kms.specs.Drawn.{Makes};
ghost use Rattle.local_kms.specs.Made.{block_at, id_of, key_of_blocks, MakesKey, material_of, seeds, six_blocks};
ghost use Rattle.local_kms.specs.Made.{two_blocks};

use crate::key_bytes::KeyBytes;
use crate::master::MasterKey;
use crate::wrapping::wrap_bytes;
use bson_tree::{Bytes, Names};
use crypto_hooks::Block256;
use data_key::{KeyDoc, Provider};
use fle_outside::{Entropy, Failed};
use std::alloc::Global;
use uuid::Builder;

/// Why no key is made.
#[derive(Clone, Copy, Debug, PartialEq, Eq)]
pub enum NewFault {
    /// A draw failed.
    EntropyFailed,
    /// There was no memory for the key.
    Memory,
}

/// What a key is made of.
#[derive(Drop)]
struct Seeds {
    /// The block of its id.
    id: [u8; 16],
    /// The data key.
    key: [u8; 96],
    /// The IV under which it is sealed.
    iv: [u8; 16],
}

/// A new data key with these names, sealed under the master key. It allocates first, and then draws eight
/// blocks: one for the id, six for the key, one for the IV. With `EntropyFailed` fewer were drawn, with `Memory`
/// none.
pub fn new_key<B: Block256, N: Entropy>(
    alloc: Global,
    entropy: &mut N,
    hooks: &B,
    master: &MasterKey,
    names: Names,
) -> Result<KeyDoc, NewFault>
    requires hooks { B.answers hooks.now }
    ensures made { MakesKey master.now names (N.seen entropy.old) (N.seen entropy.new) result }
    ensures named { IfOk result (λ key. key.names ≡ names) }
    ensures local { IfOk result (λ key. key.provider ≡ Provider.Local) }
    ensures long { IfOk result (λ key. (length key.id ≡ 16) × (length key.material ≡ 160)) }
    ensures undrawn { result ≡ Err NewFault.Memory → entropy.new ≡ entropy.old }
    ensures sure { 8 ≤ (N.seen entropy.old).assured → result ≢ Err NewFault.EntropyFailed }
{
    let Ok(mut material) = Vec::from_slice(alloc, &[0; 160]) else {
        return Err(NewFault::Memory);
    };
    match draw_seeds(entropy) {
        Ok(seeds) => {
            let sealed = wrap_bytes(hooks, master, seeds.iv, &KeyBytes::new(seeds.key));
            material.copy_from_slice(&sealed);
            Ok(KeyDoc {
                id: version_4(seeds.id),
                names,
                material: Bytes::from_vec(material),
                provider: Provider::Local,
            })
        }
        Err(_) => Err(NewFault::EntropyFailed),
    }
}

/// The UUID of version 4 of a random block.
fn version_4(block: [u8; 16]) -> [u8; 16]
    ensures { result ≡ id_of block }
{
    Builder::from_random_bytes(block).into_uuid().into_bytes()
}

/// Draws the eight blocks of a key.
fn draw_seeds<N: Entropy>(entropy: &mut N) -> Result<Seeds, Failed>
    ensures drawn { Makes (N.seen entropy.old) (N.seen entropy.new) 8 seeds result }
    ensures sure { 8 ≤ (N.seen entropy.old).assured → IsOk result }
{
    let Ok(id) = draw_one(entropy) else {
        return Err(Failed);
    };
    let Ok(key) = draw_key(entropy) else {
        return Err(Failed);
    };
    let Ok(iv) = draw_one(entropy) else {
        return Err(Failed);
    };
    Ok(Seeds { id, key, iv })
}

/// Draws the six blocks of a data key.
fn draw_key<N: Entropy>(entropy: &mut N) -> Result<[u8; 96], Failed>
    ensures drawn { Makes (N.seen entropy.old) (N.seen entropy.new) 6 (six_blocks 0) result }
    ensures sure { 6 ≤ (N.seen entropy.old).assured → IsOk result }
{
    let Ok(mac) = draw_part(entropy) else {
        return Err(Failed);
    };
    let Ok(cipher) = draw_part(entropy) else {
        return Err(Failed);
    };
    let Ok(iv) = draw_part(entropy) else {
        return Err(Failed);
    };
    Ok(key_of(&mac, &cipher, &iv))
}

/// Draws the two blocks of a part of a data key.
fn draw_part<N: Entropy>(entropy: &mut N) -> Result<[u8; 32], Failed>
    ensures drawn { Makes (N.seen entropy.old) (N.seen entropy.new) 2 (two_blocks 0) result }
    ensures sure { 2 ≤ (N.seen entropy.old).assured → IsOk result }
{
    let Ok(first) = draw_one(entropy) else {
        return Err(Failed);
    };
    let Ok(second) = draw_one(entropy) else {
        return Err(Failed);
    };
    Ok(part_of(&first, &second))
}

/// Draws a block.
fn draw_one<N: Entropy>(entropy: &mut N) -> Result<[u8; 16], Failed>
    ensures drawn { Makes (N.seen entropy.old) (N.seen entropy.new) 1 (block_at 0) result }
    ensures sure { 0 < (N.seen entropy.old).assured → IsOk result }
{
    entropy.block()
}

/// The part of two blocks.
fn part_of(first: &[u8; 16], second: &[u8; 16]) -> [u8; 32]
    ensures { result ≡ first.now ++ second.now }
{
    let mut part = [0; 32];
    let (front, back) = part.split_at_mut(16);
    front.copy_from_slice(first);
    back.copy_from_slice(second);
    part
}

/// The key of three parts.
fn key_of(mac: &[u8; 32], cipher: &[u8; 32], iv: &[u8; 32]) -> [u8; 96]
    ensures { result ≡ mac.now ++ (cipher.now ++ iv.now) }
{
    let mut key = [0; 96];
    let (front, rest) = key.split_at_mut(32);
    let (middle, back) = rest.split_at_mut(32);
    front.copy_from_slice(mac);
    middle.copy_from_slice(cipher);
    back.copy_from_slice(iv);
    key
}
