//! The document of one key under a new master key.

ghost use Rattle.std.specs.Prelude.{◌≡◌, ◌+◌, ◌<◌, ◌≤◌, ◌^◌, false, length, Ok, IsOk, IfOk};
ghost use Rattle.bson_codec.specs.Layout.{IsDoc};
ghost use Rattle.bson_tree.specs.Spelling.{doc_bytes};
ghost use Rattle.data_key.specs.Key.{key_in};
ghost use Rattle.local_kms.specs.Drawn.{Makes};
ghost use Rattle.local_kms.specs.Made.{block_at};
ghost use Rattle.rewrap_keys.specs.Answers.{WritesOne};
ghost use Rattle.rewrap_keys.specs.Opened.{data_key_of};
ghost use Rattle.rewrap_keys.specs.Rewrapped.{draws_by, is_damaged, new_material};
ghost use Rattle.rewrap_keys.specs.Seen.{seen};

use crate::fields::put_document;
use bson_codec::RawDoc;
use bson_splice::writing::put;
use crypto_hooks::Block256;
use data_key::{KeyDoc, Provider};
use fle_outside::{Entropy, Failed};
use local_kms::{KeyBytes, MasterKey, wrap_bytes};

/// A change of master key, and its time.
#[derive(Drop)]
pub(crate) struct Masters<'a> {
    /// The master key under which the keys are sealed.
    pub(crate) from: &'a MasterKey,
    /// The master key under which they will be sealed.
    pub(crate) to: &'a MasterKey,
    /// The milliseconds since 1970, as 64 bits.
    pub(crate) time: u64,
}

/// A key of a vault, and what it opened to.
#[derive(Drop)]
pub(crate) struct OpenedKey<'a> {
    /// The key.
    pub(crate) key: &'a KeyDoc,
    /// The bytes of the data key of a local one, `None` of any other.
    pub(crate) data_key: &'a Option<KeyBytes>,
}

/// Writes the document of a key behind `at`: of a local key with new material under the next block, of any other as it
/// stands. The end of what is written.
pub(crate) fn rewrap_document<B: Block256, N: Entropy>(
    hooks: &B,
    masters: &Masters<'_>,
    opened: &OpenedKey<'_>,
    document: &RawDoc<'_>,
    out: &mut [u8],
    at: usize,
    entropy: &mut N,
) -> Result<usize, Failed>
    requires hooks { B.answers hooks.now }
    requires doc { IsDoc document.now.tree }
    requires stated { key_in document.now.tree ≡ Ok opened.now.key.now }
    requires whole { is_damaged masters.now.from.now opened.now.key.now ≡ false }
    requires data_key { opened.now.data_key.now ≡ data_key_of masters.now.from.now opened.now.key.now }
    requires small { length out.old < 2 ^ 31 }
    requires room { at + length (doc_bytes document.now.tree) ≤ length out.old }
    ensures size { length out.new ≡ length out.old }
    ensures written { WritesOne (seen masters.now)
        document.now.tree opened.now.key.now (N.seen entropy.old) (N.seen entropy.new) out.old out.new at result }
    ensures sure { draws_by opened.now.key.now.provider ≤ (N.seen entropy.old).assured → IsOk result }
{
    match opened.key.provider {
        Provider::Local => match draw_material(hooks, masters, opened, entropy) {
            Ok(material) => Ok(put_document(out, at, document, &material, masters.time)),
            Err(Failed) => Err(Failed),
        },
        Provider::Other => Ok(put(out, at, document.bytes())),
    }
}

/// The data key of a local key, sealed under the new master key with the next block as IV.
fn draw_material<B: Block256, N: Entropy>(
    hooks: &B,
    masters: &Masters<'_>,
    opened: &OpenedKey<'_>,
    entropy: &mut N,
) -> Result<[u8; 160], Failed>
    requires hooks { B.answers hooks.now }
    requires local { opened.now.key.now.provider ≡ Provider.Local }
    requires whole { is_damaged masters.now.from.now opened.now.key.now ≡ false }
    requires data_key { opened.now.data_key.now ≡ data_key_of masters.now.from.now opened.now.key.now }
    ensures made { Makes (N.seen entropy.old) (N.seen entropy.new) 1
        (λ blocks. new_material (seen masters.now)
        (block_at 0 blocks) opened.now.key.now.material) result }
    ensures sure { 0 < (N.seen entropy.old).assured → IsOk result }
{
    let Some(data_key) = opened.data_key else {
        unreachable!();
    };
    match draw_iv(entropy) {
        Ok(iv) => Ok(wrap_bytes(hooks, masters.to, iv, data_key)),
        Err(Failed) => Err(Failed),
    }
}

/// Draws an IV.
fn draw_iv<N: Entropy>(entropy: &mut N) -> Result<[u8; 16], Failed>
    ensures drawn { Makes (N.seen entropy.old) (N.seen entropy.new) 1 (block_at 0) result }
    ensures sure { 0 < (N.seen entropy.old).assured → IsOk result }
{
    entropy.block()
}
