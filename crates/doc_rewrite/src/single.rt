//! A document of one element with its value sealed, written into a slice.

ghost use Rattle.std.specs.Prelude.{◌≡◌, ◌+◌, ◌≤◌, length, IfOk, OnErr};
ghost use Rattle.bson_tree.specs.Spelling.{value_bytes};
ghost use Rattle.doc_rewrite.specs.Ivs.{DrawFails};
ghost use Rattle.doc_rewrite.specs.Alone.{IsSealedSingle};
ghost use Rattle.doc_rewrite.specs.Sites.{sealed_width};

use crate::iv::iv_for;
use crate::label::Label;
use crate::placing::put_sealed;
use bson_codec::RawItem;
use bson_splice::writing::put;
use crypto_hooks::Block256;
use encrypt_schema::Algorithm;
use fle_aead::DataKey;
use fle_outside::{Entropy, Failed};

/// Writes the document of this element alone, with the payload of its value in its place: by this algorithm, under the
/// data key of this id, with the next block where the algorithm is the random one. `Failed` where that couldn't be
/// drawn: nothing is written then. It allocates nothing.
pub fn seal_single<B: Block256, N: Entropy>(
    hooks: &B,
    key: &DataKey,
    key_id: [u8; 16],
    algorithm: Algorithm,
    item: &RawItem<'_>,
    entropy: &mut N,
    out: &mut [u8],
) -> Result<(), Failed>
    requires hooks { B.answers hooks.now }
    requires room { length out.old ≡ 7 + length item.now.name + sealed_width (length (value_bytes item.now.tree)) }
    requires small { length out.old ≤ 48000000 }
    ensures size { length out.new ≡ length out.old }
    ensures sealed { IfOk result (λ _. IsSealedSingle algorithm key_id key.now item.now.name item.now.tree
        (N.seen entropy.old) (N.seen entropy.new) out.new) }
    ensures failed { OnErr result (DrawFails algorithm (N.seen entropy.old) (N.seen entropy.new)) }
{
    let label = Label { algorithm, key_id };
    match iv_for(&label, key, item, entropy) {
        Ok(iv) => {
            let size = out.len() as u32;
            let front = put(out, 0, &size.to_le_bytes());
            let end = put_sealed(hooks, key, &label, iv, item, out, front);
            put(out, end, &[0]);
            Ok(())
        }
        Err(Failed) => Err(Failed),
    }
}
