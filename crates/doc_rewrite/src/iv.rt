//! The IV under which a value is sealed.

ghost use Rattle.doc_rewrite.specs.Ivs.{TellsIv};

use crate::label::Label;
use bson_codec::RawItem;
use encrypt_schema::Algorithm;
use fle_aead::DataKey;
use fle_outside::{Entropy, Failed};
use payload6::det_iv;

/// The IV of a value: derived of it under the deterministic algorithm, the next random block under the random one.
#[tactic(auto, using(crate::proofs::Drawings::iv_drawn))]
pub(crate) fn iv_for<N: Entropy>(
    label: &Label,
    key: &DataKey,
    item: &RawItem<'_>,
    entropy: &mut N,
) -> Result<[u8; 16], Failed>
    ensures iv { TellsIv label.now key.now item.now.tree (N.seen entropy.old) (N.seen entropy.new) result }
{
    match label.algorithm {
        Algorithm::Deterministic => Ok(det_iv(key, label.key_id, item.tag(), item.value())),
        Algorithm::Random => match entropy.block() {
            Ok(block) => Ok(block),
            Err(Failed) => Err(Failed),
        },
    }
}
