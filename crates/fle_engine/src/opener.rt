//! What opens documents.

ghost use Rattle.std.specs.Prelude.{◌≡◌, IfOk, length};
ghost use Rattle.std.specs.NonZero.{non_zero_usize_get};
ghost use Rattle.bson_tree.specs.Spelling.{doc_bytes};
ghost use Rattle.bson_tree.specs.Tree.{Items};
ghost use Rattle.context_machine.specs.Rings.{finder, ring};
ghost use Rattle.fle_engine.specs.Answers.{AnswerIs, HasAtMost};
ghost use Rattle.fle_engine.specs.Asked.{key_ruling, payloads_ruling};
ghost use Rattle.fle_engine.specs.Engines.{cache_room};
ghost use Rattle.fle_engine.specs.Explicit.{value_ruling};
ghost use Rattle.fle_engine.specs.Opening.{open_ruling};
ghost use Rattle.fle_outside.specs.Seen.{EntropySeen};
ghost use Rattle.payload6.specs.Needs.{need_seen};

use crate::answer::Answer;
use crate::asking::{ask_for_document, ask_for_key};
use crate::opening::open_document;
use crate::single::seal_value;
use bson_codec::RawDoc;
use context_machine::Need;
use crypto_hooks::Block256;
use encrypt_schema::Algorithm;
use fle_outside::{Entropy, Memory};
use key_vault::{KeyCache, Vault};
use local_kms::MasterKey;
use std::alloc::Global;
use std::num::NonZeroUsize;

/// There is room for at least this many opened keys.
const FEWEST: usize = 64;

/// There is room for at most this many opened keys.
const MOST: usize = 4_096;

/// A key vault, its master key, and the keys that were opened under it.
#[derive(Drop)]
pub struct Opener {
    /// The key documents.
    pub keys: Vault,
    /// The keys that were opened, with the master key.
    pub cache: KeyCache,
}

impl Opener {
    /// What opens under the keys of this vault and this master key. As many opened keys are kept as the vault has, but
    /// no more than 4,096.
    pub fn new(alloc: Global, keys: Vault, master: MasterKey) -> Result<Opener, Memory>
        ensures made { IfOk result (λ o. (o.keys ≡ keys) × (o.cache.master ≡ master)) }
        ensures room { IfOk result (λ o. o.cache.capacity ≡ cache_room (length keys)) }
    {
        match KeyCache::with_capacity(alloc, master, room_for(keys.len())) {
            Ok(cache) => Ok(Opener { keys, cache }),
            Err(Memory) => Err(Memory),
        }
    }

    /// The document with its payloads opened, which has at most as many bytes. It draws no block.
    pub fn open<B: Block256>(&mut self, alloc: Global, hooks: &B, document: &RawDoc<'_>) -> Answer
        requires hooks { B.answers hooks.now }
        requires whole { document.now.start ≡ 0 }
        ensures same { (self.new.keys ≡ self.old.keys) × (self.new.cache.master ≡ self.old.cache.master) }
        ensures answers { (e : EntropySeen)
            → AnswerIs (open_ruling (ring self.old.keys self.old.cache.master) document.now.tree) document.now.tree e e
            result }
        ensures short { HasAtMost (length (doc_bytes document.now.tree)) result }
    {
        open_document(alloc, document.again(), &self.keys, &mut self.cache, hooks)
    }

    /// The document of one element with its value sealed: under the key of this vault that an id or an alternate name
    /// leads to, by this algorithm, with one block drawn where that is the random one. Refused where it has not one
    /// element (2), for the value's type (5), a payload (6) and the key (16 to 18).
    pub fn seal_value<B: Block256, N: Entropy>(
        &mut self,
        alloc: Global,
        hooks: &B,
        need: Need<'_>,
        algorithm: Algorithm,
        document: &RawDoc<'_>,
        entropy: &mut N,
    ) -> Answer
        requires hooks { B.answers hooks.now }
        requires whole { document.now.start ≡ 0 }
        ensures same { (self.new.keys ≡ self.old.keys) × (self.new.cache.master ≡ self.old.cache.master) }
        ensures answers { AnswerIs
            (value_ruling (finder self.old.keys self.old.cache.master) (need_seen need.entry) algorithm
            document.now.tree) document.now.tree (N.seen entropy.old) (N.seen entropy.new) result }
    {
        seal_value(alloc, self, hooks, need, algorithm, document, entropy)
    }

    /// The filter of the keys that a document needs which is to be opened, and that the vault lacks, all of them by
    /// their ids, no byte where it lacks none. Refused where one of its payloads has a length that none has. It draws
    /// no block.
    pub fn keys_wanted(&self, alloc: Global, document: &RawDoc<'_>) -> Answer
        requires whole { document.now.start ≡ 0 }
        ensures answers { (e : EntropySeen)
            → AnswerIs (payloads_ruling self.now.keys document.now.tree) document.now.tree e e result }
    {
        ask_for_document(alloc, &self.keys, document)
    }

    /// The filter of the key that an id or an alternate name leads to, where the vault lacks it; else no byte. It draws
    /// no block.
    pub fn key_wanted(&self, alloc: Global, need: Need<'_>) -> Answer
        ensures answers { (d : Items) (e : EntropySeen)
            → AnswerIs (key_ruling self.now.keys (need_seen need.entry)) d e e result }
    {
        ask_for_key(alloc, &self.keys, need)
    }
}

/// How many opened keys there is room for beside a vault of this many keys.
fn room_for(keys: usize) -> NonZeroUsize
    ensures room { non_zero_usize_get result ≡ cache_room keys }
{
    let Some(room) = NonZeroUsize::new(keys.clamp(FEWEST, MOST)) else {
        unreachable!()
    };
    room
}
