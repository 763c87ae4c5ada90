//! New key documents (MongoDB Client Side Encryption, "Data key creation").

ghost use Rattle.std.specs.Prelude.{◌≡◌, ◌≤◌, IfOk, length, map, string_bytes};
ghost use Rattle.data_key.specs.Written.{size_of as names_size};
ghost use Rattle.fle_engine.specs.KeyRulings.{KeyAnswerIs, WantsFew, keygen_plan, makes_key, new_key_ruling};
ghost use Rattle.local_kms.specs.Document.{document_size};

use crate::answer::Wanted;
use crate::key_stop::KeyStop;
use crate::new_names::read_names;
use crate::opener::Opener;
use bson_codec::RawDoc;
use bson_tree::Bytes;
use crypto_hooks::Block256;
use data_key::{KeyDoc, Provider};
use fle_outside::{Entropy, Memory};
use local_kms::{MasterKey, NewFault, document_of, names_of, new_key};
use std::alloc::Global;

/// A new key draws this many blocks.
const DRAWS: usize = 8;

impl Opener {
    /// The document of a new key under the master key, with the names in a document `{keyAltNames: [..]}` or `{}`, such
    /// as `keygen` accepts; made and changed at this time, the 64 bits of the milliseconds since 1970. It draws eight
    /// blocks.
    pub fn make_key<B: Block256, N: Entropy>(
        &self,
        alloc: Global,
        hooks: &B,
        names: &RawDoc<'_>,
        time: u64,
        entropy: &mut N,
    ) -> Result<Vec<u8>, KeyStop>
        requires hooks { B.answers hooks.now }
        ensures answers { KeyAnswerIs (new_key_ruling self.now.cache.master time names.now.tree)
            (N.seen entropy.old) (N.seen entropy.new) result }
        ensures few { WantsFew result }
    {
        make_under(alloc, hooks, self.cache.master(), names, time, entropy)
    }
}

/// The same under this master key.
fn make_under<B: Block256, N: Entropy>(
    alloc: Global,
    hooks: &B,
    master: &MasterKey,
    names: &RawDoc<'_>,
    time: u64,
    entropy: &mut N,
) -> Result<Vec<u8>, KeyStop>
    requires hooks { B.answers hooks.now }
    ensures answers { KeyAnswerIs (new_key_ruling master.now time names.now.tree)
        (N.seen entropy.old) (N.seen entropy.new) result }
    ensures few { WantsFew result }
{
    match read_names(alloc, names) {
        Ok(texts) => make_named(alloc, hooks, master, &texts, time, entropy),
        Err(stop) => Err(stop),
    }
}

/// The document of a new key with these names.
fn make_named<B: Block256, N: Entropy>(
    alloc: Global,
    hooks: &B,
    master: &MasterKey,
    texts: &[String],
    time: u64,
    entropy: &mut N,
) -> Result<Vec<u8>, KeyStop>
    requires hooks { B.answers hooks.now }
    requires number { length texts.now ≤ 1000 }
    requires small { names_size (map string_bytes texts.now) ≤ 15999840 }
    ensures answers { KeyAnswerIs (makes_key (keygen_plan (map string_bytes texts.now) time master.now))
        (N.seen entropy.old) (N.seen entropy.new) result }
    ensures few { WantsFew result }
{
    let Ok(names) = names_of(alloc, texts) else {
        return Err(KeyStop::Memory);
    };
    match new_key(alloc, entropy, hooks, master, names) {
        Ok(key) => match document_of(alloc, &key, time) {
            Ok(document) => Ok(document),
            Err(Memory) => Err(KeyStop::Memory),
        },
        Err(NewFault::EntropyFailed) => match size_of(alloc, texts, time) {
            Ok(size) => Err(KeyStop::Undrawn(Wanted { size, draws: DRAWS })),
            Err(Memory) => Err(KeyStop::Memory),
        },
        Err(NewFault::Memory) => Err(KeyStop::Memory),
    }
}

/// How many bytes the document of a new key with these names has.
fn size_of(alloc: Global, texts: &[String], time: u64) -> Result<usize, Memory>
    requires number { length texts.now ≤ 1000 }
    requires small { names_size (map string_bytes texts.now) ≤ 15999840 }
    ensures size { IfOk result (λ size. size ≡ document_size (map string_bytes texts.now) time) }
{
    let names = names_of(alloc, texts)?;
    let material = Bytes::from_slice(alloc, &[0; 160])?;
    let key = KeyDoc {
        id: [0; 16],
        names,
        material,
        provider: Provider::Local,
    };
    let document = document_of(alloc, &key, time)?;
    Ok(document.len())
}
