//! Documents of new keys (MongoDB Client Side Encryption, "Key vault").

ghost use Rattle.std.specs.Prelude.{◌≡◌, ◌≤◌, IfOk, length, map, string_bytes};
ghost use Rattle.bson_tree.specs.Spelling.{doc_bytes};
ghost use Rattle.data_key.specs.Written.{key_fields, size_of as names_size};
ghost use Rattle.local_kms.specs.Document.{document_size};

use bson_tree::{Bytes, Names};
use data_key::{KeyDoc, Provider, write_key};
use fle_outside::Memory;
use std::alloc::Global;

/// The document of a key that was made at this time, the 64 bits of the milliseconds since 1970: both its dates are
/// that time, and its status is 0.
pub fn document_of(alloc: Global, key: &KeyDoc, time: u64) -> Result<Vec<u8>, Memory>
    requires few { length key.now.names ≤ 1000 }
    requires small { names_size key.now.names ≤ 15999840 }
    requires long { (length key.now.id ≡ 16) × (length key.now.material ≡ 160) }
    requires local { key.now.provider ≡ Provider.Local }
    ensures document { IfOk result (λ bytes. bytes.items ≡ doc_bytes (key_fields key.now time time 0)) }
    ensures size { IfOk result (λ bytes. length bytes.items ≡ document_size key.now.names time) }
{
    let ms = time.cast_signed();
    let bytes = write_key(alloc, key, ms, ms, 0)?;
    Ok(bytes)
}

/// The names of a key, from their texts.
pub fn names_of(alloc: Global, texts: &[String]) -> Result<Names, Memory>
    ensures names { IfOk result (λ names. names ≡ map string_bytes texts.now) }
{
    let mut names = Vec::new(alloc);
    for word in texts {
        let name = Bytes::from_slice(alloc, word.as_bytes())?;
        match names.push(name) {
            Ok(()) => {}
            Err(_) => return Err(Memory),
        }
    }
    Ok(Names::from_vec(names))
}
