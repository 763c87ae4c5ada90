//! The check of a document without a copy (BSON 1.1).

ghost use Rattle.std.specs.Prelude.{◌≡◌, ◌<◌, ◌≤◌, length, is_ok, IfOk};
ghost use Rattle.bson_codec.specs.Reading.{document as document_in};

use bson_codec::check_bson;
use fle_outside::{Fill, Source, fill_piece};
use std::alloc::{AllocError, Global};

/// So many bytes from a source; zeros in place of what it hasn't.
pub fn document<S: Source>(
    alloc: Global,
    source: &mut S,
    size: usize,
) -> Result<Vec<u8>, AllocError>
    ensures len { IfOk result (λ v. length v.items ≡ size) }
{
    let mut bytes = vec![in alloc; 0u8; size]?;
    match fill_piece(source, &mut bytes) {
        Fill::Whole | Fill::Ended(_) | Fill::Failed => Ok(bytes),
    }
}

/// Checks a document some times over, and says whether it was right the last time.
pub fn run(document: &[u8], turns: u32) -> bool
    requires { length document.now ≤ 67108864 }
    ensures right { 0 < turns → result ≡ is_ok (document_in document.now) }
{
    let mut right = false;
    for _turn in 0..turns {
        right = is_right(document);
    }
    right
}

/// Whether the bytes spell a document.
fn is_right(document: &[u8]) -> bool
    requires { length document.now ≤ 67108864 }
    ensures { result ≡ is_ok (document_in document.now) }
{
    match check_bson(document) {
        Ok(_) => true,
        Err(_) => false,
    }
}
