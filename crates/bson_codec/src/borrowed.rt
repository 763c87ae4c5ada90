//! Documents over bytes that were checked, which are borrowed and not copied.

ghost use Rattle.std.specs.Prelude.{◌≡◌, ◌+◌, ◌<◌, ◌≤◌, ◌^◌, ◌++◌, ℕ, List, length, Ok, IfOk};
ghost use Rattle.bson_tree.specs.Spelling.{doc_bytes};
ghost use Rattle.bson_tree.specs.Tree.{Items};
ghost use Rattle.bson_codec.specs.Layout.{IsDoc, longest};
ghost use Rattle.bson_codec.specs.Reading.{document, front_document, fault_of, width_of};
ghost use Rattle.bson_codec.specs.Fault.{Seen};

use crate::checking::check_framed;
use crate::decoding::total_of;
use crate::fault::{BsonFault, BsonKind};
use crate::measuring::LEVELS;
use std::marker::Model;

/// A document that its bytes spell (BSON 1.1, nesting at most 100), and the offset of its first byte in
/// the outermost bytes that were checked.
#[derive(Drop)]
pub struct RawDoc<'a> {
    pub(crate) bytes: &'a [u8],
    pub(crate) start: usize,
}

impl<'a> Model for RawDoc<'a> {
    ghost use Rattle.std.specs.Prelude.{◌<◌, ◌+◌, ◌^◌, length};
    ghost use Rattle.bson_codec.specs.Borrowed.{At, coded_at, doc_of, SpellsDoc};

    ghost Value = { At };

    ghost coded = { coded_at };

    ghost view = { λ d. record { tree = doc_of d.bytes.now; start = d.start } };

    ghost invariant = { λ d. (d.start + length d.bytes.now < 2 ^ 31) × SpellsDoc d.bytes.now };
}

/// The document that the bytes spell, all of them: at most 67,108,864 bytes.
///
/// Ok exactly where they spell one; else the first fault. Bytes behind the document are Extra at its end.
pub fn check_bson<'a>(bytes: &'a [u8]) -> Result<RawDoc<'a>, BsonFault>
    requires { length bytes.now ≤ longest }
    // What is read has a spelling, and the bytes are it.
    ensures found { IfOk result (λ d. IsDoc d.tree × (bytes.now ≡ doc_bytes d.tree) × (d.start ≡ 0)) }
    // What has a spelling is read from it.
    ensures only { (is : Items) → IsDoc is → bytes.now ≡ doc_bytes is → Seen (λ d. d.tree) result (Ok is) }
    // Which document, or which fault.
    ensures exact { Seen (λ d. d.tree) result (document bytes.now) }
{
    match check_whole(bytes) {
        Ok(()) => Ok(RawDoc { bytes, start: 0 }),
        Err(fault) => Err(fault),
    }
}

/// The document at the front of the bytes, at most 67,108,864 of them, and the rest, which isn't judged.
///
/// Ok exactly where a document stands at the front; else the first fault, on no bytes Short at 0.
pub fn first_doc<'a>(bytes: &'a [u8]) -> Result<(RawDoc<'a>, &'a [u8]), BsonFault>
    requires { length bytes.now ≤ longest }
    // What is read has a spelling, and the bytes are it and the rest.
    ensures found { IfOk result (λ x. IsDoc x.0.tree × (bytes.now ≡ doc_bytes x.0.tree ++ x.1.now) × (x.0.start ≡ 0)) }
    // What has a spelling is read from it, whatever follows.
    ensures only { (is : Items) (rest : List ℕ) → IsDoc is → bytes.now ≡ doc_bytes is ++ rest
        → Seen {Y = Items × ℕ} (λ x. (x.0.tree, length (doc_bytes x.0.tree))) result (Ok (is, length (doc_bytes is))) }
    // Which document and how many bytes, or which fault.
    ensures exact { Seen (λ x. (x.0.tree, length (doc_bytes x.0.tree))) result (front_document bytes.now) }
{
    match check_front(bytes) {
        Ok(n) => {
            let (front, rest) = bytes.split_at(n);
            let document = RawDoc {
                bytes: front,
                start: 0,
            };
            Ok((document, rest))
        }
        Err(fault) => Err(fault),
    }
}

// That the bytes spell a document, all of them.
#[tactic(auto, unfolding(crate::specs::Reading::document))]
fn check_whole(bytes: &[u8]) -> Result<(), BsonFault>
    requires { length bytes.now ≤ longest }
    ensures read { result ≡ fault_of (document bytes.now) }
{
    let n = total_of(bytes)?;
    if n < bytes.len() {
        return Err(BsonFault {
            kind: BsonKind::Extra,
            offset: n,
        });
    }
    check_front(bytes)?;
    Ok(())
}

// The number of bytes of the document at the front.
#[tactic(auto, unfolding(crate::specs::Reading::front_document))]
fn check_front(bytes: &[u8]) -> Result<usize, BsonFault>
    requires { length bytes.now ≤ longest }
    ensures read { result ≡ width_of (front_document bytes.now) }
    ensures fits { IfOk result (λ n. n ≤ length bytes.now) }
{
    let n = total_of(bytes)?;
    check_framed(LEVELS - 1, n, bytes, 0)
}

impl<'a> RawDoc<'a> {
    /// The bytes of the document.
    pub fn bytes(&self) -> &'a [u8]
        ensures spelling { result.now ≡ doc_bytes self.now.tree }
        // The tree has a spelling, with at most 100 levels of nesting.
        ensures document { IsDoc self.now.tree }
        ensures room { self.now.start + length result.now < 2 ^ 31 }
    {
        self.bytes
    }

    /// The same document over the same bytes, with the same offset.
    pub fn again(&self) -> RawDoc<'a>
        ensures same { result ≡ self.now }
    {
        RawDoc {
            bytes: self.bytes,
            start: self.start,
        }
    }
}
