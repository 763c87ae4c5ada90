//! The payloads of a document, as they were found.

ghost use Rattle.std.specs.Prelude.{◌≡◌, length, slice_get};
ghost use Rattle.doc_rewrite.specs.Opening.{room_to_open};

use crate::finding::tell_payloads;
use crate::picking::Picking;
use bson_codec::RawDoc;
use std::marker::Model;

/// By how many bytes a payload's value is shorter than the payload's binary, at least: 5 before the payload, 18 of its
/// head, an IV of 16, a tag of 32 and one byte of padding.
const SPARED: usize = 72;

/// Where a payload stands, and which key opens it.
#[derive(Clone, Copy, Debug, PartialEq, Eq)]
pub struct FoundAt {
    /// The offset of the first byte of its binary's value, as in `RawItem::start`.
    pub start: u32,
    /// The offset of the byte behind that value.
    pub end: u32,
    /// The id of the data key, a UUID.
    pub key_id: [u8; 16],
    /// How many levels of nesting the value that it opens to may add: 99 at the top of the document, one less in
    /// each document below.
    pub levels: u32,
}

/// The payloads of a document, seen as the list of their places in reading order. The list isn't kept: this borrows the
/// document's bytes, and allocates nothing of its own.
#[derive(Drop)]
pub struct Found<'a> {
    pub(crate) document: RawDoc<'a>,
    pub(crate) count: usize,
}

impl<'a> Model for Found<'a> {
    ghost use Rattle.std.specs.Prelude.{◌≡◌, List, None, length, map};
    ghost use Rattle.doc_rewrite.specs.Finding.{found_at};
    ghost use Rattle.doc_rewrite.specs.Founds.{payloads_of};
    ghost use Rattle.doc_rewrite.specs.Opened.{first_wrong, misshapen};
    ghost use Rattle.doc_rewrite.specs.declared.found.FoundAt.{FoundAt};

    ghost Value = { List FoundAt };

    ghost view = { λ f. map found_at (payloads_of f.document) };

    ghost invariant = { λ f. (f.count ≡ length (payloads_of f.document))
        × (first_wrong misshapen (payloads_of f.document) ≡ None) };
}

impl<'a> Found<'a> {
    /// How many payloads there are.
    pub fn len(&self) -> usize
        ensures count { result ≡ length self.now }
    {
        self.count
    }

    /// The payload of this number, counted from 0; `None` exactly where the number isn't below `len`. It walks the
    /// document: who wants all of them has `tell_payloads`.
    pub fn get(&self, i: usize) -> Option<FoundAt>
        ensures payload { result ≡ slice_get self.now i }
    {
        let mut picking = Picking {
            before: i,
            picked: None,
        };
        match tell_payloads(&self.document, &mut picking) {
            Ok(_) => picking.picked,
            Err(_) => unreachable!(),
        }
    }

    /// How many bytes of room `open_through` asks for to open their document: as many as the document has, less 72 for
    /// each payload but one.
    pub fn room(&self, document: &RawDoc<'_>) -> usize
        ensures room { result ≡ room_to_open document.now self.now }
    {
        let spared = SPARED.saturating_mul(self.len().saturating_sub(1));
        document.bytes().len().saturating_sub(spared)
    }
}
