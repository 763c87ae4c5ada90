//! The next document of a stream.

ghost use Rattle.std.specs.Prelude.{true, ◌≡◌, ◌+◌, ◌-◌, ◌^◌, ◌<◌, ◌≤◌, ◌++◌, List, ℕ, Some, length};
ghost use Rattle.std.specs.Int.{from_le_bytes, w32};
ghost use Rattle.fle_outside.specs.Counts.{Rose};
ghost use Rattle.fle_outside.specs.Filling.{FillTakes, FillWithin, RoseBy, RoseWithin};
ghost use Rattle.fle_stream.specs.Next.{NextIs, NextSound, NextTook, StopsBy};
ghost use Rattle.fle_stream.specs.Streams.{faulty, short as short_of};

use crate::why::{Bound, Cut, Finish, Why};
use bson_codec::{BsonFault, BsonKind, stated_length};
use fle_outside::{Fill, Source, fill_piece};
use std::alloc::Global;

/// What stands next in a stream.
#[derive(Drop)]
pub enum Next {
    /// As many bytes as the stated length counts, those of the length included.
    Framed(Vec<u8>),
    /// Nothing is left.
    Nothing,
    /// Why a run ends there: the stated length is above the limit; the bytes that are left end too soon, or state a
    /// length that is too small, which is their first fault; the source failed; or there was no memory.
    Stops(Why),
}

/// Reads the bytes of the next document of a stream, of at most `limit` bytes, and no byte behind it. What they spell
/// isn't judged.
pub fn next_document<S: Source>(alloc: Global, source: &mut S, limit: u32) -> Next
    requires least { 4 ≤ limit }
    requires small { limit < 2 ^ 31 }
    ensures next { (other : ℕ) (told : List ℕ) → (S.seen source.old).told ≡ Some told
        → NextIs limit other told (S.seen source.new).told result }
    ensures sound { NextSound limit result }
    ensures took { NextTook limit 0 (S.seen source.old).taken (S.seen source.new).taken result }
    ensures later { (S.seen source.old).faults ≤ (S.seen source.new).faults }
    ensures cause { StopsBy Cut.Input result → Rose (S.seen source.old).faults (S.seen source.new).faults }
    ensures sure { (S.seen source.old).assured ≡ true
        → (StopsBy Cut.Input result → ⊥) × ((S.seen source.new).assured ≡ true) }
{
    let mut head = [0u8; 4];
    match fill_piece(source, &mut head) {
        Fill::Failed => Next::Stops(Why::Cut(Cut::Input)),
        Fill::Ended(0) => Next::Nothing,
        Fill::Ended(n) => Next::Stops(Why::Finished(Finish::Malformed(short(n)))),
        Fill::Whole => match stated_length(head) {
            Err(fault) => Next::Stops(Why::Finished(Finish::Malformed(fault))),
            Ok(size) if limit < size => Next::Stops(Why::Finished(Finish::Limit(Bound::Document))),
            Ok(size) => next_body(alloc, source, &head, size as usize, limit),
        },
    }
}

/// Reads the bytes of a document behind its length.
fn next_body<S: Source>(alloc: Global, source: &mut S, head: &[u8], size: usize, limit: u32) -> Next
    requires four { length head.now ≡ 4 }
    requires says { from_le_bytes w32 head.now ≡ size }
    requires least { 5 ≤ size }
    requires most { size ≤ limit }
    requires small { limit < 2 ^ 31 }
    ensures next { (other : ℕ) (told : List ℕ) → (S.seen source.old).told ≡ Some told
        → NextIs limit other (head.now ++ told) (S.seen source.new).told result }
    ensures sound { NextSound limit result }
    ensures took { NextTook limit 4 (S.seen source.old).taken (S.seen source.new).taken result }
    ensures later { (S.seen source.old).faults ≤ (S.seen source.new).faults }
    ensures cause { StopsBy Cut.Input result → Rose (S.seen source.old).faults (S.seen source.new).faults }
    ensures sure { (S.seen source.old).assured ≡ true
        → (StopsBy Cut.Input result → ⊥) × ((S.seen source.new).assured ≡ true) }
{
    match vec![in alloc; 0u8; size] {
        Err(_) => Next::Stops(Why::Cut(Cut::Memory)),
        Ok(mut bytes) => match fill_document(source, head, &mut bytes) {
            Fill::Failed => Next::Stops(Why::Cut(Cut::Input)),
            Fill::Ended(n) => Next::Stops(Why::Finished(Finish::Malformed(short(n)))),
            Fill::Whole => Next::Framed(bytes),
        },
    }
}

/// Fills the buffer of a document, whose first bytes are read.
fn fill_document<S: Source>(source: &mut S, head: &[u8], document: &mut [u8]) -> Fill
    requires { length head.now ≤ length document.old }
    ensures bytes { (told : List ℕ) → (S.seen source.old).told ≡ Some told
        → FillTakes (head.now ++ told) (S.seen source.new).told result document.new }
    ensures within { FillWithin result (length document.new) }
    ensures whole { result ≡ Fill.Whole → RoseBy (S.seen source.old).taken (S.seen source.new).taken
        (length document.new - length head.now) }
    ensures took { RoseWithin (S.seen source.old).taken (S.seen source.new).taken
        (length document.new - length head.now) }
    ensures later { (S.seen source.old).faults ≤ (S.seen source.new).faults }
    ensures cause { result ≡ Fill.Failed → Rose (S.seen source.old).faults (S.seen source.new).faults }
    ensures sure { (S.seen source.old).assured ≡ true
        → (result ≡ Fill.Failed → ⊥) × ((S.seen source.new).assured ≡ true) }
{
    let (front, rest) = document.split_at_mut(head.len());
    front.copy_from_slice(head);
    match fill_piece(source, rest) {
        Fill::Whole => Fill::Whole,
        Fill::Ended(n) => Fill::Ended(head.len() + n),
        Fill::Failed => Fill::Failed,
    }
}

/// Fewer bytes are left than the document has: `n` of them.
fn short(n: usize) -> BsonFault
    ensures short { faulty n result ≡ short_of n }
{
    BsonFault {
        kind: BsonKind::Short,
        offset: n,
    }
}
