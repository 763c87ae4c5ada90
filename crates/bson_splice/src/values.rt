//! Values given by the offsets of those whose places they take.

ghost use Rattle.std.specs.Prelude.{◌≡◌, ◌+◌, ◌*◌, ◌<◌, ◌≤◌, ◌^◌, [], ◌∷◌, length, drop, IfSome, MatchOption, ⊤};
ghost use Rattle.bson_tree.specs.Spelling.{doc_bytes};
ghost use Rattle.bson_splice.specs.Takes.{Takes};
ghost use Rattle.bson_splice.specs.Values.{PutsNext, SizesAs, given, puts_of, removed, spans_of};
ghost use Rattle.bson_splice.specs.Whole.{replaced};

use crate::putter::{Putter, Stopped};
use crate::splicing::splice;
use crate::writing::{put, put_name};
use bson_codec::{RawDoc, RawItem};

/// A value that takes the place of another one.
#[derive(Clone, Copy)]
pub struct NewValue<'a> {
    /// The offset of the first byte of the value whose place it takes.
    pub start: u32,
    /// The offset of the byte behind that value.
    pub end: u32,
    /// Its type byte.
    pub tag: u8,
    /// The bytes that spell it, which aren't judged.
    pub bytes: &'a [u8],
}

/// The document would have more bytes than the limit.
#[derive(Clone, Copy, Debug, PartialEq, Eq)]
pub struct TooLong;

/// Values that are put in one after the other, those before `next` already.
#[derive(Drop)]
struct Values<'a> {
    all: &'a [NewValue<'a>],
    next: usize,
}

impl<'a> Putter for Values<'a> {
    ghost spans = { λ s. spans_of (drop s.next s.all.now) };

    ghost puts = { λ a b p. PutsNext (drop a.next a.all.now) (drop b.next b.all.now) p };

    ghost stops = { λ a b. ⊥ };

    ghost ready = { λ s. ⊤ };

    fn next_start(&self) -> Option<usize> {
        match value_at(self.all, self.next) {
            Some(value) => Some(value.start as usize),
            None => None,
        }
    }

    fn put_next(
        &mut self,
        item: &RawItem<'_>,
        out: &mut [u8],
        at: usize,
    ) -> Result<usize, Stopped> {
        match value_at(self.all, self.next) {
            Some(value) => {
                let named = put_name(out, at, value.tag, item.name());
                let end = put(out, named, value.bytes);
                self.next += 1;
                Ok(end)
            }
            None => unreachable!(),
        }
    }
}

/// The value of this number, counted from 0.
fn value_at<'a>(values: &[NewValue<'a>], i: usize) -> Option<NewValue<'a>>
    ensures first { MatchOption result (drop i values.now ≡ []) (λ v. drop i values.now ≡ v ∷ drop (i + 1) values.now) }
    ensures inside { IfSome result (λ v. i < length values.now) }
{
    if i < values.len() {
        Some(values[i])
    } else {
        None
    }
}

/// Writes the document with these values into `out`, which has its length (`spliced_len`).
pub fn splice_values<'a>(document: &RawDoc<'_>, values: &'a [NewValue<'a>], out: &mut [u8])
    requires stands { Takes (document.now.start + 4) document.now.tree (puts_of values.now) [] }
    requires small { length out.old < 2 ^ 31 }
    requires room { length out.old ≡ length (doc_bytes (replaced (puts_of values.now) document.now)) }
    ensures written { out.new ≡ doc_bytes (replaced (puts_of values.now) document.now) }
{
    let mut putter = Values {
        all: values,
        next: 0,
    };
    match splice(document, &mut putter, out) {
        Ok(_) => {}
        Err(Stopped) => unreachable!(),
    }
}

/// How many bytes the places have that are taken, and how many the values that take them.
fn sizes_of(values: &[NewValue<'_>]) -> (u128, u128)
    ensures removed { result.0 ≡ removed values.now }
    ensures given { result.1 ≡ given values.now }
    ensures few { result.1 ≤ 2 ^ 126 }
{
    let mut places: u128 = 0;
    let mut bytes: u128 = 0;
    for value in values {
        places += value.end.saturating_sub(value.start) as u128;
        bytes += value.bytes.len() as u128;
    }
    (places, bytes)
}

/// How many bytes the document has with these values: `TooLong` exactly where they are more than the limit.
pub fn spliced_len(
    document: &RawDoc<'_>,
    values: &[NewValue<'_>],
    limit: u32,
) -> Result<u32, TooLong>
    requires stands { Takes (document.now.start + 4) document.now.tree (puts_of values.now) [] }
    ensures size { SizesAs limit (length (doc_bytes (replaced (puts_of values.now) document.now))) result }
{
    let (places, bytes) = sizes_of(values);
    let size = document.bytes().len() as u128 + bytes - places;
    if size > limit as u128 {
        return Err(TooLong);
    }
    Ok(size as u32)
}
