//! A document with other values in the place of some of its own, written into a slice.

ghost use Rattle.std.specs.Prelude.{◌≡◌, ◌+◌, ◌<◌, ◌≤◌, ◌^◌, length};
ghost use Rattle.bson_splice.specs.Whole.{HasRoomFor, StandsAt, TellsWhole};
ghost use Rattle.bson_splice.specs.Splicing.{EndsWithin, HasRoom, PutsBefore, TellsSplices, document_left};
ghost use Rattle.bson_splice.specs.Splicing.{document_made, element_left, element_made, elements_left, elements_made};

use crate::putter::{Putter, Stopped};
use crate::step::{Step, step_of};
use crate::writing::{close, put, put_item, put_name};
use bson_codec::{RawDoc, RawItem, RawIter};

/// Puts the elements before the first that the next place meets, as they stand, and takes them and that one from
/// `items`: the offset behind what was put, and that one; `None` where no element is left.
fn put_before<'a, P: Putter>(
    items: &mut RawIter<'a>,
    putter: &P,
    out: &mut [u8],
    at: usize,
) -> (usize, Option<RawItem<'a>>)
    requires room { HasRoom (P.spans putter.now) (elements_made items.old.start items.old.tree) at (length out.old) }
    ensures size { length out.new ≡ length out.old }
    ensures put { PutsBefore (P.spans putter.now) items.old result.1 items.new out.old out.new at result.0 }
{
    let (skipped, met) = items.skip_to(putter.next_start());
    let end = put(out, at, skipped);
    (end, met)
}

/// Splices an element.
#[cycle(splice)]
fn splice_item<P: Putter>(
    item: &RawItem<'_>,
    putter: &mut P,
    out: &mut [u8],
    at: usize,
) -> Result<usize, Stopped>
    requires ready { P.ready putter.old }
    requires small { length out.old < 2 ^ 31 }
    requires room { HasRoom (P.spans putter.old) (element_made item.now) at (length out.old) }
    ensures ready { P.ready putter.new }
    ensures size { length out.new ≡ length out.old }
    ensures spliced { TellsSplices P.puts P.stops P.spans (element_made item.now)
        (element_left item.now) putter.old putter.new out.old out.new at result }
    ensures within { EndsWithin (length out.new) result }
{
    match step_of(putter, item) {
        Step::Keep => {
            let end = put_item(out, at, item);
            Ok(end)
        }
        Step::Put => match putter.put_next(item, out, at) {
            Ok(end) => Ok(end),
            Err(Stopped) => Err(Stopped),
        },
        Step::Open(document) => {
            let named = put_name(out, at, item.tag(), item.name());
            match splice_document(&document, putter, out, named) {
                Ok(end) => Ok(end),
                Err(Stopped) => Err(Stopped),
            }
        }
    }
}

/// Splices a document.
#[cycle(splice)]
fn splice_document<P: Putter>(
    document: &RawDoc<'_>,
    putter: &mut P,
    out: &mut [u8],
    at: usize,
) -> Result<usize, Stopped>
    requires ready { P.ready putter.old }
    requires small { length out.old < 2 ^ 31 }
    requires room { HasRoom (P.spans putter.old) (document_made document.now) at (length out.old) }
    ensures ready { P.ready putter.new }
    ensures size { length out.new ≡ length out.old }
    ensures spliced { TellsSplices P.puts P.stops P.spans (document_made document.now)
        (document_left document.now) putter.old putter.new out.old out.new at result }
    ensures within { EndsWithin (length out.new) result }
{
    match splice_items(document, putter, out, at + 4) {
        Ok(end) => {
            let behind = close(out, at, end);
            Ok(behind)
        }
        Err(Stopped) => Err(Stopped),
    }
}

/// Splices the elements of a document.
#[cycle(splice)]
fn splice_items<P: Putter>(
    document: &RawDoc<'_>,
    putter: &mut P,
    out: &mut [u8],
    at: usize,
) -> Result<usize, Stopped>
    requires ready { P.ready putter.old }
    requires small { length out.old < 2 ^ 31 }
    requires room { HasRoom (P.spans putter.old) (elements_made (document.now.start + 4) document.now.tree) at
        (length out.old) }
    ensures ready { P.ready putter.new }
    ensures size { length out.new ≡ length out.old }
    ensures spliced { TellsSplices P.puts P.stops P.spans (elements_made (document.now.start + 4) document.now.tree)
        (elements_left (document.now.start + 4) document.now.tree) putter.old putter.new out.old out.new at result }
    ensures within { EndsWithin (length out.new) result }
{
    let mut items = document.items();
    let mut end = at;
    loop {
        let (here, met) = put_before(&mut items, putter, out, end);
        match met {
            Some(item) => match splice_item(&item, putter, out, here) {
                Ok(behind) => end = behind,
                Err(Stopped) => return Err(Stopped),
            },
            None => return Ok(here),
        }
    }
}

/// Writes the document to the front of `out`, with what `putter` puts in place of its values; how many bytes that
/// are. `Stopped` where the object put the next one in no more: what `out` holds then isn't said.
pub fn splice<P: Putter>(
    document: &RawDoc<'_>,
    putter: &mut P,
    out: &mut [u8],
) -> Result<usize, Stopped>
    requires ready { P.ready putter.old }
    requires stands { StandsAt (P.spans putter.old) document.now }
    requires small { length out.old < 2 ^ 31 }
    requires room { HasRoomFor (P.spans putter.old) document.now (length out.old) }
    ensures ready { P.ready putter.new }
    ensures size { length out.new ≡ length out.old }
    ensures spliced { TellsWhole P.puts P.stops P.spans document.now putter.old putter.new out.new result }
{
    match splice_document(document, putter, out, 0) {
        Ok(end) => Ok(end),
        Err(Stopped) => Err(Stopped),
    }
}
