//! The payloads of a document, found.

ghost use Rattle.std.specs.Prelude.{◌≡◌, ◌+◌, ◌≤◌, IfOk};
ghost use Rattle.bson_tree.specs.Spelling.{value_bytes};
ghost use Rattle.bson_tree.specs.Tree.{leaf, tag_of};
ghost use Rattle.doc_rewrite.specs.Finding.{FindsAs, FindsPayloads, Tells};
ghost use Rattle.doc_rewrite.specs.Founds.{founds, founds_in};

use crate::found::{Found, FoundAt};
use crate::leaf::{Leaf, leaf_of};
use crate::listener::Listener;
use bson_codec::{RawDoc, RawItem};

/// How many levels a value at the top of a document may add: one less than a document may have.
pub(crate) const LEVELS: u32 = 99;

/// Why the payloads of a document weren't found: one has a length that none has, not 66 and one or more blocks of 16.
#[derive(Clone, Copy, Debug, PartialEq, Eq)]
pub struct FindFault {
    /// The offset of its value.
    pub at: u32,
}

/// Who keeps nothing of what it is told.
#[derive(Drop)]
struct Unheard;

impl Listener for Unheard {
    ghost tells = { λ a b f. Unit {0} };

    fn tell(&mut self, _payload: FoundAt) {}
}

/// Tells of a raw value, where it is a payload. `count` were told of before it; how many with it.
fn tell_leaf<L: Listener>(
    item: &RawItem<'_>,
    levels: u32,
    count: usize,
    listener: &mut L,
) -> Result<usize, FindFault>
    requires raw { item.now.tree ≡ leaf (tag_of item.now.tree) (value_bytes item.now.tree) }
    requires few { count ≤ item.now.start }
    ensures found { FindsAs L.tells (founds_in levels item.now.start item.now.tree) count listener.old listener.new
        result }
{
    let width = item.value().len();
    match leaf_of(item) {
        Leaf::Payload(payload) => {
            listener.tell(FoundAt {
                start: item.start() as u32,
                end: (item.start() + width) as u32,
                key_id: payload.key_id,
                levels,
            });
            Ok(count + 1)
        }
        Leaf::Other => Ok(count),
        Leaf::Misshapen => Err(FindFault {
            at: item.start() as u32,
        }),
    }
}

/// Tells of the payloads of an element.
#[cycle(find)]
fn tell_item<L: Listener>(
    item: &RawItem<'_>,
    levels: u32,
    count: usize,
    listener: &mut L,
) -> Result<usize, FindFault>
    requires few { count ≤ item.now.start }
    ensures found { FindsAs L.tells (founds_in levels item.now.start item.now.tree) count listener.old listener.new
        result }
{
    match item.child() {
        Some(document) => tell_items(&document, levels.saturating_sub(1), count, listener),
        None => tell_leaf(item, levels, count, listener),
    }
}

/// Tells of the payloads of the elements of a document.
#[cycle(find)]
fn tell_items<L: Listener>(
    document: &RawDoc<'_>,
    levels: u32,
    count: usize,
    listener: &mut L,
) -> Result<usize, FindFault>
    requires few { count ≤ document.now.start }
    ensures found { FindsAs L.tells (founds levels (document.now.start + 4) document.now.tree) count listener.old
        listener.new result }
{
    let mut told = count;
    for item in document.items() {
        match tell_item(&item, levels, told, listener) {
            Ok(behind) => told = behind,
            stopped => return stopped,
        }
    }
    Ok(told)
}

/// The payloads of a document: the binaries of subtype 06 whose contents begin with 1 or 2. `listener` is told of each,
/// in reading order, while it is found.
///
/// The fault comes exactly where one of them has a length that none has, with the first of them; what `listener` was
/// told of by then isn't said. No key is asked for, and no payload opened. It allocates nothing.
pub fn tell_payloads<'a, L: Listener>(
    document: &RawDoc<'a>,
    listener: &mut L,
) -> Result<Found<'a>, FindFault>
    ensures found { FindsPayloads document.now result }
    ensures told { IfOk result (λ found. Tells L.tells listener.old listener.new found) }
{
    match tell_items(document, LEVELS, 0, listener) {
        Ok(count) => Ok(Found {
            document: document.again(),
            count,
        }),
        Err(fault) => Err(fault),
    }
}

/// The payloads of a document, as `tell_payloads` finds them, where nobody is told of them.
pub fn find_payloads<'a>(document: &RawDoc<'a>) -> Result<Found<'a>, FindFault>
    ensures found { FindsPayloads document.now result }
{
    tell_payloads(document, &mut Unheard)
}
