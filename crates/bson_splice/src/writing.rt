//! Pieces of documents put into a slice, one behind the other: what a writer of BSON 1.1 (bsonspec.org) needs that
//! has no memory. Each call takes the offset at which it puts, and gives the one behind what it put; from there on the
//! slice is as it was.
//!
//! A document's length is put in when its elements stand:
//!
//! ```text
//! let named = put_name(out, at + 4, types::BOOL, b"a");
//! let end = put(out, named, &[1]);
//! let behind = close(out, at, end);
//! ```

ghost use Rattle.std.specs.Prelude.{◌≡◌, ◌+◌, ◌<◌, ◌≤◌, ◌^◌, ◌∷◌, [], ◌++◌, ℕ, List, drop, length, take};
ghost use Rattle.bson_tree.specs.Spelling.{framed, items_bytes};
ghost use Rattle.bson_tree.specs.Tree.{item as element, no_items};

use bson_codec::RawItem;

/// Puts bytes at offset `at`.
pub fn put(out: &mut [u8], at: usize, bytes: &[u8]) -> usize
    requires room { at + length bytes.now ≤ length out.old }
    ensures end { result ≡ at + length bytes.now }
    ensures size { length out.new ≡ length out.old }
    ensures put { take result out.new ≡ take at out.old ++ bytes.now }
    ensures behind { drop result out.new ≡ drop result out.old }
{
    let end = at + bytes.len();
    out[at..end].copy_from_slice(bytes);
    end
}

/// Puts what stands before an element's value: its type byte, its name and 00.
pub fn put_name(out: &mut [u8], at: usize, tag: u8, name: &[u8]) -> usize
    requires room { at + 2 + length name.now ≤ length out.old }
    ensures end { result ≡ at + 2 + length name.now }
    ensures size { length out.new ≡ length out.old }
    ensures named { take result out.new ≡ take at out.old ++ (tag ∷ (name.now ++ 0 ∷ [])) }
    ensures behind { drop result out.new ≡ drop result out.old }
{
    let named = put(out, at, &[tag]);
    let ended = put(out, named, name);
    put(out, ended, &[0])
}

/// Puts an element as it stands.
pub fn put_item(out: &mut [u8], at: usize, item: &RawItem<'_>) -> usize
    requires room { at + length (items_bytes (element item.now.name item.now.tree no_items)) ≤ length out.old }
    ensures end { result ≡ at + length (items_bytes (element item.now.name item.now.tree no_items)) }
    ensures size { length out.new ≡ length out.old }
    ensures element { take result out.new ≡ take at out.old
        ++ items_bytes (element item.now.name item.now.tree no_items) }
    ensures behind { drop result out.new ≡ drop result out.old }
{
    let named = put_name(out, at, item.tag(), item.name());
    put(out, named, item.value())
}

/// Ends the document that begins at `at`, whose elements stand from `at + 4` to `end`, at an offset below 2^31: its
/// last 00, and its length in the four bytes at `at`.
pub fn close(out: &mut [u8], at: usize, end: usize) -> usize
    requires begun { at + 4 ≤ end }
    requires room { end < length out.old }
    requires small { end < 2 ^ 31 }
    ensures end { result ≡ end + 1 }
    ensures size { length out.new ≡ length out.old }
    ensures closed { (front four elements : List ℕ) → length front ≡ at → length four ≡ 4
        → take end out.old ≡ (front ++ four) ++ elements → take result out.new ≡ front ++ framed elements }
    ensures behind { drop result out.new ≡ drop result out.old }
{
    let behind = put(out, end, &[0]);
    let size = (behind - at) as u32;
    out[at..at + 4].copy_from_slice(&size.to_le_bytes());
    behind
}
