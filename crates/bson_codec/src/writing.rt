//! Pieces of documents appended to bytes: what a writer of BSON 1.1 (bsonspec.org) needs that has no tree. A
//! document's length is put in when its elements stand.
//!
//! ```text
//! let at = out.len();
//! open(out)?;
//! put_name(out, types::BOOL, b"a")?;
//! append(out, &[1])?;
//! close(out, at)?;
//! ```

ghost use Rattle.std.specs.Prelude.{◌≡◌, ◌+◌, ◌-◌, ◌<◌, ◌≤◌, ◌^◌, ◌∷◌, [], ◌++◌, ℕ, List, length, take, drop, OnOk};
ghost use Rattle.std.specs.Int.{to_le_bytes, w32};
ghost use Rattle.bson_tree.specs.Spelling.{framed};

use fle_outside::Memory;

/// Appends the bytes. `Memory` where there is none for them.
pub fn append(out: &mut Vec<u8>, bytes: &[u8]) -> Result<(), Memory>
    ensures appended { OnOk result (out.new.items ≡ out.old.items ++ bytes.now) }
{
    match out.extend_from_slice(bytes) {
        Ok(()) => Ok(()),
        Err(_) => Err(Memory),
    }
}

/// Appends what stands before an element's value: its type byte, its name and 00. `Memory` where there is none
/// for them, with a part of them appended.
pub fn put_name(out: &mut Vec<u8>, tag: u8, name: &[u8]) -> Result<(), Memory>
    ensures named { OnOk result (out.new.items ≡ out.old.items ++ (tag ∷ (name.now ++ 0 ∷ []))) }
{
    push(out, tag)?;
    append(out, name)?;
    push(out, 0)?;
    Ok(())
}

/// Appends a byte. `Memory` where there is none for it.
fn push(out: &mut Vec<u8>, byte: u8) -> Result<(), Memory>
    ensures pushed { OnOk result (out.new.items ≡ out.old.items ++ byte ∷ []) }
{
    match out.push(byte) {
        Ok(()) => Ok(()),
        Err(_) => Err(Memory),
    }
}

/// Begins a document at the end of `out`: four bytes, for the length that `close` puts in.
pub fn open(out: &mut Vec<u8>) -> Result<(), Memory>
    ensures opened { OnOk result (out.new.items ≡ out.old.items ++ (0 ∷ (0 ∷ (0 ∷ (0 ∷ []))))) }
{
    append(out, &[0; 4])
}

/// Ends the document that `open` began at offset `at` of `out`, of fewer than 2^31 bytes: its last 00, and its
/// length. `Memory` where there is none for the 00.
pub fn close(out: &mut Vec<u8>, at: usize) -> Result<(), Memory>
    requires begun { at + 4 ≤ length out.old.items }
    requires small { length out.old.items - at < 2 ^ 31 }
    ensures closed { OnOk result ((front elements : List ℕ) → length front ≡ at
        → out.old.items ≡ front ++ (0 ∷ (0 ∷ (0 ∷ (0 ∷ elements)))) → out.new.items ≡ front ++ framed elements) }
{
    append(out, &[0])?;
    let size = (out.len() - at) as u32;
    put_length(out, at, size);
    Ok(())
}

// Puts a length at `at`.
fn put_length(out: &mut [u8], at: usize, size: u32)
    requires { at + 4 ≤ length out.old }
    ensures { out.new ≡ take at out.old ++ (to_le_bytes w32 size ++ drop (at + 4) out.old) }
{
    out[at..at + 4].copy_from_slice(&size.to_le_bytes());
}
