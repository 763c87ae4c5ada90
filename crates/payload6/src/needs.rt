//! What names the key of a value that is to be sealed: an id, or an alternate name that stands in the command
//! (MongoDB Client Side Encryption, `keyId` as a JSON pointer).

ghost use Rattle.std.specs.Prelude.{◌≡◌, ℕ, ◌+◌, ◌-◌, ◌≤◌, option_map, drop, length, take, IfSome};
ghost use Rattle.bson_tree.specs.Spelling.{doc_bytes, items_bytes};
ghost use Rattle.encrypt_schema.specs.Commands.Visits.{text_in};
ghost use Rattle.payload6.specs.Needs.{alternate_name, name_text, need_by, need_bytes, need_seen};

use bson_codec::RawDoc;
use encrypt_schema::{KeyRef, Mark, Policy, Span};

/// A key, by its id or by an alternate name.
#[derive(Clone, Copy)]
pub enum Need<'a> {
    /// The key with this id, a UUID.
    Id([u8; 16]),
    /// The key with this alternate name.
    Name(&'a [u8]),
}

impl<'a> Need<'a> {
    /// How many bytes the id or the name has.
    pub fn len(self) -> usize
        ensures len { result ≡ length (need_bytes (need_seen self.entry)) }
    {
        match self {
            Need::Id(id) => id.len(),
            Need::Name(name) => name.len(),
        }
    }
}

/// The key of a mark's value in a command, by the policy of the mark's rule: its id, or the text that the mark's `name`
/// spans. `None` where the rule has a pointer and the mark no `name`, as is so of no accepted command. It allocates
/// nothing.
pub fn need_of<'a>(policy: &Policy, command: &RawDoc<'a>, mark: &Mark) -> Option<Need<'a>>
    ensures need { option_map need_seen result ≡ need_by policy.now.key (name_text command.now mark.now) }
    ensures inside { IfSome result (λ need. length (alternate_name (need_seen need))
        ≤ length (doc_bytes command.now.tree)) }
{
    match &policy.key {
        KeyRef::Id(id) => Some(Need::Id(*id)),
        KeyRef::Pointer(_) => match mark.name {
            Some(span) => Some(Need::Name(text_in(command, span))),
            None => None,
        },
    }
}

/// The bytes that a span names among a command's elements.
fn text_in<'a>(command: &RawDoc<'a>, span: Span) -> &'a [u8]
    ensures text { result.now ≡ text_in (command.now.start + 4) (items_bytes command.now.tree) span }
    ensures inside { length result.now ≤ length (doc_bytes command.now.tree) }
{
    let from = (span.start as usize).saturating_sub(first_offset(command));
    let size = span.end.saturating_sub(span.start) as usize;
    front(behind(elements_of(command), from), size)
}

/// The offset of a command's first element; 0 where there is none.
fn first_offset(command: &RawDoc<'_>) -> usize
    ensures offset { (k : ℕ) → drop (k - result) (items_bytes command.now.tree)
        ≡ drop (k - (command.now.start + 4)) (items_bytes command.now.tree) }
{
    match command.items().next() {
        Some(first) => first.start() - first.name().len() - 2,
        None => 0,
    }
}

/// The bytes of a command's elements.
fn elements_of<'a>(command: &RawDoc<'a>) -> &'a [u8]
    ensures elements { result.now ≡ items_bytes command.now.tree }
    ensures inside { length result.now ≤ length (doc_bytes command.now.tree) }
{
    let bytes = command.bytes();
    &bytes[4..bytes.len() - 1]
}

/// The bytes from this number on.
fn behind(bytes: &[u8], from: usize) -> &[u8]
    ensures behind { result.now ≡ drop from bytes.entry.now }
{
    &bytes[from.min(bytes.len())..]
}

/// The first bytes, as many as this where there are.
fn front(bytes: &[u8], size: usize) -> &[u8]
    ensures front { result.now ≡ take size bytes.entry.now }
    ensures inside { length result.now ≤ length bytes.entry.now }
{
    &bytes[..size.min(bytes.len())]
}
