//! The parts of a payload.

ghost use Rattle.std.specs.Prelude.{◌≡◌, ◌+◌, ◌*◌, ◌%◌, ◌<◌, ◌≤◌, ◌↔◌, ◌++◌};
ghost use Rattle.std.specs.Prelude.{Err, IfOk, IsTrue, length};
ghost use Rattle.payload6.specs.Payload.{head as head_of, HasKind, IsKind, IsPayloadLength};

/// The kind of a payload whose IV is derived: equal values have equal payloads.
pub const DETERMINISTIC: u8 = 1;

/// The kind of a payload whose IV is drawn.
pub const RANDOM: u8 = 2;

/// The length of what stands before the sealed bytes.
pub(crate) const HEAD: usize = 18;

/// The length of the least payload, with one block.
const LEAST: usize = 82;

/// The length of a block.
const BLOCK: usize = 16;

/// A payload of the right length and of a known kind, over the bytes that it was taken from.
#[derive(Clone, Copy)]
pub struct Payload<'a> {
    /// 1 for a deterministic payload, 2 for a random one.
    pub kind: u8,
    /// The id of the key that seals it, a UUID.
    pub key_id: [u8; 16],
    /// The BSON type of the original value.
    pub tag: u8,
    /// Kind, key id and type as they stand, 18 bytes: the associated data.
    pub head: &'a [u8],
    /// What stands behind them: IV, blocks and tag, 48 + 16 k bytes with k at least 1.
    pub sealed: &'a [u8],
    pub ghost known: { IsKind kind },
    pub ghost front: { head.now ≡ head_of kind key_id tag },
    pub ghost some: { 48 < length sealed.now },
    pub ghost whole: { length sealed.now % 16 ≡ 0 },
}

/// Why bytes are no payload, in the order in which it is judged.
#[derive(Clone, Copy, Debug, PartialEq, Eq)]
pub enum PartsFault {
    /// There is no byte, or the first is neither 1 nor 2.
    Kind,
    /// The length isn't 66 and one or more blocks of 16.
    Short,
}

/// The parts of a payload.
pub fn parts<'a>(bytes: &'a [u8]) -> Result<Payload<'a>, PartsFault>
    ensures joined { IfOk result (λ p. p.head.now ++ p.sealed.now ≡ bytes.now) }
    ensures kind { (result ≡ Err PartsFault.Kind) ↔ (¬ HasKind bytes.now) }
    ensures short { (result ≡ Err PartsFault.Short)
        ↔ (HasKind bytes.now × (¬ IsPayloadLength (length bytes.now))) }
{
    if !has_kind(bytes) {
        return Err(PartsFault::Kind);
    }
    if !is_payload_len(bytes.len()) {
        return Err(PartsFault::Short);
    }
    Ok(parted(bytes))
}

/// Whether the bytes begin with a known kind.
fn has_kind(bytes: &[u8]) -> bool
    ensures { IsTrue result ↔ HasKind bytes.now }
{
    match bytes {
        [] => false,
        [kind, ..] => *kind == DETERMINISTIC || *kind == RANDOM,
    }
}

/// Whether a length is that of a payload.
fn is_payload_len(n: usize) -> bool
    ensures { IsTrue result ↔ IsPayloadLength n }
{
    n >= LEAST && (n - HEAD) % BLOCK == 0
}

/// The parts of bytes that are a payload.
fn parted<'a>(bytes: &'a [u8]) -> Payload<'a>
    requires kind { HasKind bytes.now }
    requires len { IsPayloadLength (length bytes.now) }
    ensures joined { result.head.now ++ result.sealed.now ≡ bytes.now }
{
    let (head, sealed) = bytes.split_at(HEAD);
    let (kind, typed) = head.split_at(1);
    let (id, tag) = typed.split_at(BLOCK);
    Payload {
        kind: kind[0],
        key_id: id_in(id),
        tag: tag[0],
        head,
        sealed,
    }
}

/// The key id, which is all of these bytes.
fn id_in(bytes: &[u8]) -> [u8; 16]
    requires { length bytes.now ≡ 16 }
    ensures { result ≡ bytes.now }
{
    let mut id = [0; 16];
    id.copy_from_slice(bytes);
    id
}
