//! Why bytes are no document.

ghost use Rattle.std.specs.Prelude.{◌≡◌};
ghost use Rattle.bson_codec.specs.Fault.{kind_number};
ghost use Rattle.bson_codec.specs.declared.fault.CodecFault.TheVariants as errors;

use fle_outside::Memory;

/// What is wrong with the bytes.
#[derive(Clone, Copy, Debug, PartialEq, Eq)]
pub enum BsonKind {
    /// A length or a value of fixed width doesn't end within the document, or the bytes end before it.
    Short,
    /// A length is too small, or what it counts doesn't end within the document.
    Length,
    /// A byte in the place of a type byte is no type.
    Tag,
    /// The 00 that ends a name, a string or a document isn't there.
    NoEnd,
    /// A boolean is neither 00 nor 01.
    Bool,
    /// A document would be nested more than 100 levels deep.
    Deep,
    /// Bytes follow the end of the document.
    Extra,
}

impl BsonKind {
    /// The number of the kind, from 1 in the order of the variants.
    pub fn number(self) -> u8
        ensures number { result ≡ kind_number self }
    {
        match self {
            BsonKind::Short => 1,
            BsonKind::Length => 2,
            BsonKind::Tag => 3,
            BsonKind::NoEnd => 4,
            BsonKind::Bool => 5,
            BsonKind::Deep => 6,
            BsonKind::Extra => 7,
        }
    }
}

/// The first fault of bytes, from left to right.
#[derive(Clone, Copy, Debug, PartialEq, Eq)]
pub struct BsonFault {
    /// What is wrong.
    pub kind: BsonKind,
    /// Where, from the first byte of the document.
    pub offset: usize,
}

/// Why there is no tree.
#[derive(Clone, Copy, Debug, PartialEq, Eq)]
pub enum CodecFault {
    /// The bytes are no document.
    Bson(BsonFault),
    /// There was no memory for the tree.
    Memory,
}

impl From<BsonFault> for CodecFault {
    ghost from_gives = { λ f e. e ≡ errors.Bson f };

    fn from(fault: BsonFault) -> CodecFault {
        CodecFault::Bson(fault)
    }
}

impl From<Memory> for CodecFault {
    ghost from_gives = { λ _ e. e ≡ errors.Memory };

    fn from(_memory: Memory) -> CodecFault {
        CodecFault::Memory
    }
}
