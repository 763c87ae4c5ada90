//! BSON 1.1, "element": how values of each type are written as text.

ghost use Rattle.std.specs.Prelude.{◌≡◌};
ghost use Rattle.ext_json.specs.Forms.{form_of as form_of_type};

use bson_tree::types;

/// How a value that holds no elements is written, in the order of the types.
#[derive(Clone, Copy, Debug, PartialEq, Eq)]
pub enum Form {
    /// The 8 bytes of a double, as they stand.
    DoubleBits,
    /// A string.
    Text,
    /// A binary, in base64, with its subtype.
    Binary,
    /// Undefined.
    Undefined,
    /// An id of 12 bytes.
    ObjectId,
    /// A truth value.
    Bool,
    /// Milliseconds since 1970.
    Date,
    /// Null.
    Null,
    /// A pattern and its options.
    Regex,
    /// A name space and an id.
    Pointer,
    /// Code without a scope.
    Code,
    /// A symbol.
    Symbol,
    /// Code with its scope.
    Scope,
    /// A signed number of 32 bits.
    Int32,
    /// Seconds and an increment.
    Timestamp,
    /// A signed number of 64 bits.
    Int64,
    /// The 16 bytes of a decimal, as they stand.
    DecimalBits,
    /// The greatest key.
    MaxKey,
    /// The least key.
    MinKey,
}

/// The form of values of a type; `None` for documents, for arrays, and for bytes that are no type.
#[tactic(auto, unfolding(crate::specs::Forms::form_of))]
pub fn form_of(tag: u8) -> Option<Form>
    ensures form { result ≡ form_of_type tag }
{
    match tag {
        types::DOUBLE => Some(Form::DoubleBits),
        types::STRING => Some(Form::Text),
        types::BINARY => Some(Form::Binary),
        types::UNDEFINED => Some(Form::Undefined),
        types::OBJECT_ID => Some(Form::ObjectId),
        types::BOOL => Some(Form::Bool),
        types::DATE => Some(Form::Date),
        types::NULL => Some(Form::Null),
        types::REGEX => Some(Form::Regex),
        types::DB_POINTER => Some(Form::Pointer),
        types::CODE => Some(Form::Code),
        types::SYMBOL => Some(Form::Symbol),
        types::CODE_WITH_SCOPE => Some(Form::Scope),
        types::INT => Some(Form::Int32),
        types::TIMESTAMP => Some(Form::Timestamp),
        types::LONG => Some(Form::Int64),
        types::DECIMAL => Some(Form::DecimalBits),
        types::MAX_KEY => Some(Form::MaxKey),
        types::MIN_KEY => Some(Form::MinKey),
        _ => None,
    }
}
