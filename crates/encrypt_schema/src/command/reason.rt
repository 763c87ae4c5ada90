//! Why a command is refused.

ghost use Rattle.std.specs.Prelude.{◌≡◌};
ghost use Rattle.encrypt_schema.specs.Commands.Reasons.{reason_code};

/// The reasons for which a command is refused, in the order of their numbers.
#[derive(Clone, Copy, Debug, PartialEq, Eq)]
pub enum Reason {
    /// The document is no command, or none that is known.
    NotACommand = 1,
    /// A field of the command is missing, stands twice, or has a value of the wrong form.
    BadField = 2,
    /// `$db` names another database.
    WrongDb = 3,
    /// The collection is a view.
    View = 4,
    /// The rule of the field doesn't allow a value of this type.
    TypeNotAllowed = 5,
    /// The value is a binary of subtype 06, which was sealed before.
    AlreadyEncrypted = 6,
    /// An array stands on the way to a protected field.
    ArrayOnPath = 7,
    /// The path leads below a protected field.
    BelowProtected = 8,
    /// A position in an array stands on the way to a protected field.
    PositionalOnPath = 9,
    /// A field that is sealed with the random algorithm is compared.
    RandomCompared = 10,
    /// The operator can't be applied to a protected field.
    OperatorOnProtected = 11,
    /// A document or an array that would hold a protected field is compared.
    PrefixCompared = 12,
    /// An update is a pipeline.
    Pipeline = 13,
    /// The field can't be used with protected collections.
    FieldNotAllowed = 14,
    /// A field is renamed to one that is protected otherwise.
    RenameMixed = 15,
    /// The key isn't in the vault.
    KeyMissing = 16,
    /// The key is of another provider than `local`.
    KeyNotLocal = 17,
    /// The key's material doesn't open under the master key.
    KeyDamaged = 18,
    /// A sealed value has a length that none has.
    PayloadShape = 19,
    /// The tag of a sealed value is wrong.
    TagMismatch = 20,
    /// The padding of a sealed value is wrong.
    Padding = 21,
    /// What was sealed is no value of its type.
    Plain = 22,
    /// The field that names the key isn't there, or is no string outside arrays and protected fields.
    PointerBad = 23,
}

impl Reason {
    /// The reason's number.
    pub fn code(&self) -> u8
        ensures code { result ≡ reason_code self.now }
    {
        *self as u8
    }
}
