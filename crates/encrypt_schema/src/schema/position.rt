//! Whether a rule may stand in a schema, by the keywords through which the schema is reached.

ghost use Rattle.std.specs.Prelude.{◌≡◌};
ghost use Rattle.encrypt_schema.specs.Language.Schemas.{good_below, is_last};

/// Whether a rule may stand in a schema.
#[derive(Clone, Copy)]
pub(crate) enum Position {
    /// The root, which is no field: `encryptMetadata` may, `encrypt` may not.
    Root,
    /// It is reached through `properties` alone.
    Good,
    /// It is that of every name which a good schema doesn't list: `encrypt` may, `encryptMetadata` may not.
    Last,
    /// It is reached through another keyword: neither may.
    Bad,
}

impl Position {
    /// The position of a schema under `properties`.
    pub(crate) fn below(self) -> Position
        ensures { result ≡ good_below self }
    {
        match self {
            Position::Root | Position::Good => Position::Good,
            Position::Last | Position::Bad => Position::Bad,
        }
    }

    /// Whether the schema under `additionalProperties` stands in a last position, beside `patternProperties` or not.
    pub(crate) fn has_last(self, patterns: bool) -> bool
        ensures { result ≡ is_last self patterns }
    {
        match self {
            Position::Root | Position::Good => !patterns,
            Position::Last | Position::Bad => false,
        }
    }
}
