//! Texts whose parts stand between separators: dotted paths and JSON pointers.

ghost use Rattle.std.specs.Prelude.{◌≡◌, ◌<◌, ◌∷◌, [], length, MatchOption, IfSome};
ghost use Rattle.encrypt_schema.specs.Language.Separated.{separated};

/// The bytes up to the first separator, and those behind it where there is one.
pub(crate) fn first_part(bytes: &[u8], separator: u8) -> (&[u8], Option<&[u8]>)
    ensures parts { MatchOption result.1 (separated separator bytes.now ≡ result.0.now ∷ [])
        (λ rest. separated separator bytes.now ≡ result.0.now ∷ separated separator rest.now) }
    ensures less { IfSome result.1 (λ rest. length rest.now < length bytes.now) }
{
    for i in 0..bytes.len() {
        if bytes[i] == separator {
            let (part, _) = bytes.split_at(i);
            let (_, rest) = bytes.split_at(i + 1);
            return (part, Some(rest));
        }
    }
    (bytes, None)
}
