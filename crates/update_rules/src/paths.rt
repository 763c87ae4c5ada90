//! Dotted paths, as the names of the fields that an update operator is applied to.

ghost use Rattle.std.specs.Prelude.{◌≡◌, true, false, MatchResult};
ghost use Rattle.encrypt_schema.specs.Paths.Dotted.{positional, split};
ghost use Rattle.encrypt_schema.specs.Views.Cursors.{Stands};

use encrypt_schema::{Cursor, Reason, Rows};

/// The cursor of a dotted path; `PositionalOnPath` where a component is a position in an array on the way to a
/// protected field.
pub(crate) fn walk_plain(rows: &Rows, path: &[u8]) -> Result<Cursor, Reason>
    ensures walked { MatchResult result
        (λ at. (positional rows.now (split path.now) ≡ false) × Stands rows.now at (split path.now))
        (λ reason. (positional rows.now (split path.now) ≡ true) × (reason ≡ Reason.PositionalOnPath)) }
{
    let walk = rows.walk(path);
    if walk.positional {
        return Err(Reason::PositionalOnPath);
    }
    Ok(walk.at)
}
