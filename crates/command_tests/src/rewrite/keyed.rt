//! Whether the keys of found payloads are there, as tests ask it before they open.

ghost use Rattle.std.specs.Prelude.{◌≡◌, ◌+◌, ◌∷◌, [], drop, IsTrue, MatchOption};
ghost use Rattle.doc_rewrite.specs.Finding.{HasKeysFor};
ghost use Rattle.doc_rewrite.specs.Keys.{key_by_id};

use doc_rewrite::{Found, FoundAt, KeyTable};

/// The payload of this number, counted from 0.
fn payload_at(found: &Found<'_>, i: usize) -> Option<FoundAt>
    ensures first { MatchOption result (drop i found.now ≡ []) (λ f. drop i found.now ≡ f ∷ drop (i + 1) found.now) }
{
    found.get(i)
}

/// Whether the key of each payload is there.
pub(crate) fn has_keys(found: &Found<'_>, keys: &KeyTable) -> bool
    ensures keyed { IsTrue result → HasKeysFor (key_by_id keys.now.ids) found.now }
{
    for i in 0..found.len() {
        match payload_at(found, i) {
            Some(payload) => if keys.find(&payload.key_id).is_none() {
                return false;
            },
            None => return false,
        }
    }
    true
}
