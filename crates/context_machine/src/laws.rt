//! Laws of the keys that are kept, of tables of data keys, and of noninterference: two commands that differ in
//! protected values alone. The functions do nothing; their clauses are the laws.

mod inverse;
mod worlds;

ghost use Rattle.std.specs.Prelude.{◌≡◌, ◌∷◌, [], ◌++◌, ℕ, List, true, map, None, Some, Ok, Err};
ghost use Rattle.bson_codec.specs.Borrowed.{At};
ghost use Rattle.data_key.specs.declared.key_doc.KeyDoc.{KeyDoc};
ghost use Rattle.encrypt_schema.specs.Commands.Visits.{Refusal};
ghost use Rattle.encrypt_schema.specs.Language.Row.{Row};
ghost use Rattle.fle_outside.specs.Blocks.{Block};
ghost use Rattle.key_vault.specs.Keys.{AreDistinct};
ghost use Rattle.key_vault.specs.Loading.{vault};
ghost use Rattle.doc_rewrite.specs.Founds.{payloads_of};
ghost use Rattle.doc_rewrite.specs.Keys.{Table, key_by_id, key_in};
ghost use Rattle.doc_rewrite.specs.Opened.{Keyring, first_wrong, misshapen, opened, ring_of};
ghost use Rattle.doc_rewrite.specs.Plans.{AreById};
ghost use Rattle.doc_rewrite.specs.Sealed.{sealed};
ghost use Rattle.doc_rewrite.specs.Sites.{Site};
ghost use Rattle.context_machine.specs.Kept.{AnswerAs, AnswerByIds, AreAgreed, AreFedFrom, HasDistinctIds, all_fed};
ghost use Rattle.context_machine.specs.Kept.{fed_some, key_by};
ghost use Rattle.context_machine.specs.Needs.{AreIds, NeedAt, first_needs, is_needed};
ghost use Rattle.context_machine.specs.Rings.{AreOpened, Finder, by_ids, finder, first_keyless, found_in, need_at};
ghost use Rattle.context_machine.specs.Rings.{needs_in, needs_of, ring};

pub use inverse::opening_undoes_sealing;
pub use worlds::{equal_blanks, two_worlds};

/// Whichever keys are handed in, in whatever order and number: for each need the keys kept answer as all of them do,
/// and each of them is what these have for a need. So where ids alone are needed, for any other id they have none.
pub fn kept_answer()
    ensures answer { (needs : List NeedAt) (keys : List KeyDoc) → AnswerAs needs keys (all_fed needs [] keys) }
    ensures ids { (needs : List NeedAt) (keys : List KeyDoc) → AreIds needs
        → AnswerByIds needs keys (all_fed needs [] keys) }
{}

/// The keys of a vault, asked for by one need after another: those kept are the vault's for the needs asked for so far,
/// where these agree on the vault's keys. Ids do in every vault, and all needs in one of distinct ids and names.
pub fn asked_answer()
    ensures next { (vault : List KeyDoc) (needs asked : List NeedAt) (kept : List KeyDoc) (n : NeedAt)
        → AreAgreed vault (asked ++ n ∷ []) → AreFedFrom vault asked kept → is_needed n.need needs ≡ true
        → AreFedFrom vault (asked ++ n ∷ []) (fed_some needs kept (key_by vault n.need)) }
    ensures ids { (vault : List KeyDoc) (needs : List NeedAt) → AreIds needs → AreAgreed vault needs }
    ensures distinct { (vault : List KeyDoc) (needs : List NeedAt) → AreDistinct vault → AreAgreed vault needs }
{}

/// The keys of a vault that was loaded from a file have distinct ids and names, and so distinct ids.
pub fn loaded_keys()
    ensures distinct { (file : List ℕ) (keys : List KeyDoc) → vault file ≡ Ok keys → AreDistinct keys }
    ensures ids { (vault : List KeyDoc) → AreDistinct vault → HasDistinctIds vault }
{}

/// A table that has the key of each value seals as the keys that it was made of.
pub fn table_seals()
    ensures seals { (keys : Finder) (ss : List Site) (table : Table) (blocks : List Block) (d : At)
        → AreOpened keys (map need_at ss) table
        → sealed (key_in table) ss blocks d ≡ sealed (found_in keys) ss blocks d }
{}

/// A table that has the key of each payload opens as the keys that it was made of.
pub fn table_opens()
    ensures opens { (keys : Keyring) (d : At) (table : Table) → AreOpened (by_ids keys) (needs_in d) table
        → opened (ring_of (key_by_id table.ids)) d ≡ opened keys d }
{}

/// A document isn't opened where a payload has a length that none has, or else where a payload's key isn't to be had.
pub fn keyless_stops()
    ensures misshapen { (keys : Keyring) (d : At) (r : Refusal) → first_wrong misshapen (payloads_of d) ≡ Some r
        → opened keys d ≡ Err r }
    ensures keyless { (keys : Keyring) (d : At) (r : Refusal) → first_wrong misshapen (payloads_of d) ≡ None
        → first_keyless (by_ids keys) (needs_in d) ≡ Some r → opened keys d ≡ Err r }
{}

/// Keys kept that are a vault's for what is needed: the same values lack a key, and a table of their data keys is one
/// of the vault's; so also of needs that are ids, looked up by ids alone, as all needs of a document are that is
/// opened.
pub fn kept_rings()
    ensures keyless { (vault kept : List KeyDoc) (uses : List NeedAt) (master : List ℕ)
        → AreFedFrom vault (first_needs uses) kept
        → first_keyless (finder kept master) uses ≡ first_keyless (finder vault master) uses }
    ensures opened { (vault kept : List KeyDoc) (uses : List NeedAt) (master : List ℕ) (table : Table)
        → AreFedFrom vault (first_needs uses) kept
        → AreOpened (finder kept master) uses table → AreOpened (finder vault master) uses table }
    ensures keyless_ids { (vault kept : List KeyDoc) (uses : List NeedAt) (master : List ℕ) → AreIds uses
        → AreFedFrom vault (first_needs uses) kept
        → first_keyless (by_ids (ring kept master)) uses ≡ first_keyless (by_ids (ring vault master)) uses }
    ensures opened_ids { (vault kept : List KeyDoc) (uses : List NeedAt) (master : List ℕ) (table : Table) → AreIds uses
        → AreFedFrom vault (first_needs uses) kept
        → AreOpened (by_ids (ring kept master)) uses table → AreOpened (by_ids (ring vault master)) uses table }
    ensures ids { (d : At) → AreIds (needs_in d) }
{}

/// Under rules whose keys are ids, a command needs keys by ids alone.
pub fn id_rules()
    ensures ids { (rows : List Row) (d : At) → AreById rows → AreIds (needs_of rows d) }
{}

/// Where a table has the key of each value, each value's key is to be had.
pub fn opened_none()
    ensures none { (keys : Finder) (ns : List NeedAt) (table : Table) → AreOpened keys ns table
        → first_keyless keys ns ≡ None }
{}
