//! Laws of texts: what holds of all documents. The functions do nothing; their clauses are the laws.

ghost use Rattle.std.specs.Prelude.{◌≡◌, ◌+◌, ◌++◌, ◌∷◌, ◌<◌, ◌^◌, ℕ, List, [], length, None, true, Ok, Err, IsUtf8};
ghost use Rattle.bson_tree.specs.Tree.{Items};
ghost use Rattle.bson_codec.specs.Layout.{IsDoc, IsName, binary_bytes, level_limit, scope_bytes, string_bytes};
ghost use Rattle.ext_json.specs.BadText.{first_bad};
ghost use Rattle.ext_json.specs.Infos.{json_infos};
ghost use Rattle.ext_json.specs.Parts as spec;
ghost use Rattle.ext_json.specs.Text.{inside_text, text};
ghost use Rattle.ext_json.specs.declared.laws.TheConstants.{B_BEFORE_A, A_BEFORE_B, A_TWICE, THE_LAST_A};

use crate::fault::JsonFault;

/// Infos in JSON: one object, which names `b` before `a`.
const B_BEFORE_A: [u8; 21] = *b"[{\"b\":true,\"a\":true}]";

/// Their BSON, in which `a` stands before `b`.
const A_BEFORE_B: [u8; 13] = *b"\x0D\0\0\0\x08a\0\x01\x08b\0\x01\0";

/// Infos in JSON: one object, which names `a` twice.
const A_TWICE: [u8; 22] = *b"[{\"a\":false,\"a\":true}]";

/// Their BSON: the last value alone, which is true.
const THE_LAST_A: [u8; 9] = *b"\x09\0\0\0\x08a\0\x01\0";

/// The text of a document without a bad place is UTF-8 (RFC 3629).
pub fn texts_are_utf8()
    ensures utf8 { (is : Items) (start : ℕ) → first_bad start is ≡ None → IsUtf8 (text is) }
{}

/// A document that has a spelling has its whole text: more levels of nesting give no other one.
pub fn levels_suffice()
    ensures same { (is : Items) (more : ℕ) → IsDoc is → inside_text (level_limit + more) true is ≡ text is }
{}

/// The parts that are read of raw values are those that were laid out (BSON 1.1).
pub fn parts_are_those_laid_out()
    ensures string { (written : List ℕ) → spec.text_of (string_bytes written) ≡ written }
    ensures subtype { (kind : ℕ) (contents : List ℕ) → spec.subtype_of (binary_bytes kind contents) ≡ kind }
    ensures contents { (kind : ℕ) (contents : List ℕ) → spec.contents_of (binary_bytes kind contents) ≡ contents }
    ensures pattern { (pattern options : List ℕ) → IsName pattern
        → spec.pattern_of ((pattern ++ 0 ∷ []) ++ (options ++ 0 ∷ [])) ≡ pattern }
    ensures options { (pattern options : List ℕ) → IsName pattern → IsName options
        → spec.options_of ((pattern ++ 0 ∷ []) ++ (options ++ 0 ∷ [])) ≡ options }
    ensures namespace { (space id : List ℕ) → length id ≡ 12 → spec.namespace_of (string_bytes space ++ id) ≡ space }
    ensures id { (space id : List ℕ) → length id ≡ 12 → spec.id_of (string_bytes space ++ id) ≡ id }
    ensures code { (code : List ℕ) (scope : Items) → IsDoc scope → length (scope_bytes code scope) < 2 ^ 31
        → spec.code_of (scope_bytes code scope) ≡ code }
    ensures scope { (code : List ℕ) (scope : Items) → IsDoc scope → length (scope_bytes code scope) < 2 ^ 31
        → spec.scope_of (scope_bytes code scope) ≡ scope }
{}

/// No text comes to want of memory: that is an answer of `infos_from_json` alone.
pub fn no_text_wants_memory()
    ensures never { (written : List ℕ) → json_infos written ≡ Err JsonFault.Memory → ⊥ }
{}

/// The members of an object stand in the order of their names' bytes, and of two with one name the last one counts: the
/// checker computes it of two texts.
pub fn members_of_an_object()
    ensures sorted { json_infos B_BEFORE_A ≡ Ok A_BEFORE_B }
    ensures last { json_infos A_TWICE ≡ Ok THE_LAST_A }
{}
