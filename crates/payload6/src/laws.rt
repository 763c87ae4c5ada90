//! What holds of payloads whatever the key, as contracts of functions that do nothing: a proof calls
//! one, or cites it, for the fact that it ensures.

ghost use Rattle.std.specs.Prelude.{◌≡◌, ◌<◌, ◌++◌, length, All, List, MatchBool, None, ℕ};
ghost use Rattle.bson_codec.specs.Borrowed.{value_tree};
ghost use Rattle.encrypt_schema.specs.declared.schema.policy.Algorithm.{Algorithm};
ghost use Rattle.encrypt_schema.specs.declared.schema.policy.Algorithm.TheVariants.{Deterministic};
ghost use Rattle.payload6.specs.Opening.{IsOriginal};
ghost use Rattle.payload6.specs.Payload.{head, HasKind, IsPayload, IsPayloadLength, IsSealedPayload};
ghost use Rattle.payload6.specs.Verdicts.{id_in, is_original, value_in, wrong};

/// Bytes are joined of a head and what stands behind it in one way.
pub fn parting()
    ensures parts { (kind kind' : ℕ) (id id' : List ℕ) (type type' : ℕ) (sealed sealed' : List ℕ)
        → length id ≡ 16 → length id' ≡ 16 → head kind id type ++ sealed ≡ head kind' id' type' ++ sealed'
        → (kind ≡ kind') × (id ≡ id') × (type ≡ type') × (sealed ≡ sealed') }
{}

/// A payload is taken apart without a fault and determines its algorithm, its key's id, its type, its
/// IV and its plain text; a plain text, its type and a key determine the deterministic payload.
pub fn sealing()
    ensures kind { (algorithm : Algorithm) (id key : List ℕ) (type : ℕ) (p bytes : List ℕ)
        → IsPayload algorithm id key type p bytes → HasKind bytes }
    ensures length { (algorithm : Algorithm) (id key : List ℕ) (type : ℕ) (p bytes : List ℕ)
        → IsPayload algorithm id key type p bytes → IsPayloadLength (length bytes) }
    ensures determined { (kind kind' : ℕ) (id id' key : List ℕ) (type type' : ℕ) (iv iv' p p' bytes : List ℕ)
        → IsSealedPayload kind id key type iv p bytes → IsSealedPayload kind' id' key type' iv' p' bytes
        → (kind ≡ kind') × (id ≡ id') × (type ≡ type') × (iv ≡ iv') × (p ≡ p') }
    ensures equal { (id key : List ℕ) (type : ℕ) (p bytes bytes' : List ℕ)
        → IsPayload Deterministic id key type p bytes → IsPayload Deterministic id key type p bytes'
        → bytes ≡ bytes' }
{}

/// What a payload opens to, as functions, is what the relations say: the test for values that may have been sealed
/// tells them, and a payload of one of them is opened to it.
pub fn judging()
    ensures original { (levels type : ℕ) (p : List ℕ) → All (λ b. b < 256) p
        → MatchBool (is_original levels type p) (IsOriginal levels type p) (IsOriginal levels type p → ⊥) }
    ensures opens { (kind : ℕ) (id key : List ℕ) (type levels : ℕ) (iv p bytes : List ℕ)
        → IsSealedPayload kind id key type iv p bytes → IsOriginal levels type p
        → (wrong key levels bytes ≡ None) × (value_in key bytes ≡ value_tree type p) × (id_in bytes ≡ id) }
{}
