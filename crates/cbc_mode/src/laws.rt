//! What holds of the mode whatever the key, as contracts of functions that do nothing: a proof
//! calls one, or cites it, for the fact that it ensures.

ghost use Rattle.std.specs.Prelude.{◌≡◌, ◌+◌, ◌*◌, ◌/◌, ◌%◌, ◌<◌, All, length, List, ℕ};
ghost use Rattle.aes_block.specs.Block.{IsBlock};
ghost use Rattle.cbc_mode.specs.Cbc.{cbc_opened, cbc_sealed};
ghost use Rattle.cbc_mode.specs.Padding.{pad};

/// Decryption undoes encryption, on whole blocks of bytes (SP 800-38A, 6.2).
pub fn opening_undoes_sealing()
    ensures undone { (w iv p : List ℕ) → IsBlock iv → All (λ b. b < 256) p → length p % 16 ≡ 0
        → cbc_opened w iv (cbc_sealed w iv p) ≡ p }
{}

/// Encryption undoes decryption, on whole blocks of bytes (SP 800-38A, 6.2).
pub fn sealing_undoes_opening()
    ensures undone { (w iv c : List ℕ) → IsBlock iv → All (λ b. b < 256) c → length c % 16 ≡ 0
        → cbc_sealed w iv (cbc_opened w iv c) ≡ c }
{}

/// What was padded and encrypted determines the message.
pub fn sealed_determines_plain()
    ensures same { (w iv p q : List ℕ) → IsBlock iv → All (λ b. b < 256) p → All (λ b. b < 256) q
        → cbc_sealed w iv (pad p) ≡ cbc_sealed w iv (pad q) → p ≡ q }
{}

/// The padded form determines the message (RFC 5652, 6.3).
pub fn padded_determines_plain()
    ensures same { (p q : List ℕ) → pad p ≡ pad q → p ≡ q }
{}

/// What was padded and encrypted has the padded length.
pub fn sealed_length()
    ensures len { (w iv p : List ℕ) → length (cbc_sealed w iv (pad p)) ≡ 16 * (length p / 16 + 1) }
{}
