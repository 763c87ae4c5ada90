//! A law of the forms. The function does nothing; its clauses are the law.

ghost use Rattle.std.specs.Prelude.{◌≡◌, ◌↔◌, ℕ, List, Some};
ghost use Rattle.fle_words.specs.Conditions.{AreDecrypt, AreEncrypt, AreEncryptWith, AreRewrap};
ghost use Rattle.fle_words.specs.Words.{decrypt, encrypt, encrypt_with, form_of, rewrap};

/// Words have the form of `encrypt`, `encrypt-with`, `decrypt` or `rewrap` exactly where they are its words and meet
/// its conditions.
pub fn forms_are_words()
    ensures sealing { (words : List (List ℕ)) (db keys schemas master : List ℕ)
        → (form_of words ≡ Some (encrypt db keys schemas master)) ↔ AreEncrypt words db keys schemas master }
    ensures opening { (words : List (List ℕ)) (keys master : List ℕ)
        → (form_of words ≡ Some (decrypt keys master)) ↔ AreDecrypt words keys master }
    ensures sealing_with { (words : List (List ℕ)) (db keys schemas master : List ℕ)
        → (form_of words ≡ Some (encrypt_with db keys schemas master)) ↔ AreEncryptWith words db keys schemas master }
    ensures rewrapping { (words : List (List ℕ)) (from to keys : List ℕ)
        → (form_of words ≡ Some (rewrap from to keys)) ↔ AreRewrap words from to keys }
{}
