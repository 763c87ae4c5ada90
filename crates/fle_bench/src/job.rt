//! What is to be run, from the words of the command line.

ghost use Rattle.std.specs.Prelude.{◌≡◌, ◌≢◌, IfNone, IfSome};
ghost use Rattle.fle_bench.specs.Words.{word_of};
ghost use Rattle.fle_bench.specs.declared.job.Subject.{Subject};

use encrypt_schema::Algorithm;

/// The most bytes of a run: 64 MiB.
pub const MOST_BYTES: usize = 67108864;

/// One direction of CBC.
#[derive(Clone, Copy)]
pub enum Direction {
    Seal,
    Open,
}

/// The way to the block cipher.
#[derive(Clone, Copy)]
pub enum Way {
    /// The table form itself.
    Tables,
    /// Closures of known types.
    Closures,
    /// Closures in boxes.
    Boxes,
}

/// When a key is made ready.
#[derive(Clone, Copy)]
pub enum KeySetup {
    /// Once, for all turns.
    Kept,
    /// In each turn anew.
    Fresh,
}

/// What is run.
#[derive(Clone, Copy)]
pub enum Subject {
    /// CBC with AES-256.
    Cbc(Direction, Way),
    /// HMAC-SHA-512.
    Hmac(KeySetup),
    /// The sealing of a value under the IV that it determines.
    AeadSeal(KeySetup),
    /// The opening of such a value, under a key that is kept.
    AeadOpen,
    /// A payload of a binary, sealed, or taken apart and opened, under a key that is kept.
    Payload(Direction, Algorithm),
    /// The check of a BSON document that stands on standard input.
    BsonCheck,
    /// The look-up of a document's names among the rules of a schema, which both stand on standard input.
    RuleNames,
    /// A command whose protected values are sealed, behind the rules for them, or a document that is opened; they stand
    /// on standard input.
    Document(Direction),
    /// The file of a vault, which stands on standard input, under another master key.
    VaultRewrap,
    /// The keys of such a vault alone: each opened and sealed once.
    VaultKeys,
}

/// The subject that a word names.
pub fn subject_of(word: &str) -> Option<Subject>
    ensures named { IfSome result (λ s. word.now ≡ word_of s) }
    ensures unknown { IfNone result ((s : Subject) → word.now ≢ word_of s) }
{
    match word {
        "cbc-seal-tables" => Some(Subject::Cbc(Direction::Seal, Way::Tables)),
        "cbc-seal-closures" => Some(Subject::Cbc(Direction::Seal, Way::Closures)),
        "cbc-seal-boxes" => Some(Subject::Cbc(Direction::Seal, Way::Boxes)),
        "cbc-open-tables" => Some(Subject::Cbc(Direction::Open, Way::Tables)),
        "cbc-open-closures" => Some(Subject::Cbc(Direction::Open, Way::Closures)),
        "cbc-open-boxes" => Some(Subject::Cbc(Direction::Open, Way::Boxes)),
        "hmac-kept" => Some(Subject::Hmac(KeySetup::Kept)),
        "hmac-fresh" => Some(Subject::Hmac(KeySetup::Fresh)),
        "aead-seal-kept" => Some(Subject::AeadSeal(KeySetup::Kept)),
        "aead-seal-fresh" => Some(Subject::AeadSeal(KeySetup::Fresh)),
        "aead-open-kept" => Some(Subject::AeadOpen),
        "payload-seal-deterministic" => {
            Some(Subject::Payload(Direction::Seal, Algorithm::Deterministic))
        }
        "payload-seal-random" => Some(Subject::Payload(Direction::Seal, Algorithm::Random)),
        "payload-open-deterministic" => {
            Some(Subject::Payload(Direction::Open, Algorithm::Deterministic))
        }
        "payload-open-random" => Some(Subject::Payload(Direction::Open, Algorithm::Random)),
        "bson-check" => Some(Subject::BsonCheck),
        "rule-names" => Some(Subject::RuleNames),
        "document-seal" => Some(Subject::Document(Direction::Seal)),
        "document-open" => Some(Subject::Document(Direction::Open)),
        "vault-rewrap" => Some(Subject::VaultRewrap),
        "vault-keys" => Some(Subject::VaultKeys),
        _ => None,
    }
}
