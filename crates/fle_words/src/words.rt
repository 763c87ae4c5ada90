//! The words of a command line.

ghost use Rattle.std.specs.Prelude.{◌≡◌, ◌≤◌, IfSome, length, map, string_bytes};
ghost use Rattle.fle_words.specs.Words.{AreFew, asked_form, count_in, counted_form, decrypt_words};
ghost use Rattle.fle_words.specs.Words.{demo_words, encrypt_with_words, encrypt_words, form_of, is_count};
ghost use Rattle.fle_words.specs.Words.{keygen_words, keys_words, mark_words, rewrap_words, show_words};
ghost use Rattle.fle_words.specs.Words.{verb_form};

use crate::names::are_names;
use itoa::Buffer;

/// A database's name has at most this many bytes.
const MAX_DB: usize = 63;

/// The demo has at most this many commands.
const MAX_COMMANDS: u32 = 100_000;

/// What the words ask for.
#[derive(Clone, Copy)]
pub enum Asked<'a> {
    /// Nothing: they have no form.
    Nothing,
    /// The marking reply to each command of a database, under the schemas of a file.
    Mark {
        /// The database's name.
        db: &'a str,
        /// The name of the file of collection infos.
        schemas: &'a str,
    },
    /// The text of each document.
    Show,
    /// The keys of a vault.
    Keys {
        /// The name of the file of key documents.
        vault: &'a str,
    },
    /// A new key.
    Keygen {
        /// The name of the file of the master key.
        master: &'a str,
        /// The key's alternate names.
        names: &'a [String],
    },
    /// Each command of a database with its protected values sealed.
    Encrypt {
        /// The database's name.
        db: &'a str,
        /// The name of the file of key documents.
        keys: &'a str,
        /// The name of the file of collection infos.
        schemas: &'a str,
        /// The name of the file of the master key.
        master: &'a str,
    },
    /// The same, each command behind which its marking reply stands.
    EncryptWith {
        /// The database's name.
        db: &'a str,
        /// The name of the file of key documents.
        keys: &'a str,
        /// The name of the file of collection infos.
        schemas: &'a str,
        /// The name of the file of the master key.
        master: &'a str,
    },
    /// Each document with its payloads opened.
    Decrypt {
        /// The name of the file of key documents.
        keys: &'a str,
        /// The name of the file of the master key.
        master: &'a str,
    },
    /// Commands of a database, made, sealed and opened again.
    Demo {
        /// The database's name.
        db: &'a str,
        /// How many commands.
        n: u32,
    },
    /// The keys of a vault under another master key.
    Rewrap {
        /// The name of the file of the master key that they are under.
        from: &'a str,
        /// The name of the file of the other one.
        to: &'a str,
        /// The name of the file of key documents.
        vault: &'a str,
    },
}

/// What the words after the program's name ask for.
pub fn read_words(words: &[String]) -> Asked<'_>
    ensures asked { asked_form result ≡ form_of (map string_bytes words.now) }
    ensures few { AreFew result }
{
    match words {
        [verb, rest @ ..] => verb_words(verb.as_str(), rest),
        [] => Asked::Nothing,
    }
}

/// What a verb and the words behind it ask for.
fn verb_words<'a>(verb: &str, words: &'a [String]) -> Asked<'a>
    ensures asked { asked_form result ≡ verb_form verb.now (map string_bytes words.now) }
    ensures few { AreFew result }
{
    if verb == "mark" {
        return mark_words(words);
    }
    if verb == "show" {
        return show_words(words);
    }
    if verb == "keys" {
        return keys_words(words);
    }
    if verb == "keygen" {
        return keygen_words(words);
    }
    if verb == "encrypt" {
        return encrypt_words(words);
    }
    if verb == "encrypt-with" {
        return encrypt_with_words(words);
    }
    if verb == "decrypt" {
        return decrypt_words(words);
    }
    if verb == "demo" {
        return demo_words(words);
    }
    if verb == "rewrap" {
        return rewrap_words(words);
    }
    Asked::Nothing
}

/// The words behind `mark`.
fn mark_words(words: &[String]) -> Asked<'_>
    ensures asked { asked_form result ≡ mark_words (map string_bytes words.now) }
    ensures few { AreFew result }
{
    match words {
        [db, schemas] if !db.is_empty() && db.len() <= MAX_DB && !schemas.is_empty() =>
            Asked::Mark {
                db: db.as_str(),
                schemas: schemas.as_str(),
            },
        _ => Asked::Nothing,
    }
}

/// The words behind `show`.
fn show_words(words: &[String]) -> Asked<'_>
    ensures asked { asked_form result ≡ show_words (map string_bytes words.now) }
    ensures few { AreFew result }
{
    match words {
        [] => Asked::Show,
        _ => Asked::Nothing,
    }
}

/// The words behind `keys`.
fn keys_words(words: &[String]) -> Asked<'_>
    ensures asked { asked_form result ≡ keys_words (map string_bytes words.now) }
    ensures few { AreFew result }
{
    match words {
        [vault] if !vault.is_empty() => Asked::Keys {
            vault: vault.as_str(),
        },
        _ => Asked::Nothing,
    }
}

/// The words behind `keygen`.
fn keygen_words(words: &[String]) -> Asked<'_>
    ensures asked { asked_form result ≡ keygen_words (map string_bytes words.now) }
    ensures few { AreFew result }
{
    match words {
        [master, names @ ..] if !master.is_empty() && are_names(names) => Asked::Keygen {
            master: master.as_str(),
            names,
        },
        _ => Asked::Nothing,
    }
}

/// The words behind `encrypt`.
fn encrypt_words(words: &[String]) -> Asked<'_>
    ensures asked { asked_form result ≡ encrypt_words (map string_bytes words.now) }
    ensures few { AreFew result }
{
    match words {
        [db, keys, schemas, master]
            if !db.is_empty()
                && db.len() <= MAX_DB
                && !keys.is_empty()
                && !schemas.is_empty()
                && !master.is_empty() => Asked::Encrypt {
            db: db.as_str(),
            keys: keys.as_str(),
            schemas: schemas.as_str(),
            master: master.as_str(),
        },
        _ => Asked::Nothing,
    }
}

/// The words behind `encrypt-with`.
fn encrypt_with_words(words: &[String]) -> Asked<'_>
    ensures asked { asked_form result ≡ encrypt_with_words (map string_bytes words.now) }
    ensures few { AreFew result }
{
    match words {
        [db, keys, schemas, master]
            if !db.is_empty()
                && db.len() <= MAX_DB
                && !keys.is_empty()
                && !schemas.is_empty()
                && !master.is_empty() => Asked::EncryptWith {
            db: db.as_str(),
            keys: keys.as_str(),
            schemas: schemas.as_str(),
            master: master.as_str(),
        },
        _ => Asked::Nothing,
    }
}

/// The words behind `decrypt`.
fn decrypt_words(words: &[String]) -> Asked<'_>
    ensures asked { asked_form result ≡ decrypt_words (map string_bytes words.now) }
    ensures few { AreFew result }
{
    match words {
        [keys, master] if !keys.is_empty() && !master.is_empty() => Asked::Decrypt {
            keys: keys.as_str(),
            master: master.as_str(),
        },
        _ => Asked::Nothing,
    }
}

/// The words behind `demo`.
fn demo_words(words: &[String]) -> Asked<'_>
    ensures asked { asked_form result ≡ demo_words (map string_bytes words.now) }
    ensures few { AreFew result }
{
    match words {
        [db, count] if !db.is_empty() && db.len() <= MAX_DB => counted(db.as_str(), count.as_str()),
        _ => Asked::Nothing,
    }
}

/// The words behind `rewrap`.
fn rewrap_words(words: &[String]) -> Asked<'_>
    ensures asked { asked_form result ≡ rewrap_words (map string_bytes words.now) }
    ensures few { AreFew result }
{
    match words {
        [from, to, vault] if !from.is_empty() && !to.is_empty() && !vault.is_empty() =>
            Asked::Rewrap {
                from: from.as_str(),
                to: to.as_str(),
                vault: vault.as_str(),
            },
        _ => Asked::Nothing,
    }
}

/// So many commands of a database, where the word is a number of commands.
fn counted<'a>(db: &'a str, count: &str) -> Asked<'a>
    requires short { length db.now ≤ 63 }
    ensures asked { asked_form result ≡ counted_form db.now (count_in count.now) }
    ensures few { AreFew result }
{
    match count_in(count) {
        Some(n) => Asked::Demo { db, n },
        None => Asked::Nothing,
    }
}

/// The number of commands that a word is.
fn count_in(word: &str) -> Option<u32>
    ensures count { result ≡ count_in word.now }
    ensures few { IfSome result (λ n. n ≤ 100000) }
{
    match word.parse::<u32>() {
        Ok(n) if is_count(word, n) => Some(n),
        _ => None,
    }
}

/// Whether a number is one of commands, and is printed as the word.
fn is_count(word: &str, n: u32) -> bool
    ensures count { result ≡ is_count word.now n }
{
    let mut digits = Buffer::new();
    word == digits.format(n) && 1 <= n && n <= MAX_COMMANDS
}
