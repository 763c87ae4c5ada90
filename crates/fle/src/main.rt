//! The program `fle`: the client's part of MongoDB's client-side field level encryption, over standard
//! input and output and named files.
//!
//! `fle` of `fle_runner` is the program over any objects of the outside; here stand the real ones. `main`
//! answers `--help` and `--version` itself, each only as the sole word.
//!
//! ```text
//! fle mark hr schemas.bson < commands.bson > replies.bson
//! fle encrypt hr keys.bson schemas.bson master.key < commands.bson > sealed.bson
//! fle decrypt keys.bson master.key < documents.bson > opened.bson
//! fle keys keys.bson
//! fle keygen master.key hr-key > key.bson
//! fle demo hr 1000
//! ```
#![tactic(auto)]

ghost use Rattle.std.specs.Prelude.{◌≡◌};
ghost use Rattle.aes_block.specs.Cipher.{cipher, inv_cipher};

use aes_block::{Schedule, cipher_tables, inv_cipher_tables, inv_cipher_tables_pair};
use crypto_hooks::Hooks;
use fle_outside::{FileFolder, Sink, StderrSink, StdinSource, StdoutSink, SystemEntropy};
use fle_runner::{HELP, VERSION, fle, tell};
use fle_stream::{Cut, End, Finish, Status, Why, report};
use std::env;
use std::io::{ErrorKind, Input};
use std::process::ExitCode;
use std::rt::{Clock, Env};
use std::time::SystemTime;

/// Runs `fle` over the system's streams and files, or answers `--help` or `--version`.
fn main(rt: HostRuntime) -> ExitCode {
    let mut diag = StderrSink::new(rt.stderr());
    let status = match words_after_name(&rt) {
        Ok(words) => {
            let mut out = StdoutSink::new(rt.stdout());
            match sole_word(&words) {
                "--help" => tell(&mut out, &mut diag, HELP),
                "--version" => tell(&mut out, &mut diag, VERSION),
                _ => over_system(&rt, &words, &mut out, &mut diag),
            }
        }
        Err(why) => report(&mut diag, &End::unread(why)),
    };
    ExitCode::from(status.code())
}

/// Runs `fle` over the system's input, files, clock and entropy, with the cipher of `aes_block`.
fn over_system<O: Sink, G: Sink>(
    rt: &HostRuntime,
    words: &[String],
    out: &mut O,
    diag: &mut G,
) -> Status {
    let mut input = StdinSource::new(rt.reader());
    let mut files = FileFolder::new(rt);
    let mut entropy = SystemEntropy::new(rt);
    let seal = |s: &Schedule, b: [u8; 16]| -> [u8; 16]
        ensures { result ≡ cipher s.entry.now b }
    { cipher_tables(s, b) };
    let unseal = |s: &Schedule, b: [u8; 16]| -> [u8; 16]
        ensures { result ≡ inv_cipher s.entry.now b }
    { inv_cipher_tables(s, b) };
    let unseal_two = |s: &Schedule, a: [u8; 16], b: [u8; 16]| -> ([u8; 16], [u8; 16])
        ensures first { result.0 ≡ inv_cipher s.entry.now a }
        ensures second { result.1 ≡ inv_cipher s.entry.now b }
    { inv_cipher_tables_pair(s, a, b) };
    let hooks = Hooks::with_pairs(seal, unseal, unseal_two);
    let now = now_ms(rt);
    fle(
        rt.alloc(),
        words,
        now,
        &mut input,
        &mut files,
        out,
        diag,
        &mut entropy,
        &hooks,
    )
}

/// The words after the program's name. One that isn't UTF-8 has no form.
fn words_after_name<R: Env + AllocGlobal>(rt: &R) -> Result<Vec<String>, Why> {
    match env::args(rt) {
        Ok(words) => match words.skip(1).collect(rt.alloc()) {
            Ok(words) => Ok(words),
            Err(_) => Err(Why::Cut(Cut::Memory)),
        },
        Err(error) if error.kind() == ErrorKind::InvalidData => Err(Why::Finished(Finish::Words)),
        Err(_) => Err(Why::Cut(Cut::Memory)),
    }
}

/// The word, where there is one alone; else the empty text.
fn sole_word(words: &[String]) -> &str {
    match words {
        [word] => word.as_str(),
        _ => "",
    }
}

/// The time in milliseconds from 1970; 0 where the clock can't be read.
fn now_ms<R: Clock>(rt: &R) -> i64 {
    match SystemTime::now(rt) {
        Ok(now) => match now.duration_since(SystemTime::UNIX_EPOCH) {
            Ok(since) => since.as_millis().min(i64::MAX as u128) as i64,
            Err(_) => 0,
        },
        Err(_) => 0,
    }
}
