//! What the commands of `demo` came to, and the line that says it.

ghost use Rattle.std.specs.Prelude.{◌≡◌, ◌≤◌, ◌+◌, ◌++◌, ℕ, List, IfOk, OnOk, decimal, length};
ghost use Rattle.hex.specs.Hex.{encode_lower};
ghost use Rattle.sha2.specs.Hashers.{Holds256};
ghost use Rattle.fle_demo.specs.Sums.{Sums, digest_text, line_of_sums, no_sums};
ghost use Rattle.fle_demo.specs.States.{bit};
ghost use Rattle.fle_demo.specs.Totals.{IsTotal, IsWithin, one_more};

use bson_codec::writing::append;
use fle_outside::Memory;
use itoa::Buffer;
use sha2::{Digest, Sha256};
use std::alloc::Global;

/// How many bytes went in and came out, how many commands came back equal, and the digest of the sealed ones so far.
#[derive(Drop)]
pub struct Totals {
    given: u64,
    made: u64,
    equal: u64,
    digest: Sha256,
}

impl Totals {
    /// No command yet.
    pub fn none() -> Totals
        ensures total { IsTotal result no_sums }
        ensures within { IsWithin result 0 }
    {
        Totals {
            given: 0,
            made: 0,
            equal: 0,
            digest: Sha256::new(),
        }
    }

    /// Counts a command, what it was sealed to, and whether that was opened to the command again.
    pub fn add(&mut self, command: &[u8], sealed: &[u8], same: bool)
        requires room { IsWithin self.old 99999 }
        requires short { (length command.now ≤ 1000) × (length sealed.now ≤ 48000000) }
        ensures total { (s : Sums) → IsTotal self.old s
            → IsTotal self.new (one_more (length command.now) sealed.now (bit same) s) }
        ensures within { (n : ℕ) → IsWithin self.old n → IsWithin self.new (n + 1) }
    {
        self.given += command.len() as u64;
        self.made += sealed.len() as u64;
        self.equal += same as u64;
        self.digest.update(sealed);
    }
}

/// The line of N commands that came to these totals.
pub fn line_of(alloc: Global, n: u32, totals: Totals) -> Result<Vec<u8>, Memory>
    ensures line { (s : Sums) → IsTotal totals s → IfOk result (λ text. text.items ≡ line_of_sums n s) }
{
    let mut text = Vec::new(alloc);
    append(&mut text, b"demo: ")?;
    put_count(&mut text, n as u64, b" commands, ")?;
    put_count(&mut text, totals.given, b" bytes in, ")?;
    put_count(&mut text, totals.made, b" bytes out, ")?;
    put_count(&mut text, totals.equal, b" equal, ")?;
    put_digest(&mut text, totals.digest)?;
    append(&mut text, b"\n")?;
    Ok(text)
}

/// Appends a number and a word.
fn put_count(text: &mut Vec<u8>, n: u64, word: &[u8]) -> Result<(), Memory>
    ensures put { OnOk result (text.new.items ≡ text.old.items ++ (decimal n ++ word.now)) }
{
    let mut count = Buffer::new();
    append(text, count.format(n).as_bytes())?;
    append(text, word)?;
    Ok(())
}

/// Appends the first 32 digits of a digest.
fn put_digest(text: &mut Vec<u8>, digest: Sha256) -> Result<(), Memory>
    ensures put { (bytes : List ℕ) → Holds256 digest bytes
        → OnOk result (text.new.items ≡ text.old.items ++ digest_text bytes) }
{
    let digits = digits_of(digest.finalize());
    append(text, &digits[..32])?;
    Ok(())
}

/// The hexadecimal digits of a digest.
fn digits_of(digest: [u8; 32]) -> [u8; 64]
    ensures digits { result ≡ encode_lower digest }
{
    let mut digits = [0; 64];
    match hex::encode_to_slice(&digest, &mut digits) {
        Ok(()) => digits,
        Err(_) => unreachable!(),
    }
}
