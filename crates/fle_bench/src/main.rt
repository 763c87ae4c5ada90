//! Runs one primitive many times over a message of a given length, so that it can be timed from outside.
//!
//! ```text
//! fle_bench cbc-seal-tables 1024 100000
//! ```
//!
//! The words are what is run, the number of bytes, and how many times. It writes one line, with the first 8 digits of
//! the SHA-256 digest of the last answer; or, for the check of a document, 1 where it is right; or, for the names of a
//! document among rules, how many are those of rules. It reads no clock: the same words and the same input always give
//! the same line.
#![tactic(auto)]

ghost use Rattle.std.specs.Prelude.{◌≡◌, ◌≤◌, length, IfOk};
ghost use Rattle.fle_bench.specs.declared.job.TheConstants.{MOST_BYTES};

mod aead;
mod bson;
mod cbc;
mod checksum;
mod documents;
mod hmac;
mod input;
mod job;
mod opening;
mod payload;
mod rewrapping;
mod rules;
mod sealing;

use crate::job::{Direction, KeySetup, MOST_BYTES, Subject, subject_of};
use fle_outside::StdinSource;
use std::alloc::Global;
use std::env;
use std::io::Input;

/// Runs the subject that the words name, so many times, and writes its line.
fn main(rt: HostRuntime) -> anyhow::Result<()> {
    let mut words = env::args(&rt)?;
    let _program = words.next();
    let (Some(word), Some(bytes), Some(times)) = (words.next(), words.next(), words.next()) else {
        anyhow::bail!("usage: fle_bench SUBJECT BYTES TURNS");
    };
    let Some(subject) = subject_of(word.as_str()) else {
        anyhow::bail!("there is no such subject");
    };
    let size = bytes.parse::<usize>()?;
    let turns = times.parse::<u32>()?;
    let checksum = run(&rt, subject, size, turns)?;
    println!(rt; "{word} {size} {turns} {checksum:08x}")?;
    Ok(())
}

/// The checksum of a subject that is run so many times over a message of this many bytes.
fn run(rt: &HostRuntime, subject: Subject, size: usize, turns: u32) -> anyhow::Result<u32> {
    if size > MOST_BYTES {
        anyhow::bail!("the message is longer than 64 MiB");
    }
    match subject {
        Subject::Cbc(direction, way) => Ok(cbc::run(rt.alloc(), direction, way, size, turns)?),
        Subject::Hmac(setup) => run_mac(rt.alloc(), setup, size, turns),
        Subject::AeadSeal(setup) => Ok(aead::run_sealing(rt.alloc(), setup, size, turns)?),
        Subject::AeadOpen => Ok(aead::run_opening(rt.alloc(), size, turns)?),
        Subject::Payload(Direction::Seal, algorithm) => {
            Ok(payload::run_sealing(rt.alloc(), algorithm, size, turns)?)
        }
        Subject::Payload(Direction::Open, algorithm) => {
            Ok(payload::run_opening(rt.alloc(), algorithm, size, turns)?)
        }
        Subject::BsonCheck => Ok(bson::run(&read_input(rt, size)?, turns) as u32),
        Subject::RuleNames => Ok(rules::run(rt.alloc(), &read_input(rt, size)?, turns)),
        Subject::Document(direction) => run_document(
            rt.alloc(),
            direction,
            &read_input(rt, size)?,
            turns,
        ),
        Subject::VaultRewrap => {
            made_of_vault(rewrapping::run_vault(rt.alloc(), &read_input(rt, size)?, turns))
        }
        Subject::VaultKeys => {
            made_of_vault(rewrapping::run_keys(rt.alloc(), &read_input(rt, size)?, turns))
        }
    }
}

/// The same of MACs.
fn run_mac(alloc: Global, setup: KeySetup, size: usize, turns: u32) -> anyhow::Result<u32> {
    if size < 16 {
        anyhow::bail!("the message of a MAC is shorter than 16 bytes");
    }
    Ok(hmac::run(alloc, setup, size, turns)?)
}

/// The same of a document that is sealed or opened.
fn run_document(
    alloc: Global,
    direction: Direction,
    bytes: &[u8],
    turns: u32,
) -> anyhow::Result<u32>
    requires { length bytes.now ≤ MOST_BYTES }
{
    match documents::run(alloc, direction, bytes, turns) {
        Some(sum) => Ok(sum),
        None => anyhow::bail!("the input is not what is sealed or opened"),
    }
}

/// What was made of a vault.
fn made_of_vault(sum: Option<u32>) -> anyhow::Result<u32> {
    match sum {
        Some(sum) => Ok(sum),
        None => anyhow::bail!("the input is no vault of the example's master key"),
    }
}

/// The first so many bytes of standard input.
fn read_input(rt: &HostRuntime, size: usize) -> anyhow::Result<Vec<u8>>
    ensures len { IfOk result (λ v. length v.items ≡ size) }
{
    Ok(bson::document(rt.alloc(), &mut StdinSource::new(rt.reader()), size)?)
}
