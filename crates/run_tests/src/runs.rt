//! Whole runs of the program over objects in memory, as the tests share them.

use crate::keys_tests::VAULT;
use crate::other_names_tests::{DIARY, LEDGER, SCORES};
use crate::schema_tests::NOTES;
use crate::update_tests::PAIR;
use crypto_hooks::{Block256, Tables};
use fle_outside::{Entropy, MemEntropy, MemFolder, MemSink, MemSource};
use fle_runner::fle;
use fle_stream::Status;
use sample_documents::{PEOPLE, STAFF_INFO, VIEW_INFO};
use std::alloc::Global;
use std::process::Abort;

/// The master key: the bytes 00 to 5F.
pub(crate) const MASTER: &[u8] =
    b"\x00\x01\x02\x03\x04\x05\x06\x07\x08\x09\x0a\x0b\x0c\x0d\x0e\x0f\x10\x11\x12\x13\x14\x15\x16\x17\
     \x18\x19\x1a\x1b\x1c\x1d\x1e\x1f\x20!\"#$%&'()*+,-./0123456789:;<=>?@ABCDEFGHIJKLMNOPQRSTUVWXYZ[\\]^_";

/// The infos of `people`, `staff`, `notes`, the view `v`, `pair`, `scores`, `ledger` and `diary`.
pub(crate) const INFOS: [&[u8]; 8] = [
    PEOPLE, STAFF_INFO, NOTES, VIEW_INFO, PAIR, SCORES, LEDGER, DIARY,
];

/// The words of `mark`, `encrypt` and `decrypt`.
const MARK: [&str; 3] = ["mark", "hr", "infos"];

const ENCRYPT: [&str; 5] = ["encrypt", "hr", "keys", "infos", "master"];

const DECRYPT: [&str; 3] = ["decrypt", "keys", "master"];

/// No call fails.
const NONE: [u64; 0] = [];

/// No block is to come.
const NO_BLOCK: [[u8; 16]; 0] = [];

/// A run: its words; the files `keys`, `infos` (in pieces), `master` and `other`, a second master key; the time; its
/// input, and how many bytes of it one read gives; how many bytes the output and the line have room for; the blocks to
/// come; and the numbers of the calls that fail.
#[derive(Clone, Copy)]
pub(crate) struct Run<'a> {
    pub(crate) words: &'a [&'a str],
    pub(crate) keys: &'a [u8],
    pub(crate) infos: &'a [&'a [u8]],
    pub(crate) master: &'a [u8],
    pub(crate) other: &'a [u8],
    pub(crate) time: i64,
    pub(crate) input: &'a [u8],
    pub(crate) step: usize,
    pub(crate) room: usize,
    pub(crate) blocks: &'a [[u8; 16]],
    pub(crate) source: &'a [u64],
    pub(crate) folder: &'a [u64],
    pub(crate) sink: &'a [u64],
    pub(crate) diag: &'a [u64],
    pub(crate) diag_room: usize,
    pub(crate) draws: &'a [u64],
}

/// What a run left: its status, its output, its line, and the blocks that are still to come.
#[derive(Drop)]
struct Seen {
    status: Status,
    out: MemSink,
    diag: MemSink,
    entropy: MemEntropy,
}

/// A run of `mark` over this input, in which nothing fails.
pub(crate) fn marking(input: &[u8]) -> Run<'_> {
    Run {
        words: &MARK,
        keys: VAULT,
        infos: &INFOS,
        master: MASTER,
        other: b"",
        time: 1_700_000_000_000,
        input,
        step: 1000,
        room: 20_000,
        blocks: &NO_BLOCK,
        source: &NONE,
        folder: &NONE,
        sink: &NONE,
        diag: &NONE,
        diag_room: 100,
        draws: &NONE,
    }
}

/// A run of `encrypt` over this input, in which nothing fails and no block is drawn.
pub(crate) fn sealing(input: &[u8]) -> Run<'_> {
    Run {
        words: &ENCRYPT,
        ..marking(input)
    }
}

/// A run of `decrypt` over this input, in which nothing fails.
pub(crate) fn opening(input: &[u8]) -> Run<'_> {
    Run {
        words: &DECRYPT,
        ..marking(input)
    }
}

/// The pieces one after the other.
pub(crate) fn joined(rt: &impl Abort, alloc: Global, pieces: &[&[u8]]) -> Vec<u8> {
    let mut bytes = Vec::new(alloc);
    for piece in pieces {
        bytes.extend_from_slice(piece).expect(rt, "memory");
    }
    bytes
}

/// The document of these elements.
pub(crate) fn document(rt: &impl Abort, alloc: Global, elements: &[&[u8]]) -> Vec<u8> {
    let inside = joined(rt, alloc, elements);
    assert!(rt; inside.len() <= 50_000_000, "a test's document is too long");
    let size = (inside.len() as u32 + 5).to_le_bytes();
    joined(rt, alloc, &[&size, &inside, b"\x00"])
}

/// The words as the program gets them.
pub(crate) fn words_of(rt: &impl Abort, alloc: Global, words: &[&str]) -> Vec<String> {
    let mut all = Vec::new(alloc);
    for word in words {
        let word = String::from_str(alloc, word).expect(rt, "memory");
        all.push(word).expect(rt, "memory");
    }
    all
}

/// The folder of a run.
pub(crate) fn folder_of(rt: &impl Abort, alloc: Global, run: Run<'_>) -> MemFolder {
    let keys = (
        String::from_str(alloc, "keys").expect(rt, "memory"),
        Vec::from_slice(alloc, run.keys).expect(rt, "memory"),
    );
    let infos = (
        String::from_str(alloc, "infos").expect(rt, "memory"),
        joined(rt, alloc, run.infos),
    );
    let master = (
        String::from_str(alloc, "master").expect(rt, "memory"),
        Vec::from_slice(alloc, run.master).expect(rt, "memory"),
    );
    let other = (
        String::from_str(alloc, "other").expect(rt, "memory"),
        Vec::from_slice(alloc, run.other).expect(rt, "memory"),
    );
    let files = vec![in alloc; keys, infos, master, other].expect(rt, "memory");
    let failing = Vec::from_slice(alloc, run.folder).expect(rt, "memory");
    MemFolder::new(files, failing)
}

/// A sink with this room that takes at most 100 bytes a call.
pub(crate) fn sink_of(rt: &impl Abort, alloc: Global, room: usize, failing: &[u64]) -> MemSink {
    let failing = Vec::from_slice(alloc, failing).expect(rt, "memory");
    MemSink::new(alloc, room, 100, failing).expect(rt, "memory")
}

/// The input of a run.
pub(crate) fn source_of(rt: &impl Abort, alloc: Global, run: Run<'_>) -> MemSource {
    let input = Vec::from_slice(alloc, run.input).expect(rt, "memory");
    let failing = Vec::from_slice(alloc, run.source).expect(rt, "memory");
    MemSource::new(input, run.step.max(1), failing)
}

/// The blocks to come in a run.
pub(crate) fn entropy_of(rt: &impl Abort, alloc: Global, run: Run<'_>) -> MemEntropy {
    let blocks = Vec::from_slice(alloc, run.blocks).expect(rt, "memory");
    let failing = Vec::from_slice(alloc, run.draws).expect(rt, "memory");
    MemEntropy::new(blocks, failing)
}

/// Runs the program over this block cipher.
fn look<B: Block256>(rt: &impl Abort, alloc: Global, run: Run<'_>, hooks: &B) -> Seen
    requires hooks { B.answers hooks.now }
{
    let words = words_of(rt, alloc, run.words);
    let mut input = source_of(rt, alloc, run);
    let mut files = folder_of(rt, alloc, run);
    let mut out = sink_of(rt, alloc, run.room, run.sink);
    let mut diag = sink_of(rt, alloc, run.diag_room, run.diag);
    let mut entropy = entropy_of(rt, alloc, run);
    let status = fle(
        alloc,
        &words,
        run.time,
        &mut input,
        &mut files,
        &mut out,
        &mut diag,
        &mut entropy,
        hooks,
    );
    Seen {
        status,
        out,
        diag,
        entropy,
    }
}

/// What a run writes.
pub(crate) fn output(rt: &impl Abort, alloc: Global, run: Run<'_>) -> Vec<u8> {
    let seen = look(rt, alloc, run, &Tables);
    Vec::from_slice(alloc, seen.out.written()).expect(rt, "memory")
}

/// The block that is the next one to come after a run.
pub(crate) fn next_block(rt: &impl Abort, alloc: Global, run: Run<'_>) -> Option<[u8; 16]> {
    let mut seen = look(rt, alloc, run, &Tables);
    seen.entropy.block().ok()
}

/// The run must leave this status, this output and this line.
pub(crate) fn expect(
    rt: &impl Abort,
    alloc: Global,
    run: Run<'_>,
    status: Status,
    out: &[u8],
    line: &str,
) {
    expect_with(rt, alloc, run, &Tables, status, out, line);
}

/// The same of a run over this block cipher.
pub(crate) fn expect_with<B: Block256>(
    rt: &impl Abort,
    alloc: Global,
    run: Run<'_>,
    hooks: &B,
    status: Status,
    out: &[u8],
    line: &str,
)
    requires hooks { B.answers hooks.now }
{
    let seen = look(rt, alloc, run, hooks);
    assert!(rt; seen.status == status, "status");
    assert!(rt; seen.out.written() == out, "output");
    assert!(rt; seen.diag.written() == line.as_bytes(), "line");
}

/// The run must end well, with this output and no line.
pub(crate) fn writes(rt: &impl Abort, alloc: Global, run: Run<'_>, out: &[u8]) {
    expect(rt, alloc, run, Status::Done, out, "");
}

/// The run must write nothing, and end with this status and this line.
pub(crate) fn stops(rt: &impl Abort, alloc: Global, run: Run<'_>, status: Status, line: &str) {
    expect(rt, alloc, run, status, b"", line);
}

/// The run writes the command of its input sealed so, and `decrypt` opens that again.
pub(crate) fn seals(rt: &impl Abort, alloc: Global, run: Run<'_>, sealed: &[u8]) {
    writes(rt, alloc, run, sealed);
    writes(rt, alloc, opening(sealed), run.input);
}

/// `mark` gives a command this reply; `encrypt` seals it so without a block, and `decrypt` opens that again.
pub(crate) fn accepts(rt: &impl Abort, alloc: Global, command: &[u8], reply: &[u8], sealed: &[u8]) {
    writes(rt, alloc, marking(command), reply);
    seals(rt, alloc, sealing(command), sealed);
}

/// `mark` and `encrypt` refuse a command with this line.
pub(crate) fn refuses(rt: &impl Abort, alloc: Global, command: &[u8], line: &str) {
    stops(rt, alloc, marking(command), Status::Refused, line);
    stops(rt, alloc, sealing(command), Status::Refused, line);
}
