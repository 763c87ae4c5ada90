//! The system's standard input, standard output and standard error.

ghost use Rattle.std.specs.Prelude.{◌≡◌, ◌<◌, ◌≤◌, false, length, true, IfOk, None};
ghost use Rattle.fle_outside.specs.Reads.{ReadWithin, ReadCause};
ghost use Rattle.fle_outside.specs.Writes.{WriteWithin, WriteCause};

use crate::answers::{ReadAnswer, WriteAnswer};
use crate::sink::Sink;
use crate::source::Source;
use std::io::{self, BufRead, ErrorKind, Write};

/// How often a call is made again that a signal cut off.
pub(crate) const TURNS: u64 = u64::MAX;

/// From this length on a piece is read as it is, in bytes: the lock on standard input holds no more.
const AHEAD: usize = 4096;

/// Standard input, or another reader of the system. It tells nothing and is assured of nothing.
///
/// Small pieces are copies of bytes that the reader holds. The lock on standard input, `rt.reader()`,
/// reads ahead where the input is a file, and when it is dropped sets the file back to the first byte
/// that wasn't handed out. From a pipe it would take one byte at a time; so where its first look gives
/// a single byte, each piece is read as it is, and no byte of a pipe is taken that wasn't asked for.
#[derive(Drop)]
pub struct StdinSource<R> {
    reader: R,
    reads_ahead: bool,
    taken: u64,
    faults: u64,
}

/// Standard output, or another writer of the system. It tells nothing and is assured of nothing.
#[derive(Drop)]
pub struct StdoutSink<W> {
    writer: W,
    faults: u64,
}

/// Standard error, or another writer of the system. It tells nothing and is assured of nothing.
#[derive(Drop)]
pub struct StderrSink<W> {
    writer: W,
    faults: u64,
}

impl<R: BufRead> StdinSource<R> {
    /// A source over this reader, with no fault so far.
    pub fn new(reader: R) -> StdinSource<R>
        ensures begins { result ≡ record { reader = reader; reads_ahead = true; taken = 0; faults = 0 } }
    {
        StdinSource {
            reader,
            reads_ahead: true,
            taken: 0,
            faults: 0,
        }
    }

    /// Reads once, counts each error, and reads again after one that came from a signal.
    fn read_some(&mut self, piece: &mut [u8]) -> ReadAnswer
        requires { 0 < length piece.old }
        ensures within { ReadWithin result (length piece.new) }
        ensures taken { self.new.taken ≡ self.old.taken }
        ensures cause { ReadCause self.old.faults self.new.faults result }
    {
        for _turn in 0..TURNS {
            match self.read_once(piece) {
                Ok(0) => return ReadAnswer::End,
                Ok(n) => return ReadAnswer::Took(n),
                Err(error) => {
                    self.faults = self.faults.saturating_add(1);
                    if error.kind() != ErrorKind::Interrupted {
                        return ReadAnswer::Failed;
                    }
                }
            }
        }
        ReadAnswer::Failed
    }

    /// Reads once, out of what the reader holds where the piece is small.
    fn read_once(&mut self, piece: &mut [u8]) -> io::Result<usize>
        ensures within { IfOk result (λ n. n ≤ length piece.new) }
        ensures taken { self.new.taken ≡ self.old.taken }
        ensures faults { self.new.faults ≡ self.old.faults }
    {
        if self.reads_ahead && piece.len() < AHEAD {
            let held = self.reader.fill_buf()?.len();
            self.reads_ahead = held != 1 || self.taken > 0;
        }
        self.reader.read(piece)
    }
}

impl<W: Write> StdoutSink<W> {
    /// A sink over this writer, with no fault so far.
    pub fn new(writer: W) -> StdoutSink<W>
        ensures begins { result ≡ record { writer = writer; faults = 0 } }
    {
        StdoutSink { writer, faults: 0 }
    }
}

impl<W: Write> StderrSink<W> {
    /// A sink over this writer, with no fault so far.
    pub fn new(writer: W) -> StderrSink<W>
        ensures begins { result ≡ record { writer = writer; faults = 0 } }
    {
        StderrSink { writer, faults: 0 }
    }
}

impl<R: BufRead> Source for StdinSource<R> {
    ghost seen = { λ s. record { told = None; taken = s.taken; faults = s.faults; assured = false } };

    fn read(&mut self, piece: &mut [u8]) -> ReadAnswer {
        let answer = self.read_some(piece);
        if let ReadAnswer::Took(n) = answer {
            self.taken = self.taken.saturating_add(n as u64);
        }
        answer
    }
}

impl<W: Write> Sink for StdoutSink<W> {
    ghost seen = { λ s. record { told = None; faults = s.faults; assured = 0 } };

    fn write(&mut self, piece: &[u8]) -> WriteAnswer {
        write_some(&mut self.writer, &mut self.faults, piece)
    }
}

impl<W: Write> Sink for StderrSink<W> {
    ghost seen = { λ s. record { told = None; faults = s.faults; assured = 0 } };

    fn write(&mut self, piece: &[u8]) -> WriteAnswer {
        write_some(&mut self.writer, &mut self.faults, piece)
    }
}

/// Writes once, counts each error, and writes again after one that came from a signal. A writer that
/// takes nothing has failed.
fn write_some<W: Write>(writer: &mut W, faults: &mut u64, piece: &[u8]) -> WriteAnswer
    requires { 0 < length piece.now }
    ensures within { WriteWithin result (length piece.now) }
    ensures cause { WriteCause faults.old faults.new result }
{
    for _turn in 0..TURNS {
        let taken = writer.write(piece);
        if let Ok(n) = taken
            && n > 0
        {
            return WriteAnswer::Took(n);
        }
        *faults = faults.saturating_add(1);
        match taken {
            Err(error) if error.kind() == ErrorKind::Interrupted => {}
            _ => return WriteAnswer::Failed,
        }
    }
    WriteAnswer::Failed
}
