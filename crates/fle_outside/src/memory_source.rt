//! A source in memory.

ghost use Rattle.std.specs.Prelude.{◌≡◌, ◌<◌, true, length, Some};
ghost use Rattle.fle_outside.specs.Memory.{read_answer, after_read, source_seen};
ghost use Rattle.fle_outside.specs.Reads.{ReadWithin, ReadTakes, ReadCause, taken_by};

use crate::answers::ReadAnswer;
use crate::counts::call_fails;
use crate::source::Source;
use std::marker::Model;

/// Bytes in memory that are handed out in small steps, and whose calls fail where a list says so.
/// Contracts see what is left, how many bytes it handed out, the step, the numbers of the calls that are to fail, the
/// number of the next call and the count of faults.
#[derive(Drop)]
pub struct MemSource {
    bytes: Vec<u8>,
    at: usize,
    taken: u64,
    step: usize,
    failing: Vec<u64>,
    calls: u64,
    faults: u64,
}

impl Model for MemSource {
    ghost use Rattle.std.specs.Prelude.{◌<◌, ◌≤◌, vec_len, drop};
    ghost use Rattle.fle_outside.specs.Memory.{SourceState};

    ghost Value = { SourceState };

    ghost view = { λ s. record {
      left = drop s.at s.bytes.items;
      taken = s.taken;
      step = s.step;
      failing = s.failing.items;
      calls = s.calls;
      faults = s.faults;
    } };

    ghost invariant = { λ s. (s.at ≤ vec_len s.bytes) × (0 < s.step) };
}

impl MemSource {
    /// A source of these bytes that hands out at most `step` of them a call. The calls of the numbers
    /// in `failing`, counted from 0, fail. It is assured of never failing where that list is empty.
    pub fn new(bytes: Vec<u8>, step: usize, failing: Vec<u64>) -> MemSource
        requires { 0 < step }
        ensures begins { result ≡ record {
          left = bytes.items;
          taken = 0;
          step = step;
          failing = failing.items;
          calls = 0;
          faults = 0;
        } }
    {
        MemSource {
            bytes,
            at: 0,
            taken: 0,
            step,
            failing,
            calls: 0,
            faults: 0,
        }
    }
}

impl Source for MemSource {
    ghost seen = { source_seen };

    fn read(&mut self, piece: &mut [u8]) -> ReadAnswer
        requires { 0 < length piece.old }
        ensures within { ReadWithin result (length piece.new) }
        ensures bytes { ReadTakes (Some self.old.left) (Some self.new.left) result piece.new }
        ensures counts { self.new.taken ≡ taken_by self.old.taken result }
        ensures cause { ReadCause self.old.faults self.new.faults result }
        ensures sure { (source_seen self.old).assured ≡ true
            → (result ≡ ReadAnswer.Failed → ⊥) × ((source_seen self.new).assured ≡ true) }
        ensures exact { result ≡ read_answer self.old (length piece.new) }
        ensures state { self.new ≡ after_read self.old result }
    {
        let fails = call_fails(&self.failing, self.calls);
        self.calls = self.calls.saturating_add(1);
        if fails {
            self.faults = self.faults.saturating_add(1);
            return ReadAnswer::Failed;
        }
        let (_, left) = self.bytes.as_slice().split_at(self.at);
        if left.is_empty() {
            return ReadAnswer::End;
        }
        let n = piece.len().min(self.step.min(left.len()));
        piece[..n].copy_from_slice(&left[..n]);
        self.at += n;
        self.taken = self.taken.saturating_add(n as u64);
        ReadAnswer::Took(n)
    }
}
