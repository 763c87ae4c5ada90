//! A sink in memory.

ghost use Rattle.std.specs.Prelude.{◌≡◌, ◌<◌, ◌≤◌, length, [], IfOk, Some};
ghost use Rattle.fle_outside.specs.Memory.{SinkState, write_answer, after_write, room_assured, sink_seen};
ghost use Rattle.fle_outside.specs.Writes.{WriteWithin, WriteTakes, WriteCause, WriteAssured};

use crate::answers::{Memory, WriteAnswer};
use crate::counts::call_fails;
use crate::sink::Sink;
use std::alloc::Global;
use std::marker::Model;

/// A buffer of fixed room that takes bytes in small steps, and whose calls fail where a list says so.
/// Contracts see what it took, its free room, the step, the numbers of the calls that are to fail,
/// the number of the next call and the count of faults.
#[derive(Drop)]
pub struct MemSink {
    bytes: Vec<u8>,
    room: usize,
    step: usize,
    failing: Vec<u64>,
    calls: u64,
    faults: u64,
}

impl Model for MemSink {
    ghost use Rattle.std.specs.Prelude.{◌<◌, ◌≤◌, ◌+◌, vec_len, vec_capacity};
    ghost use Rattle.fle_outside.specs.Memory.{SinkState};

    ghost Value = { SinkState };

    ghost view = { λ s. record {
      written = s.bytes.items;
      room = s.room;
      step = s.step;
      failing = s.failing.items;
      calls = s.calls;
      faults = s.faults;
    } };

    ghost invariant = { λ s. (vec_len s.bytes + s.room ≤ vec_capacity s.bytes) × (0 < s.step) };
}

impl MemSink {
    /// A sink with room for this many bytes, reserved at once, that takes at most `step` of them a
    /// call. The calls of the numbers in `failing`, counted from 0, fail, and so does each call once
    /// the sink is full. It is assured of its free room where that list is empty.
    pub fn new(
        alloc: Global,
        room: usize,
        step: usize,
        failing: Vec<u64>,
    ) -> Result<MemSink, Memory>
        requires { 0 < step }
        ensures begins { IfOk result (λ s. s ≡ record {
          written = [];
          room = room;
          step = step;
          failing = failing.items;
          calls = 0;
          faults = 0;
        }) }
    {
        match Vec::with_capacity(alloc, room) {
            Err(_) => Err(Memory),
            Ok(bytes) => Ok(MemSink {
                bytes,
                room,
                step,
                failing,
                calls: 0,
                faults: 0,
            }),
        }
    }

    /// What it took so far.
    pub fn written(&self) -> &[u8]
        ensures bytes { result.now ≡ self.now.written }
    {
        self.bytes.as_slice()
    }
}

impl Sink for MemSink {
    ghost seen = { sink_seen };

    fn write(&mut self, piece: &[u8]) -> WriteAnswer
        requires { 0 < length piece.now }
        ensures within { WriteWithin result (length piece.now) }
        ensures bytes { WriteTakes (Some self.old.written) (Some self.new.written) result piece.now }
        ensures cause { WriteCause self.old.faults self.new.faults result }
        ensures sure { WriteAssured (room_assured self.old) (room_assured self.new) result }
        ensures exact { result ≡ write_answer self.old (length piece.now) }
        ensures state { self.new ≡ after_write self.old piece.now result }
    {
        let fails = call_fails(&self.failing, self.calls);
        self.calls = self.calls.saturating_add(1);
        let n = piece.len().min(self.step.min(self.room));
        if fails || n == 0 {
            self.faults = self.faults.saturating_add(1);
            return WriteAnswer::Failed;
        }
        match self.bytes.extend_from_slice(&piece[..n]) {
            Err(_) => unreachable!(),
            Ok(()) => {
                self.room -= n;
                WriteAnswer::Took(n)
            }
        }
    }
}
