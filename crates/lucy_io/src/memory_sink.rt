ghost use Rattle.std.specs.Prelude.{◌≡◌, ◌+◌, Some, true, false, MatchResult, [], ◌≤◌, ◌<◌, ◌-◌, IfOk, ℕ, length, vec_len, vec_capacity};
ghost use Rattle.std.specs.Io.KnownBytes.{WriteAppends};
ghost use Rattle.lucy_io.specs.Faults.{HasCause, next_count};
ghost use Rattle.lucy_io.specs.SinkInMemory.{SinkInMemory, sink_fails, given_of, sink_faults};

use crate::{Fault, Sink};
use std::alloc::{AllocError, Global};
use std::marker::Model;

/// A sink in memory, of which chosen calls fail. It keeps what it is given in a room that it takes when it is made.
#[derive(Drop)]
pub struct MemorySink {
    bytes: Vec<u8>,
    room: usize,
    most: usize,
    failing: Vec<u64>,
    calls: u64,
    faults: u64,
}

impl Model for MemorySink {
    ghost Value = { SinkInMemory };

    ghost view = { λ s. record { held = s.bytes.items; free = s.room - vec_len s.bytes; most = s.most; failing = s.failing.items; calls = s.calls; faults = s.faults } };

    ghost invariant = { λ s. (s.room ≤ vec_capacity s.bytes) × (vec_len s.bytes ≤ s.room) × (0 < s.most) };
}

impl MemorySink {
    /// An empty sink with room for `room` bytes that takes at most `most` of them a call. The calls whose numbers,
    /// from 0, are in `failing` fail, and so does each call that finds no byte free.
    pub fn new(
        alloc: Global,
        room: usize,
        most: usize,
        failing: Vec<u64>,
    ) -> Result<MemorySink, AllocError>
        requires { 0 < most }
        ensures { IfOk result (λ s. s ≡ record { held = []; free = room; most = most; failing = failing.items; calls = 0; faults = 0 }) }
    {
        Ok(MemorySink {
            bytes: Vec::with_capacity(alloc, room)?,
            room,
            most,
            failing,
            calls: 0,
            faults: 0,
        })
    }

    /// The bytes that it holds.
    pub fn bytes(&self) -> &[u8]
        ensures { result.now ≡ self.now.held }
    {
        &self.bytes
    }
}

impl Sink for MemorySink {
    ghost held = { λ s. Some s.held };

    ghost faults = { λ s. s.faults };

    fn give(&mut self, piece: &[u8]) -> Result<usize, Fault>
        requires { 0 < length piece.now }
        ensures bound { IfOk result (λ n. (0 < n) × (n ≤ length piece.now)) }
        ensures bytes { WriteAppends (Some self.old.held) (Some self.new.held) result piece.now }
        ensures cause { HasCause self.old.faults self.new.faults result }
        ensures answer { MatchResult result (λ n. (sink_fails self.old ≡ false) × (n ≡ given_of self.old (length piece.now))) (λ _. sink_fails self.old ≡ true) }
        ensures room { length self.new.held + self.new.free ≡ length self.old.held + self.old.free }
        ensures rest { self.new ≡ record self.new { most = self.old.most; failing = self.old.failing; calls = next_count self.old.calls; faults = sink_faults self.old } }
    {
        let number = self.calls;
        self.calls = self.calls.saturating_add(1);
        let free = self.room - self.bytes.len();
        let count = free.min(self.most).min(piece.len());
        if self.failing.contains(&number)
            || count == 0
            || self.bytes.extend_from_slice(&piece[..count]).is_err()
        {
            self.faults = self.faults.saturating_add(1);
            return Err(Fault);
        }
        Ok(count)
    }
}
