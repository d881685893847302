ghost use Rattle.std.specs.Prelude.{◌≡◌, Some, true, false, MatchResult, ◌≤◌, ◌<◌, ℕ, length, vec_len, drop};
ghost use Rattle.std.specs.Io.{ReadsAtMost};
ghost use Rattle.std.specs.Io.KnownBytes.{ReadConsumes};
ghost use Rattle.lucy_io.specs.Faults.{HasCause, next_count};
ghost use Rattle.lucy_io.specs.SourceInMemory.{SourceInMemory, source_fails, taken_of, source_faults};

use crate::{Fault, Source};
use std::marker::Model;

/// A source of bytes in memory, of which chosen calls fail.
#[derive(Drop)]
pub struct MemorySource {
    bytes: Vec<u8>,
    at: usize,
    most: usize,
    failing: Vec<u64>,
    calls: u64,
    faults: u64,
}

impl Model for MemorySource {
    ghost Value = { SourceInMemory };

    ghost view = { λ s. record { left = drop s.at s.bytes.items; most = s.most; failing = s.failing.items; calls = s.calls; faults = s.faults } };

    ghost invariant = { λ s. (s.at ≤ vec_len s.bytes) × (0 < s.most) };
}

impl MemorySource {
    /// A source of `bytes` that gives at most `most` of them a call. The calls whose numbers, from 0, are in `failing`
    /// fail.
    pub fn new(bytes: Vec<u8>, most: usize, failing: Vec<u64>) -> MemorySource
        requires { 0 < most }
        ensures { result ≡ record { left = bytes.items; most = most; failing = failing.items; calls = 0; faults = 0 } }
    {
        MemorySource {
            bytes,
            at: 0,
            most,
            failing,
            calls: 0,
            faults: 0,
        }
    }
}

impl Source for MemorySource {
    ghost left = { λ s. Some s.left };

    ghost faults = { λ s. s.faults };

    fn take(&mut self, buffer: &mut [u8]) -> Result<usize, Fault>
        requires { 0 < length buffer.old }
        ensures bound { ReadsAtMost result buffer.new }
        ensures bytes { ReadConsumes (Some self.old.left) (Some self.new.left) result buffer.new }
        ensures cause { HasCause self.old.faults self.new.faults result }
        ensures answer { MatchResult result (λ n. (source_fails self.old ≡ false) × (n ≡ taken_of self.old (length buffer.old))) (λ _. source_fails self.old ≡ true) }
        ensures rest { self.new ≡ record self.new { most = self.old.most; failing = self.old.failing; calls = next_count self.old.calls; faults = source_faults self.old } }
    {
        let number = self.calls;
        self.calls = self.calls.saturating_add(1);
        if self.failing.contains(&number) {
            self.faults = self.faults.saturating_add(1);
            return Err(Fault);
        }
        let left = self.bytes.len() - self.at;
        let count = left.min(self.most).min(buffer.len());
        buffer[..count].copy_from_slice(&self.bytes[self.at..self.at + count]);
        self.at += count;
        Ok(count)
    }
}
