ghost use Rattle.std.specs.Prelude.{◌≡◌, ◌<◌, [], IfOk};

use crate::{Failed, Sink};
use std::alloc::{AllocError, Global};
use std::marker::Model;

/// A sink in memory, some of whose calls fail. It tells the bytes that were written.
#[derive(Debug, Drop)]
pub struct MemSink {
    bytes: Vec<u8>,
    room: usize,
    most: usize,
    failing: Vec<u64>,
    calls: u64,
    faults: u64,
}

impl Model for MemSink {
    ghost use Rattle.std.specs.Prelude.{◌<◌, ◌≤◌, vec_len, vec_capacity};
    ghost use Rattle.outside.specs.MemSink.{SinkState};

    ghost Value = { SinkState };

    ghost view = { λ s. record { written = s.bytes.items; room = s.room; most = s.most; failing = s.failing.items; calls = s.calls; faults = s.faults } };

    ghost invariant = { λ s. (0 < s.most) × (vec_len s.bytes ≤ s.room) × (s.room ≤ vec_capacity s.bytes) };
}

impl MemSink {
    ghost use Rattle.outside.specs.MemSink.{SinkState};

    /// A sink with the memory for `room` bytes. Writing takes no more memory.
    ///
    /// A call takes at most `most` bytes. It fails where its number is in `failing`, which counts the calls from 0 up
    /// to the largest `u64`, and where it brings bytes and the room is full.
    pub fn new(
        alloc: Global,
        room: usize,
        most: usize,
        failing: Vec<u64>,
    ) -> Result<MemSink, AllocError>
        requires { 0 < most }
        ensures { IfOk result (λ sink. sink ≡ record { written = []; room = room; most = most; failing = failing.items; calls = 0; faults = 0 }) }
    {
        Ok(MemSink {
            bytes: Vec::with_capacity(alloc, room)?,
            room,
            most,
            failing,
            calls: 0,
            faults: 0,
        })
    }

    /// The bytes that were written.
    pub fn written(&self) -> &[u8]
        ensures { result.now ≡ self.now.written }
    {
        &self.bytes
    }
}

impl Sink for MemSink {
    ghost use Rattle.std.specs.Prelude.{◌≡◌, ◌<◌, ◌++◌, length, take, Some, is_err, if◌then◌else◌, IfOk, MatchResult};
    ghost use Rattle.std.specs.Io.{WritesAtMost};
    ghost use Rattle.outside.specs.Causes.{HasCause};
    ghost use Rattle.outside.specs.MemFile.{one_more};
    ghost use Rattle.outside.specs.MemSink.{fails, count_taken, SameRules};

    ghost written = { λ s. Some s.written };

    ghost faults = { λ s. s.faults };

    fn write(&mut self, buf: &[u8]) -> Result<usize, Failed>
        // What every sink takes.
        ensures bound { WritesAtMost result buf.now }
        ensures progress { 0 < length buf.now → IfOk result (λ n. 0 < n) }
        ensures cause { HasCause self.old.faults self.new.faults result }

        // Which calls fail, and exactly what the others take.
        ensures fault { is_err result ≡ fails self.old buf.now }
        ensures taken { IfOk result (λ n. n ≡ count_taken self.old buf.now) }
        ensures written { MatchResult result (λ n. self.new.written ≡ self.old.written ++ take n buf.now) (λ _. self.new.written ≡ self.old.written) }
        // The call is counted, and nothing else changes.
        ensures calls { self.new.calls ≡ one_more self.old.calls }
        ensures faults { self.new.faults ≡ (if is_err result then one_more self.old.faults else self.old.faults) }
        ensures rules { SameRules self.old self.new }
    {
        let number = self.calls;
        self.calls = self.calls.saturating_add(1);
        let left = self.room - self.bytes.len();
        if self.failing.contains(&number) || (!buf.is_empty() && left == 0) {
            self.faults = self.faults.saturating_add(1);
            return Err(Failed);
        }
        let count = self.most.min(buf.len().min(left));
        self.bytes.extend_from_slice(&buf[..count]).unwrap();
        Ok(count)
    }
}
