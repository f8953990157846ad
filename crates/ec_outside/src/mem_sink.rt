ghost use Rattle.std.specs.Prelude.{◌≡◌, ◌<◌, ◌≤◌, ◌↔◌, [], ◌++◌, length, take, if◌then◌else◌, IsTrue, IsErr, IfOk, OnOk, OnErr};
ghost use Rattle.ec_outside.specs.Calls.{no_calls, next_fails, one_more};
ghost use Rattle.ec_outside.specs.Counts.{Rose, last_count, next_count};
ghost use Rattle.ec_outside.specs.SinkState.{stands_for, write_fails, taken_count};
ghost use Rattle.ec_outside.specs.Streams.{Appended, NothingAppended};

use crate::calls::Calls;
use crate::sink::Sink;
use crate::source::Failed;
use ec_lists::NoMemory;
use std::alloc::Global;
use std::marker::Model;

/// A sink that holds its bytes in memory, within a room that it takes when it is made, accepts a
/// limited number of them at each write, and fails at the calls that it was told to fail at. Its
/// writes are numbered from 1, and so are its flushes.
#[derive(Drop)]
pub struct MemSink {
    bytes: Vec<u8>,
    room: usize,
    most: usize,
    writes: Calls,
    flushes: Calls,
    faults: u64,
}

impl Model for MemSink {
    ghost use Rattle.std.specs.Prelude.{◌≤◌, ◌<◌, vec_len, vec_capacity};
    ghost use Rattle.ec_outside.specs.SinkState.{SinkState};

    ghost Value = { SinkState };

    ghost view = { λ s. record { bytes = s.bytes.items; room = s.room; most = s.most; writes = s.writes; flushes = s.flushes; faults = s.faults } };

    ghost invariant = { λ s. (vec_len s.bytes ≤ s.room) × (s.room ≤ vec_capacity s.bytes) × (0 < s.most) };
}

impl MemSink {
    /// An empty sink with room for `room` bytes. A write takes at most `most` of them.
    pub fn new(
        alloc: Global,
        room: usize,
        most: usize,
        failing_writes: &[u64],
        failing_flushes: &[u64],
    ) -> Result<MemSink, NoMemory>
        requires { 0 < most }
        ensures bytes { IfOk result (λ sink. sink.bytes ≡ []) }
        ensures room { IfOk result (λ sink. sink.room ≡ room) }
        ensures most { IfOk result (λ sink. sink.most ≡ most) }
        ensures writes { IfOk result (λ sink. sink.writes ≡ no_calls failing_writes.now) }
        ensures flushes { IfOk result (λ sink. sink.flushes ≡ no_calls failing_flushes.now) }
        ensures faults { IfOk result (λ sink. sink.faults ≡ 0) }
    {
        Ok(MemSink {
            bytes: Vec::with_capacity(alloc, room)?,
            room,
            most,
            writes: Calls::new(alloc, failing_writes)?,
            flushes: Calls::new(alloc, failing_flushes)?,
            faults: 0,
        })
    }

    /// What was written so far.
    pub fn bytes(&self) -> &[u8]
        ensures { result.now ≡ self.now.bytes }
    {
        self.bytes.as_slice()
    }
}

impl Sink for MemSink {
    ghost stands = { stands_for };

    ghost faults = { λ s. s.faults };

    ghost waiting = { λ _. 0 };

    fn write(&mut self, from: &[u8]) -> Result<usize, Failed>
        // As for every sink.
        ensures within { IfOk result (λ n. n ≤ length from.now) }
        ensures progress { IfOk result (λ n. 0 < length from.now → 0 < n) }
        ensures appended { IfOk result (λ n. Appended stands_for self.old self.new (take n from.now)) }
        ensures kept { OnErr result (NothingAppended stands_for self.old self.new) }
        ensures failed { OnErr result (Rose self.old.faults self.new.faults) }
        ensures quiet { OnOk result (self.new.faults ≡ self.old.faults) }
        ensures counted { self.old.faults ≤ self.new.faults }
        ensures bounded { self.new.faults ≤ last_count }

        // Exactly which writes fail, and how much the others take.
        ensures fails { IsErr result ↔ IsTrue (write_fails self.old (length from.now)) }
        ensures count { IfOk result (λ n. n ≡ taken_count self.old (length from.now)) }
        ensures grown { IfOk result (λ n. self.new.bytes ≡ self.old.bytes ++ take n from.now) }
        ensures same_bytes { OnErr result (self.new.bytes ≡ self.old.bytes) }
        ensures writes { self.new.writes ≡ one_more self.old.writes }
        ensures faults { self.new.faults ≡
            (if write_fails self.old (length from.now) then next_count self.old.faults else self.old.faults) }
        ensures others { self.new ≡ record self.old {
          bytes = self.new.bytes;
          writes = self.new.writes;
          faults = self.new.faults;
        } }
    {
        let left = self.room - self.bytes.len();
        let is_full = left == 0 && !from.is_empty();
        if self.writes.next_fails() || is_full {
            self.faults = self.faults.saturating_add(1);
            return Err(Failed);
        }
        let count = from.len().min(self.most).min(left);
        self.bytes.extend_from_slice(&from[..count]).unwrap();
        Ok(count)
    }

    fn flush(&mut self) -> Result<(), Failed>
        // As for every sink.
        ensures kept { NothingAppended stands_for self.old self.new }
        ensures failed { OnErr result (Rose self.old.faults self.new.faults) }
        ensures quiet { OnOk result (self.new.faults ≡ self.old.faults) }
        ensures counted { self.old.faults ≤ self.new.faults }
        ensures bounded { self.new.faults ≤ last_count }

        // Exactly which flushes fail.
        ensures fails { IsErr result ↔ IsTrue (next_fails self.old.flushes) }
        ensures flushes { self.new.flushes ≡ one_more self.old.flushes }
        ensures faults { self.new.faults ≡ (if next_fails self.old.flushes then next_count self.old.faults else self.old.faults) }
        ensures others { self.new ≡ record self.old { flushes = self.new.flushes; faults = self.new.faults } }
    {
        if self.flushes.next_fails() {
            self.faults = self.faults.saturating_add(1);
            return Err(Failed);
        }
        Ok(())
    }
}
