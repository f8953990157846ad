ghost use Rattle.std.specs.Prelude.{◌≡◌, ◌+◌, ◌≤◌, [], ◌++◌, length, IfOk, OnOk, OnErr};
ghost use Rattle.std.specs.Bool.{OnTrue, OnFalse};
ghost use Rattle.ec_outside.specs.Counts.{Rose, last_count};
ghost use Rattle.ec_outside.specs.BufferedState.{stands_with_waiting};
ghost use Rattle.ec_outside.specs.Streams.{Appended, NothingAppended};

use crate::sink::{Sink, write_counted};
use crate::source::Failed;
use ec_lists::NoMemory;
use std::alloc::Global;
use std::marker::Model;

/// A sink that gathers small writes in memory, and hands them on to the sink behind it in large
/// ones: when there is no room for more, and at each flush. It is seen as the pair of the sink
/// behind it and the bytes that wait. The bytes that the sink behind it got are always the first
/// of those that were written here, in their order.
#[derive(Drop)]
pub struct Buffered<K> {
    behind: K,
    buffer: Vec<u8>,
    sent: usize,
}

impl<K> Model for Buffered<K> {
    ghost use Rattle.std.specs.Prelude.{ℕ, ◌≤◌, List, drop, vec_len};
    ghost use Rattle.std.specs.Coded.{coded×, coded_list, coded_ℕ};

    ghost Value = { K × List ℕ };

    ghost coded = { coded× K.code (coded_list coded_ℕ) };

    ghost view = { λ b. (b.behind, drop b.sent b.buffer.items) };

    ghost invariant = { λ b. b.sent ≤ vec_len b.buffer };
}

// Adds the bytes at the end if there is room for them.
fn gather(buffer: &mut Vec<u8>, bytes: &[u8]) -> bool
    ensures added { OnTrue result (buffer.new.items ≡ buffer.old.items ++ bytes.now) }
    ensures full { OnFalse result (buffer.new.items ≡ buffer.old.items) }
    ensures grown { length buffer.old.items ≤ length buffer.new.items }
{
    if buffer.capacity() - buffer.len() < bytes.len() {
        return false;
    }
    buffer.extend_from_slice(bytes).is_ok()
}

impl<K: Sink> Buffered<K> {
    /// A sink before `behind`, with room for `room` bytes that wait.
    pub fn new(alloc: Global, behind: K, room: usize) -> Result<Buffered<K>, NoMemory>
    where
        K: Drop,
        ensures { IfOk result (λ sink. sink ≡ (behind, [])) }
    {
        Ok(Buffered {
            behind,
            buffer: Vec::with_capacity(alloc, room)?,
            sent: 0,
        })
    }

    /// The sink behind this one, which has got all bytes but those that wait.
    pub fn behind(&self) -> &K
        ensures { result.now ≡ self.now.0 }
    {
        &self.behind
    }

    /// Keeps the bytes behind those that wait, if there is room for them.
    fn keep(&mut self, bytes: &[u8]) -> bool
        ensures added { OnTrue result (Appended (stands_with_waiting K.stands) self.old self.new bytes.now) }
        ensures full { OnFalse result (self.new ≡ self.old) }
        ensures behind { self.new.0 ≡ self.old.0 }
    {
        gather(&mut self.buffer, bytes)
    }

    /// Hands on all bytes that wait. Where that fails, those that were not handed on still wait.
    fn send(&mut self) -> Result<(), Failed>
        ensures kept { NothingAppended (stands_with_waiting K.stands) self.old self.new }
        ensures all { OnOk result (self.new.1 ≡ []) }
        ensures failed { OnErr result (Rose (K.faults self.old.0) (K.faults self.new.0)) }
        ensures quiet { OnOk result (K.faults self.new.0 ≡ K.faults self.old.0) }
        ensures counted { K.faults self.old.0 ≤ K.faults self.new.0 }
        ensures bounded { K.faults self.old.0 ≤ last_count → K.faults self.new.0 ≤ last_count }
    {
        let (count, result) = write_counted(&mut self.behind, &self.buffer[self.sent..]);
        self.sent += count;
        if result.is_ok() {
            self.buffer.clear();
            self.sent = 0;
        }
        result
    }
}

impl<K: Sink> Sink for Buffered<K> {
    ghost stands = { stands_with_waiting K.stands };

    ghost faults = { λ b. K.faults b.0 };

    ghost waiting = { λ b. length b.1 + K.waiting b.0 };

    fn write(&mut self, from: &[u8]) -> Result<usize, Failed> {
        if self.keep(from) {
            return Ok(from.len());
        }
        self.send()?;
        if self.keep(from) {
            return Ok(from.len());
        }
        self.behind.write(from)
    }

    fn flush(&mut self) -> Result<(), Failed>
        // As for every sink.
        ensures handed_on { OnOk result (length self.new.1 + K.waiting self.new.0 ≡ 0) }
        ensures kept { NothingAppended (stands_with_waiting K.stands) self.old self.new }
        ensures failed { OnErr result (Rose (K.faults self.old.0) (K.faults self.new.0)) }
        ensures quiet { OnOk result (K.faults self.new.0 ≡ K.faults self.old.0) }
        ensures counted { K.faults self.old.0 ≤ K.faults self.new.0 }
        ensures bounded { K.faults self.old.0 ≤ last_count → K.faults self.new.0 ≤ last_count }

        // Nothing waits after a flush that did not fail.
        ensures sent { OnOk result (self.new.1 ≡ []) }
    {
        self.send()?;
        self.behind.flush()
    }
}
