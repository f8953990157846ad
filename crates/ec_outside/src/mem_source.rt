ghost use Rattle.std.specs.Prelude.{◌≡◌, ◌<◌, ◌≤◌, ◌↔◌, Some, length, take, drop, if◌then◌else◌, IsTrue, IsErr, IfOk, OnOk, OnErr};
ghost use Rattle.ec_outside.specs.Calls.{no_calls, next_fails, one_more};
ghost use Rattle.ec_outside.specs.Counts.{Rose, last_count, next_count};
ghost use Rattle.ec_outside.specs.Reads.{meets_end, next_ended};
ghost use Rattle.ec_outside.specs.SourceState.{given_count};
ghost use Rattle.ec_outside.specs.Streams.{Took, IsAtEnd};

use crate::calls::Calls;
use crate::source::{Failed, Source, next_ended};
use ec_lists::NoMemory;
use std::alloc::Global;
use std::marker::Model;

/// A source that holds its bytes in memory, gives a limited number of them at each read, and fails
/// at the reads that it was told to fail at, numbered from 1.
#[derive(Drop)]
pub struct MemSource {
    bytes: Vec<u8>,
    at: usize,
    most: usize,
    reads: Calls,
    faults: u64,
    ended: u64,
}

impl Model for MemSource {
    ghost use Rattle.std.specs.Prelude.{◌≤◌, ◌<◌, drop, vec_len};
    ghost use Rattle.ec_outside.specs.Reads.{meets_end, next_ended};
    ghost use Rattle.ec_outside.specs.SourceState.{SourceState};

    ghost Value = { SourceState };

    ghost view = { λ s. record { left = drop s.at s.bytes.items; most = s.most; reads = s.reads; faults = s.faults; ended = s.ended } };

    ghost invariant = { λ s. (s.at ≤ vec_len s.bytes) × (0 < s.most) };
}

impl MemSource {
    /// A source of these bytes. A read gives at most `most` of them.
    pub fn new(
        alloc: Global,
        bytes: &[u8],
        most: usize,
        failing: &[u64],
    ) -> Result<MemSource, NoMemory>
        requires { 0 < most }
        ensures left { IfOk result (λ source. source.left ≡ bytes.now) }
        ensures most { IfOk result (λ source. source.most ≡ most) }
        ensures reads { IfOk result (λ source. source.reads ≡ no_calls failing.now) }
        ensures faults { IfOk result (λ source. source.faults ≡ 0) }
        ensures ended { IfOk result (λ source. source.ended ≡ 0) }
    {
        Ok(MemSource {
            bytes: Vec::from_slice(alloc, bytes)?,
            at: 0,
            most,
            reads: Calls::new(alloc, failing)?,
            faults: 0,
            ended: 0,
        })
    }
}

impl Source for MemSource {
    ghost left = { λ s. Some s.left };

    ghost faults = { λ s. s.faults };

    ghost reads = { λ s. s.reads.made };

    ghost ended = { λ s. s.ended };

    fn read(&mut self, into: &mut [u8]) -> Result<usize, Failed>
        // As for every source.
        ensures within { IfOk result (λ n. n ≤ length into.new) }
        ensures took { IfOk result (λ n. Took (Some self.old.left) (Some self.new.left) (take n into.new)) }
        ensures end { IfOk result (λ n. n ≡ 0 → 0 < length into.new → IsAtEnd (Some self.new.left)) }
        ensures unchanged { OnErr result (Some self.new.left ≡ Some self.old.left) }
        ensures failed { OnErr result (Rose self.old.faults self.new.faults) }
        ensures quiet { OnOk result (self.new.faults ≡ self.old.faults) }
        ensures counted { self.old.faults ≤ self.new.faults }
        ensures bounded { self.new.faults ≤ last_count }
        ensures one_more { self.new.reads.made ≡ next_count self.old.reads.made }
        ensures ended { self.new.ended ≡ next_ended self.old.ended (meets_end result (length into.new)) }

        // Exactly which reads fail, and how much the others give.
        ensures fails { IsErr result ↔ IsTrue (next_fails self.old.reads) }
        ensures count { IfOk result (λ n. n ≡ given_count self.old (length into.new)) }
        ensures reads { self.new.reads ≡ one_more self.old.reads }
        ensures faults { self.new.faults ≡ (if next_fails self.old.reads then next_count self.old.faults else self.old.faults) }
        ensures most { self.new.most ≡ self.old.most }
    {
        if self.reads.next_fails() {
            self.faults = self.faults.saturating_add(1);
            self.ended = next_ended(self.ended, false);
            return Err(Failed);
        }
        let left = &self.bytes[self.at..];
        let count = left.len().min(self.most).min(into.len());
        self.ended = next_ended(self.ended, count == 0 && !into.is_empty());
        into[..count].copy_from_slice(&left[..count]);
        self.at += count;
        Ok(count)
    }
}
