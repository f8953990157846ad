ghost use Rattle.std.specs.Prelude.{◌≡◌, ◌<◌, ◌&&◌, IfOk, if◌then◌else◌};
ghost use Rattle.ec_outside.specs.Calls.{no_calls, next_fails, one_more};
ghost use Rattle.ec_outside.specs.Counts.{last_count, next_count};

use crate::calls::Calls;
use ec_lists::NoMemory;
use std::alloc::Global;
use std::marker::Model;

/// The calls of one kind on an object in memory, with a count of those that failed. It counts each
/// failing number once at most, so it never stands at its last value.
#[derive(Drop)]
pub struct CountedCalls {
    calls: Calls,
    faults: u64,
}

impl Model for CountedCalls {
    ghost use Rattle.ec_outside.specs.Calls.{CountedCalls as CountedCallsValue, IsWithin};

    ghost Value = { CountedCallsValue };

    ghost view = { λ c. record { calls = c.calls; faults = c.faults } };

    ghost invariant = { λ c. IsWithin c.calls c.faults };
}

impl CountedCalls {
    /// No call was made yet.
    pub fn new(alloc: Global, failing: &[u64]) -> Result<CountedCalls, NoMemory>
        ensures calls { IfOk result (λ counted. counted.calls ≡ no_calls failing.now) }
        ensures faults { IfOk result (λ counted. counted.faults ≡ 0) }
    {
        Ok(CountedCalls {
            calls: Calls::new(alloc, failing)?,
            faults: 0,
        })
    }

    /// How many calls failed and were counted.
    pub fn faults(&self) -> u64
        ensures { result ≡ self.now.faults }
    {
        self.faults
    }

    /// Makes the next call, and says whether it fails. A call that fails is counted if `counts`.
    pub fn next_fails(&mut self, counts: bool) -> bool
        ensures fails { result ≡ next_fails self.old.calls }
        ensures calls { self.new.calls ≡ one_more self.old.calls }
        ensures faults { self.new.faults ≡
            (if next_fails self.old.calls && counts then next_count self.old.faults else self.old.faults) }
        ensures not_last { self.new.faults < last_count }
    {
        let fails = self.calls.next_fails();
        if fails && counts {
            self.faults = self.faults.saturating_add(1);
        }
        fails
    }
}
