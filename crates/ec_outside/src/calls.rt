ghost use Rattle.std.specs.Prelude.{◌≡◌, ◌<◌, IsTrue, IfOk};
ghost use Rattle.ec_outside.specs.Calls.{no_calls, next_fails, one_more};
ghost use Rattle.ec_outside.specs.Counts.{last_count};

use ec_lists::NoMemory;
use std::alloc::Global;
use std::marker::Model;

/// The calls of one kind on an object in memory, numbered from 1, and which of them are to fail.
#[derive(Drop)]
pub struct Calls {
    failing: Vec<u64>,
    made: u64,
}

impl Model for Calls {
    ghost use Rattle.ec_outside.specs.Calls.{Calls as CallsValue};

    ghost Value = { CallsValue };

    ghost use Rattle.std.specs.Prelude.{◌<◌, ◌^◌, All};

    ghost view = { λ c. record { failing = c.failing.items; made = c.made } };

    ghost invariant = { λ c. All (λ number. number < 2 ^ 64) c.failing.items };
}

impl Calls {
    /// No call was made yet.
    pub fn new(alloc: Global, failing: &[u64]) -> Result<Calls, NoMemory>
        ensures { IfOk result (λ calls. calls ≡ no_calls failing.now) }
    {
        Ok(Calls {
            failing: Vec::from_slice(alloc, failing)?,
            made: 0,
        })
    }

    /// Makes the next call, and says whether it fails. The count of calls stops at the last `u64`,
    /// and no later call fails.
    pub fn next_fails(&mut self) -> bool
        ensures fails { result ≡ next_fails self.old }
        ensures made { self.new ≡ one_more self.old }
        ensures numbered { IsTrue result → self.old.made < last_count }
    {
        let number = u128::from(self.made) + 1;
        self.made = self.made.saturating_add(1);
        self.failing
            .iter()
            .any(|&failing| u128::from(failing) == number)
    }
}
