ghost use Rattle.std.specs.Prelude.{◌≡◌, ℕ, ◌<◌, ◌≤◌, List, length, take, Option, IfOk, OnOk, OnErr, Some, codes};
ghost use Rattle.ec_outside.specs.Counts.{Rose, last_count, next_count};
ghost use Rattle.ec_outside.specs.Reads.{meets_end, next_ended};
ghost use Rattle.ec_outside.specs.Streams.{Took, IsAtEnd};

use std::error::Error;
use std::fmt;

/// A read, a write or a flush failed. The object that failed counts it, and says no more of it.
#[derive(Clone, Copy, Debug, PartialEq, Eq)]
pub struct Failed;

impl fmt::Display for Failed {
    ghost output = { λ _. Some (codes "failed") };

    fn fmt<W: fmt::Write>(&self, f: &mut fmt::Formatter<W>) -> fmt::Result {
        fmt::Display::fmt(&"failed", f)
    }
}

impl Error for Failed {}

/// What bytes are read from.
pub trait Source {
    // The bytes that are left to read, where the source tells them.
    ghost left: { Self → Option (List ℕ) };

    // How many calls have failed so far.
    ghost faults: { Self → ℕ };

    // How many reads there were so far. A source that does not count them stands at the last value.
    ghost reads: { Self → ℕ };

    // How many of them there were from the one on that met the end: none as long as none met it. A
    // source that does not count them stands at the last value.
    ghost ended: { Self → ℕ };

    /// Moves the next bytes to the front of `into`, and says how many. None for a buffer with room
    /// is the end.
    fn read(&mut self, into: &mut [u8]) -> Result<usize, Failed>
        ensures within { IfOk result (λ n. n ≤ length into.new) }
        ensures took { IfOk result (λ n. Took (left self.old) (left self.new) (take n into.new)) }
        ensures end { IfOk result (λ n. n ≡ 0 → 0 < length into.new → IsAtEnd (left self.new)) }
        ensures unchanged { OnErr result (left self.new ≡ left self.old) }
        ensures failed { OnErr result (Rose (faults self.old) (faults self.new)) }
        ensures quiet { OnOk result (faults self.new ≡ faults self.old) }
        ensures counted { faults self.old ≤ faults self.new }
        ensures bounded { faults self.old ≤ last_count → faults self.new ≤ last_count }
        ensures one_more { reads self.new ≡ next_count (reads self.old) }
        ensures ended { ended self.new ≡ next_ended (ended self.old) (meets_end result (length into.new)) };
}

/// The count of the reads from the one on that met the end, after one more.
#[tactic(auto, unfolding(crate::specs::Reads::next_ended))]
pub(crate) fn next_ended(ended: u64, met: bool) -> u64
    ensures { result ≡ next_ended ended met }
{
    if met || ended > 0 {
        ended.saturating_add(1)
    } else {
        ended
    }
}
