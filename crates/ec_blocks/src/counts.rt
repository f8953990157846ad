//! What is counted of all blocks together, kept up by each edit of one.
ghost use Rattle.std.specs.Prelude.{◌≡◌, ◌+◌, ◌-◌, ◌^◌, ◌<◌, ◌≤◌};

use crate::chain::HALF;

/// How many members the blocks have, and how many of them are beyond one half of their blocks: those bring
/// the next splits nearer.
#[derive(Clone, Copy)]
pub(crate) struct Counts {
    total: usize,
    owed: usize,
}

impl Counts {
    /// The counts of no blocks.
    pub(crate) fn new() -> Counts
        ensures total { result.total ≡ 0 }
        ensures owed { result.owed ≡ 0 }
    {
        Counts { total: 0, owed: 0 }
    }

    /// How many members there are.
    pub(crate) fn total(&self) -> usize
        ensures { result ≡ self.now.total }
    {
        self.total
    }

    /// How many members are beyond one half of their blocks.
    pub(crate) fn owed(&self) -> usize
        ensures { result ≡ self.now.owed }
    {
        self.owed
    }

    /// Counts a block that had `from` members and has `to`; a block that comes had none, and one that goes has none.
    pub(crate) fn change(&mut self, from: usize, to: usize)
        requires counted { from ≤ self.old.total }
        requires owing { from - 64 ≤ self.old.owed }
        requires fits { self.old.total + to < 2 ^ 64 }
        requires owed_fits { self.old.owed + to < 2 ^ 64 }
        ensures total { self.new.total + from ≡ self.old.total + to }
        ensures owed { self.new.owed + (from - 64) ≡ self.old.owed + (to - 64) }
    {
        self.total = self.total - from + to;
        self.owed = self.owed - from.saturating_sub(HALF) + to.saturating_sub(HALF);
    }
}
