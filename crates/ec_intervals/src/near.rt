ghost use Rattle.std.specs.Prelude.{◌≡◌, ◌≢◌, ◌/◌, ℕ, false, true};
ghost use Rattle.ec_intervals.specs.Near.{may_hold};
ghost use Rattle.ec_intervals.specs.declared.near.TheConstants.{GROUP};

use ec_terms::PropId;
use std::marker::Model;

/// How many properties, by number, are told of together.
pub(crate) const GROUP: usize = 16;

/// How many groups of properties there is room for: those of as many properties as there may be.
const GROUPS: usize = 8192;

/// Which properties may hold at some time, told for groups of them. It takes no memory.
#[derive(Drop)]
pub struct Near {
    groups: [bool; GROUPS],
}

impl Model for Near {
    ghost use Rattle.std.specs.Prelude.{Bool, List};

    ghost Value = { List Bool };

    ghost view = { λ near. near.groups };
}

impl Near {
    /// Any property may hold.
    pub(crate) fn all() -> Near
        ensures { (n : ℕ) → may_hold n result ≡ true }
    {
        Near {
            groups: [true; GROUPS],
        }
    }

    /// No property of a group holds.
    pub(crate) fn leave_out(&mut self, group: usize)
        ensures { (n : ℕ) → may_hold n self.new ≡ false → n / GROUP ≢ group → may_hold n self.old ≡ false }
    {
        if group < GROUPS {
            self.groups[group] = false;
        }
    }

    /// Whether a property may hold.
    pub fn has(&self, p: PropId) -> bool
        ensures { result ≡ may_hold p.0 self.now }
    {
        match self.groups.get(p.0 / GROUP) {
            Some(may_hold) => *may_hold,
            None => true,
        }
    }
}
