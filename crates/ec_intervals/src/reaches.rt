//! The reaches of rows by number, and a reach of each group of them, so that rows are passed over by groups.
ghost use Rattle.std.specs.Prelude.{◌≡◌, ◌≢◌, ◌/◌, ◌^◌, ℕ, ◌<◌, ◌≤◌, None, false, true, OnOk, length, option_copied};
ghost use Rattle.ec_intervals.specs.Near.{may_hold};
ghost use Rattle.ec_intervals.specs.Reach.{HasReach, is_outside};
ghost use Rattle.ec_intervals.specs.declared.near.TheConstants.{GROUP};
ghost use Rattle.ec_numbered.specs.ByNumber.{kept_at};

use crate::near::{GROUP, Near};
use crate::reach::{Reach, all_joined, is_outside};
use ec_lists::NoMemory;
use ec_moment::Moment;
use ec_numbered::ByNumber;
use ec_terms::PropId;
use std::alloc::Global;
use std::marker::Model;

/// The reaches of rows, by number. Each group of numbers has a reach too, which has those of its numbers.
#[derive(Drop)]
pub(crate) struct Reaches<T: Moment> {
    rows: ByNumber<Reach<T>>,
    groups: ByNumber<Reach<T>>,
    /// How many groups were given a place.
    count: usize,
}

impl<T: Moment> Model for Reaches<T> {
    ghost use Rattle.std.specs.Prelude.{◌*◌, length, min};
    ghost use Rattle.ec_intervals.specs.Near.{AreGrouped};
    ghost use Rattle.ec_intervals.specs.Reach.{PlacedReaches};
    ghost use Rattle.ec_intervals.specs.declared.near.TheConstants.{GROUP};

    ghost Value = { PlacedReaches T };

    ghost view = { λ reaches. record { items = reaches.rows; places = min (length reaches.rows) (GROUP * length reaches.groups) } };

    ghost invariant = { λ reaches. AreGrouped T.rank reaches.groups reaches.rows };
}

/// Sets the reach that is kept under a number. It takes no memory.
fn set_reach<T: Moment>(reaches: &mut ByNumber<Reach<T>>, p: PropId, reach: Option<Reach<T>>)
    requires { p.0 < length reaches.old }
    ensures here { kept_at p.0 reaches.new ≡ reach }
    ensures others { (n : ℕ) → n ≢ p.0 → kept_at n reaches.new ≡ kept_at n reaches.old }
    ensures places { length reaches.new ≡ length reaches.old }
{
    match reach {
        Some(reach) => reaches.set(p, reach),
        None => {
            let _ = reaches.take(p);
        }
    }
}

/// A reach that has those of all numbers of a group.
fn reach_of_group<T: Moment>(rows: &ByNumber<Reach<T>>, group: usize) -> Option<Reach<T>>
    requires { group < 2 ^ 60 }
    ensures { (n : ℕ) → n / GROUP ≡ group → HasReach T.rank result (kept_at n rows.now) }
{
    let mut reach = None;
    for i in 0..GROUP {
        reach = all_joined(reach, rows.get(PropId(group * GROUP + i)));
    }
    reach
}

impl<T: Moment> Reaches<T> {
    /// No reaches. It takes no memory.
    pub(crate) fn new(alloc: Global) -> Reaches<T>
        ensures { (n : ℕ) → kept_at n result.items ≡ None }
    {
        Reaches {
            rows: ByNumber::new(alloc),
            groups: ByNumber::new(alloc),
            count: 0,
        }
    }

    /// The reach of a row.
    pub(crate) fn get(&self, p: PropId) -> Option<&Reach<T>>
        ensures { option_copied result ≡ kept_at p.0 self.now.items }
    {
        self.rows.get(p)
    }

    /// Gives a number a place. The reaches stay.
    pub(crate) fn place(&mut self, p: PropId) -> Result<(), NoMemory>
        ensures place { OnOk result (p.0 < self.new.places) }
        ensures same { (n : ℕ) → kept_at n self.new.items ≡ kept_at n self.old.items }
        ensures grown { self.old.places ≤ self.new.places }
    {
        let group = p.0 / GROUP;
        self.groups.place(PropId(group))?;
        self.count = self.count.max(group + 1);
        self.rows.place(p)
    }

    /// Sets the reach of a row, and that of its group anew. It takes no memory.
    pub(crate) fn set(&mut self, p: PropId, reach: Option<Reach<T>>)
        requires { p.0 < self.old.places }
        ensures here { kept_at p.0 self.new.items ≡ reach }
        ensures others { (n : ℕ) → n ≢ p.0 → kept_at n self.new.items ≡ kept_at n self.old.items }
        ensures places { self.new.places ≡ self.old.places }
    {
        set_reach(&mut self.rows, p, reach);
        let group = p.0 / GROUP;
        let joined = reach_of_group(&self.rows, group);
        set_reach(&mut self.groups, PropId(group), joined);
    }

    /// Which rows may hold at a time.
    pub(crate) fn near(&self, at: T) -> Near
        ensures { (n : ℕ) → may_hold n result ≡ false → is_outside T.rank (kept_at n self.now.items) (T.rank at) ≡ true }
    {
        let mut near = Near::all();
        for group in 0..self.count {
            if is_outside(self.groups.get(PropId(group)), at) {
                near.leave_out(group);
            }
        }
        near
    }
}
