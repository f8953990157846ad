//! The properties whose currency differs just behind the swept instant.
ghost use Rattle.std.specs.Prelude.{◌≡◌, ◌==◌, ℕ, [], OnOk, OnErr, if◌then◌else◌};
ghost use Rattle.ec_sweep.specs.State.{dirty_at, is_current_over};

use ec_axioms::Current;
use ec_lists::NoMemory;
use ec_moment::Moment;
use ec_numbered::NumberMap;
use ec_points::Points;
use ec_rows::MarkRow;
use ec_terms::PropId;
use std::alloc::Global;
use std::marker::Model;

/// The properties whose currency just behind the swept instant is not the same in the two lists, each with its currency in
/// the new one. One that has become clean keeps its row, which says so.
#[derive(Drop)]
pub struct Dirty {
    rows: NumberMap<Option<bool>>,
}

impl Model for Dirty {
    ghost use Rattle.std.specs.Prelude.{ℕ, Bool, List, Option};

    ghost Value = { List (ℕ × Option Bool) };

    ghost view = { λ dirty. dirty.rows };
}

impl Dirty {
    /// No property is dirty. It takes no memory.
    pub fn new(alloc: Global) -> Dirty
        ensures { result ≡ [] }
    {
        Dirty {
            rows: NumberMap::new(alloc),
        }
    }

    /// Makes all properties clean. Their room is kept.
    pub fn clear(&mut self)
        ensures { self.new ≡ [] }
    {
        self.rows.clear();
    }

    /// The currency of a property in the new list, if it is dirty.
    pub fn get(&self, p: PropId) -> Option<bool>
        ensures { result ≡ dirty_at p.0 self.now }
    {
        self.rows.get(p.0)?
    }

    /// Makes a property dirty with its currency in the new list, or clean. `Err`: memory ran out, and all is as it was.
    pub fn set(&mut self, p: PropId, current: Option<bool>) -> Result<(), NoMemory>
        ensures ok { OnOk result ((n : ℕ) → dirty_at n self.new ≡ (if p.0 == n then current else dirty_at n self.old)) }
        ensures err { OnErr result (self.new ≡ self.old) }
    {
        self.rows.insert(p.0, current)
    }
}

/// What contexts read at the instant of a visit in the new list: of a dirty property what is found of it, of every other what
/// the old marks say.
#[derive(Drop)]
pub struct Overlay<'a, T: Moment, M: MarkRow<T>> {
    pub points: &'a Points<T, M>,
    pub dirty: &'a Dirty,
}

impl<T: Moment, M: MarkRow<T>> Current<T> for Overlay<'_, T, M> {
    ghost is_current = { λ overlay n t. is_current_over T.rank overlay.points.now overlay.dirty.now n t };

    fn current(&self, p: PropId, at: T) -> bool {
        match self.dirty.get(p) {
            Some(current) => current,
            None => self.points.current(p, at),
        }
    }
}
