//! The change of all caches, as a sweep plans it.
ghost use Rattle.std.specs.Prelude.{◌≡◌, []};

use crate::flips::Flip;
use crate::touches::Touches;
use ec_moment::Moment;
use ec_points::MarkChange;
use ec_revise::Change;
use ec_terms::Sequence;
use std::alloc::Global;

/// What a sweep found of entries: which are active in the new list, where that is new, and three of its counts.
#[derive(Drop)]
pub struct Looked {
    /// Which entries of each added event are active, in the order of the added events, as far as the sweep came.
    pub bits: Sequence<u64>,
    /// The events that stayed and whose active entries are others now.
    pub flips: Sequence<Flip>,
    /// How many entries saw a change, how many became active, and how many became inactive.
    pub seen: u64,
    pub on: u64,
    pub off: u64,
}

/// What a sweep found of marks: those that change, and where.
#[derive(Drop)]
pub struct Planned<T: Moment> {
    pub marks: MarkChange<T>,
    /// The marks of which the initiations change, each with its new initiations alone.
    pub initiations: MarkChange<T>,
    pub touched: Touches<T>,
}

/// The change from the caches of one list to those of another.
#[derive(Drop)]
pub struct Delta<T: Moment> {
    pub change: Change<T>,
    pub looked: Looked,
    pub planned: Planned<T>,
}

impl Looked {
    /// Nothing found yet. It takes no memory.
    pub fn new(alloc: Global) -> Looked
        ensures bits { result.bits ≡ [] }
        ensures flips { result.flips ≡ [] }
        ensures seen { result.seen ≡ 0 }
        ensures on { result.on ≡ 0 }
        ensures off { result.off ≡ 0 }
    {
        Looked {
            bits: Sequence::new(alloc),
            flips: Sequence::new(alloc),
            seen: 0,
            on: 0,
            off: 0,
        }
    }
}

impl<T: Moment> Planned<T> {
    /// Nothing found yet. It takes no memory.
    pub fn new(alloc: Global) -> Planned<T>
        ensures marks { result.marks ≡ [] }
        ensures initiations { result.initiations ≡ [] }
        ensures touched { result.touched ≡ [] }
    {
        Planned {
            marks: MarkChange::new(alloc),
            initiations: MarkChange::new(alloc),
            touched: Touches::new(alloc),
        }
    }

    /// Takes out all that was found. Its room is kept.
    pub fn clear(&mut self)
        ensures marks { self.new.marks ≡ [] }
        ensures initiations { self.new.initiations ≡ [] }
        ensures touched { self.new.touched ≡ [] }
    {
        self.marks.clear();
        self.initiations.clear();
        self.touched.clear();
    }
}
