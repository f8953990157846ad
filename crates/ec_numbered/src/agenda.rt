ghost use Rattle.std.specs.Prelude.{◌≡◌, ◌∷◌, [], ◌↔◌, IsTrue, IfSome, IfNone, OnOk, OnErr, Some, false, is_ok, option_map, slice_get};
ghost use Rattle.ec_numbered.specs.Due.{are_in_order, has_due, with_due};

use crate::due_place::free_place;
use ec_lists::NoMemory;
use ec_moment::Moment;
use ec_terms::PropId;
use std::alloc::Global;
use std::collections::VecDeque;
use std::marker::Model;

/// The times at which properties are to be looked at again, each pair once: the earliest first, and at one time the
/// property with the least number.
///
/// It stands in a queue that is kept in order. An addition searches its place and moves what stands on the shorter
/// side of it, so it is cheap while few properties are due.
#[derive(Drop)]
pub struct Agenda<T: Moment> {
    dues: VecDeque<(T, PropId)>,
}

impl<T: Moment> Model for Agenda<T> {
    ghost use Rattle.std.specs.Prelude.{List, IsTrue};
    ghost use Rattle.ec_numbered.specs.Due.{Due, are_in_order};

    ghost Value = { List (Due T) };

    ghost view = { λ agenda. agenda.dues.items };

    ghost invariant = { λ agenda. IsTrue (are_in_order T.rank agenda.dues.items) };
}

impl<T: Moment> Agenda<T> {
    /// Nothing is due. It takes no memory.
    pub fn new(alloc: Global) -> Agenda<T>
        ensures { result ≡ [] }
    {
        Agenda {
            dues: VecDeque::new(alloc),
        }
    }

    /// Whether nothing is due.
    pub fn is_empty(&self) -> bool
        ensures empty { IsTrue result ↔ (self.now ≡ []) }
        ensures order { IsTrue (are_in_order T.rank self.now) }
    {
        self.dues.is_empty()
    }

    /// Takes out all that is due. Its room is kept.
    pub fn clear(&mut self)
        ensures { self.new ≡ [] }
    {
        self.dues.clear();
    }

    /// Makes a property due at a time, unless it is there already. `Err`: memory ran out, and all is as it was.
    pub fn add(&mut self, at: T, p: PropId) -> Result<(), NoMemory>
        ensures there { IsTrue (has_due T.rank (T.rank at) p.0 self.old) → self.new ≡ self.old }
        ensures there_ok { IsTrue (has_due T.rank (T.rank at) p.0 self.old) → IsTrue (is_ok result) }
        ensures ok { OnOk result (has_due T.rank (T.rank at) p.0 self.old ≡ false → self.new ≡ with_due T.rank (at, p) self.old) }
        ensures err { OnErr result (self.new ≡ self.old) }
        ensures order { IsTrue (are_in_order T.rank self.new) }
    {
        if let Some(place) = free_place(&self.dues, at, p) {
            self.dues.insert(place, (at, p))?;
        }
        Ok(())
    }

    /// The earliest time at which a property is due. `None` exactly when nothing is due.
    pub fn first_time(&self) -> Option<T>
        ensures some { IfSome result (λ at. option_map (λ due. due.0) (slice_get self.now 0) ≡ Some at) }
        ensures none { IfNone result (self.now ≡ []) }
    {
        match self.dues.front() {
            Some(due) => Some(due.0),
            None => None,
        }
    }

    /// Takes out the property that is due first. `None` exactly when nothing is due.
    pub fn pop(&mut self) -> Option<(T, PropId)>
        ensures some { IfSome result (λ due. self.old ≡ due ∷ self.new) }
        ensures none { IfNone result (self.old ≡ []) }
        ensures same { IfNone result (self.new ≡ []) }
        ensures order { IsTrue (are_in_order T.rank self.new) }
    {
        self.dues.pop_front()
    }
}
