ghost use Rattle.std.specs.Prelude.{◌≡◌};

use std::marker::Model;

/// A position in the order of a store's events: in front of an event, or behind all of them.
#[derive(Clone, Copy, Debug, PartialEq, Eq)]
pub struct Cursor {
    place: usize,
}

impl Model for Cursor {
    ghost use Rattle.std.specs.Prelude.{ℕ};

    ghost Value = { ℕ };

    ghost view = { λ cursor. cursor.place };

    ghost inverse = { λ place. record { place = place } };
}

impl Cursor {
    /// The position in front of the event at a place, from 0.
    pub(crate) fn at(place: usize) -> Cursor
        ensures { result ≡ place }
    {
        Cursor { place }
    }

    /// The place of the event that follows.
    pub(crate) fn place(&self) -> usize
        ensures { result ≡ self.now }
    {
        self.place
    }
}
