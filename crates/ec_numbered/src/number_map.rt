ghost use Rattle.std.specs.Prelude.{◌≡◌, ◌==◌, ◌<◌, ℕ, [], Some, OnOk, OnErr, length, nat_eq, slice_get, if◌then◌else◌};
ghost use Rattle.std.specs.List.{IsDistinct};
ghost use Rattle.std.specs.Map.{keys_of, lookup};

use crate::number_places::{place_of, put};
use ec_lists::NoMemory;
use std::alloc::Global;
use std::marker::Model;

/// A map by number. Beside the rows stands for each number where its row is, which is looked at and then seen to be true or not:
/// so a number is found at once, and what stands there of numbers without a row does no harm. Emptying it takes one step and keeps all
/// room (after Briggs and Torczon, An Efficient Representation for Sparse Sets, 1993).
#[derive(Drop)]
pub struct NumberMap<V> {
    rows: Vec<(usize, V)>,
    /// Where the row of each number stands, if it has one; else any place.
    places: Vec<usize>,
}

impl<V> Model for NumberMap<V> {
    ghost use Rattle.std.specs.Prelude.{ℕ, List};
    ghost use Rattle.ec_numbered.specs.NumberPlaces.{ArePlaces};

    ghost Value = { List (ℕ × V) };

    ghost view = { λ map. map.rows.items };

    ghost invariant = { λ map. ArePlaces map.places.items map.rows.items };
}

impl<V: Copy + Drop> NumberMap<V> {
    /// No rows. It takes no memory.
    pub fn new(alloc: Global) -> NumberMap<V>
        ensures { result ≡ [] }
    {
        NumberMap {
            rows: Vec::new(alloc),
            places: Vec::new(alloc),
        }
    }

    /// How many rows there are. No number stands in two of them.
    pub fn len(&self) -> usize
        ensures len { result ≡ length self.now }
        ensures once { IsDistinct nat_eq (keys_of self.now) }
    {
        self.rows.len()
    }

    /// The row at a place.
    pub fn row(&self, i: usize) -> (usize, V)
        requires { i < length self.now }
        ensures { slice_get self.now i ≡ Some result }
    {
        self.rows[i]
    }

    /// The value of a number. `None` exactly when it has none.
    pub fn get(&self, n: usize) -> Option<V>
        ensures { result ≡ lookup (nat_eq n) self.now }
    {
        match place_of(&self.rows, &self.places, n) {
            Some(place) => Some(self.rows[place].1),
            None => None,
        }
    }

    /// Gives a number its value, in place of the one that it has. `Err`: memory ran out, and all is as it was.
    pub fn insert(&mut self, n: usize, value: V) -> Result<(), NoMemory>
        ensures ok { OnOk result ((k : ℕ) → lookup (nat_eq k) self.new ≡ (if n == k then Some value else lookup (nat_eq k) self.old)) }
        ensures err { OnErr result (self.new ≡ self.old) }
    {
        put(&mut self.rows, &mut self.places, n, value)
    }

    /// Takes all rows out. Their room is kept.
    pub fn clear(&mut self)
        ensures { self.new ≡ [] }
    {
        self.rows.clear();
    }
}
