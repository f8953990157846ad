//! Numbers that groups have in common, of which all behind a place are raised or lowered together.
ghost use Rattle.std.specs.Prelude.{◌≡◌, ℕ, ◌+◌, ◌-◌, ◌%◌, ◌^◌, ◌<◌, ◌≤◌, [], ◌⊎◌, OnOk, length, vec_len, slice_index_or};

use ec_lists::NoMemory;
use std::alloc::Global;
use std::marker::Model;

/// A list of numbers. Each is the sum of what is kept at its place and of one lift for all, modulo 2^64: so those behind a place are
/// raised either themselves, or by the lift while those in front are lowered, whichever are fewer. It is seen as the list of the numbers.
#[derive(Drop)]
pub(crate) struct Bases {
    kept: Vec<usize>,
    lift: usize,
}

impl Model for Bases {
    ghost use Rattle.std.specs.Prelude.{ℕ, List};
    ghost use Rattle.ec_blocks.specs.Starts.{lifted};

    ghost Value = { List ℕ };

    ghost view = { λ bases. lifted bases.lift bases.kept.items };
}

impl Bases {
    /// No numbers. It takes no memory.
    pub(crate) fn new(alloc: Global) -> Bases
        ensures { result ≡ [] }
    {
        Bases {
            kept: Vec::new(alloc),
            lift: 0,
        }
    }

    /// The number at a place.
    pub(crate) fn get(&self, k: usize) -> usize
        requires { k < length self.now }
        ensures { result ≡ slice_index_or self.now k 0 }
    {
        self.kept[k].wrapping_add(self.lift)
    }

    /// Adds a number, modulo 2^64, to those from a place on.
    pub(crate) fn add_from(&mut self, k: usize, more: usize)
        requires { k ≤ length self.old }
        ensures len { length self.new ≡ length self.old }
        ensures from { (j : ℕ) → k ≤ j → j < length self.old → slice_index_or self.new j 0 ≡ (slice_index_or self.old j 0 + more) % 2 ^ 64 }
        ensures others { (j : ℕ) → j < k → slice_index_or self.new j 0 ≡ slice_index_or self.old j 0 }
    {
        if self.kept.len() - k <= k {
            self.add_behind(k, more);
        } else {
            self.add_around(k, more);
        }
    }

    /// The same, by what is kept from the place on.
    fn add_behind(&mut self, k: usize, more: usize)
        requires { k ≤ length self.old }
        ensures len { length self.new ≡ length self.old }
        ensures from { (j : ℕ) → k ≤ j → j < length self.old → slice_index_or self.new j 0 ≡ (slice_index_or self.old j 0 + more) % 2 ^ 64 }
        ensures others { (j : ℕ) → j < k → slice_index_or self.new j 0 ≡ slice_index_or self.old j 0 }
    {
        let count = self.kept.len();
        add(&mut self.kept, k, count, more);
    }

    /// The same, by the lift, and by what is kept in front of the place.
    fn add_around(&mut self, k: usize, more: usize)
        requires { k ≤ length self.old }
        ensures len { length self.new ≡ length self.old }
        ensures from { (j : ℕ) → k ≤ j → j < length self.old → slice_index_or self.new j 0 ≡ (slice_index_or self.old j 0 + more) % 2 ^ 64 }
        ensures others { (j : ℕ) → j < k → slice_index_or self.new j 0 ≡ slice_index_or self.old j 0 }
    {
        add(&mut self.kept, 0, k, more.wrapping_neg());
        self.lift = self.lift.wrapping_add(more);
    }

    /// Adds numbers until there are so many. `Err`: memory ran out.
    pub(crate) fn extend(&mut self, count: usize) -> Result<(), NoMemory>
        ensures same { (k : ℕ) → k < length self.old → slice_index_or self.new k 0 ≡ slice_index_or self.old k 0 }
        ensures more { length self.old ≤ length self.new }
        ensures ok { OnOk result (count ≤ length self.new) }
    {
        extend_to(&mut self.kept, count)
    }
}

/// Adds zeros until there are so many numbers. `Err`: memory ran out.
fn extend_to(kept: &mut Vec<usize>, count: usize) -> Result<(), NoMemory>
    ensures same { (k : ℕ) → k < vec_len kept.old → slice_index_or kept.new.items k 0 ≡ slice_index_or kept.old.items k 0 }
    ensures more { vec_len kept.old ≤ vec_len kept.new }
    ensures ok { OnOk result (count ≤ vec_len kept.new) }
{
    while kept.len() < count {
        kept.push(0)?;
    }
    Ok(())
}

/// Adds a number, modulo 2^64, to those from one place up to another.
pub(crate) fn add(numbers: &mut [usize], from: usize, to: usize, more: usize)
    requires ordered { from ≤ to }
    requires within { to ≤ length numbers.old }
    ensures len { length numbers.new ≡ length numbers.old }
    ensures within { (k : ℕ) → from ≤ k → k < to → slice_index_or numbers.new k 0 ≡ (slice_index_or numbers.old k 0 + more) % 2 ^ 64 }
    ensures others { (k : ℕ) → (k < from) ⊎ (to ≤ k) → slice_index_or numbers.new k 0 ≡ slice_index_or numbers.old k 0 }
{
    for k in from..to {
        numbers[k] = numbers[k].wrapping_add(more);
    }
}
