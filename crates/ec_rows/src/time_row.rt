ghost use Rattle.std.specs.Prelude.{◌≡◌, ◌+◌, ◌<◌, ◌≤◌, ℕ, List, [], IsTrue, false, Some, IfOk, OnOk, length, take, drop, slice_get, Contains};
ghost use Rattle.ec_terms.specs.declared.ids.Slot.{Slot};
ghost use Rattle.ec_rows.specs.Times.{IsTimeRow, entries_before, has_entry, with_entry, without_entry};

use ec_lists::NoMemory;
use ec_moment::Moment;
use ec_terms::{Name, Slot};
use std::alloc::Global;

/// The times of events: a list of times, each with the identity of an event and the slot under which the
/// event is kept, in the order of the times, and at one time in the order of the identities.
pub trait TimeRow<T: Moment>: Drop {
    // The entries, in order.
    ghost times: { Self → List (T × List ℕ × Slot) };

    // How many further entries the row takes without memory.
    ghost spare: { Self → ℕ };

    /// The row of no entries.
    fn new(alloc: Global) -> Result<Self, NoMemory>
        ensures { IfOk result (λ row. times row ≡ []) };

    /// How many entries there are.
    fn len(&self) -> usize
        ensures len { result ≡ length (times self.now) }
        ensures row { IsTimeRow T.rank (times self.now) };

    /// Makes room for `n` further entries. A refusal leaves all as it was.
    fn reserve(&mut self, n: usize) -> Result<(), NoMemory>
        ensures same { times self.new ≡ times self.old }
        ensures ok { OnOk result (n ≤ spare self.new) }
        ensures kept { spare self.old ≤ spare self.new };

    /// The entry at a place, from 0.
    fn get(&self, i: usize) -> (T, Name, Slot)
        requires { i < length (times self.now) }
        ensures entry { slice_get (times self.now) i ≡ Some result }
        ensures row { IsTimeRow T.rank (times self.now) };

    /// The entries from a place on that lie together in memory.
    fn run(&self, i: usize) -> &[(T, Name, Slot)]
        requires { i < length (times self.now) }
        ensures some { 1 ≤ length result.now }
        ensures run { result.now ≡ take (length result.now) (drop i (times self.now)) }
        ensures row { IsTimeRow T.rank (times self.now) };

    /// The place of the first entry that is not before a time, which is the number of entries before it.
    fn first_at(&self, at: T) -> usize
        ensures count { result ≡ length (entries_before T.rank (T.rank at) (times self.now)) }
        ensures row { IsTimeRow T.rank (times self.now) };

    /// Puts an entry in its place. It takes no memory.
    fn put(&mut self, at: T, id: Name, slot: Slot)
        requires absent { has_entry T.rank (T.rank at) id (times self.old) ≡ false }
        requires room { 1 ≤ spare self.old }
        ensures times { times self.new ≡ with_entry T.rank (at, id, slot) (times self.old) }
        ensures spare { spare self.old ≤ spare self.new + 1 }
        ensures row { IsTimeRow T.rank (times self.new) };

    /// Takes out the entry of a time and an identity, and gives its slot.
    fn take_out(&mut self, at: T, id: &Name) -> Slot
        requires { IsTrue (has_entry T.rank (T.rank at) id.now (times self.old)) }
        ensures slot { Contains (times self.old) (at, id.now, result) }
        ensures times { times self.new ≡ without_entry T.rank (T.rank at) id.now (times self.old) }
        ensures spare { spare self.old ≤ spare self.new }
        ensures row { IsTimeRow T.rank (times self.new) };
}
