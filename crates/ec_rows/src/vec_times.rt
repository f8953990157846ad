ghost use Rattle.std.specs.Prelude.{◌≡◌, ◌+◌, ◌<◌, ◌≤◌, IsTrue, true, false, int_lt, length, vec_len, Contains};
ghost use Rattle.std.specs.List.Sorted.{IsPartitionPoint};
ghost use Rattle.std.specs.Vec.{vec_capacity};
ghost use Rattle.std.specs.Ordering.{is_lt};
ghost use Rattle.ec_rows.specs.Times.{IsTimeRow, place_of, place_cmp, entries_before, has_entry, with_entry, without_entry};

use crate::edits::insert_within;
use crate::time_row::TimeRow;
use ec_lists::NoMemory;
use ec_moment::Moment;
use ec_terms::{Name, Slot};
use std::alloc::Global;
use std::cmp::Ordering;
use std::marker::Model;

/// A row of times in one `Vec`.
#[derive(Drop)]
pub struct VecTimes<T: Moment> {
    times: Vec<(T, Name, Slot)>,
}

impl<T: Moment> Model for VecTimes<T> {
    ghost use Rattle.std.specs.Prelude.{◌-◌, ℕ, List, vec_len};
    ghost use Rattle.std.specs.Vec.{vec_capacity};
    ghost use Rattle.ec_terms.specs.declared.ids.Slot.{Slot};
    ghost use Rattle.ec_lists.specs.Reserved.{Reserved};
    ghost use Rattle.ec_rows.specs.Times.{IsTimeRow};

    ghost Value = { Reserved (T × List ℕ × Slot) };

    ghost view = { λ row. record { items = row.times.items; spare = vec_capacity row.times - vec_len row.times } };

    ghost invariant = { λ row. IsTimeRow T.rank row.times.items };
}

impl<T: Moment> TimeRow<T> for VecTimes<T> {
    ghost times = { λ row. row.items };

    ghost spare = { λ row. row.spare };

    fn new(alloc: Global) -> Result<Self, NoMemory> {
        Ok(VecTimes {
            times: Vec::new(alloc),
        })
    }

    fn len(&self) -> usize {
        self.times.len()
    }

    fn reserve(&mut self, n: usize) -> Result<(), NoMemory> {
        self.times.reserve(n)?;
        Ok(())
    }

    fn get(&self, i: usize) -> (T, Name, Slot) {
        let (at, id, slot) = &self.times[i];
        (*at, id.copied(), *slot)
    }

    fn run(&self, i: usize) -> &[(T, Name, Slot)] {
        &self.times[i..]
    }

    fn first_at(&self, at: T) -> usize {
        count_entries_before(&self.times, at)
    }

    fn put(&mut self, at: T, id: Name, slot: Slot) {
        put_entry(&mut self.times, at, id, slot);
    }

    fn take_out(&mut self, at: T, id: &Name) -> Slot {
        take_out_entry(&mut self.times, at, id)
    }
}

/// How an entry stands to a time and an identity.
fn compare<T: Moment>(entry: &(T, Name, Slot), at: T, id: &Name) -> Ordering
    ensures { result ≡ place_cmp (place_of T.rank entry.now) (T.rank at, id.now) }
{
    let (entry_at, entry_id, _) = entry;
    entry_at.order(&at).then_with(|| entry_id.cmp(id))
}

/// How many entries stand before a time and an identity.
fn place_in<T: Moment>(times: &[(T, Name, Slot)], at: T, id: &Name) -> usize
    requires { IsTimeRow T.rank times.now }
    ensures within { result ≤ length times.now }
    ensures cut { IsPartitionPoint (λ entry. is_lt (place_cmp (place_of T.rank entry) (T.rank at, id.now)) ≡ true) (λ entry. is_lt (place_cmp (place_of T.rank entry) (T.rank at, id.now)) ≡ false) times.now result }
{
    times.partition_point(
        |entry| -> bool
            ensures { result ≡ is_lt (place_cmp (place_of T.rank entry.now) (T.rank at, id.entry.now)) }
        { compare(entry, at, id).is_lt() },
    )
}

/// How many entries are before a time.
fn count_entries_before<T: Moment>(times: &[(T, Name, Slot)], at: T) -> usize
    requires { IsTimeRow T.rank times.now }
    ensures { result ≡ length (entries_before T.rank (T.rank at) times.now) }
{
    times.partition_point(
        |entry| -> bool
            ensures { result ≡ int_lt (T.rank entry.now.0) (T.rank at) }
        { entry.0.order(&at).is_lt() },
    )
}

/// Puts an entry in its place, where there is room for it.
fn put_entry<T: Moment>(times: &mut Vec<(T, Name, Slot)>, at: T, id: Name, slot: Slot)
    requires row { IsTimeRow T.rank times.old.items }
    requires absent { has_entry T.rank (T.rank at) id times.old.items ≡ false }
    requires room { vec_len times.old < vec_capacity times.old }
    ensures times { times.new.items ≡ with_entry T.rank (at, id, slot) times.old.items }
    ensures row { IsTimeRow T.rank times.new.items }
    ensures len { vec_len times.new ≡ vec_len times.old + 1 }
    ensures capacity { vec_capacity times.new ≡ vec_capacity times.old }
{
    let place = place_in(times, at, &id);
    insert_within(times, place, (at, id, slot));
}

/// Takes out the entry of a time and an identity.
fn take_out_entry<T: Moment>(times: &mut Vec<(T, Name, Slot)>, at: T, id: &Name) -> Slot
    requires row { IsTimeRow T.rank times.old.items }
    requires present { IsTrue (has_entry T.rank (T.rank at) id.now times.old.items) }
    ensures slot { Contains times.old.items (at, id.now, result) }
    ensures times { times.new.items ≡ without_entry T.rank (T.rank at) id.now times.old.items }
    ensures row { IsTimeRow T.rank times.new.items }
    ensures len { vec_len times.new + 1 ≡ vec_len times.old }
    ensures capacity { vec_capacity times.new ≡ vec_capacity times.old }
{
    let place = place_in(times, at, id);
    let (_, _, slot) = times.remove(place);
    slot
}
