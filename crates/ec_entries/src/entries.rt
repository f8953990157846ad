ghost use Rattle.std.specs.Prelude.{◌≡◌, ◌≢◌, ◌+◌, ◌^◌, ◌<◌, ◌≤◌, ℕ, [], None, Some, IsSome, IsTrue, IfSome, int_le, is_some, OnOk, length, take, slice_get, option_map};
ghost use Rattle.std.specs.List.{list_all};
ghost use Rattle.ec_numbered.specs.ByNumber.{kept_at};
ghost use Rattle.ec_entries.specs.Dependents.{AreDependents, count_on, count_on_all, dependents_after, dependents_at, dependents_of, room_of};

use crate::event_entries::{Dependent, EventEntries};
use crate::noting::{Rows, drop_all, note_all};
use crate::ordered::{nth_at, run_after, run_at};
use crate::reserving::reserve_all;
use ec_axioms::Steps;
use ec_context::EntryList;
use ec_lists::NoMemory;
use ec_moment::Moment;
use ec_numbered::ByNumber;
use ec_terms::{PropId, Sequence, Slot};
use std::alloc::Global;
use std::marker::Model;
use std::sync::ledger::Ledger;

/// The lists of entries of several events.
pub type EntryLists = Sequence<EntryList>;

/// The entries of the present events by slot, and for each property its dependents, the entries with a literal on it.
/// Contracts see the places for slots, what is kept in them, and the rows of dependents with their room.
#[derive(Drop)]
pub struct Entries<T: Moment> {
    slots: Vec<Option<EventEntries<T>>>,
    rows: Rows<T>,
    alloc: Global,
}

impl<T: Moment> Model for Entries<T> {
    ghost use Rattle.std.specs.Prelude.{ℕ};
    ghost use Rattle.ec_entries.specs.Dependents.{Entered, AreDependents, dependents_of};

    ghost Value = { Entered T };

    ghost view = { λ entries. record { slots = entries.slots.items; rows = entries.rows } };

    ghost invariant = { λ entries. (q : ℕ) → AreDependents T.rank q entries.slots.items (dependents_of q entries.rows) };
}

impl<T: Moment> Entries<T> {
    /// No entries, and no places for slots. It takes no memory.
    pub fn new(alloc: Global) -> Entries<T>
        ensures slots { result.slots ≡ [] }
        ensures rows { (q : ℕ) → dependents_of q result.rows ≡ [] }
    {
        Entries {
            slots: Vec::new(alloc),
            rows: ByNumber::new(alloc),
            alloc,
        }
    }

    /// Makes places for the slots below `places`, and room for the dependents of all these entries. `Err`: memory ran
    /// out, and nothing but places and room came.
    pub fn prepare(&mut self, lists: &EntryLists, places: usize) -> Result<(), NoMemory>
        ensures places { OnOk result (places ≤ length self.new.slots) }
        ensures room { OnOk result ((q : ℕ) → count_on_all q lists.now ≤ room_of q self.new.rows) }
        ensures kept { (slot : ℕ) → kept_at slot self.new.slots ≡ kept_at slot self.old.slots }
        ensures dependents { (q : ℕ) → dependents_of q self.new.rows ≡ dependents_of q self.old.rows }
        ensures kept_places { length self.old.slots ≤ length self.new.slots }
        ensures kept_room { (q : ℕ) → room_of q self.old.rows ≤ room_of q self.new.rows }
    {
        widen(&mut self.slots, places)?;
        reserve_all(self.alloc, &mut self.rows, lists.as_slice())
    }

    /// Whether the entries of an event are kept in a slot.
    pub fn contains(&self, slot: Slot) -> bool
        ensures { result ≡ is_some (kept_at slot.0 self.now.slots) }
    {
        is_kept(&self.slots, slot)
    }

    /// Keeps the entries of the event in a slot. It takes no memory.
    pub fn insert(&mut self, slot: Slot, at: T, list: EntryList, active: u64)
        requires place { slot.0 < length self.old.slots }
        requires absent { kept_at slot.0 self.old.slots ≡ None }
        requires room { (q : ℕ) → count_on q list ≤ room_of q self.old.rows }
        ensures kept { kept_at slot.0 self.new.slots ≡ Some (record { at = at; list = list; active = active }) }
        ensures others { (other : ℕ) → other ≢ slot.0 → kept_at other self.new.slots ≡ kept_at other self.old.slots }
        ensures places { length self.new.slots ≡ length self.old.slots }
        ensures kept_room { (q : ℕ) → room_of q self.old.rows ≤ room_of q self.new.rows + count_on q list }
    {
        note_all(&mut self.rows, at, slot, list.as_slice());
        self.slots[slot.0] = Some(EventEntries { at, list, active });
    }

    /// Takes out the entries of the event in a slot, and does not give them: to read them is a step. It takes no memory.
    pub fn remove(&mut self, slot: Slot)
        requires { IsSome (kept_at slot.0 self.old.slots) }
        ensures absent { kept_at slot.0 self.new.slots ≡ None }
        ensures others { (other : ℕ) → other ≢ slot.0 → kept_at other self.new.slots ≡ kept_at other self.old.slots }
        ensures places { length self.new.slots ≡ length self.old.slots }
        ensures kept_room { (q : ℕ) → room_of q self.old.rows ≤ room_of q self.new.rows }
    {
        let Some(kept) = self.slots[slot.0].take() else {
            unreachable!();
        };
        drop_all(&mut self.rows, kept.at, slot, kept.list.as_slice());
    }

    /// The entries of the event in a slot. To read them is one step.
    pub fn list<L: Ledger>(&self, slot: Slot, steps: &mut Steps<L>) -> &EntryList
        requires { IsSome (kept_at slot.0 self.now.slots) }
        ensures list { option_map (λ kept. kept.list) (kept_at slot.0 self.now.slots) ≡ Some result.now }
        ensures step { steps.new ≡ steps.old + 1 }
    {
        steps.tick();
        &in_slot(&self.slots, slot).list
    }

    /// The time of the event in a slot.
    pub fn at(&self, slot: Slot) -> T
        requires { IsSome (kept_at slot.0 self.now.slots) }
        ensures { option_map (λ kept. kept.at) (kept_at slot.0 self.now.slots) ≡ Some result }
    {
        in_slot(&self.slots, slot).at
    }

    /// Which entries of the event in a slot are active: bit k stands for the entry at place k.
    pub fn active(&self, slot: Slot) -> u64
        requires { IsSome (kept_at slot.0 self.now.slots) }
        ensures { option_map (λ kept. kept.active) (kept_at slot.0 self.now.slots) ≡ Some result }
    {
        in_slot(&self.slots, slot).active
    }

    /// Says anew which entries of the event in a slot are active.
    pub fn set_active(&mut self, slot: Slot, active: u64)
        requires { IsSome (kept_at slot.0 self.old.slots) }
        ensures active { IfSome (kept_at slot.0 self.old.slots) (λ kept. kept_at slot.0 self.new.slots ≡ Some (record kept { active = active })) }
        ensures others { (other : ℕ) → other ≢ slot.0 → kept_at other self.new.slots ≡ kept_at other self.old.slots }
        ensures places { length self.new.slots ≡ length self.old.slots }
        ensures rows { self.new.rows ≡ self.old.rows }
    {
        if let Some(kept) = &mut self.slots[slot.0] {
            kept.active = active;
        }
    }

    /// Some of the dependents of a property after a time, from the first on. There are none exactly when there is no
    /// dependent after that time. `near` is a place among its dependents to look at first; it does not change the answer.
    pub fn dependents_after(&self, p: PropId, at: T, near: usize) -> &[Dependent<T>]
        ensures run { result.now ≡ take (length result.now) (dependents_after T.rank (T.rank at) (dependents_of p.0 self.now.rows)) }
        ensures none { result.now ≡ [] → dependents_after T.rank (T.rank at) (dependents_of p.0 self.now.rows) ≡ [] }
        ensures dependents { AreDependents T.rank p.0 self.now.slots (dependents_of p.0 self.now.rows) }
    {
        match self.rows.get(p) {
            Some(row) => run_after(row, at, near),
            None => &[],
        }
    }

    /// The least time after `at` of a dependent of a property. `None` exactly when none is after it. `near` is a place among
    /// its dependents to look at first; it does not change the answer.
    pub fn next_dependent_after(&self, p: PropId, at: T, near: usize) -> Option<T>
        ensures next { result ≡ option_map (λ dependent. dependent.at) (slice_get (dependents_after T.rank (T.rank at) (dependents_of p.0 self.now.rows)) 0) }
        ensures least { IfSome result (λ t. IsTrue (list_all (λ dependent. int_le (T.rank t) (T.rank dependent.at)) (dependents_after T.rank (T.rank at) (dependents_of p.0 self.now.rows)))) }
        ensures dependents { AreDependents T.rank p.0 self.now.slots (dependents_of p.0 self.now.rows) }
    {
        let dependent = self.dependents_after(p, at, near).first()?;
        Some(dependent.at)
    }

    /// The dependents of a property at a time, by slot, then by place, if they lie together in memory. Otherwise `dependent`
    /// gives them one by one. `near` is a place among its dependents to look at first, which does not change the answer; it
    /// becomes the place behind those at the time, at which a search for a later time best begins.
    pub fn dependents_at<'a>(
        &'a self,
        p: PropId,
        at: T,
        near: &mut usize,
    ) -> Option<&'a [Dependent<T>]>
        ensures run { IfSome result (λ run. run.now ≡ dependents_at T.rank (T.rank at) (dependents_of p.0 self.now.rows)) }
        ensures dependents { AreDependents T.rank p.0 self.now.slots (dependents_of p.0 self.now.rows) }
    {
        match self.rows.get(p) {
            Some(row) => run_at(row, at, near),
            None => Some(&[]),
        }
    }

    /// The k-th dependent of a property at a time, from 0, by slot, then by place: its slot, and its place in the list
    /// of that slot. `None` exactly when there are at most k.
    pub fn dependent(&self, p: PropId, at: T, k: usize) -> Option<(Slot, u8)>
        ensures nth { result ≡ option_map (λ dependent. (dependent.slot, dependent.place)) (slice_get (dependents_at T.rank (T.rank at) (dependents_of p.0 self.now.rows)) k) }
        ensures few { length (dependents_at T.rank (T.rank at) (dependents_of p.0 self.now.rows)) < 2 ^ 64 }
        ensures dependents { AreDependents T.rank p.0 self.now.slots (dependents_of p.0 self.now.rows) }
    {
        nth_at(self.rows.get(p)?, at, k)
    }
}

/// Makes places for the slots below `places`.
fn widen<T: Moment>(slots: &mut Vec<Option<EventEntries<T>>>, places: usize) -> Result<(), NoMemory>
    ensures ok { OnOk result (places ≤ length slots.new.items) }
    ensures kept { (slot : ℕ) → kept_at slot slots.new.items ≡ kept_at slot slots.old.items }
    ensures grown { length slots.old.items ≤ length slots.new.items }
{
    if slots.len() < places {
        slots.resize_with(places, || None)?;
    }
    Ok(())
}

/// Whether something is kept in a slot.
fn is_kept<T: Moment>(slots: &[Option<EventEntries<T>>], slot: Slot) -> bool
    ensures { result ≡ is_some (kept_at slot.0 slots.now) }
{
    slot.0 < slots.len() && slots[slot.0].is_some()
}

/// What is kept of the event in a slot.
fn in_slot<T: Moment>(slots: &[Option<EventEntries<T>>], slot: Slot) -> &EventEntries<T>
    requires { IsSome (kept_at slot.0 slots.now) }
    ensures { kept_at slot.0 slots.now ≡ Some result.now }
{
    match &slots[slot.0] {
        Some(kept) => kept,
        None => unreachable!(),
    }
}
