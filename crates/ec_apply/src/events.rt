//! The events of one list alone: those to take out of the store, and those to put in, with what is kept of them by slot.
ghost use Rattle.std.specs.Prelude.{◌≡◌, ◌+◌, ◌<◌, ◌≤◌, ◌≢◌, ◌||◌, ℕ, None, IsSome, IsTrue, if◌then◌else◌, length, map};
ghost use Rattle.std.specs.List.{All};
ghost use Rattle.ec_terms.specs.declared.ids.Slot.{Slot};
ghost use Rattle.ec_axioms.specs.Calculus.{PlainEvent};
ghost use Rattle.ec_axioms.specs.Changes.{has_event};
ghost use Rattle.ec_axioms.specs.Events.{event_of};
ghost use Rattle.ec_numbered.specs.ByNumber.{kept_at};
ghost use Rattle.ec_store.specs.Store.{event_at, history_of, slot_of};
ghost use Rattle.ec_entries.specs.Dependents.{count_on, count_on_all, room_of};
ghost use Rattle.ec_revise.specs.Change.{has_slot};
ghost use Rattle.ec_apply.specs.Events.{AreAligned, AreFresh, IsPutIn, StaysOrIsAdded, are_slots_apart, without_slot, without_slots};

use ec_axioms::{Event, EventList, Steps};
use ec_context::EntryList;
use ec_entries::{Entries, EntryLists};
use ec_moment::Moment;
use ec_revise::Removal;
use ec_rows::TimeRow;
use ec_store::EventStore;
use ec_terms::{Sequence, Slot};
use std::sync::ledger::Ledger;

/// Takes the event of a slot out of the store, and what is kept of it out of the entries. It is one step, and takes no memory.
fn take_one<T: Moment, X: TimeRow<T>, L: Ledger>(
    store: &mut EventStore<T, X>,
    entries: &mut Entries<T>,
    slot: Slot,
    steps: &mut Steps<L>,
)
    requires live { IsSome (event_at slot store.old.events) }
    requires kept { IsSome (kept_at slot.0 entries.old.slots) }
    ensures events { store.new.events ≡ without_slot slot store.old.events }
    ensures spare { store.old.spare ≤ store.new.spare }
    ensures places { store.new.places ≡ store.old.places }
    ensures absent { kept_at slot.0 entries.new.slots ≡ None }
    ensures others { (other : ℕ) → other ≢ slot.0 → kept_at other entries.new.slots ≡ kept_at other entries.old.slots }
    ensures kept_places { length entries.new.slots ≡ length entries.old.slots }
    ensures room { (q : ℕ) → room_of q entries.old.rows ≤ room_of q entries.new.rows }
    ensures steps { steps.new ≡ steps.old + 1 }
{
    let _ = store.len();
    entries.remove(slot);
    let _ = store.remove(slot, steps);
}

/// Takes the events of these slots out of the store, and what is kept of them out of the entries. Each is one step. It
/// takes no memory.
pub(crate) fn take_out<T: Moment, X: TimeRow<T>, L: Ledger>(
    store: &mut EventStore<T, X>,
    entries: &mut Entries<T>,
    mut removals: Sequence<Removal<T>>,
    steps: &mut Steps<L>,
)
    requires aligned { AreAligned store.old.events entries.old.slots }
    requires live { All (λ removal. IsSome (event_at removal.slot store.old.events)) removals }
    requires apart { IsTrue (are_slots_apart removals) }
    ensures events { store.new.events ≡ without_slots removals store.old.events }
    ensures spare { store.old.spare ≤ store.new.spare }
    ensures places { store.new.places ≡ store.old.places }
    ensures slots { (slot : Slot) → kept_at slot.0 entries.new.slots ≡ (if has_slot slot removals then None else kept_at slot.0 entries.old.slots) }
    ensures kept_places { length entries.new.slots ≡ length entries.old.slots }
    ensures room { (q : ℕ) → room_of q entries.old.rows ≤ room_of q entries.new.rows }
    ensures steps { steps.new ≡ steps.old + length removals }
{
    while let Some(removal) = removals.pop() {
        take_one(store, entries, removal.slot, steps);
    }
}

/// Puts an event into the store, and what is kept of it under its slot into the entries. It takes no memory.
fn put_one<T: Moment, X: TimeRow<T>>(
    store: &mut EventStore<T, X>,
    entries: &mut Entries<T>,
    event: Event<T>,
    list: EntryList,
    active: u64,
)
    requires absent { slot_of event.id store.old.events ≡ None }
    requires aligned { AreAligned store.old.events entries.old.slots }
    requires room { 1 ≤ store.old.spare }
    requires places { store.old.places ≤ length entries.old.slots }
    requires dependents { (q : ℕ) → count_on q list ≤ room_of q entries.old.rows }
    ensures put { IsPutIn T.rank event list active store.old.events entries.old.slots store.new.events entries.new.slots }
    ensures spare { store.old.spare ≤ store.new.spare + 1 }
    ensures places { store.new.places ≡ store.old.places }
    ensures kept_places { length entries.new.slots ≡ length entries.old.slots }
    ensures room { (q : ℕ) → room_of q entries.old.rows ≤ room_of q entries.new.rows + count_on q list }
{
    let at = event.at;
    let slot = store.insert(event);
    entries.insert(slot, at, list, active);
}

/// Puts these events into the store, and what is kept of each, its entries and which of them are active, into the entries.
/// It takes no memory.
pub(crate) fn put_in<T: Moment, X: TimeRow<T>>(
    store: &mut EventStore<T, X>,
    entries: &mut Entries<T>,
    mut add: EventList<T>,
    mut lists: EntryLists,
    mut bits: Sequence<u64>,
)
    requires lists { length lists ≡ length add }
    requires bits { length bits ≡ length add }
    requires fresh { AreFresh add store.old.events }
    requires aligned { AreAligned store.old.events entries.old.slots }
    requires spare { length add ≤ store.old.spare }
    requires places { store.old.places ≤ length entries.old.slots }
    requires dependents { (q : ℕ) → count_on_all q lists ≤ room_of q entries.old.rows }
    ensures history { (e : PlainEvent) → has_event (history_of T.rank store.new.events) e ≡ (has_event (map (event_of T.rank) add) e || has_event (history_of T.rank store.old.events) e) }
    ensures slots { (slot : Slot) → StaysOrIsAdded add lists bits slot store.old.events entries.old.slots store.new.events entries.new.slots }
{
    while let Some(event) = add.pop() {
        let Some(list) = lists.pop() else {
            unreachable!();
        };
        let Some(active) = bits.pop() else {
            unreachable!();
        };
        put_one(store, entries, event, list, active);
    }
}
