//! A walk through a batch of updates: the tables go along from list to list, the caches stay.
ghost use Rattle.std.specs.Prelude.{◌≡◌, ◌+◌, ◌≤◌, List, None, Some, IsSome, IfOk};
ghost use Rattle.indexmap.specs.IndexMap.{index_map_len};
ghost use Rattle.ec_axioms.specs.Calculus.{PlainEvent};
ghost use Rattle.ec_axioms.specs.Changes.{asserting, retracting};
ghost use Rattle.ec_axioms.specs.Events.{event_of, plain_update};
ghost use Rattle.ec_parts.specs.StandFor.{view_of};
ghost use Rattle.ec_store.specs.Store.{slot_of};
ghost use Rattle.ec_batch.specs.Net.{net_in};
ghost use Rattle.ec_batch.specs.Walk.{GoesOn, HasWalked, HasWalkedTo};

use crate::limited::take_in;
use crate::net::{Added, Net, Nets, is_present, make_room, old_slot, put};
use ec_axioms::{Cut, Event, MOST_EVENTS, Steps, Update};
use ec_lists::NoMemory;
use ec_moment::Moment;
use ec_parts::{Parts, Tally, enter, note_props, release_all, release_slot};
use ec_rows::{MarkRow, SpanRow, TimeRow};
use ec_terms::{Name, PropId, Slot};
use std::alloc::Global;
use std::sync::ledger::Ledger;

/// Why a walk does not go on, or an event does not come in.
#[derive(Drop)]
pub enum Stop {
    /// A limit, an identity that is present, or one that is absent.
    Refused(Cut),
    Memory(NoMemory),
}

/// What a walk knows.
#[derive(Drop)]
pub struct Walk<T> {
    /// What stands under each identity that was touched.
    pub nets: Nets<T>,
    /// The properties that were not kept before the walk.
    pub fresh: Vec<PropId>,
    /// Properties that entries of retracted events mention: those that may be live no longer.
    pub dying: Vec<PropId>,
    /// How many events the list to come has.
    pub events: u64,
}

/// The same event again. `Err`: memory ran out.
fn copy_of<T: Moment>(alloc: Global, event: &Event<T>) -> Result<Event<T>, NoMemory>
    ensures { IfOk result (λ copy. copy ≡ event.now) }
{
    Ok(Event {
        id: event.id.copied(),
        at: event.at,
        term: event.term.borrow().to_ground(alloc)?,
    })
}

/// Asserts an event: it is in the list to come, and its entries are mentioned in the tables.
pub(crate) fn assert_event<T: Moment, M: MarkRow<T>, I: SpanRow<T>, X: TimeRow<T>>(
    alloc: Global,
    parts: &mut Parts<T, M, I, X>,
    tally: &mut Tally,
    walk: &mut Walk<T>,
    event: &Event<T>,
) -> Result<(), Stop>
    requires walked { HasWalked T.rank parts.old.checked (view_of parts.old) tally.old walk.old }
    ensures goes { (soon : List PlainEvent) → HasWalkedTo T.rank parts.old.checked parts.old.store.events soon (view_of parts.old) tally.old walk.old →
        GoesOn T.rank parts.old.checked parts.old.store.events soon (asserting (event_of T.rank event.now)) (view_of parts.new) tally.new walk.new result }
    ensures theory { parts.new.checked ≡ parts.old.checked }
    ensures store { parts.new.store ≡ parts.old.store }
    ensures len { index_map_len walk.new.nets ≤ index_map_len walk.old.nets + 1 }
{
    if is_present(&walk.nets, &parts.store, &event.id) {
        return Err(Stop::Refused(Cut::Duplicate(event.id.copied())));
    }
    if walk.events >= MOST_EVENTS {
        return Err(Stop::Refused(Cut::FullEvents));
    }
    if let Err(none) = make_room(&mut walk.nets) {
        return Err(Stop::Memory(none));
    }
    let copy = match copy_of(alloc, event) {
        Ok(copy) => copy,
        Err(none) => return Err(Stop::Memory(none)),
    };
    let entries = match enter(alloc, parts, event, &mut walk.fresh) {
        Ok(entries) => entries,
        Err(none) => return Err(Stop::Memory(none)),
    };
    if let Err(cut) = take_in(parts, tally, &entries) {
        return Err(Stop::Refused(cut));
    }
    let old = old_slot(&walk.nets, &parts.store, &event.id);
    let new = Some(Added {
        event: copy,
        entries,
    });
    put(&mut walk.nets, event.id.copied(), Net { old, new });
    walk.events += 1;
    Ok(())
}

/// Retracts an event of the store.
fn retract_stored<T: Moment, M: MarkRow<T>, I: SpanRow<T>, X: TimeRow<T>, L: Ledger>(
    parts: &mut Parts<T, M, I, X>,
    tally: &mut Tally,
    walk: &mut Walk<T>,
    id: &Name,
    slot: Slot,
    steps: &mut Steps<L>,
) -> Result<(), Stop>
    requires walked { HasWalked T.rank parts.old.checked (view_of parts.old) tally.old walk.old }
    requires untouched { net_in id.now walk.old.nets ≡ None }
    requires slot { slot_of id.now parts.old.store.events ≡ Some slot }
    ensures goes { (soon : List PlainEvent) → HasWalkedTo T.rank parts.old.checked parts.old.store.events soon (view_of parts.old) tally.old walk.old →
        GoesOn T.rank parts.old.checked parts.old.store.events soon (retracting id.now) (view_of parts.new) tally.new walk.new result }
    ensures theory { parts.new.checked ≡ parts.old.checked }
    ensures store { parts.new.store ≡ parts.old.store }
    ensures len { index_map_len walk.new.nets ≤ index_map_len walk.old.nets + 1 }
    ensures steps { steps.new ≤ steps.old + 1 }
{
    let _ = parts.props.len();
    let _ = parts.store.len();
    if let Err(none) = make_room(&mut walk.nets) {
        return Err(Stop::Memory(none));
    }
    if let Err(none) = release_slot(parts, tally, slot, &mut walk.dying, steps) {
        return Err(Stop::Memory(none));
    }
    let old = Some(slot);
    put(&mut walk.nets, id.copied(), Net { old, new: None });
    walk.events -= 1;
    Ok(())
}

/// Retracts the event of an identity that the walk touched.
fn retract_added<T: Moment, M: MarkRow<T>, I: SpanRow<T>, X: TimeRow<T>>(
    parts: &mut Parts<T, M, I, X>,
    tally: &mut Tally,
    walk: &mut Walk<T>,
    id: &Name,
) -> Result<(), Stop>
    requires walked { HasWalked T.rank parts.old.checked (view_of parts.old) tally.old walk.old }
    requires touched { IsSome (net_in id.now walk.old.nets) }
    ensures goes { (soon : List PlainEvent) → HasWalkedTo T.rank parts.old.checked parts.old.store.events soon (view_of parts.old) tally.old walk.old →
        GoesOn T.rank parts.old.checked parts.old.store.events soon (retracting id.now) (view_of parts.new) tally.new walk.new result }
    ensures theory { parts.new.checked ≡ parts.old.checked }
    ensures store { parts.new.store ≡ parts.old.store }
    ensures len { index_map_len walk.new.nets ≤ index_map_len walk.old.nets + 1 }
{
    let _ = parts.props.len();
    if !is_present(&walk.nets, &parts.store, id) {
        return Err(Stop::Refused(Cut::Unknown(id.copied())));
    }
    if let Err(none) = make_room(&mut walk.nets) {
        return Err(Stop::Memory(none));
    }
    let Some(net) = walk.nets.get(id) else {
        unreachable!();
    };
    let Some(added) = &net.new else {
        unreachable!();
    };
    if let Err(none) = note_props(&mut walk.dying, &added.entries) {
        return Err(Stop::Memory(none));
    }
    release_all(parts, tally, &added.entries);
    let old = net.old;
    put(&mut walk.nets, id.copied(), Net { old, new: None });
    walk.events -= 1;
    Ok(())
}

/// Retracts the event of an identity.
fn retract_event<T: Moment, M: MarkRow<T>, I: SpanRow<T>, X: TimeRow<T>, L: Ledger>(
    parts: &mut Parts<T, M, I, X>,
    tally: &mut Tally,
    walk: &mut Walk<T>,
    id: &Name,
    steps: &mut Steps<L>,
) -> Result<(), Stop>
    requires walked { HasWalked T.rank parts.old.checked (view_of parts.old) tally.old walk.old }
    ensures goes { (soon : List PlainEvent) → HasWalkedTo T.rank parts.old.checked parts.old.store.events soon (view_of parts.old) tally.old walk.old →
        GoesOn T.rank parts.old.checked parts.old.store.events soon (retracting id.now) (view_of parts.new) tally.new walk.new result }
    ensures theory { parts.new.checked ≡ parts.old.checked }
    ensures store { parts.new.store ≡ parts.old.store }
    ensures len { index_map_len walk.new.nets ≤ index_map_len walk.old.nets + 1 }
    ensures steps { steps.new ≤ steps.old + 1 }
{
    if walk.nets.contains_key(id) {
        return retract_added(parts, tally, walk, id);
    }
    match parts.store.find(id) {
        Some(slot) => retract_stored(parts, tally, walk, id, slot, steps),
        None => Err(Stop::Refused(Cut::Unknown(id.copied()))),
    }
}

/// Goes on by one update. `Err`: it is refused, or memory ran out; the walk stays where it was.
pub(crate) fn update<T: Moment, M: MarkRow<T>, I: SpanRow<T>, X: TimeRow<T>, L: Ledger>(
    alloc: Global,
    parts: &mut Parts<T, M, I, X>,
    tally: &mut Tally,
    walk: &mut Walk<T>,
    update: &Update<T>,
    steps: &mut Steps<L>,
) -> Result<(), Stop>
    requires walked { HasWalked T.rank parts.old.checked (view_of parts.old) tally.old walk.old }
    ensures goes { (soon : List PlainEvent) → HasWalkedTo T.rank parts.old.checked parts.old.store.events soon (view_of parts.old) tally.old walk.old →
        GoesOn T.rank parts.old.checked parts.old.store.events soon (plain_update T.rank update.now) (view_of parts.new) tally.new walk.new result }
    ensures theory { parts.new.checked ≡ parts.old.checked }
    ensures store { parts.new.store ≡ parts.old.store }
    ensures len { index_map_len walk.new.nets ≤ index_map_len walk.old.nets + 1 }
    ensures steps { steps.new ≤ steps.old + 1 }
{
    match update {
        Update::Assert(event) => assert_event(alloc, parts, tally, walk, event),
        Update::Retract(id) => retract_event(parts, tally, walk, id, steps),
    }
}
