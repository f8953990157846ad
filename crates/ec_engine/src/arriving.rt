//! One event arrives at the list of the store: it comes into the tables and makes a change, or it is refused.
ghost use Rattle.std.specs.Prelude.{◌≡◌, ◌+◌, ◌≤◌, [], ◌∷◌, false, IfOk, IsTrue, length};
ghost use Rattle.std.specs.Vec.{vec_capacity};
ghost use Rattle.ec_terms.specs.Term.{ground_of, names_are_names};
ghost use Rattle.ec_axioms.specs.Changes.{has_id};
ghost use Rattle.ec_axioms.specs.Events.{event_of};
ghost use Rattle.ec_axioms.specs.Links.{most_events};
ghost use Rattle.ec_store.specs.Store.{history_of};
ghost use Rattle.ec_parts.specs.StandFor.{StandFor, view_of};
ghost use Rattle.ec_batch.specs.Limits.{IsWithinLimits};
ghost use Rattle.ec_engine.specs.Arriving.{IsArrived};

use ec_axioms::{Cut, Event, MOST_EVENTS};
use ec_batch::{Refusal, let_in};
use ec_context::EntryList;
use ec_lists::NoMemory;
use ec_moment::Moment;
use ec_parts::{Parts, Tally};
use ec_revise::Change;
use ec_rows::{MarkRow, SpanRow, TimeRow};
use ec_terms::{GroundRef, Name, PropId, Sequence};
use std::alloc::Global;

/// An event that has come into the tables.
#[derive(Drop)]
pub(crate) struct Arrival<T: Moment> {
    /// The change that adds it.
    pub change: Change<T>,
    /// The properties that were not kept before.
    pub fresh: Vec<PropId>,
}

/// An event whose term has names of its own. `Err`: memory ran out.
fn made<T: Moment>(
    alloc: Global,
    id: Name,
    at: T,
    event: &GroundRef<'_>,
) -> Result<Event<T>, NoMemory>
    requires { IsTrue (names_are_names (ground_of event.now)) }
    ensures { IfOk result (λ made. event_of T.rank made ≡ record { id = id; rank = T.rank at; term = ground_of event.now }) }
{
    let term = event.to_ground(alloc)?;
    Ok(Event { id, at, term })
}

/// The change that adds an event with its entries, where two lists have room for one. It takes no memory.
fn addition<T: Moment>(
    alloc: Global,
    event: Event<T>,
    list: EntryList,
    mut add: Vec<Event<T>>,
    mut entries: Vec<EntryList>,
) -> Change<T>
    requires add { add.items ≡ [] }
    requires entries { entries.items ≡ [] }
    requires room { 1 ≤ vec_capacity add }
    requires entries_room { 1 ≤ vec_capacity entries }
    ensures remove { result.remove ≡ [] }
    ensures add { result.add ≡ event ∷ [] }
    ensures entries { result.entries ≡ list ∷ [] }
{
    add.push_reserved(event);
    entries.push_reserved(list);
    Change {
        remove: Sequence::new(alloc),
        add: Sequence::from_vec(add),
        entries: Sequence::from_vec(entries),
    }
}

/// Room for one event, and for its entries. `Err`: memory ran out.
fn rooms<T: Moment>(alloc: Global) -> Result<(Vec<Event<T>>, Vec<EntryList>), NoMemory>
    ensures add { IfOk result (λ rooms. rooms.0.items ≡ []) }
    ensures entries { IfOk result (λ rooms. rooms.1.items ≡ []) }
    ensures room { IfOk result (λ rooms. 1 ≤ vec_capacity rooms.0) }
    ensures entries_room { IfOk result (λ rooms. 1 ≤ vec_capacity rooms.1) }
{
    let add = Vec::with_capacity(alloc, 1)?;
    let entries = Vec::with_capacity(alloc, 1)?;
    Ok((add, entries))
}

/// Lets an event whose identity is absent in, where there are not too many.
fn arrive_new<T: Moment, M: MarkRow<T>, I: SpanRow<T>, X: TimeRow<T>>(
    alloc: Global,
    parts: &mut Parts<T, M, I, X>,
    tally: &mut Tally,
    event: Event<T>,
) -> Result<Arrival<T>, Refusal>
    requires stand { StandFor T.rank parts.old.checked (history_of T.rank parts.old.store.events) (view_of parts.old) tally.old }
    requires within { IsWithinLimits parts.old.checked (history_of T.rank parts.old.store.events) }
    requires absent { has_id event.id (history_of T.rank parts.old.store.events) ≡ false }
    requires room { length (history_of T.rank parts.old.store.events) + 1 ≤ most_events }
    ensures arrived { IsArrived T.rank parts.old.checked parts.old.store.events (event_of T.rank event) (view_of parts.new) tally.new result }
    ensures theory { parts.new.checked ≡ parts.old.checked }
    ensures store { IfOk result (λ arrival. parts.new.store ≡ parts.old.store) }
{
    let (add, entries) = match rooms(alloc) {
        Ok(rooms) => rooms,
        Err(none) => return Err(Refusal::Memory(none)),
    };
    let mut fresh = Vec::new(alloc);
    match let_in(alloc, parts, tally, &event, &mut fresh) {
        Ok(list) => Ok(Arrival {
            change: addition(alloc, event, list, add, entries),
            fresh,
        }),
        Err(refusal) => Err(refusal),
    }
}

/// Lets an event come into the tables. Its term gets names of its own once its identity and the number of events don't refuse
/// it. `Err`: it is refused, or memory ran out; the parts stand for the list of the store as before.
pub(crate) fn arrive<T: Moment, M: MarkRow<T>, I: SpanRow<T>, X: TimeRow<T>>(
    alloc: Global,
    parts: &mut Parts<T, M, I, X>,
    tally: &mut Tally,
    id: Name,
    at: T,
    event: &GroundRef<'_>,
) -> Result<Arrival<T>, Refusal>
    requires named { IsTrue (names_are_names (ground_of event.now)) }
    requires stand { StandFor T.rank parts.old.checked (history_of T.rank parts.old.store.events) (view_of parts.old) tally.old }
    requires within { IsWithinLimits parts.old.checked (history_of T.rank parts.old.store.events) }
    ensures arrived { IsArrived T.rank parts.old.checked parts.old.store.events (record { id = id; rank = T.rank at; term = ground_of event.now }) (view_of parts.new) tally.new result }
    ensures theory { parts.new.checked ≡ parts.old.checked }
    ensures store { IfOk result (λ arrival. parts.new.store ≡ parts.old.store) }
{
    if parts.store.find(&id).is_some() {
        let cut = Cut::Duplicate(id);
        return Err(Refusal::Update { place: 1, cut });
    }
    if parts.store.len() as u64 >= MOST_EVENTS {
        let cut = Cut::FullEvents;
        return Err(Refusal::Update { place: 1, cut });
    }
    let event = match made(alloc, id, at, event) {
        Ok(event) => event,
        Err(none) => return Err(Refusal::Memory(none)),
    };
    arrive_new(alloc, parts, tally, event)
}
