//! One event comes into the tables of the list of the store, or a limit refuses it.
ghost use Rattle.std.specs.Prelude.{◌≡◌, ◌+◌, ◌≤◌, List, false, IfOk, length};
ghost use Rattle.ec_axioms.specs.Calculus.{PlainEvent};
ghost use Rattle.ec_axioms.specs.Changes.{has_id};
ghost use Rattle.ec_axioms.specs.Events.{event_of};
ghost use Rattle.ec_axioms.specs.Links.{most_events};
ghost use Rattle.ec_store.specs.Store.{history_of};
ghost use Rattle.ec_parts.specs.StandFor.{StandFor, view_of};
ghost use Rattle.ec_batch.specs.ComingIn.{HasComeAhead, IsAhead, IsAheadOfSome, IsLet};
ghost use Rattle.ec_batch.specs.Limits.{IsWithinLimits};

use crate::idle::forget_idle;
use crate::limited::take_in;
use crate::refusal::Refusal;
use crate::walk::Stop;
use ec_axioms::Event;
use ec_context::EntryList;
use ec_moment::Moment;
use ec_parts::{Parts, Tally, enter};
use ec_rows::{MarkRow, SpanRow, TimeRow};
use ec_terms::PropId;
use std::alloc::Global;

/// Lets an event into the tables, whose identity is absent, and gives its entries. `fresh` gets the properties that were not kept
/// before. `Err`: a limit refuses it, or memory ran out; then the parts stand for the list of the store as before.
pub fn let_in<T: Moment, M: MarkRow<T>, I: SpanRow<T>, X: TimeRow<T>>(
    alloc: Global,
    parts: &mut Parts<T, M, I, X>,
    tally: &mut Tally,
    event: &Event<T>,
    fresh: &mut Vec<PropId>,
) -> Result<EntryList, Refusal>
    requires stand { StandFor T.rank parts.old.checked (history_of T.rank parts.old.store.events) (view_of parts.old) tally.old }
    requires within { IsWithinLimits parts.old.checked (history_of T.rank parts.old.store.events) }
    requires absent { has_id event.now.id (history_of T.rank parts.old.store.events) ≡ false }
    requires room { length (history_of T.rank parts.old.store.events) + 1 ≤ most_events }
    ensures let_in { IsLet T.rank parts.old.checked parts.old.store.events (event_of T.rank event.now) (view_of parts.new) tally.new fresh.new.items result }
    ensures theory { parts.new.checked ≡ parts.old.checked }
    ensures store { IfOk result (λ list. parts.new.store ≡ parts.old.store) }
{
    let list = match enter(alloc, parts, event, fresh) {
        Ok(list) => list,
        Err(none) => {
            forget_idle(parts, fresh.as_slice());
            return Err(Refusal::Memory(none));
        }
    };
    if let Err(cut) = take_in(parts, tally, &list) {
        forget_idle(parts, fresh.as_slice());
        return Err(Refusal::Update { place: 1, cut });
    }
    Ok(list)
}

/// Lets an event into tables that are ahead of the store, of a list from which its identity is absent. `Err`: a limit refuses
/// it, or memory ran out. Then the tables are of no more use: what was entered is not taken back.
pub fn come_in<T: Moment, M: MarkRow<T>, I: SpanRow<T>, X: TimeRow<T>>(
    alloc: Global,
    parts: &mut Parts<T, M, I, X>,
    tally: &mut Tally,
    event: &Event<T>,
) -> Result<(), Stop>
    requires ahead { IsAheadOfSome T.rank parts.old.checked (event_of T.rank event.now) (view_of parts.old) tally.old }
    ensures come { (now soon : List PlainEvent) → IsAhead T.rank parts.old.checked (event_of T.rank event.now) (view_of parts.old) tally.old now soon →
        HasComeAhead T.rank parts.old.checked now soon (event_of T.rank event.now) (view_of parts.new) tally.new result }
    ensures theory { parts.new.checked ≡ parts.old.checked }
    ensures store { parts.new.store ≡ parts.old.store }
{
    let mut fresh = Vec::new(alloc);
    let list = match enter(alloc, parts, event, &mut fresh) {
        Ok(list) => list,
        Err(none) => return Err(Stop::Memory(none)),
    };
    match take_in(parts, tally, &list) {
        Ok(()) => Ok(()),
        Err(cut) => Err(Stop::Refused(cut)),
    }
}
