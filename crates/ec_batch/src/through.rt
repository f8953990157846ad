//! A walk through a whole batch, and one from no event to a whole list.
ghost use Rattle.std.specs.Prelude.{◌≡◌, ◌+◌, ◌≤◌, ◌<◌, ◌^◌, [], ◌∷◌, List, OnOk, length, map};
ghost use Rattle.indexmap.specs.IndexMap.{index_map_len};
ghost use Rattle.ec_axioms.specs.Calculus.{PlainEvent};
ghost use Rattle.ec_axioms.specs.Events.{event_of, plain_update};
ghost use Rattle.ec_parts.specs.StandFor.{view_of};
ghost use Rattle.ec_batch.specs.Build.{HaveOwnIds, history_from};
ghost use Rattle.ec_batch.specs.Limits.{IsWithinLimits};
ghost use Rattle.ec_batch.specs.Walk.{HasWalked, HasWalkedTo};
ghost use Rattle.ec_batch.specs.Through.{GoesThrough};

use crate::refusal::Refusal;
use crate::walk::{Stop, Walk, assert_event, update};
use ec_axioms::{Event, Steps, Update};
use ec_lists::NoMemory;
use ec_moment::Moment;
use ec_parts::{Parts, Tally};
use ec_rows::{MarkRow, SpanRow, TimeRow};
use std::alloc::Global;
use std::sync::ledger::Ledger;

/// Walks through a batch of updates. `Err`: the first refusal with its place from 1, or memory ran out; the walk stays where it
/// was then.
pub(crate) fn walk_through<T: Moment, M: MarkRow<T>, I: SpanRow<T>, X: TimeRow<T>, L: Ledger>(
    alloc: Global,
    parts: &mut Parts<T, M, I, X>,
    tally: &mut Tally,
    walk: &mut Walk<T>,
    batch: &[Update<T>],
    steps: &mut Steps<L>,
) -> Result<(), Refusal>
    requires walked { HasWalked T.rank parts.old.checked (view_of parts.old) tally.old walk.old }
    requires few { length batch.now < 2 ^ 32 }
    ensures goes { (soon : List PlainEvent) → HasWalkedTo T.rank parts.old.checked parts.old.store.events soon (view_of parts.old) tally.old walk.old →
        GoesThrough T.rank parts.old.checked parts.old.store.events soon (map (plain_update T.rank) batch.now) (view_of parts.new) tally.new walk.new result }
    ensures theory { parts.new.checked ≡ parts.old.checked }
    ensures store { parts.new.store ≡ parts.old.store }
    ensures len { index_map_len walk.new.nets ≤ index_map_len walk.old.nets + length batch.now }
    ensures steps { steps.new ≤ steps.old + length batch.now }
{
    let mut place: u32 = 0;
    for one in batch {
        place += 1;
        match update(alloc, parts, tally, walk, one, steps) {
            Ok(()) => {}
            Err(Stop::Refused(cut)) => return Err(Refusal::Update { place, cut }),
            Err(Stop::Memory(none)) => return Err(Refusal::Memory(none)),
        }
    }
    Ok(())
}

/// Walks through a batch of one update. `Err`: it is refused, at place 1, or memory ran out; the walk stays where it was then.
pub(crate) fn walk_one<T: Moment, M: MarkRow<T>, I: SpanRow<T>, X: TimeRow<T>, L: Ledger>(
    alloc: Global,
    parts: &mut Parts<T, M, I, X>,
    tally: &mut Tally,
    walk: &mut Walk<T>,
    one: &Update<T>,
    steps: &mut Steps<L>,
) -> Result<(), Refusal>
    requires walked { HasWalked T.rank parts.old.checked (view_of parts.old) tally.old walk.old }
    ensures goes { (soon : List PlainEvent) → HasWalkedTo T.rank parts.old.checked parts.old.store.events soon (view_of parts.old) tally.old walk.old →
        GoesThrough T.rank parts.old.checked parts.old.store.events soon (plain_update T.rank one.now ∷ []) (view_of parts.new) tally.new walk.new result }
    ensures theory { parts.new.checked ≡ parts.old.checked }
    ensures store { parts.new.store ≡ parts.old.store }
    ensures len { index_map_len walk.new.nets ≤ index_map_len walk.old.nets + 1 }
    ensures steps { steps.new ≤ steps.old + 1 }
{
    match update(alloc, parts, tally, walk, one, steps) {
        Ok(()) => Ok(()),
        Err(Stop::Refused(cut)) => Err(Refusal::Update { place: 1, cut }),
        Err(Stop::Memory(none)) => Err(Refusal::Memory(none)),
    }
}

/// Walks from no event to a list of events, which is within the limits. `Err`: memory ran out.
pub fn walk_in<T: Moment, M: MarkRow<T>, I: SpanRow<T>, X: TimeRow<T>>(
    alloc: Global,
    parts: &mut Parts<T, M, I, X>,
    tally: &mut Tally,
    walk: &mut Walk<T>,
    list: &[Event<T>],
) -> Result<(), NoMemory>
    requires walked { HasWalkedTo T.rank parts.old.checked parts.old.store.events [] (view_of parts.old) tally.old walk.old }
    requires own { HaveOwnIds (map (event_of T.rank) list.now) }
    requires within { IsWithinLimits parts.old.checked (history_from (map (event_of T.rank) list.now)) }
    ensures goes { OnOk result (HasWalkedTo T.rank parts.old.checked parts.old.store.events (history_from (map (event_of T.rank) list.now)) (view_of parts.new) tally.new walk.new) }
    ensures theory { parts.new.checked ≡ parts.old.checked }
    ensures store { parts.new.store ≡ parts.old.store }
    ensures len { index_map_len walk.new.nets ≤ index_map_len walk.old.nets + length list.now }
{
    for event in list {
        match assert_event(alloc, parts, tally, walk, event) {
            Ok(()) => {}
            Err(Stop::Refused(_)) => unreachable!(),
            Err(Stop::Memory(none)) => return Err(none),
        }
    }
    Ok(())
}
