//! The engine.
ghost use Rattle.std.specs.Prelude.{◌≡◌, ◌+◌, ◌≤◌, ◌<◌, ◌^◌, [], ◌∷◌, IsTrue, IfOk, length, map};
ghost use Rattle.ec_terms.specs.Term.{ground_of, names_are_names};
ghost use Rattle.ec_axioms.specs.Calculus.{PlainEvent};
ghost use Rattle.ec_axioms.specs.Changes.{asserting, entry_count, has_event, is_history, retracting};
ghost use Rattle.ec_axioms.specs.Events.{event_of, plain_update};
ghost use Rattle.ec_rows.specs.Ordered.{is_ascending};
ghost use Rattle.ec_parts.specs.StandFor.{StandFor, view_of};
ghost use Rattle.ec_batch.specs.Build.{HaveOwnIds, history_from};
ghost use Rattle.ec_batch.specs.Limits.{IsWithinLimits};
ghost use Rattle.ec_engine.specs.Revise.{HasTails, IsRevised, most_steps};
ghost use Rattle.ec_engine.specs.Standing.{IsStanding};
ghost use Rattle.ec_watch.specs.Watched.{comes_first};

use crate::arriving::{Arrival, arrive};
use crate::building::fill;
use crate::carrying::{Listed, Room, carry_change, carry_out};
use ec_axioms::{Event, Seen, Steps, Update};
use ec_batch::{Refusal, attempt, attempt_one};
use ec_check::Checked;
use ec_context::Rules;
use ec_lists::NoMemory;
use ec_moment::Moment;
use ec_parts::{Parts, Tally, boxed, new_parts};
use ec_rows::{MarkRow, SpanRow, TimeRow};
use ec_terms::{GroundRef, Name};
use ec_watch::{Row, Tails};
use std::alloc::Global;
use std::marker::Model;
use std::mem;
use std::sync::ledger::Ledger;

/// The counts of a change that changed nothing.
const NO_CHANGE: Seen = Seen {
    seen: 0,
    on: 0,
    off: 0,
    props: 0,
};

/// A list of events under a theory, with all that follows from it. The list has no more events, mentions and links than there may be.
/// Contracts see the theory and the list.
#[derive(Drop)]
pub struct Engine<T: Moment, M: MarkRow<T>, I: SpanRow<T>, X: TimeRow<T>> {
    /// In a box, as the room is, so that an engine is small to move.
    parts: Box<Parts<T, M, I, X>>,
    tally: Tally,
    room: Box<Room<T>>,
    alloc: Global,
}

impl<T: Moment, M: MarkRow<T>, I: SpanRow<T>, X: TimeRow<T>> Model for Engine<T, M, I, X> {
    ghost use Rattle.ec_store.specs.Store.{history_of};
    ghost use Rattle.ec_parts.specs.StandFor.{view_of};
    ghost use Rattle.ec_engine.specs.Standing.{Standing, IsEngine};

    ghost Value = { Standing };

    ghost view = { λ engine. record { theory = engine.parts.value.checked; events = history_of T.rank engine.parts.value.store.events } };

    ghost invariant = { λ engine. IsEngine T.rank engine.parts.value.checked (view_of engine.parts.value) engine.tally };
}

impl<T: Moment, M: MarkRow<T>, I: SpanRow<T>, X: TimeRow<T>> Engine<T, M, I, X> {
    /// An engine of no event, under a theory. `Err`: memory ran out.
    pub fn new(alloc: Global, checked: Checked) -> Result<Engine<T, M, I, X>, NoMemory>
        ensures { IfOk result (λ engine. engine ≡ record { theory = checked; events = [] }) }
    {
        let (parts, tally) = boxed_parts(alloc, checked)?;
        Ok(Engine {
            parts,
            tally,
            room: boxed(alloc, Room::new(alloc))?,
            alloc,
        })
    }

    /// An engine of the history that some events make, in whatever order they come, under a theory. `Err`: memory ran out.
    ///
    /// Each entry of the events is at most one step, and so is each event.
    pub fn build<L: Ledger>(
        alloc: Global,
        checked: Checked,
        list: &[Event<T>],
        steps: &mut Steps<L>,
    ) -> Result<Engine<T, M, I, X>, NoMemory>
        requires own { HaveOwnIds (map (event_of T.rank) list.now) }
        requires within { IsWithinLimits checked (history_from (map (event_of T.rank) list.now)) }
        ensures built { IfOk result (λ engine. engine ≡ record { theory = checked; events = history_from (map (event_of T.rank) list.now) }) }
        ensures history { IfOk result (λ engine. IsTrue (is_history engine.events)) }
        ensures members { IfOk result (λ engine. (event : PlainEvent) → has_event engine.events event ≡ has_event (map (event_of T.rank) list.now) event) }
        ensures steps { steps.new ≤ steps.old + entry_count checked (history_from (map (event_of T.rank) list.now)) + length list.now }
    {
        let (mut parts, mut tally) = boxed_parts(alloc, checked)?;
        let mut room = boxed(alloc, Room::new(alloc))?;
        fill(alloc, &mut room, &mut parts, &mut tally, list, steps)?;
        Ok(Engine {
            parts,
            tally,
            room,
            alloc,
        })
    }

    /// The parts, which stand for the list.
    pub fn parts(&self) -> &Parts<T, M, I, X>
        ensures stand { IsStanding T.rank self.now.theory self.now.events (view_of result.now) }
        ensures theory { result.now.checked ≡ self.now.theory }
    {
        let _ = &self.tally;
        &self.parts
    }

    /// Applies a batch of updates in order, all of it or nothing, and counts what it changed. `Err`: the first update that is
    /// refused, with its place from 1, or memory ran out; then the list is as it was. Of the first update, these refusals take no
    /// memory and are always told: its identity is present, its identity is absent, there are too many events. A batch of no
    /// update takes no memory.
    ///
    /// The steps follow what the batch changes, and not how long the list is.
    pub fn revise<L: Ledger>(
        &mut self,
        batch: &[Update<T>],
        steps: &mut Steps<L>,
    ) -> Result<Seen, Refusal>
        requires few { length batch.now < 2 ^ 32 }
        ensures revised { IsRevised self.old.theory self.old.events (map (plain_update T.rank) batch.now) result self.new.events }
        ensures theory { self.new.theory ≡ self.old.theory }
        ensures steps { steps.new ≤ steps.old + most_steps self.old.theory self.old.events (map (plain_update T.rank) batch.now) }
    {
        let mut tails = Tails::new(self.alloc);
        self.revise_watched(batch, &[], &mut tails, steps)
    }

    /// Applies a batch as [`Engine::revise`] does, and leaves the tails of what is watched, from the list that was to the one that
    /// is. Tails are kept before anything changes, so that want of memory for them refuses the batch. `Err`: no tails are left.
    pub fn revise_watched<L: Ledger>(
        &mut self,
        batch: &[Update<T>],
        watched: &[Row],
        tails: &mut Tails<T>,
        steps: &mut Steps<L>,
    ) -> Result<Seen, Refusal>
        requires few { length batch.now < 2 ^ 32 }
        requires ascend { IsTrue (is_ascending comes_first watched.now) }
        ensures revised { IsRevised self.old.theory self.old.events (map (plain_update T.rank) batch.now) result self.new.events }
        ensures theory { self.new.theory ≡ self.old.theory }
        ensures tails { HasTails T.rank self.old.theory self.old.events self.new.events watched.now tails.new result }
        ensures steps { steps.new ≤ steps.old + most_steps self.old.theory self.old.events (map (plain_update T.rank) batch.now) }
    {
        tails.clear();
        if batch.is_empty() {
            return Ok(NO_CHANGE);
        }
        let parts = &mut *self.parts;
        let walk = match attempt(self.alloc, parts, &mut self.tally, batch, steps) {
            Ok(walk) => walk,
            Err(refusal) => return Err(refusal),
        };
        let room = &mut *self.room;
        let carried = carry_out(
            self.alloc,
            room,
            parts,
            &mut self.tally,
            walk,
            watched,
            steps,
        );
        let seen = match carried {
            Ok(seen) => seen,
            Err(none) => return Err(Refusal::Memory(none)),
        };
        mem::swap(&mut room.tails, tails);
        Ok(seen)
    }

    /// Asserts one event, as a batch of this update would. `Err`: it is refused, or memory ran out; then the list is as it was.
    /// What refuses it for its identity or for the number of events takes no memory and is always told.
    pub fn assert<L: Ledger>(
        &mut self,
        id: Name,
        at: T,
        event: &GroundRef<'_>,
        steps: &mut Steps<L>,
    ) -> Result<Seen, Refusal>
        requires named { IsTrue (names_are_names (ground_of event.now)) }
        ensures revised { IsRevised self.old.theory self.old.events (asserting (record { id = id; rank = T.rank at; term = ground_of event.now }) ∷ []) result self.new.events }
        ensures theory { self.new.theory ≡ self.old.theory }
        ensures steps { steps.new ≤ steps.old + most_steps self.old.theory self.old.events (asserting (record { id = id; rank = T.rank at; term = ground_of event.now }) ∷ []) }
    {
        let mut tails = Tails::new(self.alloc);
        self.assert_watched(id, at, event, &[], &mut tails, steps)
    }

    /// Asserts one event as [`Engine::assert`] does, and leaves the tails of what is watched, as [`Engine::revise_watched`] does.
    pub fn assert_watched<L: Ledger>(
        &mut self,
        id: Name,
        at: T,
        event: &GroundRef<'_>,
        watched: &[Row],
        tails: &mut Tails<T>,
        steps: &mut Steps<L>,
    ) -> Result<Seen, Refusal>
        requires named { IsTrue (names_are_names (ground_of event.now)) }
        requires ascend { IsTrue (is_ascending comes_first watched.now) }
        ensures revised { IsRevised self.old.theory self.old.events (asserting (record { id = id; rank = T.rank at; term = ground_of event.now }) ∷ []) result self.new.events }
        ensures theory { self.new.theory ≡ self.old.theory }
        ensures tails { HasTails T.rank self.old.theory self.old.events self.new.events watched.now tails.new result }
        ensures steps { steps.new ≤ steps.old + most_steps self.old.theory self.old.events (asserting (record { id = id; rank = T.rank at; term = ground_of event.now }) ∷ []) }
    {
        tails.clear();
        let parts = &mut *self.parts;
        let arrived = arrive(self.alloc, parts, &mut self.tally, id, at, event);
        let arrival = match arrived {
            Ok(arrival) => arrival,
            Err(refusal) => return Err(refusal),
        };
        let Arrival { change, fresh } = arrival;
        let listed = Listed {
            fresh: fresh.as_slice(),
            dying: &[],
        };
        let room = &mut *self.room;
        let carried = carry_change(
            room,
            parts,
            &mut self.tally,
            change,
            &listed,
            watched,
            steps,
        );
        let seen = match carried {
            Ok(seen) => seen,
            Err(none) => return Err(Refusal::Memory(none)),
        };
        mem::swap(&mut room.tails, tails);
        Ok(seen)
    }

    /// Retracts the event of an identity, as a batch of this update would. `Err`: no event has the identity, or memory ran out;
    /// then the list is as it was. That no event has it takes no memory and is always told.
    pub fn retract<L: Ledger>(&mut self, id: Name, steps: &mut Steps<L>) -> Result<Seen, Refusal>
        ensures revised { IsRevised self.old.theory self.old.events (retracting id ∷ []) result self.new.events }
        ensures theory { self.new.theory ≡ self.old.theory }
        ensures steps { steps.new ≤ steps.old + most_steps self.old.theory self.old.events (retracting id ∷ []) }
    {
        let mut tails = Tails::new(self.alloc);
        self.retract_watched(id, &[], &mut tails, steps)
    }

    /// Retracts an event as [`Engine::retract`] does, and leaves the tails of what is watched, as [`Engine::revise_watched`] does.
    pub fn retract_watched<L: Ledger>(
        &mut self,
        id: Name,
        watched: &[Row],
        tails: &mut Tails<T>,
        steps: &mut Steps<L>,
    ) -> Result<Seen, Refusal>
        requires ascend { IsTrue (is_ascending comes_first watched.now) }
        ensures revised { IsRevised self.old.theory self.old.events (retracting id ∷ []) result self.new.events }
        ensures theory { self.new.theory ≡ self.old.theory }
        ensures tails { HasTails T.rank self.old.theory self.old.events self.new.events watched.now tails.new result }
        ensures steps { steps.new ≤ steps.old + most_steps self.old.theory self.old.events (retracting id ∷ []) }
    {
        tails.clear();
        let parts = &mut *self.parts;
        let update = Update::Retract(id);
        let walk = match attempt_one(self.alloc, parts, &mut self.tally, &update, steps) {
            Ok(walk) => walk,
            Err(refusal) => return Err(refusal),
        };
        let room = &mut *self.room;
        let carried = carry_out(
            self.alloc,
            room,
            parts,
            &mut self.tally,
            walk,
            watched,
            steps,
        );
        let seen = match carried {
            Ok(seen) => seen,
            Err(none) => return Err(Refusal::Memory(none)),
        };
        mem::swap(&mut room.tails, tails);
        Ok(seen)
    }
}

/// The parts of no event under a theory, in a box.
fn boxed_parts<T: Moment, M: MarkRow<T>, I: SpanRow<T>, X: TimeRow<T>>(
    alloc: Global,
    checked: Checked,
) -> Result<(Box<Parts<T, M, I, X>>, Tally), NoMemory>
    ensures stand { IfOk result (λ made. StandFor T.rank checked [] (view_of made.0.value) made.1) }
    ensures theory { IfOk result (λ made. made.0.value.checked ≡ checked) }
    ensures tally { IfOk result (λ made. made.1 ≡ record { mentions = 0; links = 0 }) }
{
    let rules = Rules::new(alloc, checked)?;
    let (parts, tally) = new_parts(alloc, rules)?;
    Ok((boxed(alloc, parts)?, tally))
}
