//! The sweep from instant to instant between two lists of events.
ghost use Rattle.std.specs.Prelude.{◌≡◌, ◌+◌, ◌≤◌, None, Some, IsTrue, IfSome, IfNone, IfOk, OnOk, List, option_map, slice_get};
ghost use Rattle.ec_axioms.specs.Calculus.{PlainEvent};
ghost use Rattle.ec_store.specs.Store.{history_of};
ghost use Rattle.ec_parts.specs.declared.tally.Tally.{Tally as PartsTally};
ghost use Rattle.ec_parts.specs.StandFor.{view_of};
ghost use Rattle.ec_sweep.specs.Planning.{LeadsSomewhere};
ghost use Rattle.ec_sweep.specs.State.{IsUnderway};
ghost use Rattle.ec_sweep.specs.Sweeping.{IsInOrder, IsSweepingTo, NothingLeft, NothingLeftBefore, has_visit_at};
ghost use Rattle.ec_sweep.specs.Visiting.{most_steps, steps_for};

use crate::dirty::Dirty;
use crate::due::take_due;
use crate::lists::Lists;
use crate::look::look;
use crate::next_time::earlier;
use crate::progress::Progress;
use crate::scratch::Scratch;
use crate::settle_all::settle_all;
use ec_axioms::Steps;
use ec_delta::{Looked, Planned};
use ec_lists::NoMemory;
use ec_moment::Moment;
use ec_numbered::Agenda;
use ec_parts::Parts;
use ec_revise::Change;
use ec_rows::{MarkRow, SpanRow, TimeRow};
use std::sync::ledger::Ledger;

/// What a sweep keeps while it goes from instant to instant.
#[derive(Drop)]
pub(crate) struct Sweep<T: Moment> {
    /// The instant that was visited last.
    pub last: Option<T>,
    pub dirty: Dirty,
    pub agenda: Agenda<T>,
    pub progress: Progress,
    pub looked: Looked,
    pub planned: Planned<T>,
}

impl<T: Moment> Sweep<T> {
    /// The next instant to visit: the earliest at which something is due, or an event stands in one list alone. `None` exactly
    /// where there is none.
    fn next_visit(&self, change: &Change<T>) -> Option<T>
        requires { IsInOrder T.rank change.now }
        ensures first { IfSome result (λ at. NothingLeftBefore T.rank change.now self.now.progress self.now.agenda (T.rank at)) }
        ensures there { IfSome result (λ at. IsTrue (has_visit_at T.rank change.now self.now.progress self.now.agenda (T.rank at))) }
        ensures none { IfNone result (NothingLeft change.now self.now.progress self.now.agenda) }
    {
        let _ = self.agenda.is_empty();
        let removed = next_removed(change, self.progress.removed);
        let added = next_added(change, self.progress.added);
        let single = earlier(removed, added);
        let due = self.agenda.first_time();
        earlier(due, single)
    }

    /// Visits the next instant: looks at its entries, and settles the properties that it bears on. `Err`: memory ran out, and
    /// the sweep is of no further use.
    fn visit<M: MarkRow<T>, I: SpanRow<T>, X: TimeRow<T>, L: Ledger>(
        &mut self,
        scratch: &mut Scratch,
        parts: &Parts<T, M, I, X>,
        change: &Change<T>,
        at: T,
        steps: &mut Steps<L>,
    ) -> Result<(), NoMemory>
        requires leads { LeadsSomewhere T.rank parts.now.checked (view_of parts.now) change.now }
        requires first { NothingLeftBefore T.rank change.now self.old.progress self.old.agenda (T.rank at) }
        requires there { IsTrue (has_visit_at T.rank change.now self.old.progress self.old.agenda (T.rank at)) }
        requires sweeping { IsSweepingTo T.rank parts.now.checked (view_of parts.now) change.now self.old }
        ensures sweeping { OnOk result (IsSweepingTo T.rank parts.now.checked (view_of parts.now) change.now self.new) }
        ensures last { OnOk result (self.new.last ≡ Some at) }
        ensures most { (new : List PlainEvent) (tally : PartsTally) → IsUnderway T.rank parts.now.checked new (view_of parts.now) tally change.now →
            steps.new + steps_for change.now self.old.looked self.old.progress ≤ steps.old + most_steps parts.now.checked (history_of T.rank parts.now.store.events) new change.now }
        ensures steps { OnOk result (steps.new + steps_for change.now self.old.looked self.old.progress ≤ steps.old + steps_for change.now self.new.looked self.new.progress) }
    {
        let _ = (parts.props.len(), parts.store.len());
        let due = take_due(scratch, &mut self.agenda, at)?;
        let turns = look(
            scratch,
            parts,
            change,
            &self.dirty,
            &due,
            at,
            &mut self.progress,
            &mut self.looked,
            steps,
        )?;
        settle_all(
            scratch,
            parts,
            &turns,
            &due,
            at,
            &mut self.dirty,
            &mut self.agenda,
            &mut self.planned,
        )?;
        scratch.due = due;
        scratch.turns = turns;
        self.last = Some(at);
        Ok(())
    }
}

/// The time of the removed event at a place, if there is one.
fn next_removed<T: Moment>(change: &Change<T>, place: usize) -> Option<T>
    ensures { result ≡ option_map (λ removal. removal.at) (slice_get change.now.remove place) }
{
    if place < change.remove.len() {
        Some(change.remove.get(place).at)
    } else {
        None
    }
}

/// The time of the added event at a place, if there is one.
fn next_added<T: Moment>(change: &Change<T>, place: usize) -> Option<T>
    ensures { result ≡ option_map (λ event. event.at) (slice_get change.now.add place) }
{
    if place < change.add.len() {
        Some(change.add.get(place).at)
    } else {
        None
    }
}

/// Sweeps over the instants between the list of the parts and the one that a change leads to. It only reads the parts. `Err`:
/// memory ran out.
pub(crate) fn sweep_over<T: Moment, M: MarkRow<T>, I: SpanRow<T>, X: TimeRow<T>, L: Ledger>(
    lists: &mut Lists<T>,
    parts: &Parts<T, M, I, X>,
    change: &Change<T>,
    steps: &mut Steps<L>,
) -> Result<Sweep<T>, NoMemory>
    requires { LeadsSomewhere T.rank parts.now.checked (view_of parts.now) change.now }
    ensures swept { IfOk result (λ sweep. IsSweepingTo T.rank parts.now.checked (view_of parts.now) change.now sweep) }
    ensures done { IfOk result (λ sweep. NothingLeft change.now sweep.progress sweep.agenda) }
    ensures steps { (new : List PlainEvent) (tally : PartsTally) → IsUnderway T.rank parts.now.checked new (view_of parts.now) tally change.now →
        steps.new ≤ steps.old + most_steps parts.now.checked (history_of T.rank parts.now.store.events) new change.now }
{
    let _ = (parts.props.len(), parts.store.len());
    let mut sweep = lists.take_sweep();
    while let Some(at) = sweep.next_visit(change) {
        sweep.visit(&mut lists.scratch, parts, change, at, steps)?;
    }
    Ok(sweep)
}
