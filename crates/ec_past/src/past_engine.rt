//! An engine of a list of the past.
ghost use Rattle.std.specs.Prelude.{◌≡◌, ◌+◌, ◌-◌, ◌*◌, ◌≤◌, ◌==◌, if◌then◌else◌, IfOk, OnOk, length};
ghost use Rattle.ec_axioms.specs.Changes.{entry_count};
ghost use Rattle.ec_past.specs.Journals.{AreSteps, past_of};
ghost use Rattle.ec_past.specs.Viewing.{IsViewOf, steps_on_the_way};

use crate::copying::{copied_checked, copied_events};
use crate::journal::Journal;
use crate::refusing::store_of;
use ec_axioms::Steps;
use ec_engine::{Engine, Refusal};
use ec_lists::NoMemory;
use ec_moment::Moment;
use ec_parts::boxed;
use ec_rows::{MarkRow, SpanRow, TimeRow};
use std::alloc::Global;
use std::marker::Model;
use std::sync::ledger::Ledger;

/// An engine that stays at the list of the past that was asked last. Contracts see the list, and after how many accepted updates it was
/// the present one.
#[derive(Drop)]
pub(crate) struct PastEngine<T: Moment, M: MarkRow<T>, I: SpanRow<T>, X: TimeRow<T>> {
    at: u64,
    engine: Engine<T, M, I, X>,
}

impl<T: Moment, M: MarkRow<T>, I: SpanRow<T>, X: TimeRow<T>> Model for PastEngine<T, M, I, X> {
    ghost use Rattle.ec_past.specs.Viewing.{PlainView};

    ghost Value = { PlainView };

    ghost view = { λ view. record { at = view.at; standing = view.engine } };
}

impl<T: Moment, M: MarkRow<T>, I: SpanRow<T>, X: TimeRow<T>> PastEngine<T, M, I, X> {
    /// After how many accepted updates the list was the present one.
    pub(crate) fn at(&self) -> u64
        ensures { result ≡ self.now.at }
    {
        self.at
    }

    /// The engine of the list.
    pub(crate) fn engine(&self) -> &Engine<T, M, I, X>
        ensures { result.now ≡ self.now.standing }
    {
        &self.engine
    }

    /// An engine of the present list once more. `Err`: memory ran out.
    pub(crate) fn of_present<L: Ledger>(
        alloc: Global,
        engine: &Engine<T, M, I, X>,
        count: u64,
        steps: &mut Steps<L>,
    ) -> Result<Box<PastEngine<T, M, I, X>>, NoMemory>
        ensures view { IfOk result (λ view. view.value ≡ record { at = count; standing = engine.now }) }
        ensures steps { steps.new ≤ steps.old + entry_count engine.now.theory engine.now.events + 2 * length engine.now.events }
    {
        let checked = copied_checked(alloc, engine.parts().checked.theory())?;
        let events = copied_events(alloc, store_of(engine), steps)?;
        let engine = Engine::build(alloc, checked, events.as_slice(), steps)?;
        boxed(alloc, PastEngine { at: count, engine })
    }

    /// Goes to the list after so many accepted updates, which is still kept. `Err`: memory ran out, and it stays where it is.
    pub(crate) fn go_to<L: Ledger>(
        &mut self,
        alloc: Global,
        present: &Engine<T, M, I, X>,
        journal: &Journal<T>,
        k: u64,
        steps: &mut Steps<L>,
    ) -> Result<(), NoMemory>
        requires led { AreSteps present.now.theory present.now.events journal.now.kept }
        requires viewed { IsViewOf present.now.theory present.now.events (past_of present.now.events journal.now) self.old }
        requires kept { journal.now.count - length journal.now.kept ≤ k }
        requires past { k ≤ journal.now.count }
        ensures there { OnOk result (self.new.at ≡ k) }
        ensures viewed { IsViewOf present.now.theory present.now.events (past_of present.now.events journal.now) self.new }
        ensures steps { steps.new ≤ steps.old + (if self.old.at == k then 0 else steps_on_the_way present.now.theory present.now.events (past_of present.now.events journal.now) self.old.at k) }
    {
        if self.at == k {
            return Ok(());
        }
        let way = journal.way(alloc, self.at, k)?;
        match self.engine.revise(way.as_slice(), steps) {
            Ok(_) => {
                self.at = k;
                Ok(())
            }
            Err(Refusal::Memory(none)) => Err(none),
            Err(Refusal::Update { .. }) => unreachable!(),
        }
    }
}
