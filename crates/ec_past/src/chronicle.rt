//! The chronicle.
ghost use Rattle.std.specs.Prelude.{◌≡◌, ◌+◌, ◌<◌, ◌≤◌, ◌^◌, [], ◌∷◌, List, None, Ok, IfOk, OnOk, IsTrue, length, map};
ghost use Rattle.ec_terms.specs.Term.{ground_of, names_are_names};
ghost use Rattle.ec_axioms.specs.Calculus.{PlainEvent};
ghost use Rattle.ec_axioms.specs.Changes.{asserting, retracting};
ghost use Rattle.ec_axioms.specs.Events.{plain_update};
ghost use Rattle.ec_replies.specs.Past.{commit_weight, empty_past, first_kept, list_after};
ghost use Rattle.ec_replies.specs.Updates.{updated_by};
ghost use Rattle.ec_engine.specs.Revise.{IsRevised, most_steps};
ghost use Rattle.ec_past.specs.Chronicles.{IsCommitted, IsPastAfter, IsReadyAt, journal_after, kept_view};
ghost use Rattle.ec_past.specs.Logged.{plain_records};
ghost use Rattle.ec_past.specs.Records.{AreRecordsOf, added};
ghost use Rattle.ec_past.specs.Viewing.{still_kept, way_steps};

use crate::journal::Journal;
use crate::log_record::LogRecord;
use crate::past_engine::PastEngine;
use crate::recording::records_of;
use crate::refusing::{refused_arrival, refused_batch, refused_departure, store_of};
use ec_axioms::{Event, Seen, Steps, Update};
use ec_check::Checked;
use ec_engine::{Engine, Refusal};
use ec_lists::NoMemory;
use ec_moment::Moment;
use ec_parts::boxed;
use ec_rows::{MarkRow, SpanRow, TimeRow};
use ec_terms::{GroundRef, Name, Sequence};
use std::alloc::Global;
use std::marker::Model;
use std::sync::ledger::Ledger;

/// A list of events under a theory, with all that follows from it, and the past of the list. Contracts see the theory, the list and
/// the past.
#[derive(Drop)]
pub struct Chronicle<T: Moment, M: MarkRow<T>, I: SpanRow<T>, X: TimeRow<T>> {
    engine: Engine<T, M, I, X>,
    journal: Box<Journal<T>>,
    /// Stays at the list of the past that was asked last.
    viewed: Option<Box<PastEngine<T, M, I, X>>>,
    alloc: Global,
}

impl<T: Moment, M: MarkRow<T>, I: SpanRow<T>, X: TimeRow<T>> Model for Chronicle<T, M, I, X> {
    ghost use Rattle.std.specs.Prelude.{option_map};
    ghost use Rattle.ec_past.specs.Chronicles.{IsViewing, PlainChronicle};
    ghost use Rattle.ec_past.specs.Journals.{past_of};

    ghost Value = { PlainChronicle };

    ghost view = { λ chronicle. record { theory = chronicle.engine.theory; events = chronicle.engine.events; past = past_of chronicle.engine.events chronicle.journal.value; viewed = option_map (λ view. view.value.at) chronicle.viewed } };

    ghost invariant = { λ chronicle. IsViewing chronicle.engine.theory chronicle.engine.events chronicle.journal.value (option_map (λ view. view.value) chronicle.viewed) };
}

impl<T: Moment, M: MarkRow<T>, I: SpanRow<T>, X: TimeRow<T>> Chronicle<T, M, I, X> {
    /// A chronicle of no event, before the first update. `Err`: memory ran out.
    pub fn new(alloc: Global, checked: Checked) -> Result<Chronicle<T, M, I, X>, NoMemory>
        ensures { IfOk result (λ chronicle. chronicle ≡ record { theory = checked; events = []; past = empty_past; viewed = None }) }
    {
        let engine = Engine::new(alloc, checked)?;
        let journal = boxed(alloc, Journal::new(alloc)?)?;
        let _ = store_of(&engine); // no event is a history within the limits
        Ok(Chronicle {
            engine,
            journal,
            viewed: None,
            alloc,
        })
    }

    /// The engine of the present list.
    pub fn engine(&self) -> &Engine<T, M, I, X>
        ensures theory { result.now.theory ≡ self.now.theory }
        ensures events { result.now.events ≡ self.now.events }
    {
        let _ = &self.journal;
        &self.engine
    }

    /// How many updates were accepted.
    pub fn count(&self) -> u64
        ensures { result ≡ self.now.past.count }
    {
        let _ = &self.engine;
        self.journal.count()
    }

    /// The least number of accepted updates whose list can still be asked about.
    pub fn first(&self) -> u64
        ensures { result ≡ first_kept self.now.past }
    {
        let _ = &self.engine;
        self.journal.first()
    }

    /// Asserts one event. `Err`: it is refused, or memory ran out; then the list and the past are as they were. What refuses it for
    /// its identity or for the number of events is always told.
    pub fn assert<L: Ledger>(
        &mut self,
        id: Name,
        at: T,
        event: &GroundRef<'_>,
        steps: &mut Steps<L>,
    ) -> Result<Seen, Refusal>
        requires named { IsTrue (names_are_names (ground_of event.now)) }
        ensures revised { IsRevised self.old.theory self.old.events (asserting (record { id = id; rank = T.rank at; term = ground_of event.now }) ∷ []) result self.new.events }
        ensures theory { self.new.theory ≡ self.old.theory }
        ensures past { IsPastAfter 1 self.old.events self.old.past result self.new.past }
        ensures viewed { self.new.viewed ≡ still_kept self.new.past self.old.viewed }
        ensures steps { steps.new ≤ steps.old + most_steps self.old.theory self.old.events (asserting (record { id = id; rank = T.rank at; term = ground_of event.now }) ∷ []) }
    {
        let records = match record_added(self.alloc, &self.journal, &id, at, event) {
            Ok(records) => records,
            Err(none) => return Err(refused_arrival(&self.engine, id, none)),
        };
        let made = self.engine.assert(id, at, event, steps);
        settle_made(&mut self.journal, records, &made);
        drop_gone(&mut self.viewed, self.journal.first());
        made
    }

    /// Retracts the event of an identity. `Err`: no event has the identity, or memory ran out; then the list and the past are as they
    /// were. That no event has it is always told.
    pub fn retract<L: Ledger>(&mut self, id: Name, steps: &mut Steps<L>) -> Result<Seen, Refusal>
        ensures revised { IsRevised self.old.theory self.old.events (retracting id ∷ []) result self.new.events }
        ensures theory { self.new.theory ≡ self.old.theory }
        ensures past { IsPastAfter 1 self.old.events self.old.past result self.new.past }
        ensures viewed { self.new.viewed ≡ still_kept self.new.past self.old.viewed }
        ensures steps { steps.new ≤ steps.old + most_steps self.old.theory self.old.events (retracting id ∷ []) + 1 }
    {
        let mut batch = match Vec::with_capacity(self.alloc, 1) {
            Ok(batch) => batch,
            Err(error) => {
                return Err(refused_departure(self.engine(), id, NoMemory::from(error)));
            }
        };
        batch.push_reserved(Update::Retract(id));
        self.commit(batch.as_slice(), steps)
    }

    /// Applies a batch of updates in order, all of it or nothing. `Err`: the first update that is refused, with its place from 1, or
    /// memory ran out; then the list and the past are as they were. Of the first update, these refusals are always told: its identity
    /// is present, its identity is absent, there are too many events.
    pub fn commit<L: Ledger>(
        &mut self,
        batch: &[Update<T>],
        steps: &mut Steps<L>,
    ) -> Result<Seen, Refusal>
        requires few { length batch.now < 2 ^ 32 }
        ensures committed { IsCommitted self.old.theory self.old.events (map (plain_update T.rank) batch.now) result self.new.events }
        ensures theory { self.new.theory ≡ self.old.theory }
        ensures past { IsPastAfter (commit_weight (map (plain_update T.rank) batch.now)) self.old.events self.old.past result self.new.past }
        ensures viewed { self.new.viewed ≡ still_kept self.new.past self.old.viewed }
        ensures steps { steps.new ≤ steps.old + most_steps self.old.theory self.old.events (map (plain_update T.rank) batch.now) + length batch.now }
    {
        let records = match records_before(self.alloc, &self.journal, &self.engine, batch, steps) {
            Ok(records) => records,
            Err(none) => return Err(refused_batch(&self.engine, batch, none)),
        };
        let made = self.engine.revise(batch, steps);
        settle_made(&mut self.journal, records, &made);
        drop_gone(&mut self.viewed, self.journal.first());
        made
    }

    /// Makes the list after so many accepted updates ready to be asked (`at`). `Err`: memory ran out.
    ///
    /// The way goes from the list that was asked last, so that one list is asked again and again without a step.
    pub fn go_to<L: Ledger>(&mut self, k: u64, steps: &mut Steps<L>) -> Result<(), NoMemory>
        requires kept { first_kept self.old.past ≤ k }
        requires past { k ≤ self.old.past.count }
        ensures ready { OnOk result (IsReadyAt k self.new) }
        ensures theory { self.new.theory ≡ self.old.theory }
        ensures events { self.new.events ≡ self.old.events }
        ensures past { self.new.past ≡ self.old.past }
        ensures steps { steps.new ≤ steps.old + way_steps self.old.theory self.old.events self.old.past self.old.viewed k }
    {
        let count = self.journal.count();
        if k == count {
            return Ok(());
        }
        let mut view = match self.viewed.take() {
            Some(view) => view,
            None => PastEngine::of_present(self.alloc, &self.engine, count, steps)?,
        };
        let gone = view.go_to(self.alloc, &self.engine, &self.journal, k, steps);
        self.viewed = Some(view);
        gone
    }

    /// The engine of the list after so many accepted updates, which is ready.
    pub fn at(&self, k: u64) -> &Engine<T, M, I, X>
        requires { IsReadyAt k self.now }
        ensures theory { result.now.theory ≡ self.now.theory }
        ensures list { result.now.events ≡ list_after k self.now.events self.now.past }
    {
        let _ = &self.engine;
        match &self.viewed {
            Some(view) if view.at() == k => view.engine(),
            _ => &self.engine,
        }
    }
}

/// Drops the engine of a list of the past that can be asked about no longer.
fn drop_gone<T: Moment, M: MarkRow<T>, I: SpanRow<T>, X: TimeRow<T>>(
    viewed: &mut Option<Box<PastEngine<T, M, I, X>>>,
    first: u64,
)
    ensures { viewed.new ≡ kept_view (λ view. view.value.at) first viewed.old }
{
    let Some(view) = &*viewed else {
        return;
    };
    if view.at() < first {
        *viewed = None;
    }
}

/// The record of an event that is about to be asserted, where a journal has room for an update. `Err`: memory ran out.
fn record_added<T: Moment>(
    alloc: Global,
    journal: &Journal<T>,
    id: &Name,
    at: T,
    event: &GroundRef<'_>,
) -> Result<Sequence<LogRecord<T>>, NoMemory>
    requires named { IsTrue (names_are_names (ground_of event.now)) }
    ensures records { IfOk result (λ records. plain_records T.rank records ≡ added (record { id = id.now; rank = T.rank at; term = ground_of event.now }) ∷ []) }
    ensures few { IfOk result (λ records. length records ≡ 1) }
    ensures count { OnOk result (journal.now.count + 1 < 2 ^ 64) }
{
    journal.reserve()?;
    let mut records = Vec::with_capacity(alloc, 1)?;
    let term = event.to_ground(alloc)?;
    records.push_reserved(LogRecord::Added(Event {
        id: id.copied(),
        at,
        term,
    }));
    Ok(Sequence::from_vec(records))
}

/// The records of a batch that is about to be applied to the list of an engine, where a journal has room for an update. `Err`: memory
/// ran out.
fn records_before<T: Moment, M: MarkRow<T>, I: SpanRow<T>, X: TimeRow<T>, L: Ledger>(
    alloc: Global,
    journal: &Journal<T>,
    engine: &Engine<T, M, I, X>,
    batch: &[Update<T>],
    steps: &mut Steps<L>,
) -> Result<Sequence<LogRecord<T>>, NoMemory>
    ensures records { IfOk result (λ records. (after : List PlainEvent) → updated_by engine.now.theory engine.now.events (map (plain_update T.rank) batch.now) ≡ Ok after →
        AreRecordsOf engine.now.theory engine.now.events (map (plain_update T.rank) batch.now) (plain_records T.rank records)) }
    ensures few { IfOk result (λ records. length records ≤ length batch.now) }
    ensures count { OnOk result (journal.now.count + 1 < 2 ^ 64) }
    ensures steps { steps.new ≤ steps.old + length batch.now }
{
    journal.reserve()?;
    records_of(alloc, store_of(engine), batch, steps)
}

/// Keeps the records of an update that was made, and drops those of one that was refused.
fn settle_made<T: Moment>(
    journal: &mut Journal<T>,
    records: Sequence<LogRecord<T>>,
    made: &Result<Seen, Refusal>,
)
    requires count { journal.old.count + 1 < 2 ^ 64 }
    requires few { length records < 2 ^ 32 }
    ensures { journal.new ≡ journal_after (plain_records T.rank records) made.now journal.old }
{
    if made.is_ok() {
        journal.settle(records);
    }
}
