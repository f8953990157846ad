//! The records of updates that are about to be made.
ghost use Rattle.std.specs.Prelude.{◌≡◌, ◌+◌, ◌≤◌, List, length, map, IfOk, IfSome, IfNone, Ok, option_map};
ghost use Rattle.std.specs.Option.{option_copied};
ghost use Rattle.ec_terms.specs.declared.theory.Theory.{Theory};
ghost use Rattle.ec_axioms.specs.Calculus.{PlainEvent};
ghost use Rattle.ec_axioms.specs.Events.{event_of, plain_update};
ghost use Rattle.ec_changes.specs.Found.{event_with};
ghost use Rattle.ec_replies.specs.Updates.{updated, updated_by};
ghost use Rattle.ec_store.specs.Store.{history_of};
ghost use Rattle.ec_past.specs.Logged.{plain_record, plain_records};
ghost use Rattle.ec_past.specs.Records.{AreMade, AreRecordsOf, IsRecordOf, redone};

use crate::log_record::{LogRecord, copied_event, last_of};
use ec_axioms::{Event, Steps, Update};
use ec_lists::NoMemory;
use ec_moment::Moment;
use ec_rows::TimeRow;
use ec_store::EventStore;
use ec_terms::{Name, Sequence};
use std::alloc::Global;
use std::sync::ledger::Ledger;

/// The event of an identity after some records on the list of a store. An event of the store takes one step.
fn event_after<'a, T: Moment, X: TimeRow<T>, L: Ledger>(
    store: &'a EventStore<T, X>,
    records: &'a [LogRecord<T>],
    id: &Name,
    steps: &mut Steps<L>,
) -> Option<&'a Event<T>>
    ensures event { (theory : Theory) → AreMade theory (history_of T.rank store.now.events) (plain_records T.rank records.now) →
        option_map (event_of T.rank) (option_copied result) ≡ event_with id.now (redone (plain_records T.rank records.now) (history_of T.rank store.now.events)) }
    ensures steps { steps.new ≤ steps.old + 1 }
{
    let _ = store.len(); // each event is the one under its slot
    match last_of(records, id) {
        Some(LogRecord::Added(event)) => Some(event),
        Some(LogRecord::Removed(_)) => None,
        None => match store.find(id) {
            Some(slot) => Some(store.event(slot, steps)),
            None => None,
        },
    }
}

/// The record of an update that is about to be made after those of some records on the list of a store. `None`: it retracts what
/// is absent. `Err`: memory ran out.
fn record_of<T: Moment, X: TimeRow<T>, L: Ledger>(
    alloc: Global,
    store: &EventStore<T, X>,
    records: &[LogRecord<T>],
    update: &Update<T>,
    steps: &mut Steps<L>,
) -> Result<Option<LogRecord<T>>, NoMemory>
    ensures recorded { IfOk result (λ found. (theory : Theory) → AreMade theory (history_of T.rank store.now.events) (plain_records T.rank records.now) →
        IsRecordOf theory (redone (plain_records T.rank records.now) (history_of T.rank store.now.events)) (plain_update T.rank update.now) (option_map (plain_record T.rank) found)) }
    ensures steps { steps.new ≤ steps.old + 1 }
{
    match update {
        Update::Assert(event) => Ok(Some(LogRecord::Added(copied_event(alloc, event)?))),
        Update::Retract(id) => match event_after(store, records, id, steps) {
            Some(event) => Ok(Some(LogRecord::Removed(copied_event(alloc, event)?))),
            None => Ok(None),
        },
    }
}

/// The records of a batch that is about to be made on the list of a store; of one that is refused, whatever. `Err`: memory ran out.
///
/// At most one step an update.
pub(crate) fn records_of<T: Moment, X: TimeRow<T>, L: Ledger>(
    alloc: Global,
    store: &EventStore<T, X>,
    batch: &[Update<T>],
    steps: &mut Steps<L>,
) -> Result<Sequence<LogRecord<T>>, NoMemory>
    ensures records { IfOk result (λ records. (theory : Theory) →
        (after : List PlainEvent) → updated_by theory (history_of T.rank store.now.events) (map (plain_update T.rank) batch.now) ≡ Ok after →
        AreRecordsOf theory (history_of T.rank store.now.events) (map (plain_update T.rank) batch.now) (plain_records T.rank records)) }
    ensures few { IfOk result (λ records. length records ≤ length batch.now) }
    ensures steps { steps.new ≤ steps.old + length batch.now }
{
    let mut records = Vec::with_capacity(alloc, batch.len())?;
    for update in batch {
        let Some(record) = record_of(alloc, store, records.as_slice(), update, steps)? else {
            return Ok(Sequence::new(alloc));
        };
        records.push(record)?;
    }
    Ok(Sequence::from_vec(records))
}
