//! Event files, read whole.
ghost use Rattle.std.specs.Prelude.{◌≡◌, ◌≤◌, ◌^◌, ℕ, List, [], Ok, IfOk, IfErr, IsTrue, length};
ghost use Rattle.ec_terms.specs.Term.{ground_of, names_are_names};
ghost use Rattle.ec_commands.specs.Lines.{lines_of};
ghost use Rattle.ec_lines.specs.ShownLine.{ShowsLine};
ghost use Rattle.ec_store.specs.Store.{history_of};
ghost use Rattle.ec_cert.specs.EventFile.{admitted, after_line, event_file, file_line_of, read_from};
ghost use Rattle.ec_cert.specs.Reading.{GoesOn, HasRead, IsFileFault};

use crate::event_fault::{EventFault, EventName};
use crate::file_line::{FileLine, read_line};
use crate::limits::Limits;
use ec_axioms::{Event, MOST_EVENTS};
use ec_check::Checked;
use ec_context::Rules;
use ec_lines::{Line, split_line};
use ec_lists::NoMemory;
use ec_moment::Moment;
use ec_rows::{MarkRow, SpanRow, TimeRow};
use ec_store::EventStore;
use ec_terms::{GroundRef, Name};
use std::alloc::Global;
use std::marker::Model;

/// The events of a file, and the theory that they are read under.
#[derive(Drop)]
pub struct EventFile<T: Moment, X: TimeRow<T>> {
    /// The theory, with its rules by the events that they are for.
    pub rules: Rules,
    pub store: EventStore<T, X>,
}

/// A file that is being read: its events so far, and the limits that it keeps. Contracts see the
/// theory, whether all limits are kept, and the events.
#[derive(Drop)]
struct Reading<T: Moment, M: MarkRow<T>, I: SpanRow<T>, X: TimeRow<T>> {
    store: EventStore<T, X>,
    limits: Limits<T, M, I, X>,
}

impl<T: Moment, M: MarkRow<T>, I: SpanRow<T>, X: TimeRow<T>> Model for Reading<T, M, I, X> {
    ghost use Rattle.ec_store.specs.Store.{history_of};
    ghost use Rattle.ec_cert.specs.Reading.{AreLimitsOf, EventsSoFar, keeps_all, theory_under};

    ghost Value = { EventsSoFar };

    ghost view = { λ reading. record { theory = theory_under reading.limits; all = keeps_all reading.limits; events = history_of T.rank reading.store.events } };

    ghost invariant = { λ reading. AreLimitsOf T.rank (history_of T.rank reading.store.events) reading.limits };
}

impl<T: Moment, M: MarkRow<T>, I: SpanRow<T>, X: TimeRow<T>> Reading<T, M, I, X> {
    /// The reading of a file, before its first line.
    fn new(alloc: Global, checked: Checked, all_limits: bool) -> Result<Self, NoMemory>
        ensures { IfOk result (λ reading. reading ≡ record { theory = checked; all = all_limits; events = [] }) }
    {
        Ok(Reading {
            store: EventStore::new(alloc)?,
            limits: Limits::new(alloc, checked, all_limits)?,
        })
    }

    /// Goes on by an event, in the line of this number.
    fn with_event(
        self,
        alloc: Global,
        line: u32,
        id: Name,
        at: T,
        term: &GroundRef<'_>,
    ) -> Result<Self, EventFault>
        requires names { IsTrue (names_are_names (ground_of term.now)) }
        ensures goes { GoesOn line self (admitted self.theory self.all self.events (record { id = id; rank = T.rank at; term = ground_of term.now })) result }
    {
        let Reading { mut store, limits } = self;
        if store.find(&id).is_some() {
            return Err(EventFault::At(line, EventName::Duplicate));
        }
        if store.len() as u64 >= MOST_EVENTS {
            return Err(EventFault::At(line, EventName::FullEvents));
        }
        let term = term.to_ground(alloc)?;
        let event = Event { id, at, term };
        let limits = match limits.with_event(alloc, line, &event) {
            Ok(limits) => limits,
            Err(fault) => return Err(fault),
        };
        store.reserve(1)?;
        store.insert(event);
        Ok(Reading { store, limits })
    }

    /// Goes on by a line of this number.
    fn with_line(self, alloc: Global, number: u32, line: Line<'_>) -> Result<Self, EventFault>
        ensures goes { (bytes : List ℕ) → ShowsLine line.entry bytes → GoesOn number self (after_line self.theory self.all self.events (file_line_of T.spelt bytes)) result }
    {
        match read_line(line) {
            FileLine::Nothing => Ok(self),
            FileLine::Event { id, at, term } => self.with_event(alloc, number, id, at, &term),
            FileLine::Neither => Err(EventFault::At(number, EventName::Syntax)),
        }
    }

    /// Goes on by the lines of a text, the first of which has the number 1.
    fn with_lines(self, alloc: Global, bytes: &[u8]) -> Result<Self, EventFault>
        requires few { length bytes.now ≤ 2 ^ 26 }
        ensures read { HasRead self (read_from (record { theory = self.theory; spelt = T.spelt; canon = T.canon }) self.all 1 self.events (lines_of bytes.now)) result }
    {
        let mut reading = self;
        let mut rest = bytes;
        let mut number = 1;
        while let Some((line, behind)) = split_line(rest) {
            reading = match reading.with_line(alloc, number, line) {
                Ok(more) => more,
                Err(fault) => return Err(fault),
            };
            rest = behind;
            number += 1;
        }
        Ok(reading)
    }

    /// The file, once it is read.
    fn into_file(self) -> EventFile<T, X>
        ensures events { history_of T.rank result.store.events ≡ self.events }
        ensures rules { result.rules ≡ self.theory }
    {
        let Reading { store, limits } = self;
        EventFile {
            rules: limits.into_rules(),
            store,
        }
    }
}

/// Reads an event file under a theory: a line each for its events, in any order of their times, and
/// silent lines. With `all_limits` mentions and links are counted too, by tables that are dropped at
/// the end. `Err`: the first line that is refused, or memory ran out.
pub fn read_events<T: Moment, M: MarkRow<T>, I: SpanRow<T>, X: TimeRow<T>>(
    alloc: Global,
    checked: Checked,
    bytes: &[u8],
    all_limits: bool,
) -> Result<EventFile<T, X>, EventFault>
    requires few { length bytes.now ≤ 2 ^ 26 }
    ensures events { IfOk result (λ file.
        event_file (record { theory = checked; spelt = T.spelt; canon = T.canon }) all_limits bytes.now ≡ Ok (history_of T.rank file.store.events)) }
    ensures theory { IfOk result (λ file. file.rules ≡ checked) }
    ensures fault { IfErr result (IsFileFault (event_file (record { theory = checked; spelt = T.spelt; canon = T.canon }) all_limits bytes.now)) }
{
    let reading = Reading::<T, M, I, X>::new(alloc, checked, all_limits)?;
    Ok(reading.with_lines(alloc, bytes)?.into_file())
}
