//! Intervals that are read off marks, before they stand in a row.
ghost use Rattle.std.specs.Prelude.{◌≡◌, ◌+◌, ◌≤◌, ◌<◌, ◌∷◌, ◌++◌, [], Some, None, OnOk, drop, length, option_map, vec_len};
ghost use Rattle.std.specs.Option.{option_to_list};
ghost use Rattle.std.specs.Vec.{vec_capacity};
ghost use Rattle.ec_intervals.specs.Drafts.{IsFresh, IsReadOver, drafted};
ghost use Rattle.ec_intervals.specs.Steps.{ended_by, first_behind, is_behind, lasting, up_to_first_behind};
ghost use Rattle.ec_intervals.specs.Table.{plain_begin, plain_end, plain_intervals};
ghost use Rattle.ec_intervals.specs.declared.interval.Begin.TheVariants.{Initial};
ghost use Rattle.ec_rows.specs.Marks.{IsMarkRow};
ghost use Rattle.ec_rows.specs.PlainMarks.{plain_mark, plain_marks};

use crate::interval::{Begin, Interval};
use crate::steps::{ended_by, open_behind};
use ec_lists::{NoMemory, add_counts};
use ec_moment::Moment;
use ec_rows::{End, Mark, MarkRow, Span};
use std::alloc::Global;

/// What is read off some marks: the intervals that they end, and the begin that is open behind them. The interval from
/// before all events is the front of the draft; the others are its spans.
#[derive(Drop)]
pub(crate) struct Draft<T: Moment> {
    pub(crate) begun: Option<Begin<T>>,
    pub(crate) front: Option<End<T>>,
    pub(crate) spans: Vec<Span<T>>,
}

/// Whether a mark lies behind a time, if one is given.
fn is_behind<T: Moment>(mark: Mark<T>, until: Option<T>) -> bool
    ensures { result ≡ is_behind (option_map T.rank until) (plain_mark T.rank mark) }
{
    match until {
        Some(until) => until.order(&mark.at).is_lt(),
        None => false,
    }
}

impl<T: Moment> Draft<T> {
    /// Nothing is drafted, and there is no room for a span.
    pub(crate) fn new(alloc: Global) -> Draft<T>
        ensures { drafted result ≡ [] }
    {
        Draft {
            begun: None,
            front: None,
            spans: Vec::new(alloc),
        }
    }

    /// Makes room for more than `n` spans in all. What is drafted goes.
    pub(crate) fn make_room(&mut self, n: usize) -> Result<(), NoMemory>
        ensures room { OnOk result (n < vec_capacity self.new.spans) }
        ensures kept { vec_capacity self.old.spans ≤ vec_capacity self.new.spans }
    {
        let count = add_counts(n, 1)?;
        self.spans.clear();
        self.spans.reserve(count)?;
        Ok(())
    }

    /// Begins anew, with this begin open.
    pub(crate) fn start(&mut self, begun: Option<Begin<T>>)
        ensures begun { self.new.begun ≡ begun }
        ensures intervals { drafted self.new ≡ [] }
        ensures len { vec_len self.new.spans ≡ 0 }
        ensures capacity { vec_capacity self.new.spans ≡ vec_capacity self.old.spans }
    {
        self.begun = begun;
        self.front = None;
        self.spans.clear();
    }

    /// Adds an interval behind all others. One from before all events is the first.
    fn add(&mut self, interval: Interval<T>)
        requires first { interval.from ≡ Initial → drafted self.old ≡ [] }
        requires room { vec_len self.old.spans < vec_capacity self.old.spans }
        ensures begun { self.new.begun ≡ self.old.begun }
        ensures intervals { drafted self.new ≡ drafted self.old ++ interval ∷ [] }
        ensures len { vec_len self.new.spans ≤ vec_len self.old.spans + 1 }
        ensures capacity { vec_capacity self.new.spans ≡ vec_capacity self.old.spans }
    {
        match interval.from {
            Begin::Initial => self.front = Some(interval.end),
            Begin::At(from) => self.spans.push_reserved(Span {
                from,
                end: interval.end,
            }),
        }
    }

    /// Adds the interval from the open begin up to an end, if a begin is open.
    pub(crate) fn close(&mut self, end: End<T>)
        requires fresh { IsFresh self.old }
        requires room { vec_len self.old.spans < vec_capacity self.old.spans }
        ensures intervals { plain_intervals T.rank (drafted self.new) ≡ plain_intervals T.rank (drafted self.old) ++ option_to_list (lasting (Some (plain_end T.rank end)) (option_map (plain_begin T.rank) self.old.begun)) }
        ensures len { vec_len self.new.spans ≤ vec_len self.old.spans + 1 }
        ensures capacity { vec_capacity self.new.spans ≡ vec_capacity self.old.spans }
    {
        if let Some(from) = self.begun {
            self.add(Interval { from, end });
        }
    }

    /// Adds the interval that a mark ends, if it ends one.
    fn add_ended(&mut self, mark: Mark<T>)
        requires fresh { IsFresh self.old }
        requires room { vec_len self.old.spans < vec_capacity self.old.spans }
        ensures begun { self.new.begun ≡ self.old.begun }
        ensures intervals { plain_intervals T.rank (drafted self.new) ≡ plain_intervals T.rank (drafted self.old) ++ option_to_list (ended_by (option_map (plain_begin T.rank) self.old.begun) (plain_mark T.rank mark)) }
        ensures len { vec_len self.new.spans ≤ vec_len self.old.spans + 1 }
        ensures capacity { vec_capacity self.new.spans ≡ vec_capacity self.old.spans }
    {
        if let Some(interval) = ended_by(self.begun, mark) {
            self.add(interval);
        }
    }

    /// Reads on over one mark.
    fn read(&mut self, mark: Mark<T>, strong: bool)
        requires fresh { IsFresh self.old }
        requires room { vec_len self.old.spans < vec_capacity self.old.spans }
        ensures { IsReadOver T.rank strong (plain_mark T.rank mark ∷ []) self.old self.new }
    {
        self.add_ended(mark);
        self.begun = open_behind(self.begun, mark, strong);
    }

    /// Reads on over some marks: up to the first one behind a time and over it, or over all. Gives the time of that mark.
    fn read_run(&mut self, marks: &[Mark<T>], strong: bool, until: Option<T>) -> Option<T>
        requires fresh { IsFresh self.old }
        requires room { vec_len self.old.spans + length marks.now ≤ vec_capacity self.old.spans }
        ensures read { IsReadOver T.rank strong (up_to_first_behind (option_map T.rank until) (plain_marks T.rank marks.now)) self.old self.new }
        ensures last { option_map T.rank result ≡ first_behind (option_map T.rank until) (plain_marks T.rank marks.now) }
    {
        for mark in marks {
            self.read(*mark, strong);
            if is_behind(*mark, until) {
                return Some(mark.at);
            }
        }
        None
    }

    /// Reads on over the marks of a row from a place on: up to the first one behind a time and over it, or over all.
    /// Gives the time of that mark.
    pub(crate) fn read_row<M: MarkRow<T>>(
        &mut self,
        row: &M,
        first: usize,
        strong: bool,
        until: Option<T>,
    ) -> Option<T>
        requires fresh { IsFresh self.old }
        requires room { vec_len self.old.spans + length (M.marks row.now) ≤ vec_capacity self.old.spans }
        ensures read { IsReadOver T.rank strong (up_to_first_behind (option_map T.rank until) (drop first (plain_marks T.rank (M.marks row.now)))) self.old self.new }
        ensures last { option_map T.rank result ≡ first_behind (option_map T.rank until) (drop first (plain_marks T.rank (M.marks row.now))) }
        ensures row { IsMarkRow T.rank (M.marks row.now) }
    {
        let mut i = first;
        while i < row.len() {
            let run = row.run(i);
            let last = self.read_run(run, strong, until);
            if last.is_some() {
                return last;
            }
            i += run.len();
        }
        None
    }
}
