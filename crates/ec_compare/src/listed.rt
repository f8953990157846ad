//! Intervals in order that are read by place: those that a property has, or copies of those that it had.
ghost use Rattle.std.specs.Prelude.{◌≡◌, ◌<◌, ◌≤◌, List, Some, filter, length, slice_get};
ghost use Rattle.std.specs.List.{list_any};
ghost use Rattle.ec_axioms.specs.Changes.{interval_eq};
ghost use Rattle.ec_axioms.specs.Timeline.{before_all};
ghost use Rattle.ec_compare.specs.Lists.{begins_no_later, present_members};
ghost use Rattle.ec_intervals.specs.Steps.{IsIntervalRow};
ghost use Rattle.ec_intervals.specs.Table.{members_at, plain_begin, plain_interval, plain_intervals};
ghost use Rattle.ec_intervals.specs.declared.interval.Interval.{Interval};

use crate::comparing::{are_same, order_begins};
use ec_intervals::{Begin, Interval, Intervals};
use ec_moment::Moment;
use ec_rows::SpanRow;
use ec_terms::PropId;

/// Intervals in order.
pub(crate) trait Listed<T: Moment>: Drop {
    // The intervals.
    ghost members: { Self → List (Interval T) };

    /// How many there are.
    fn len(&self) -> usize
        ensures { result ≡ length (members self.now) };

    /// The interval at a place, from 0.
    fn get(&self, place: usize) -> Interval<T>
        requires { place < length (members self.now) }
        ensures { slice_get (members self.now) place ≡ Some result };

    /// Whether an interval is one of them. It takes one search.
    fn contains(&self, interval: &Interval<T>) -> bool
        ensures { IsIntervalRow (plain_intervals T.rank (members self.now)) →
            result ≡ list_any (interval_eq (plain_interval T.rank interval.now)) (plain_intervals T.rank (members self.now)) };
}

/// The intervals of a property under its number; none where it has no number.
#[derive(Drop)]
pub(crate) struct Present<'a, T: Moment, I: SpanRow<T>> {
    pub(crate) intervals: &'a Intervals<T, I>,
    pub(crate) id: Option<PropId>,
}

/// Whether an interval is the last of the first so many of a property.
fn is_last_of<T: Moment, I: SpanRow<T>>(
    intervals: &Intervals<T, I>,
    id: PropId,
    begun: usize,
    interval: &Interval<T>,
) -> bool
    requires within { begun ≤ length (members_at id.0 intervals.now) }
    ensures { IsIntervalRow (plain_intervals T.rank (members_at id.0 intervals.now)) →
        begun ≡ length (filter (begins_no_later (plain_interval T.rank interval.now)) (plain_intervals T.rank (members_at id.0 intervals.now))) →
        result ≡ list_any (interval_eq (plain_interval T.rank interval.now)) (plain_intervals T.rank (members_at id.0 intervals.now)) }
{
    begun > 0 && are_same(interval, &intervals.member(id, begun - 1))
}

/// Whether an interval from before all events is one of a property: it can be the first alone.
fn is_first_of<T: Moment, I: SpanRow<T>>(
    intervals: &Intervals<T, I>,
    id: PropId,
    interval: &Interval<T>,
) -> bool
    ensures { IsIntervalRow (plain_intervals T.rank (members_at id.0 intervals.now)) → plain_begin T.rank interval.now.from ≡ before_all →
        result ≡ list_any (interval_eq (plain_interval T.rank interval.now)) (plain_intervals T.rank (members_at id.0 intervals.now)) }
{
    let count = intervals.len(id);
    count > 0 && are_same(interval, &intervals.member(id, 0))
}

/// Whether an interval is one of a kept property.
fn is_kept<T: Moment, I: SpanRow<T>>(
    intervals: &Intervals<T, I>,
    id: PropId,
    interval: &Interval<T>,
) -> bool
    ensures { IsIntervalRow (plain_intervals T.rank (members_at id.0 intervals.now)) →
        result ≡ list_any (interval_eq (plain_interval T.rank interval.now)) (plain_intervals T.rank (members_at id.0 intervals.now)) }
{
    match interval.from {
        Begin::Initial => is_first_of(intervals, id, interval),
        Begin::At(at) => is_last_of(intervals, id, intervals.begun_up_to(id, at), interval),
    }
}

impl<'a, T: Moment, I: SpanRow<T>> Listed<T> for Present<'a, T, I> {
    ghost members = { λ present. present_members present.id present.intervals.now };

    fn len(&self) -> usize {
        match self.id {
            Some(id) => self.intervals.len(id),
            None => 0,
        }
    }

    fn get(&self, place: usize) -> Interval<T> {
        match self.id {
            Some(id) => self.intervals.member(id, place),
            None => unreachable!(),
        }
    }

    fn contains(&self, interval: &Interval<T>) -> bool {
        match self.id {
            Some(id) => is_kept(self.intervals, id, interval),
            None => false,
        }
    }
}

/// Copies of intervals, in order.
#[derive(Drop)]
pub(crate) struct Copies<'a, T: Moment> {
    pub(crate) intervals: &'a [Interval<T>],
}

/// Whether an interval is one of some.
fn is_among<T: Moment>(intervals: &[Interval<T>], interval: &Interval<T>) -> bool
    ensures { IsIntervalRow (plain_intervals T.rank intervals.now) →
        result ≡ list_any (interval_eq (plain_interval T.rank interval.now)) (plain_intervals T.rank intervals.now) }
{
    let begun = intervals.partition_point(
        |other| -> bool
            ensures { result ≡ begins_no_later (plain_interval T.rank interval.entry.now) (plain_interval T.rank other.now) }
        { order_begins(other.from, interval.from).is_le() },
    );
    begun > 0 && are_same(interval, &intervals[begun - 1])
}

impl<'a, T: Moment> Listed<T> for Copies<'a, T> {
    ghost members = { λ copies. copies.intervals.now };

    fn len(&self) -> usize {
        self.intervals.len()
    }

    fn get(&self, place: usize) -> Interval<T> {
        self.intervals[place]
    }

    fn contains(&self, interval: &Interval<T>) -> bool {
        is_among(self.intervals, interval)
    }
}
