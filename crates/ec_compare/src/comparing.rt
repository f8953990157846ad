//! In which relation two intervals stand.
ghost use Rattle.std.specs.Prelude.{◌≡◌, IsTrue, true};
ghost use Rattle.ec_axioms.specs.Changes.{interval_eq};
ghost use Rattle.ec_axioms.specs.Timeline.{Interval as PlainInterval};
ghost use Rattle.ec_commands.specs.Relations.{begin_point, end_point, is_proper, point_lt, stands_in};
ghost use Rattle.ec_compare.specs.Points.{point_cmp};
ghost use Rattle.ec_intervals.specs.Table.{plain_begin, plain_end, plain_interval};

use ec_commands::Relation;
use ec_intervals::{Begin, Interval};
use ec_moment::Moment;
use ec_rows::End;
use std::cmp::Ordering;

/// Which of two begins comes first.
pub(crate) fn order_begins<T: Moment>(left: Begin<T>, right: Begin<T>) -> Ordering
    ensures { result ≡ point_cmp (begin_point (plain_begin T.rank left)) (begin_point (plain_begin T.rank right)) }
{
    match (left, right) {
        (Begin::Initial, Begin::Initial) => Ordering::Equal,
        (Begin::Initial, Begin::At(_)) => Ordering::Less,
        (Begin::At(_), Begin::Initial) => Ordering::Greater,
        (Begin::At(left), Begin::At(right)) => left.order(&right),
    }
}

/// Which of two ends comes first.
fn order_ends<T: Moment>(left: End<T>, right: End<T>) -> Ordering
    ensures { result ≡ point_cmp (end_point (plain_end T.rank left)) (end_point (plain_end T.rank right)) }
{
    match (left, right) {
        (End::Unended, End::Unended) => Ordering::Equal,
        (End::At(_), End::Unended) => Ordering::Less,
        (End::Unended, End::At(_)) => Ordering::Greater,
        (End::At(left), End::At(right)) => left.order(&right),
    }
}

/// Whether an end or a begin comes first.
fn order_end_and_begin<T: Moment>(end: End<T>, begin: Begin<T>) -> Ordering
    ensures { result ≡ point_cmp (end_point (plain_end T.rank end)) (begin_point (plain_begin T.rank begin)) }
{
    match (end, begin) {
        (End::Unended, _) => Ordering::Greater,
        (End::At(_), Begin::Initial) => Ordering::Greater,
        (End::At(end), Begin::At(begin)) => end.order(&begin),
    }
}

/// The relation of two intervals, each of which begins before the other ends.
fn overlapping_relation<T: Moment>(left: &Interval<T>, right: &Interval<T>) -> Relation
    requires left { point_lt (begin_point (plain_begin T.rank left.now.from)) (end_point (plain_end T.rank right.now.end)) ≡ true }
    requires right { point_lt (begin_point (plain_begin T.rank right.now.from)) (end_point (plain_end T.rank left.now.end)) ≡ true }
    ensures { IsTrue (stands_in result (plain_interval T.rank left.now) (plain_interval T.rank right.now)) }
{
    let ends = order_ends(left.end, right.end);
    match order_begins(left.from, right.from) {
        Ordering::Less => match ends {
            Ordering::Less => Relation::Overlaps,
            Ordering::Equal => Relation::FinishedBy,
            Ordering::Greater => Relation::Contains,
        },
        Ordering::Equal => match ends {
            Ordering::Less => Relation::Starts,
            Ordering::Equal => Relation::Equals,
            Ordering::Greater => Relation::StartedBy,
        },
        Ordering::Greater => match ends {
            Ordering::Less => Relation::During,
            Ordering::Equal => Relation::Finishes,
            Ordering::Greater => Relation::OverlappedBy,
        },
    }
}

/// The relation in which the first interval stands to the second. Intervals that begin before they end stand in no other.
pub fn relation<T: Moment>(left: &Interval<T>, right: &Interval<T>) -> Relation
    ensures { IsTrue (stands_in result (plain_interval T.rank left.now) (plain_interval T.rank right.now)) }
{
    match order_end_and_begin(left.end, right.from) {
        Ordering::Less => Relation::Before,
        Ordering::Equal => Relation::Meets,
        Ordering::Greater => match order_end_and_begin(right.end, left.from) {
            Ordering::Less => Relation::After,
            Ordering::Equal => Relation::MetBy,
            Ordering::Greater => overlapping_relation(left, right),
        },
    }
}

/// Whether an interval that stands in a relation to another one ends later than that. It does so in five of the relations.
pub(crate) fn ends_later(relation: Relation) -> bool
    ensures { (i j : PlainInterval) → IsTrue (is_proper i) → IsTrue (stands_in relation i j) → IsTrue result → IsTrue (point_lt (end_point j.until) (end_point i.until)) }
{
    match relation {
        Relation::After => true,
        Relation::MetBy => true,
        Relation::OverlappedBy => true,
        Relation::StartedBy => true,
        Relation::Contains => true,
        _ => false,
    }
}

/// Whether two intervals begin and end at the same.
pub(crate) fn are_same<T: Moment>(left: &Interval<T>, right: &Interval<T>) -> bool
    ensures { result ≡ interval_eq (plain_interval T.rank left.now) (plain_interval T.rank right.now) }
{
    order_begins(left.from, right.from).is_eq() && order_ends(left.end, right.end).is_eq()
}
