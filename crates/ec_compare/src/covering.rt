//! The interval of a property that covers a time.
ghost use Rattle.std.specs.Prelude.{◌≡◌, List, IfSome, IsTrue, find, option_map};
ghost use Rattle.ec_axioms.specs.Calculus.{PlainEvent};
ghost use Rattle.ec_axioms.specs.Timeline.{covers, is_after};
ghost use Rattle.ec_commands.specs.QueryTexts.{interval_at};
ghost use Rattle.ec_commands.specs.Relations.{is_proper};
ghost use Rattle.ec_intervals.specs.Steps.{IsIntervalRow};
ghost use Rattle.ec_intervals.specs.Table.{members_at, plain_begin, plain_interval, plain_intervals};
ghost use Rattle.ec_query.specs.Held.{AreHeldOf};
ghost use Rattle.ec_terms.specs.Term.{ground_of};
ghost use Rattle.ec_terms.specs.declared.theory.Theory.{Theory};

use ec_intervals::{Begin, Interval, Intervals};
use ec_moment::Moment;
use ec_query::Held;
use ec_rows::SpanRow;
use ec_terms::{GroundRef, PropId};

/// Whether a time lies behind a begin.
fn is_after<T: Moment>(begin: Begin<T>, at: T) -> bool
    ensures { result ≡ is_after (plain_begin T.rank begin) (T.rank at) }
{
    match begin {
        Begin::Initial => true,
        Begin::At(begin) => begin.order(&at).is_lt(),
    }
}

/// The interval of a property that covers a time: the first that does not end before it, if it begins before it.
fn covering<T: Moment, I: SpanRow<T>>(
    intervals: &Intervals<T, I>,
    id: PropId,
    at: T,
) -> Option<Interval<T>>
    ensures covers { IsIntervalRow (plain_intervals T.rank (members_at id.0 intervals.now)) →
        option_map (plain_interval T.rank) result ≡ find (covers (T.rank at)) (plain_intervals T.rank (members_at id.0 intervals.now)) }
    ensures proper { IfSome result (λ interval. IsTrue (is_proper (plain_interval T.rank interval))) }
{
    let place = intervals.ended_before(id, at);
    if place == intervals.len(id) {
        return None;
    }
    let interval = intervals.member(id, place);
    if is_after(interval.from, at) {
        Some(interval)
    } else {
        None
    }
}

/// The interval of a property that covers a time. `None` exactly where the property does not hold there.
pub(crate) fn interval_at<T: Moment, I: SpanRow<T>>(
    held: &Held<'_, T, I>,
    p: &GroundRef<'_>,
    at: T,
) -> Option<Interval<T>>
    ensures covers { (theory : Theory) (events : List PlainEvent) → AreHeldOf T.rank theory events held.now.props.now held.now.intervals.now →
        option_map (plain_interval T.rank) result ≡ interval_at theory events (ground_of p.now) (T.rank at) }
    ensures proper { IfSome result (λ interval. IsTrue (is_proper (plain_interval T.rank interval))) }
{
    match held.props.lookup(p) {
        Some(id) => covering(held.intervals, id, at),
        None => None,
    }
}
