//! Whether a property holds through a stretch of time.
ghost use Rattle.std.specs.Prelude.{◌≡◌, ◌≤ℤ◌, List, false, IfSome, IfNone};
ghost use Rattle.ec_terms.specs.declared.theory.Theory.{Theory};
ghost use Rattle.ec_terms.specs.Term.{ground_of};
ghost use Rattle.ec_axioms.specs.Calculus.{PlainEvent, holds_through};
ghost use Rattle.ec_axioms.specs.Timeline.{has_begin, is_held_at};
ghost use Rattle.ec_intervals.specs.Table.{front_members, members_at, plain_end, plain_intervals, plain_spans, spans_at};
ghost use Rattle.ec_query.specs.Held.{AreHeldOf};
ghost use Rattle.ec_query.specs.Stretches.{IsEndFrom, IsEndOver};

use crate::held::Held;
use ec_intervals::Intervals;
use ec_moment::Moment;
use ec_rows::{End, SpanRow};
use ec_terms::{GroundRef, PropId};

/// Whether there is a front, an interval from before all events, and a time lies up to its end.
fn front_covers<T: Moment>(front: Option<End<T>>, at: T) -> bool
    ensures { result ≡ is_held_at (plain_intervals T.rank (front_members front)) (T.rank at) }
{
    match front {
        Some(End::At(end)) => at.order(&end).is_le(),
        Some(End::Unended) => true,
        None => false,
    }
}

/// The end of the span that covers a time.
fn end_of_span_over<T: Moment, I: SpanRow<T>>(
    intervals: &Intervals<T, I>,
    id: PropId,
    at: T,
) -> Option<End<T>>
    ensures some { IfSome result (λ end. IsEndOver (plain_spans T.rank (spans_at id.0 intervals.now)) (T.rank at) (plain_end T.rank end)) }
    ensures none { IfNone result (is_held_at (plain_spans T.rank (spans_at id.0 intervals.now)) (T.rank at) ≡ false) }
{
    let spans = intervals.spans(id)?;
    let place = spans.covering(at)?;
    Some(spans.get(place).end)
}

/// The end of an interval of a property that covers a time.
fn end_over<T: Moment, I: SpanRow<T>>(
    intervals: &Intervals<T, I>,
    id: PropId,
    at: T,
) -> Option<End<T>>
    ensures some { IfSome result (λ end. IsEndOver (plain_intervals T.rank (members_at id.0 intervals.now)) (T.rank at) (plain_end T.rank end)) }
    ensures none { IfNone result (is_held_at (plain_intervals T.rank (members_at id.0 intervals.now)) (T.rank at) ≡ false) }
{
    let front = intervals.front(id);
    if front_covers(front, at) {
        return front;
    }
    end_of_span_over(intervals, id, at)
}

/// The end of an interval of a property that begins at a time.
fn end_from<T: Moment, I: SpanRow<T>>(
    intervals: &Intervals<T, I>,
    id: PropId,
    at: T,
) -> Option<End<T>>
    ensures some { IfSome result (λ end. IsEndFrom (plain_intervals T.rank (members_at id.0 intervals.now)) (T.rank at) (plain_end T.rank end)) }
    ensures none { IfNone result (has_begin (plain_intervals T.rank (members_at id.0 intervals.now)) (T.rank at) ≡ false) }
{
    let spans = intervals.spans(id)?;
    let place = spans.count_before(at);
    if place == spans.len() {
        return None;
    }
    let span = spans.get(place);
    if span.from.order(&at).is_eq() {
        Some(span.end)
    } else {
        None
    }
}

/// Whether a property holds through the stretch from one time up to another: at each time of it. It takes one search among
/// the intervals of the property for each that the stretch meets.
pub fn through<T: Moment, I: SpanRow<T>>(
    held: &Held<'_, T, I>,
    p: &GroundRef<'_>,
    from: T,
    until: T,
) -> bool
    requires { T.rank from ≤ℤ T.rank until }
    ensures { (theory : Theory) (events : List PlainEvent) → AreHeldOf T.rank theory events held.now.props.now held.now.intervals.now → result ≡ holds_through theory events (ground_of p.now) (T.rank from) (T.rank until) }
{
    let Some(id) = held.props.lookup(p) else {
        return false;
    };
    let Some(mut end) = end_over(held.intervals, id, from) else {
        return false;
    };
    while let End::At(reached) = end {
        if until.order(&reached).is_le() {
            return true;
        }
        match end_from(held.intervals, id, reached) {
            Some(next) => end = next,
            None => return false,
        }
    }
    true
}
