//! The last begin of a property before a time.
ghost use Rattle.std.specs.Prelude.{◌≡◌, IsTrue, List, None, filter, option_map};
ghost use Rattle.std.specs.List.{last_or};
ghost use Rattle.ec_terms.specs.declared.ground.Ground.{Ground};
ghost use Rattle.ec_axioms.specs.Calculus.{PlainEvent, timeline_of};
ghost use Rattle.ec_axioms.specs.Timeline.{initial_begins, instants_before, is_start, last_begin as begin_before};
ghost use Rattle.ec_exclusive.specs.Forms.{breaks_by_initiation as may_break};
ghost use Rattle.ec_intervals.specs.Table.{plain_begin};
ghost use Rattle.ec_parts.specs.StandFor.{view_of};
ghost use Rattle.ec_query.specs.Standing.{AreOn, AreOnSome};

use crate::next_breaks::breaks;
use ec_axioms::Current;
use ec_intervals::Begin;
use ec_moment::Moment;
use ec_parts::Parts;
use ec_rows::{MarkRow, SpanRow, TimeRow};
use ec_terms::PropId;

/// Whether a property starts at a time: it is initiated there, and it has a break there or is not current.
fn starts_at<T: Moment, M: MarkRow<T>, I: SpanRow<T>, X: TimeRow<T>>(
    parts: &Parts<T, M, I, X>,
    id: PropId,
    at: T,
) -> bool
    requires { AreOnSome T.rank parts.now.checked (view_of parts.now) id.0 }
    ensures { (events : List PlainEvent) (p : Ground) → AreOn T.rank parts.now.checked events (view_of parts.now) id.0 p → result ≡ is_start (timeline_of parts.now.checked events p) (T.rank at) }
{
    let strong = parts.neighbours.is_strong(id);
    let Some(mark) = parts.points.mark_at(id, at) else {
        return false;
    };
    mark.inits > 0 && (breaks(mark, strong) || !parts.points.current(id, at))
}

/// The last time before another at which a property starts, for one that an initiation may break. It walks back over the
/// times before it at which the property is initiated while it is current already.
fn last_start<T: Moment, M: MarkRow<T>, I: SpanRow<T>, X: TimeRow<T>>(
    parts: &Parts<T, M, I, X>,
    id: PropId,
    at: T,
) -> Option<T>
    requires { AreOnSome T.rank parts.now.checked (view_of parts.now) id.0 }
    ensures { (events : List PlainEvent) (p : Ground) → AreOn T.rank parts.now.checked events (view_of parts.now) id.0 p → IsTrue (may_break parts.now.checked p) → option_map T.rank result ≡ last_or None (filter (is_start (timeline_of parts.now.checked events p)) (instants_before (timeline_of parts.now.checked events p) (T.rank at))) }
{
    let row = parts.initiations.row(id)?;
    let mut i = row.count_before(at, row.len());
    while i > 0 {
        let start = row.get(i - 1).at;
        if starts_at(parts, id, start) {
            return Some(start);
        }
        i -= 1;
    }
    None
}

/// The begin before all events, if there is one.
fn initial_begin<T: Moment>(initial: bool) -> Option<Begin<T>>
    ensures { option_map (plain_begin T.rank) result ≡ last_or None (initial_begins initial) }
{
    if initial { Some(Begin::Initial) } else { None }
}

/// The last begin of a property before a time. If no initiation can break the property, each of its begins begins an
/// interval, and the last one is found among these; else it is the last start, or that before all events where it is initial.
pub(crate) fn last_begin<T: Moment, M: MarkRow<T>, I: SpanRow<T>, X: TimeRow<T>>(
    parts: &Parts<T, M, I, X>,
    id: PropId,
    at: T,
) -> Option<Begin<T>>
    requires { AreOnSome T.rank parts.now.checked (view_of parts.now) id.0 }
    ensures { (events : List PlainEvent) (p : Ground) → AreOn T.rank parts.now.checked events (view_of parts.now) id.0 p → option_map (plain_begin T.rank) result ≡ begin_before (timeline_of parts.now.checked events p) (T.rank at) }
{
    if !parts.neighbours.breaks_by_initiation(id) {
        return parts.intervals.last_begin_before(id, at);
    }
    match last_start(parts, id, at) {
        Some(start) => Some(Begin::At(start)),
        None => initial_begin(parts.points.initial(id)),
    }
}
