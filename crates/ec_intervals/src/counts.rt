//! How many intervals of a row end before a time, and how many begin up to it.
ghost use Rattle.std.specs.Prelude.{◌≡◌, ◌<◌, ◌^◌, Some, filter, length, not};
ghost use Rattle.ec_intervals.specs.RowViews.{seen};
ghost use Rattle.ec_intervals.specs.Steps.{begins_behind, ends_before};
ghost use Rattle.ec_intervals.specs.Table.{front_members, members_in, plain_intervals, plain_spans};

use crate::row::KeptRow;
use crate::window::count_up_to;
use ec_moment::Moment;
use ec_rows::{End, SpanRow};

/// How many fronts end before a time: one or none.
fn fronts_ended_before<T: Moment>(front: Option<End<T>>, at: T) -> usize
    ensures { result ≡ length (filter (ends_before (T.rank at)) (plain_intervals T.rank (front_members front))) }
{
    match front {
        Some(End::At(end)) => { if end.order(&at).is_lt() { 1 } else { 0 } }
        Some(End::Unended) => 0,
        None => 0,
    }
}

/// How many spans end before a time.
fn spans_ended_before<T: Moment, I: SpanRow<T>>(spans: &I, at: T) -> usize
    ensures { result ≡ length (filter (ends_before (T.rank at)) (plain_spans T.rank (I.spans spans.now))) }
{
    match spans.covering(at) {
        Some(place) => place,
        None => spans.count_before(at),
    }
}

/// How many intervals of a row end before a time.
pub(crate) fn row_ended_before<T: Moment, I: SpanRow<T>>(kept: &KeptRow<T, I>, at: T) -> usize
    requires few { length (members_in (Some (seen I.spans I.spare kept.now))) < 2 ^ 64 }
    ensures { result ≡ length (filter (ends_before (T.rank at)) (plain_intervals T.rank (members_in (Some (seen I.spans I.spare kept.now))))) }
{
    fronts_ended_before(kept.front, at) + spans_ended_before(&kept.spans, at)
}

/// How many intervals of a row begin up to a time, and at it. The front is one of them.
pub(crate) fn row_begun_up_to<T: Moment, I: SpanRow<T>>(kept: &KeptRow<T, I>, at: T) -> usize
    requires few { length (members_in (Some (seen I.spans I.spare kept.now))) < 2 ^ 64 }
    ensures { result ≡ length (filter (λ interval. not (begins_behind (T.rank at) interval)) (plain_intervals T.rank (members_in (Some (seen I.spans I.spare kept.now))))) }
{
    let count = count_up_to(&kept.spans, at);
    match kept.front {
        Some(_) => count + 1,
        None => count,
    }
}
