//! The row of one property: its intervals, read and written.
ghost use Rattle.std.specs.Prelude.{◌≡◌, ◌<◌, ◌≤◌, ◌^◌, [], IsTrue, None, Some, length, option_map, slice_get};
ghost use Rattle.ec_axioms.specs.Timeline.{is_held_at};
ghost use Rattle.ec_intervals.specs.RowViews.{seen};
ghost use Rattle.ec_intervals.specs.Steps.{is_proper};
ghost use Rattle.ec_intervals.specs.Table.{front_members, last_begin_of, members_in, plain_begin, plain_interval, plain_intervals};

use crate::interval::{Begin, Interval, span_interval};
use ec_moment::Moment;
use ec_rows::{End, Span, SpanRow};

/// The row of a property: the end of its front, if it has one, and its spans.
#[derive(Drop)]
pub(crate) struct KeptRow<T: Moment, I: Drop> {
    pub(crate) front: Option<End<T>>,
    pub(crate) spans: I,
}

/// How many intervals a row has.
pub(crate) fn count_members<T: Moment, I: SpanRow<T>>(kept: &KeptRow<T, I>) -> usize
    requires { length (members_in (Some (seen I.spans I.spare kept.now))) < 2 ^ 64 }
    ensures { result ≡ length (members_in (Some (seen I.spans I.spare kept.now))) }
{
    match kept.front {
        Some(_) => kept.spans.len() + 1,
        None => kept.spans.len(),
    }
}

/// The interval at a place, the front first.
pub(crate) fn member_of<T: Moment, I: SpanRow<T>>(kept: &KeptRow<T, I>, i: usize) -> Interval<T>
    requires { i < length (members_in (Some (seen I.spans I.spare kept.now))) }
    ensures member { slice_get (members_in (Some (seen I.spans I.spare kept.now))) i ≡ Some result }
    ensures proper { IsTrue (is_proper (plain_interval T.rank result)) }
{
    let Some(end) = kept.front else {
        return span_interval(kept.spans.get(i));
    };
    if i == 0 {
        return Interval {
            from: Begin::Initial,
            end,
        };
    }
    span_interval(kept.spans.get(i - 1))
}

/// Whether a front covers a time: it does not end before it.
fn front_covers<T: Moment>(front: Option<End<T>>, at: T) -> bool
    ensures { result ≡ is_held_at (plain_intervals T.rank (front_members front)) (T.rank at) }
{
    match front {
        Some(End::At(end)) => at.order(&end).is_le(),
        Some(End::Unended) => true,
        None => false,
    }
}

/// Whether some interval of a row covers a time.
pub(crate) fn row_covers<T: Moment, I: SpanRow<T>>(kept: &KeptRow<T, I>, at: T) -> bool
    ensures { result ≡ is_held_at (plain_intervals T.rank (members_in (Some (seen I.spans I.spare kept.now)))) (T.rank at) }
{
    if front_covers(kept.front, at) {
        return true;
    }
    match kept.spans.covering(at) {
        Some(_) => true,
        None => false,
    }
}

/// The last begin of a row before a time: that of the last span that starts before it, or else that of the front.
pub(crate) fn row_begin_before<T: Moment, I: SpanRow<T>>(
    kept: &KeptRow<T, I>,
    at: T,
) -> Option<Begin<T>>
    ensures { option_map (plain_begin T.rank) result ≡ last_begin_of (plain_intervals T.rank (members_in (Some (seen I.spans I.spare kept.now)))) (T.rank at) }
{
    let count = kept.spans.count_before(at);
    if count > 0 {
        return Some(Begin::At(kept.spans.get(count - 1).from));
    }
    match kept.front {
        Some(_) => Some(Begin::Initial),
        None => None,
    }
}

/// Takes the front and all spans out.
pub(crate) fn clear_row<T: Moment, I: SpanRow<T>>(kept: &mut KeptRow<T, I>)
    ensures front { kept.new.front ≡ None }
    ensures spans { I.spans kept.new.spans ≡ [] }
    ensures room { I.spare kept.old.spans ≤ I.spare kept.new.spans }
{
    kept.front = None;
    let len = kept.spans.len();
    let none: [Span<T>; 0] = [];
    kept.spans.splice(0, len, &none);
}
