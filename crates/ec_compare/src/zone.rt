//! Where the intervals of a property lie that end before another interval begins, or that begin behind its end.
ghost use Rattle.std.specs.Prelude.{◌≡◌, filter, length, not};
ghost use Rattle.ec_commands.specs.Relations.{begin_point, end_point, point_lt};
ghost use Rattle.ec_intervals.specs.Table.{members_at, plain_begin, plain_end, plain_intervals};

use ec_intervals::{Begin, Intervals};
use ec_moment::Moment;
use ec_rows::{End, SpanRow};
use ec_terms::PropId;

/// The intervals of a property from one place up to another.
#[derive(Clone, Copy)]
pub(crate) struct Zone {
    pub(crate) from: usize,
    pub(crate) to: usize,
}

/// How many intervals of a property end before a begin.
pub(crate) fn count_ended<T: Moment, I: SpanRow<T>>(
    intervals: &Intervals<T, I>,
    id: PropId,
    begin: Begin<T>,
) -> usize
    ensures { result ≡ length (filter (λ j. point_lt (end_point j.until) (begin_point (plain_begin T.rank begin))) (plain_intervals T.rank (members_at id.0 intervals.now))) }
{
    match begin {
        Begin::Initial => 0,
        Begin::At(at) => intervals.ended_before(id, at),
    }
}

/// How many intervals of a property do not begin behind an end.
pub(crate) fn count_begun<T: Moment, I: SpanRow<T>>(
    intervals: &Intervals<T, I>,
    id: PropId,
    end: End<T>,
) -> usize
    ensures { result ≡ length (filter (λ j. not (point_lt (end_point (plain_end T.rank end)) (begin_point j.from))) (plain_intervals T.rank (members_at id.0 intervals.now))) }
{
    match end {
        End::At(at) => intervals.begun_up_to(id, at),
        End::Unended => intervals.len(id),
    }
}
