ghost use Rattle.std.specs.Prelude.{◌≡◌};
ghost use Rattle.ec_intervals.specs.Table.{span_interval};

use ec_moment::Moment;
use ec_rows::{End, Span};

/// Where an interval begins: before all events, or at a time.
#[derive(Clone, Copy, Debug, PartialEq, Eq)]
pub enum Begin<T> {
    Initial,
    At(T),
}

/// A stretch of time over which a property holds: after its begin, up to its end and with it.
#[derive(Clone, Copy, Debug, PartialEq, Eq)]
pub struct Interval<T> {
    pub from: Begin<T>,
    pub end: End<T>,
}

/// A span as an interval.
pub(crate) fn span_interval<T: Moment>(span: Span<T>) -> Interval<T>
    ensures { result ≡ span_interval span }
{
    Interval {
        from: Begin::At(span.from),
        end: span.end,
    }
}
