use crate::search::Timed;
use ec_lists::Copied;
use ec_moment::Moment;

/// The end of a span: the last time that it covers, or none.
#[derive(Clone, Copy, Debug, PartialEq, Eq)]
pub enum End<T> {
    At(T),
    Unended,
}

/// A stretch of time over which a property holds: after `from`, up to its end and with it.
#[derive(Clone, Copy, Debug, PartialEq, Eq)]
pub struct Span<T> {
    pub from: T,
    pub end: End<T>,
}

impl<T: Moment> Timed<T> for Span<T> {
    ghost time = { λ span. span.from };

    fn time(&self) -> T {
        self.from
    }
}

impl<T: Moment> Copied for Span<T> {
    fn copied(&self) -> Self {
        *self
    }
}
