use crate::search::Timed;
use ec_lists::Copied;
use ec_moment::Moment;

/// What happens to a property at one time, counted over the active entries of the events there: how many
/// initiate it, how many terminate it, and how many initiate a property that is exclusive to it.
#[derive(Clone, Copy, Debug, PartialEq, Eq)]
pub struct Mark<T> {
    pub at: T,
    pub inits: u32,
    pub terms: u32,
    pub clashes: u32,
}

impl<T: Moment> Timed<T> for Mark<T> {
    ghost time = { λ mark. mark.at };

    fn time(&self) -> T {
        self.at
    }
}

impl<T: Moment> Copied for Mark<T> {
    fn copied(&self) -> Self {
        *self
    }
}
