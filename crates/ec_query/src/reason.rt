use ec_intervals::Begin;
use ec_terms::Name;

/// What caused a change of a property: an event, by its identity, and the number of the rule that it met.
#[derive(Drop)]
pub struct Cause {
    pub id: Name,
    pub rule: u16,
}

/// How a property came to hold: it is declared initial, or it was initiated at a time, by a cause.
#[derive(Drop)]
pub enum Origin<T> {
    Initial,
    At(T, Cause),
}

/// Why a property holds at a time, or why it does not, by its last begin before that time and the first break behind
/// the begin.
#[derive(Drop)]
pub enum Reason<T> {
    /// It began, and goes on, or is terminated at the time or later.
    Yes {
        from: Origin<T>,
        until: Option<(T, Cause)>,
    },
    /// It never began before the time.
    Never,
    /// It began, and was terminated before the time.
    Ended {
        from: Begin<T>,
        until: T,
        by: Cause,
    },
    /// It began, and that was broken otherwise than by a termination: by one that initiates an exclusive property, or by
    /// one that initiates the property itself, which is strong.
    Broken {
        from: Begin<T>,
        until: T,
        by: Cause,
    },
}
