//! Events, the updates of a list of events, what an update is refused for, and what it changed.

use ec_terms::{Ground, Name, Sequence};

/// Something that happened: its identity, the time at which it happened, and what it was.
/// No two events of a list have the same identity.
#[derive(Drop)]
pub struct Event<T> {
    pub id: Name,
    pub at: T,
    pub term: Ground,
}

/// A list of events.
pub type EventList<T> = Sequence<Event<T>>;

/// A change of a list of events: one more event, or one less by its identity.
#[derive(Drop)]
pub enum Update<T> {
    Assert(Event<T>),
    Retract(Name),
}

/// What an update is refused for.
#[derive(Drop)]
pub enum Cut {
    /// An event of this identity is present already.
    Duplicate(Name),
    /// No event of this identity is present.
    Unknown(Name),
    /// There are `MOST_EVENTS` events, as many as there may be.
    FullEvents,
    /// There would be more than `MOST_MENTIONS` mentions of properties.
    FullMentions,
    /// There would be more than `MOST_LINKS` links between exclusive properties.
    FullLinks,
}

/// What an update changed, in the entries of the events that stayed and in the properties.
#[derive(Clone, Copy, Debug, PartialEq, Eq)]
pub struct Seen {
    /// The entries with a literal whose property became current, or stopped being so, at the
    /// event's time.
    pub seen: u64,
    /// The entries that became active.
    pub on: u64,
    /// The entries that became inactive.
    pub off: u64,
    /// The properties whose intervals differ.
    pub props: u64,
}
