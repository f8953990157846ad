//! The parts of an ordered list of events that a time cuts out.
ghost use Rattle.std.specs.Prelude.{◌≡◌, IsTrue, map};
ghost use Rattle.ec_axioms.specs.Changes.{is_history};
ghost use Rattle.ec_axioms.specs.Events.{event_of};
ghost use Rattle.ec_axioms.specs.Laws.{events_before};
ghost use Rattle.ec_axioms.specs.Plain.{events_at, events_from};

use crate::event::Event;
use ec_moment::Moment;

/// The events strictly before a time.
pub(crate) fn before<T: Moment>(events: &[Event<T>], at: T) -> &[Event<T>]
    requires ordered { IsTrue (is_history (map (event_of T.rank) events.now)) }
    ensures { map (event_of T.rank) result.now ≡ events_before (T.rank at) (map (event_of T.rank) events.now) }
{
    let end = events.partition_point(|e| e.at.order(&at).is_lt());
    &events[..end]
}

/// The events from a time on.
pub(crate) fn from<T: Moment>(events: &[Event<T>], at: T) -> &[Event<T>]
    requires ordered { IsTrue (is_history (map (event_of T.rank) events.now)) }
    ensures { map (event_of T.rank) result.now ≡ events_from (T.rank at) (map (event_of T.rank) events.now) }
{
    let start = events.partition_point(|e| e.at.order(&at).is_lt());
    &events[start..]
}

/// The events at a time.
pub(crate) fn at<T: Moment>(events: &[Event<T>], at: T) -> &[Event<T>]
    requires ordered { IsTrue (is_history (map (event_of T.rank) events.now)) }
    ensures { map (event_of T.rank) result.now ≡ events_at (T.rank at) (map (event_of T.rank) events.now) }
{
    let rest = from(events, at);
    let end = rest.partition_point(|e| e.at.order(&at).is_le());
    &rest[..end]
}
