//! Whether a list of events is in order.
ghost use Rattle.std.specs.Prelude.{◌≡◌, map};
ghost use Rattle.std.specs.List.{list_all};
ghost use Rattle.ec_axioms.specs.Changes.{comes_before, has_id, is_history};
ghost use Rattle.ec_axioms.specs.Events.{event_of};

use crate::event::Event;
use ec_moment::Moment;
use ec_terms::Name;
use std::cmp::Ordering;

/// Whether an event comes before another.
#[tactic(auto, unfolding(crate::specs::Changes::comes_before))]
fn is_before<T: Moment>(event: &Event<T>, other: &Event<T>) -> bool
    ensures { result ≡ comes_before (event_of T.rank event.now) (event_of T.rank other.now) }
{
    match event.at.order(&other.at) {
        Ordering::Less => true,
        Ordering::Equal => event.id.as_bytes().cmp(other.id.as_bytes()).is_lt(),
        Ordering::Greater => false,
    }
}

/// Whether an event comes before each of some others.
fn is_before_all<T: Moment>(event: &Event<T>, events: &[Event<T>]) -> bool
    ensures { result ≡ list_all (comes_before (event_of T.rank event.now)) (map (event_of T.rank) events.now) }
{
    for other in events {
        if !is_before(event, other) {
            return false;
        }
    }
    true
}

/// Whether some event has an identity.
#[tactic(auto, unfolding(crate::specs::Changes::has_id))]
fn is_present<T: Moment>(id: &Name, events: &[Event<T>]) -> bool
    ensures { result ≡ has_id id.now (map (event_of T.rank) events.now) }
{
    for other in events {
        if other.id.as_bytes() == id.as_bytes() {
            return true;
        }
    }
    false
}

/// Whether events stand in order of time and identity, and no two have one identity: what [`holds_plain`](crate::holds_plain) asks of its
/// list. It compares each event with all later ones.
#[tactic(auto, unfolding(crate::specs::Changes::is_history))]
pub fn is_in_order<T: Moment>(events: &[Event<T>]) -> bool
    ensures { result ≡ is_history (map (event_of T.rank) events.now) }
{
    match events {
        [] => true,
        [first, rest @ ..] => {
            is_before_all(first, rest) && !is_present(&first.id, rest) && is_in_order(rest)
        }
    }
}
