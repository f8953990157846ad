//! Whether a property holds, by the definitions alone: no cache, and no memory. It answers as the
//! definitions do, and takes longer than a program that keeps what it found.
ghost use Rattle.std.specs.Prelude.{◌≡◌, IsTrue, map};
ghost use Rattle.ec_terms.specs.Matchable.{IsMatchable};
ghost use Rattle.ec_terms.specs.Term.{names_are_names};
ghost use Rattle.ec_terms.specs.Term.{ground_of};
ghost use Rattle.ec_axioms.specs.Calculus.{holds_at, timeline_of};
ghost use Rattle.ec_axioms.specs.Changes.{is_history};
ghost use Rattle.ec_axioms.specs.Events.{event_of};
ghost use Rattle.ec_axioms.specs.Plain.{ends_well as ending_well};

use crate::currency::{Change, has_change, is_current};
use crate::event::Event;
use crate::history;
use ec_moment::Moment;
use ec_terms::{GroundRef, Theory};

/// Whether the first break of a property from a time on, if there is one, terminates it.
fn ends_well<T: Moment>(events: &[Event<T>], theory: &Theory, p: &GroundRef<'_>, at: T) -> bool
    requires ordered { IsTrue (is_history (map (event_of T.rank) events.now)) }
    requires matchable { IsMatchable theory.now }
    requires named { IsTrue (names_are_names (ground_of p.now)) }
    ensures { result ≡ ending_well (timeline_of theory.now (map (event_of T.rank) events.now) (ground_of p.now)) (T.rank at) }
{
    for event in history::from(events, at) {
        if has_change(events, theory, p, Change::Break, event.at) {
            return has_change(events, theory, p, Change::Termination, event.at);
        }
    }
    true
}

/// Whether a property holds at a time, over a list of events in order of time and identity.
///
/// It holds where it is current and the first break from there on, if there is one, terminates it. What a
/// theory without literals says takes time in proportion to its rules and to the events, and for many events
/// at one time to their square. A literal asks for the currency of its property at an earlier time, each time
/// anew: literals that rest on literals take time that doubles and more with each event.
pub fn holds_plain<T: Moment>(
    events: &[Event<T>],
    theory: &Theory,
    p: &GroundRef<'_>,
    at: T,
) -> bool
    requires ordered { IsTrue (is_history (map (event_of T.rank) events.now)) }
    requires matchable { IsMatchable theory.now }
    requires named { IsTrue (names_are_names (ground_of p.now)) }
    ensures { result ≡ holds_at theory.now (map (event_of T.rank) events.now) (ground_of p.now) (T.rank at) }
{
    is_current(events, theory, p, at) && ends_well(events, theory, p, at)
}
