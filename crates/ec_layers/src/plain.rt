//! The plain program on the worked examples of one lamp and one person, written without arguments.
ghost use Rattle.std.specs.Prelude.{IsTrue, map};
ghost use Rattle.ec_axioms.specs.Changes.{is_history};
ghost use Rattle.ec_axioms.specs.Events.{event_of};
ghost use Rattle.ec_terms.specs.Matchable.{IsMatchable};

use crate::tables::row_of;
use ec_axioms::{Event, EventList, holds_plain, is_in_order};
use ec_moment::{Moment, Tick};
use ec_terms::{Name, Sequence, Theory, read_ground};
use ec_theory::{MOST_BYTES, accept};
use std::alloc::Global;
use std::process::Abort;

/// A lamp that is lit or put out by a push where it is powered, and a person who is at home or at work, and not at both.
const LAMP: &[u8] = b"initiates push lit if powered, not lit.
terminates push lit if lit.
initiates plug powered.
terminates unplug powered.
terminates unplug lit.
initiates move_home home.
initiates move_work work.
terminates leave_home home.
exclusive home work.
";

/// Events, each by its identity, its time and its term; and properties, each at a time, and whether it holds there.
const ROWS: &str = "
# a lamp that is plugged and pushed
p 5 plug, q 10 push => lit 10 no, lit 11 yes, powered 5 no, powered 6 yes
# an unplug that came late
p 5 plug, u 7 unplug, q 10 push => lit 11 no, powered 7 yes, powered 8 no
# pushes in turn, and one that came late and turned them
p 5 plug, q 10 push, r 20 push, s 30 push => lit 10 no, lit 11 yes, lit 20 yes, lit 21 no, lit 30 no, lit 31 yes
p 5 plug, t 7 push, q 10 push, r 20 push, s 30 push => lit 7 no, lit 8 yes, lit 10 yes, lit 11 no, lit 20 no, lit 21 yes, lit 31 no
# contexts read the strict past
p 10 plug, q 10 push => lit 11 no, powered 11 yes
# an end and a start at one instant
p 5 plug, u 10 unplug, v 10 plug => powered 5 no, powered 6 yes, powered 10 yes, powered 11 yes
# a second move to the same place, which changes nothing
m1 10 move_home, m2 14 move_home, l1 20 leave_home => home 10 no, home 11 yes, home 14 yes, home 20 yes, home 21 no
# a move that breaks the stay before it, and one after a leave
m1 10 move_home, m2 20 move_work => home 11 no, home 15 no, home 20 no, work 20 no, work 21 yes
m1 10 move_home, l1 18 leave_home, m2 20 move_work => home 11 yes, home 18 yes, home 19 no, work 20 no, work 21 yes
# two moves at once
m1 10 move_home, m2 10 move_work => home 11 yes, work 11 yes
";

/// What is added where a person at home answers a ring.
const RING: &[u8] = b"initiates ring answered if home.\n";

/// They are current there, though it is not known that they stayed.
const RING_ROWS: &str = "
m1 10 move_home, g 15 ring, m2 20 move_work => home 15 no, work 21 yes, answered 15 no, answered 16 yes
";

/// What is added where being at home is strong.
const STRONG: &[u8] = b"strong home/0.\n";

/// The second move ends what the first began, without a reason.
const STRONG_ROWS: &str = "
m1 10 move_home, m2 14 move_home, l1 20 leave_home => home 11 no, home 14 no, home 15 yes, home 20 yes, home 21 no
";

/// What is added where power and being at home are initial.
const INITIAL: &[u8] = b"initially powered.\ninitially home.\n";

/// They hold before all events, if what ends them first terminates them, or nothing does.
const INITIAL_ROWS: &str = "
p 5 plug => powered 0 yes, powered 5 yes, powered 6 yes
u 7 unplug => powered 0 yes, powered 7 yes, powered 8 no
l1 20 leave_home => home 20 yes, home 21 no, work 21 no
m2 20 move_work => home 10 no, home 20 no, work 20 no, work 21 yes
m1 10 move_home => home 5 no, home 10 no, home 11 yes
";

/// The words of `lit 10 no`, in the middle a time.
pub fn three<'a>(rt: &impl Abort, spelt: &'a str) -> (&'a str, Tick, &'a str) {
    let (first, rest) = spelt.split_once(' ').expect(rt, spelt);
    let (at, last) = rest.split_once(' ').expect(rt, spelt);
    (first, Tick(at.parse::<i64>().expect(rt, spelt)), last)
}

/// The event that is spelt as `p 5 plug`.
fn read_event(rt: &impl Abort, alloc: Global, spelt: &str) -> Event<Tick> {
    let (id, at, term) = three(rt, spelt);
    let (term, _) = read_ground(term.as_bytes()).expect(rt, spelt);
    Event {
        id: Name::from_bytes(id.as_bytes()).expect(rt, spelt),
        at,
        term: term.to_ground(alloc).expect(rt, "memory"),
    }
}

/// The events that are spelt as `p 5 plug, q 10 push`.
fn events_of(rt: &impl Abort, alloc: Global, spelt: &str) -> EventList<Tick> {
    let mut events: EventList<Tick> = Sequence::new(alloc);
    for spelt in spelt.split(", ") {
        let event = read_event(rt, alloc, spelt);
        events.push(event).expect(rt, "memory");
    }
    events
}

/// Whether a property holds at a time as it is told.
fn holds_as_told(rt: &impl Abort, events: &[Event<Tick>], theory: &Theory, told: &str) -> bool
    requires ordered { IsTrue (is_history (map (event_of ⟦<Tick as Moment>⟧.rank) events.now)) }
    requires matchable { IsMatchable theory.now }
{
    let (prop, at, expected) = three(rt, told);
    let (prop, _) = read_ground(prop.as_bytes()).expect(rt, told);
    holds_plain(events, theory, &prop, at) == (expected == "yes")
}

/// Whether all holds of some events that a row says of them.
fn all_hold(rt: &impl Abort, events: &[Event<Tick>], theory: &Theory, asked: &str) -> bool
    requires ordered { IsTrue (is_history (map (event_of ⟦<Tick as Moment>⟧.rank) events.now)) }
    requires matchable { IsMatchable theory.now }
{
    for told in asked.split(", ") {
        if !holds_as_told(rt, events, theory, told) {
            return false;
        }
    }
    true
}

/// Whether the events that a row spells are in order, and all holds that it says of them.
fn row_holds(rt: &impl Abort, alloc: Global, theory: &Theory, spelt: &str, asked: &str) -> bool
    requires { IsMatchable theory.now }
{
    let events = events_of(rt, alloc, spelt);
    is_in_order(events.as_slice()) && all_hold(rt, events.as_slice(), theory, asked)
}

/// Sees that each row of a table holds under a theory.
fn check_table(rt: &impl Abort, alloc: Global, theory: &Theory, table: &str)
    requires { IsMatchable theory.now }
{
    for line in table.lines() {
        if let Some((spelt, asked)) = row_of(line) {
            assert!(rt; row_holds(rt, alloc, theory, spelt, asked), "{line}");
        }
    }
}

/// The same under the theory of a text.
fn check_rows(rt: &impl Abort, alloc: Global, text: &[u8], table: &str) {
    assert!(rt; text.len() <= MOST_BYTES);
    let checked = accept(alloc, text).expect(rt, "a theory");
    check_table(rt, alloc, checked.theory(), table);
}

/// Adds clauses to a text, and sees that each row of a table holds under its theory then.
fn check_with(rt: &impl Abort, alloc: Global, text: &mut Vec<u8>, clauses: &[u8], table: &str) {
    text.extend_from_slice(clauses).expect(rt, "memory");
    check_rows(rt, alloc, text, table);
}

#[test]
fn worked_rows_hold(rt: HostRuntime) {
    let mut text = Vec::new(rt.alloc());
    check_with(&rt, rt.alloc(), &mut text, LAMP, ROWS);
    check_with(&rt, rt.alloc(), &mut text, RING, RING_ROWS);
    check_with(&rt, rt.alloc(), &mut text, STRONG, STRONG_ROWS);
    check_with(&rt, rt.alloc(), &mut text, INITIAL, INITIAL_ROWS);
}
