//! What no clause shows: that memory is given.
use ec_moment::Tick;
use ec_numbered::Agenda;
use ec_terms::PropId;
use std::alloc::Global;
use std::process::Abort;

/// Whether this is the first time at which a property is due.
fn is_first(agenda: &Agenda<Tick>, at: i64) -> bool {
    match agenda.first_time() {
        Some(first) => first.0 == at,
        None => false,
    }
}

/// Whether the agenda gives out this property at this time next.
fn gives_next(agenda: &mut Agenda<Tick>, at: i64, p: usize) -> bool {
    match agenda.pop() {
        Some((due, prop)) => due.0 == at && prop.0 == p,
        None => false,
    }
}

/// Whether the agenda gives out these properties at these times, and is empty then.
fn gives(agenda: &mut Agenda<Tick>, wanted: &[(i64, usize)]) -> bool {
    for (at, p) in wanted {
        if !is_first(agenda, *at) || !gives_next(agenda, *at, *p) {
            return false;
        }
    }
    agenda.is_empty() && agenda.first_time().is_none() && agenda.pop().is_none()
}

/// Whether properties that become due in any order, and one of them twice, are given out by time and then by number.
fn sorts(rt: &impl Abort, agenda: &mut Agenda<Tick>) -> bool {
    for (at, p) in [(7, 2), (3, 9), (7, 1), (3, 9), (-4, 5)] {
        agenda.add(Tick(at), PropId(p)).expect(rt, "memory");
    }
    gives(agenda, &[(-4, 5), (3, 9), (7, 1), (7, 2)])
}

#[test]
fn the_earliest_comes_first(rt: HostRuntime) {
    assert!(rt; sorts(&rt, &mut Agenda::new(rt.alloc())));
}
