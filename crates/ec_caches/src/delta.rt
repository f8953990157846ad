//! What no clause shows: that memory is given, and that a row of touches is found again.
use ec_delta::{Touch, Touches};
use ec_moment::Tick;
use ec_terms::PropId;
use std::alloc::Global;
use std::process::Abort;

fn touch(at: i64, grows: bool, matters: bool) -> Touch<Tick> {
    Touch {
        at: Tick(at),
        grows,
        starts: false,
        matters,
    }
}

/// Whether the row of property 3, which stands first, tells of its two changes.
fn tells_both(touches: &Touches<Tick>) -> bool {
    if touches.len() != 2 {
        return false;
    }
    let (p, row) = touches.row(0);
    p == PropId(3)
        && row.from == Tick(5)
        && row.until == Tick(9)
        && row.count == 2
        && row.grows == 1
        && row.matters
        && touches.row(1).0 == PropId(1)
}

/// Notes a change of a property.
fn note(rt: &impl Abort, touches: &mut Touches<Tick>, p: PropId, touch: &Touch<Tick>) {
    let noted = touches.note(p, touch);
    noted.expect(rt, "memory");
}

/// Notes two changes of one property and one of another, and reads them.
fn notes_and_reads(rt: &impl Abort, alloc: Global) -> bool {
    let mut touches = Touches::new(alloc);
    note(rt, &mut touches, PropId(3), &touch(5, true, false));
    note(rt, &mut touches, PropId(3), &touch(9, false, true));
    note(rt, &mut touches, PropId(1), &touch(7, true, false));
    touches.get(PropId(2)).is_none() && tells_both(&touches)
}

#[test]
fn touches_are_noted_and_read(rt: HostRuntime) {
    assert!(rt; notes_and_reads(&rt, rt.alloc()));
}
