//! Histories that are full, and an event that changes what many later ones do.
use crate::dialogue::tell_all;

const EVENTS: &str = "\
# an event that goes makes room for one
1..262144: assert e* 0 idle => ok
assert z 0 idle => refused full-events 262144
assert e1 0 idle => refused duplicate e1
retract e1 => ok
assert z 0 idle => ok
assert e1 0 idle => refused full-events 262144
begin => ok
assert e1 0 idle => drafted 1
commit => refused commit 1 full-events 262144
";

#[test]
fn a_history_holds_262144_events(rt: HostRuntime) {
    tell_all(&rt, rt.alloc(), "theory ROOMS", EVENTS);
}

/// Rules give an event seventeen mentions each, thirteen, and one. Behind 963 events of 1,088 mentions: one too many, the 832 that are
/// left, one too many, and none.
const MENTIONS: &str = "\
# an event has the mentions of all its rules ; theory \
{64 initiates e h if c1, c2, c3, c4, c5, c6, c7, c8, c9, c10, c11, c12, c13, c14, c15, c16.|}\
{64 initiates f h if c1, c2, c3, c4, c5, c6, c7, c8, c9, c10, c11, c12.|}\
initiates g h.
1..963: assert k* 0 e => ok
assert k964 0 e => refused full-mentions 1048576
retract k1 => ok
assert k964 0 e => ok
assert f1 0 f => ok
assert g1 0 g => refused full-mentions 1048576
assert i1 0 idle => ok
begin => ok
assert i2 0 idle => drafted 1
assert g1 0 g => drafted 2
commit => refused commit 2 full-mentions 1048576
";

#[test]
fn a_history_holds_1048576_mentions(rt: HostRuntime) {
    tell_all(&rt, rt.alloc(), "", MENTIONS);
}

/// Behind 65,536 mentions of 257 places, each of which excludes the 256 others.
const LINKS: &str = "\
# a mention is linked to what its property excludes
1..4096: assert s* 1 see(bob,h+) => ok
assert s4097 1 see(bob,h0) => refused full-links 16777216
assert t 1 see(ann,h0) => ok
retract s1 => ok
assert s4097 1 see(bob,h0) => ok
begin => ok
assert s1 1 see(bob,h0) => drafted 1
commit => refused commit 1 full-links 16777216
@1 begin => @1 ok
1..1023: @1 assert i* 1 idle => @1 drafted *
@1 assert s1 1 see(bob,h0) => @1 drafted 1024
@1 commit => @1 refused commit 1024 full-links 16777216
";

#[test]
fn a_history_holds_16777216_links(rt: HostRuntime) {
    tell_all(&rt, rt.alloc(), "theory SEEN", LINKS);
}

const MOVES: &str = "\
# each of the places excludes all others
1..4096: assert m* 1 move(bob,h*) => ok
assert m4097 1 move(bob,h4097) => refused full-links 16777216
";

#[test]
fn one_instant_has_room_for_4096_moves(rt: HostRuntime) {
    tell_all(&rt, rt.alloc(), "theory ROOMS", MOVES);
}

const LATE: &str = "\
# a late push, before all others
assert p 0 plug(a) => ok
2..20001: assert s* * push(bob,a) => ok
holds lit(a) 20002 => no
assert t 1 push(bob,a) => ok
holds lit(a) 20002 => yes
last => last seen 40000 on 20000 off 20000 props 1
";

#[test]
fn a_late_push_changes_the_effect_of_20000_later_ones(rt: HostRuntime) {
    tell_all(&rt, rt.alloc(), "theory ROOMS", LATE);
}
