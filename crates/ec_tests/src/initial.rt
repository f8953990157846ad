//! Properties that hold from before all events.
use crate::dialogue::tell_all;

/// Dialogues over the rooms and lamps.
const DIALOGUES: &str = "\
# what is initial has no first instant, and ends as others do ; theory ROOMS initially powered(a).
holds powered(a) -5 => yes
intervals powered(a) => 1 (-inf,inf)
assert u 7 unplug(a) => ok
last => last seen 0 on 0 off 0 props 1
intervals powered(a) => 1 (-inf,7]
why powered(a) 7 => yes -inf 7 initially until u rule 4
why powered(a) 8 => no ended -inf 7 by u rule 4
assert q 3 push(bob,a) => ok
intervals lit(a) => 1 (3,7]
at -9223372036854775808 => 1 powered(a)
# it goes on where it is not strong and is initiated ; theory ROOMS initially at(bob,home).
assert m1 10 move(bob,home) => ok
intervals at(bob,home) => 1 (-inf,inf)
broken at(bob,home) => 0
why at(bob,home) 5 => yes -inf inf initially
# it ends and starts at one instant ; theory ROOMS initially powered(a).
assert u 7 unplug(a) => ok
assert v 7 plug(a) => ok
intervals powered(a) => 2 (-inf,7] (7,inf)
through powered(a) -9223372036854775808 9223372036854775807 => yes
retract u => ok
intervals powered(a) => 1 (-inf,inf)
# two exclusive ones hold together and are no clash, and a third breaks both ; theory ROOMS initially at(bob,home). initially at(bob,work).
at 5 => 2 at(bob,home) at(bob,work)
clashes => 0
assert m 10 move(bob,park) => ok
last => last seen 0 on 0 off 0 props 3
at 5 => 0
broken at(bob,work) => 1 -inf 10
why at(bob,home) 5 => no broken -inf 10 by m rule 6
retract m => ok
intervals at(bob,home) => 1 (-inf,inf)
# one that is strong is broken where it is initiated ; theory ROOMS strong at/2.|initially at(bob,home).
assert m1 10 move(bob,home) => ok
intervals at(bob,home) => 1 (10,inf)
broken at(bob,home) => 1 -inf 10
why at(bob,home) 5 => no broken -inf 10 by m1 rule 6
";

#[test]
fn initial_properties_hold_from_before_all_events(rt: HostRuntime) {
    tell_all(&rt, rt.alloc(), "reads 1,4096 ; writes 3", DIALOGUES);
}
