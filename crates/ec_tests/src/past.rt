//! Questions about what was known when: the list of events after so many accepted updates.
use crate::dialogue::tell_all;

/// Dialogues that ask about lamps, and about who is where.
const DIALOGUES: &str = "\
# what was known before a late push, with it, and without it again
assert p 5 plug(a) => ok
assert q 10 push(bob,a) => ok
assert r 20 push(bob,a) => ok
assert s 30 push(bob,a) => ok
assert t 7 push(bob,a) => ok
asof 4 intervals lit(a) => 2 (10,20] (30,inf)
asof 5 intervals lit(a) => 2 (7,10] (20,30]
asof 0 events => 0
asof 3 intervals lit(a) => 1 (10,20]
asof 1 intervals lit(a) => 0
asof 4 holds lit(a) 11 => yes
@07 asof 5 holds lit(a) 11 => @7 no
asof 4 through lit(a) 11 20 => yes
asof 5 through lit(a) 11 20 => no
asof 2 broken lit(a) => 0
asof 2 at 11 => 2 lit(a) powered(a)
asof 5 at 11 => 1 powered(a)
asof 4 clashes => 0
asof 2 events => 2 p 5 plug(a) q 10 push(bob,a)
asof 4 why lit(a) 11 => yes 10 20 by q rule 1 until r rule 2
asof 5 why lit(a) 11 => no ended 7 10 by q rule 2
asof 6 events => refused future 5
asof 18446744073709551615 events => refused future 5
asof 6 through lit(a) 9 8 => refused order
asof 4 through lit(a) 9 8 => refused order
intervals lit(a) => 2 (7,10] (20,30]
last => last seen 6 on 3 off 3 props 1
# a draft is one update once it is committed, and no line else is one
begin => ok
assert x 1 plug(a) => drafted 1
asof 0 events => 0
asof 1 events => refused future 0
retract x => drafted 2
assert x 2 plug(b) => drafted 3
@1 assert y 3 plug(c) => @1 ok
commit => ok
asof 2 events => 2 x 2 plug(b) y 3 plug(c)
asof 1 events => 1 y 3 plug(c)
assert x 9 plug(d) => refused duplicate x
begin => ok
retract z => drafted 1
commit => refused commit 1 unknown z
abort => ok
asof 3 events => refused future 2
begin => ok
commit => ok
last => last seen 0 on 0 off 0 props 0
asof 3 events => 2 x 2 plug(b) y 3 plug(c)
retract x => ok
asof 3 events => 2 x 2 plug(b) y 3 plug(c)
@63 asof 4 events => @63 1 y 3 plug(c)
asof 0 at 5 => 0
# what asof stands before is a query of one list
assert p 5 plug(a) => ok
asof 001 clashes => 0
asof 007 clashes => refused future 1
asof 00000000000000000001 events => 1 p 5 plug(a)
asof 000000000000000000001 events => refused syntax
asof 18446744073709551616 events => refused syntax
asof -1 events => refused syntax
asof +1 events => refused syntax
asof 1x events => refused syntax
asof events => refused syntax
@3 asof 1 => @3 refused syntax
asof => refused syntax
asof 1 asof 1 events => refused syntax
asof 1 last => refused syntax
asof 1 pairs powered(a) before powered(a) => refused syntax
asof 1 related powered(a) 6 before powered(a) => refused syntax
asof 1 assert q 5 idle => refused syntax
asof 1 retract p => refused syntax
asof 1 begin => refused syntax
asof 1 commit => refused syntax
asof 1 abort => refused syntax
asof 1 quit => refused syntax
asof 1 events events => refused syntax
asof 1 holds powered(a) => refused syntax
Asof 1 events => refused syntax
# before the first update there is what is initial ; theory initiates plug(L) powered(L). terminates unplug(L) powered(L). initially powered(c).
asof 0 intervals powered(c) => 1 (-inf,inf)
assert u 5 unplug(c) => ok
asof 0 at 9 => 1 powered(c)
asof 1 intervals powered(c) => 1 (-inf,5]
asof 0 why powered(c) 9 => yes -inf inf initially
# the first list goes with the update that is one too many
1..65536: assert e* 0 idle => ok
asof 0 events => 0
assert e65537 0 idle => ok
asof 0 events => refused gone 1
asof 0 through lit(a) 9 8 => refused order
asof 1 events => 1 e1 0 idle
asof 65538 events => refused future 65537
retract e1 => ok
asof 1 events => refused gone 2
asof 2 events => 2 e1 0 idle e2 0 idle
";

#[test]
fn the_past_is_asked_for(rt: HostRuntime) {
    tell_all(&rt, rt.alloc(), "theory ROOMS", DIALOGUES);
}
