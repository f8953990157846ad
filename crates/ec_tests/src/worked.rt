//! Small histories that each show a rule, and drafts that are committed, refused or full.
use crate::dialogue::tell_all;

/// Dialogues over the rooms and lamps.
const DIALOGUES: &str = "\
# a lamp that is plugged and pushed, and a late unplug
assert p 5 plug(a) => ok
assert q 10 push(bob,a) => ok
holds lit(a) 10 => no
holds lit(a) 11 => yes
intervals lit(a) => 1 (10,inf)
assert u 7 unplug(a) => ok
holds lit(a) 11 => no
last => last seen 1 on 0 off 1 props 2
# a late push flips the later ones, until it is taken back
assert p 5 plug(a) => ok
assert q 10 push(bob,a) => ok
assert r 20 push(bob,a) => ok
assert s 30 push(bob,a) => ok
intervals lit(a) => 2 (10,20] (30,inf)
assert t 7 push(bob,a) => ok
intervals lit(a) => 2 (7,10] (20,30]
last => last seen 6 on 3 off 3 props 1
retract t => ok
intervals lit(a) => 2 (10,20] (30,inf)
last => last seen 6 on 3 off 3 props 1
# refused updates change nothing
assert p 5 plug(a) => ok
assert q 10 push(bob,a) => ok
holds lit(a) 10 => no
holds lit(a) 11 => yes
intervals lit(a) => 1 (10,inf)
assert p 6 plug(b) => refused duplicate p
retract z => refused unknown z
intervals lit(a) => 1 (10,inf)
holds powered(b) 9 => no
# contexts read what was current before their instant
assert q 10 push(bob,a) => ok
assert p 10 plug(a) => ok
intervals lit(a) => 0
# an end and a start at one instant
assert p 5 plug(a) => ok
assert v 10 plug(a) => ok
assert u 10 unplug(a) => ok
intervals powered(a) => 2 (5,10] (10,inf)
through powered(a) 6 20 => yes
through powered(a) 5 20 => no
holds powered(a) 10 => yes
holds powered(a) 11 => yes
retract v => ok
holds powered(a) 11 => no
# a move breaks the last place, and a leave closes it after all
assert m1 10 move(bob,home) => ok
assert m2 20 move(bob,work) => ok
intervals at(bob,home) => 0
broken at(bob,home) => 1 10 20
why at(bob,home) 15 => no broken 10 20 by m2 rule 6
why at(bob,work) 21 => yes 20 inf by m2 rule 6
assert l1 18 leave(bob,home) => ok
intervals at(bob,home) => 1 (10,18]
broken at(bob,home) => 0
why at(bob,home) 15 => yes 10 18 by m1 rule 6 until l1 rule 7
why at(bob,home) 19 => no ended 10 18 by l1 rule 7
# a property that is initiated once more goes on
assert m1 10 move(bob,home) => ok
assert m2 14 move(bob,home) => ok
assert l1 20 leave(bob,home) => ok
intervals at(bob,home) => 1 (10,20]
broken at(bob,home) => 0
# a clash
assert m1 10 move(bob,home) => ok
assert m2 10 move(bob,work) => ok
intervals at(bob,home) => 1 (10,inf)
intervals at(bob,work) => 1 (10,inf)
clashes => 1 10
at 11 => 2 at(bob,home) at(bob,work)
# the ends of time
assert p -9223372036854775808 plug(a) => ok
assert q 9223372036854775807 plug(b) => ok
holds powered(a) -9223372036854775808 => no
holds powered(a) -9223372036854775807 => yes
holds powered(b) 9223372036854775807 => no
intervals powered(b) => 1 (9223372036854775807,inf)
assert r 9223372036854775808 plug(c) => refused syntax
# the drafts of two sessions, and that of a line without a prefix, which is session 0
@1 begin => @1 ok
@1 assert x 1 plug(a) => @1 drafted 1
@2 holds powered(a) 2 => @2 no
@1 assert x 2 plug(b) => @1 drafted 2
@1 commit => @1 refused commit 2 duplicate x
@1 commit => @1 refused commit 2 duplicate x
@1 abort => @1 ok
@1 abort => @1 refused no-draft
events => 0
@0 begin => @0 ok
assert x 1 plug(a) => drafted 1
@0 assert y 2 plug(b) => @0 drafted 2
abort => ok
@0 commit => @0 refused no-draft
# the updates of a draft are counted together, and a late push and its retraction alone
begin => ok
assert p 5 plug(a) => drafted 1
assert q 10 push(bob,a) => drafted 2
assert r 20 push(bob,a) => drafted 3
assert s 30 push(bob,a) => drafted 4
last => last seen 0 on 0 off 0 props 0
commit => ok
last => last seen 0 on 0 off 0 props 2
assert t 7 push(bob,a) => ok
last => last seen 6 on 3 off 3 props 1
retract t => ok
last => last seen 6 on 3 off 3 props 1
begin => ok
assert t 7 push(bob,a) => drafted 1
commit => ok
last => last seen 6 on 3 off 3 props 1
# what is taken out and put in again is no change, and a refused draft leaves all as it was
assert p 5 plug(a) => ok
assert q 10 push(bob,a) => ok
assert r 20 push(bob,a) => ok
assert s 30 push(bob,a) => ok
begin => ok
retract q => drafted 1
assert q 10 push(bob,a) => drafted 2
commit => ok
last => last seen 0 on 0 off 0 props 0
begin => ok
assert t 7 push(bob,a) => drafted 1
assert s 40 push(bob,a) => drafted 2
commit => refused commit 2 duplicate s
abort => ok
last => last seen 0 on 0 off 0 props 0
events => 4 p 5 plug(a) q 10 push(bob,a) r 20 push(bob,a) s 30 push(bob,a)
intervals powered(a) => 1 (5,inf)
intervals lit(a) => 2 (10,20] (30,inf)
begin => ok
assert t 7 push(bob,a) => drafted 1
commit => ok
last => last seen 6 on 3 off 3 props 1
begin => ok
retract r => drafted 1
assert q 40 push(bob,a) => drafted 2
commit => refused commit 2 duplicate q
abort => ok
last => last seen 6 on 3 off 3 props 1
events => 5 p 5 plug(a) t 7 push(bob,a) q 10 push(bob,a) r 20 push(bob,a) s 30 push(bob,a)
intervals powered(a) => 1 (5,inf)
intervals lit(a) => 2 (7,10] (20,30]
# small refusals, and lines without a reply
assert p 5 plug(a) => ok
through powered(a) 9 8 => refused order
commit now => refused syntax
abort now => refused syntax
begin => ok
begin => refused in-draft
begin now => refused syntax
@64 last => refused syntax
holds Lit 3 => refused syntax
   =>
% note =>
@3 => @3 refused syntax
last => last seen 0 on 0 off 0 props 1
# a strong property that is initiated once more begins anew ; theory ROOMS strong at/2.|
assert m1 10 move(bob,home) => ok
assert m2 14 move(bob,home) => ok
assert l1 20 leave(bob,home) => ok
intervals at(bob,home) => 1 (14,20]
broken at(bob,home) => 1 10 14
why at(bob,home) 12 => no broken 10 14 by m2 rule 6
why at(bob,home) 20 => yes 14 20 by m2 rule 6 until l1 rule 7
why at(bob,home) 21 => no ended 14 20 by l1 rule 7
why at(bob,home) 10 => no never
# a property that is current and does not hold ; theory ROOMS initiates ring(P) answered(P) if at(P,home).|
assert m1 10 move(bob,home) => ok
assert m2 20 move(bob,work) => ok
assert g 15 ring(bob) => ok
holds at(bob,home) 15 => no
intervals answered(bob) => 1 (15,inf)
# where nothing happened, nothing holds, broke or clashed ; theory
holds e 7 => no
through e 7 8 => no
intervals e => 0
broken e => 0
at 7 => 0
clashes => 0
events => 0
# an event that fits no rule is told as others, at a time before 0 too ; theory
assert e -7 e => ok
events => 1 e -7 e
# the reasons of a begin before 0 and of an end
assert e -5 plug(a) => ok
why powered(a) -5 => no never
why powered(a) 7 => yes -5 inf by e rule 3
assert f 10 unplug(a) => ok
why powered(a) 10 => yes -5 10 by e rule 3 until f rule 4
why powered(a) 11 => no ended -5 10 by f rule 4
# the last two rules of a theory that has as many as may be ; theory \
{64 initiates a h. initiates b h. initiates c h. initiates d h. initiates e h. initiates f h. \
initiates g h. initiates h h. initiates i h. initiates j h. initiates k h. initiates l h. \
initiates m h. initiates n h. initiates o h.|}{62 initiates p h.|}\
initiates plug powered. terminates unplug powered.
assert e 5 plug => ok
why powered 7 => yes 5 inf by e rule 1023
assert f 10 unplug => ok
why powered 7 => yes 5 10 by e rule 1023 until f rule 1024
why powered 11 => no ended 5 10 by f rule 1024
";

#[test]
fn each_rule_shows_in_the_replies(rt: HostRuntime) {
    tell_all(
        &rt,
        rt.alloc(),
        "theory ROOMS ; reads 1,4096 ; writes 3",
        DIALOGUES,
    );
}

/// Drafts of 1,023 updates, and what comes to them: the last line that is taken, the commit and its reply, and the counts afterwards.
const DRAFTS: &str = "\
# a draft that is committed
begin => ok
1..1023: assert d* * plug(a) => drafted *
assert d1024 1024 plug(a) => drafted 1024
assert z 1 plug(a) => refused full-draft 1024
retract d1 => refused full-draft 1024
retract Z => refused syntax
commit => ok
last => last seen 0 on 0 off 0 props 1
# a draft that is refused
begin => ok
1..1023: assert d* * plug(a) => drafted *
retract z => drafted 1024
assert z 1 plug(a) => refused full-draft 1024
retract d1 => refused full-draft 1024
retract Z => refused syntax
commit => refused commit 1024 unknown z
last => last seen 0 on 0 off 0 props 0
";

#[test]
fn a_full_draft_takes_no_line_and_is_committed_whole(rt: HostRuntime) {
    tell_all(&rt, rt.alloc(), "theory ROOMS ; reads 1,4096", DRAFTS);
}
