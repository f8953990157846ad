//! How the intervals of two properties relate.
use crate::cases::{is_met, set_all};
use crate::dialogue::{Script, tell_all};
use crate::whole::{Case, SERVED};
use std::alloc::Global;
use std::process::Abort;
use std::string::String;

/// Dialogues that compare lamps.
const COMPARED: &str = "\
# two that overlap
assert p 5 plug(a) => ok
assert u 15 unplug(a) => ok
assert p2 10 plug(b) => ok
assert u2 20 unplug(b) => ok
pairs powered(a) overlaps powered(b) => 1 (5,15] (10,20]
pairs powered(b) overlapped_by powered(a) => 1 (10,20] (5,15]
pairs powered(a) before powered(b) => 0
related powered(a) 15 overlaps powered(b) => 1 (10,20]
related powered(a) 6 overlaps powered(b) => 1 (10,20]
related powered(a) 5 overlaps powered(b) => none
related powered(a) 16 overlaps powered(b) => none
related powered(a) 15 before powered(b) => 0
@07 related powered(b) 20 overlapped_by powered(a) => @7 1 (5,15]
pairs powered(a) near powered(b) => refused syntax
pairs powered(a) Overlaps powered(b) => refused syntax
pairs powered(a) overlaps => refused syntax
pairs powered(a) overlaps powered(b) powered(c) => refused syntax
pairs powered(a) 15 overlaps powered(b) => refused syntax
pairs powered( overlaps powered(b) => refused syntax
pairs powered(a) overlaps Powered => refused syntax
related powered(a) overlaps powered(b) => refused syntax
related powered(a) x overlaps powered(b) => refused syntax
related powered(a) 15 near powered(b) => refused syntax
related powered(a) 15 overlaps powered(b) 20 => refused syntax
pairs => refused syntax
@3 related => @3 refused syntax
begin => ok
retract u => drafted 1
pairs powered(a) overlaps powered(b) => 1 (5,15] (10,20]
commit => ok
pairs powered(a) overlaps powered(b) => 0
pairs powered(a) contains powered(b) => 1 (5,inf) (10,20]
# a property with itself, and with one that is unknown
assert p 5 plug(a) => ok
assert u 10 unplug(a) => ok
assert q 10 plug(a) => ok
pairs powered(a) meets powered(a) => 1 (5,10] (10,inf)
pairs powered(a) met_by powered(a) => 1 (10,inf) (5,10]
pairs powered(a) equals powered(a) => 2 (5,10] (5,10] (10,inf) (10,inf)
pairs powered(a) before powered(a) => 0
pairs powered(a) before nobody => 0
pairs nobody before powered(a) => 0
pairs nobody equals nobody => 0
related powered(a) 7 before nobody => 0
related nobody 7 before powered(a) => none
# each relation to an interval from 10 to 20, at the instants where they touch
assert i 10 plug(i) => ok
assert j 20 unplug(i) => ok
assert a1 21 plug(a) => ok
assert a2 30 unplug(a) => ok
assert b1 20 plug(b) => ok
assert b2 30 unplug(b) => ok
assert c1 19 plug(c) => ok
assert c2 21 unplug(c) => ok
assert d1 10 plug(d) => ok
assert d2 21 unplug(d) => ok
assert e1 9 plug(e) => ok
assert e2 21 unplug(e) => ok
assert f1 9 plug(f) => ok
assert f2 20 unplug(f) => ok
assert g1 10 plug(g) => ok
assert g2 20 unplug(g) => ok
assert h1 1 plug(h) => ok
assert h2 9 unplug(h) => ok
assert k1 1 plug(k) => ok
assert k2 10 unplug(k) => ok
assert l1 9 plug(l) => ok
assert l2 11 unplug(l) => ok
assert m1 10 plug(m) => ok
assert m2 19 unplug(m) => ok
assert n1 11 plug(n) => ok
assert n2 19 unplug(n) => ok
assert o1 11 plug(o) => ok
assert o2 20 unplug(o) => ok
pairs powered(i) before powered(a) => 1 (10,20] (21,30]
pairs powered(i) meets powered(b) => 1 (10,20] (20,30]
pairs powered(i) overlaps powered(c) => 1 (10,20] (19,21]
pairs powered(i) starts powered(d) => 1 (10,20] (10,21]
pairs powered(i) during powered(e) => 1 (10,20] (9,21]
pairs powered(i) finishes powered(f) => 1 (10,20] (9,20]
pairs powered(i) equals powered(g) => 1 (10,20] (10,20]
pairs powered(i) after powered(h) => 1 (10,20] (1,9]
pairs powered(i) met_by powered(k) => 1 (10,20] (1,10]
pairs powered(i) overlapped_by powered(l) => 1 (10,20] (9,11]
pairs powered(i) started_by powered(m) => 1 (10,20] (10,19]
pairs powered(i) contains powered(n) => 1 (10,20] (11,19]
pairs powered(i) finished_by powered(o) => 1 (10,20] (11,20]
related powered(i) 20 meets powered(b) => 1 (20,30]
related powered(i) 20 before powered(a) => 1 (21,30]
related powered(i) 11 after powered(h) => 1 (1,9]
related powered(i) 10 after powered(h) => none
pairs powered(i) before powered(b) => 0
pairs powered(i) meets powered(a) => 0
pairs powered(i) overlaps powered(b) => 0
pairs powered(i) starts powered(g) => 0
pairs powered(i) during powered(f) => 0
pairs powered(i) finishes powered(e) => 0
pairs powered(i) equals powered(d) => 0
pairs powered(i) after powered(k) => 0
pairs powered(i) met_by powered(h) => 0
pairs powered(i) overlapped_by powered(k) => 0
pairs powered(i) started_by powered(n) => 0
pairs powered(i) contains powered(o) => 0
pairs powered(i) finished_by powered(g) => 0
# from before all events, and without an end ; theory initiates plug(L) powered(L). terminates unplug(L) powered(L). initially powered(a). initially powered(b). initially powered(c).
assert a 5 unplug(a) => ok
assert b 9 unplug(b) => ok
assert d 5 plug(d) => ok
assert e 9 plug(e) => ok
pairs powered(a) starts powered(b) => 1 (-inf,5] (-inf,9]
pairs powered(b) started_by powered(a) => 1 (-inf,9] (-inf,5]
pairs powered(a) starts powered(c) => 1 (-inf,5] (-inf,inf)
pairs powered(e) finishes powered(d) => 1 (9,inf) (5,inf)
pairs powered(d) finishes powered(c) => 1 (5,inf) (-inf,inf)
pairs powered(a) meets powered(d) => 1 (-inf,5] (5,inf)
pairs powered(d) met_by powered(a) => 1 (5,inf) (-inf,5]
pairs powered(a) before powered(e) => 1 (-inf,5] (9,inf)
pairs powered(b) overlaps powered(d) => 1 (-inf,9] (5,inf)
pairs powered(c) equals powered(c) => 1 (-inf,inf) (-inf,inf)
pairs powered(c) before powered(c) => 0
pairs powered(c) after powered(c) => 0
related powered(a) -9223372036854775808 starts powered(b) => 1 (-inf,9]
related powered(a) 5 before powered(e) => 1 (9,inf)
related powered(a) 6 before powered(e) => none
related powered(c) 9223372036854775807 finished_by powered(e) => 1 (9,inf)
# more pairs of one property than a reply lists
1..363: assert p* *0 plug(a) => ok
1..363: assert u* *2 unplug(a) => ok
pairs powered(a) before powered(a) => refused full-pairs 65536
pairs powered(a) after powered(a) => refused full-pairs 65536
related powered(a) 3621 before powered(a) => 1 (3630,3632]
pairs powered(a) meets powered(a) => 0
retract p363 => ok
@1 pairs powered(b) before powered(a) => @1 0
";

#[test]
fn intervals_stand_in_their_relations(rt: HostRuntime) {
    tell_all(&rt, rt.alloc(), "theory LAMPS", COMPARED);
}

/// 256 runs of a lamp, and behind them all 256 runs of another.
const RUNS: &str = "\
1..256: assert p* *0 plug(a) => ok
1..256: assert u* *5 unplug(a) => ok
1..256: assert q* 1000*0 plug(b) => ok
1..256: assert v* 1000*5 unplug(b) => ok";

/// A further run of the second, which lies behind the first run of the first alone.
const ONE_MORE: &str = "\
assert r 17 plug(b) => ok
assert w 18 unplug(b) => ok
pairs powered(a) before powered(b) => refused full-pairs 65536
@2 pairs powered(b) after powered(a) => @2 refused full-pairs 65536";

/// All pairs of a run of the first and one of the second.
fn all_pairs(rt: &impl Abort, alloc: Global) -> String {
    let mut pairs = String::new(alloc);
    write!(pairs, "65536").expect(rt, "memory");
    for left in 1..=256 {
        for right in 1..=256 {
            write!(pairs, " ({left}0,{left}5] (1000{right}0,1000{right}5]").expect(rt, "memory");
        }
    }
    pairs
}

#[test]
fn as_many_pairs_are_listed_as_a_reply_has_and_no_more(rt: HostRuntime) {
    let alloc = rt.alloc();
    let mut script = Script::new(alloc);
    script.add_all(&rt, alloc, RUNS);
    let pairs = all_pairs(&rt, alloc);
    script.add(&rt, "pairs powered(a) before powered(b)", pairs.as_str());
    script.add_all(&rt, alloc, ONE_MORE);
    let mut given = SERVED;
    set_all(&rt, &mut given, "theory LAMPS");
    let case = Case {
        input: script.lines.as_str(),
        written: script.replies.as_str(),
        ..given
    };
    assert!(rt; is_met(&rt, alloc, &case));
}
