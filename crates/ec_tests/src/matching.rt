//! Terms in their order, and the rules that events meet: patterns, tests and literals.
use crate::cases::run_all;
use crate::dialogue::tell_all;

/// Dialogues, each under rules of its own.
const DIALOGUES: &str = "\
# terms by name, a prefix first, by number of arguments, and by arguments, numbers first ; theory \
initiates light lamp. initiates light(X) lamp(X). initiates light(X,Y) lamp(X,Y). \
initiates light2 lamp2. initiates lights lamps. initiates put plug.
assert a 1 lights => ok
assert b 1 light(b) => ok
assert c 1 put => ok
assert d 1 light(4,a) => ok
assert e 1 light(aa) => ok
assert f 1 light(12) => ok
assert g 1 light2 => ok
assert h 1 light(a) => ok
assert i 1 light(4) => ok
assert j 1 light(4,4) => ok
assert k 1 light(aB) => ok
assert l 1 light => ok
assert m 1 light(-5) => ok
assert n 1 light(a1) => ok
at 2 => 14 lamp lamp(-5) lamp(4) lamp(12) lamp(a) lamp(a1) lamp(aB) lamp(aa) lamp(b) lamp(4,4) lamp(4,a) lamp2 lamps plug
# the same, told from the last to the first ; theory \
initiates light lamp. initiates light(X) lamp(X). initiates light(X,Y) lamp(X,Y). \
initiates light2 lamp2. initiates lights lamps. initiates put plug.
assert a 1 put => ok
assert b 1 lights => ok
assert c 1 light2 => ok
assert d 1 light(4,a) => ok
assert e 1 light(4,4) => ok
assert f 1 light(b) => ok
assert g 1 light(aa) => ok
assert h 1 light(aB) => ok
assert i 1 light(a1) => ok
assert j 1 light(a) => ok
assert k 1 light(12) => ok
assert l 1 light(4) => ok
assert m 1 light(-5) => ok
assert n 1 light => ok
at 2 => 14 lamp lamp(-5) lamp(4) lamp(12) lamp(a) lamp(a1) lamp(aB) lamp(aa) lamp(b) lamp(4,4) lamp(4,a) lamp2 lamps plug
# a repeated variable has one value, and an argument that is given is the same ; theory initiates meet(X,X,_,5,Y) met(X,Y).
assert a 1 met(7,7,8,5,9) => ok
assert b 1 meet(7,7,8,5) => ok
assert c 1 met(8,8,8,5,8) => ok
assert d 1 meet(8,8,8,5) => ok
assert e 1 meet(7,8,8,5,9) => ok
assert f 1 met(7,8,8,5,9) => ok
assert g 1 meet(7,8,8,5) => ok
assert h 1 meet(7,7,8,6,9) => ok
assert i 1 met(7,7,8,6,9) => ok
assert j 1 meet(7,7,8,6) => ok
at 2 => 0
assert k 1 meet(7,7,8,5,9) => ok
at 2 => 1 met(7,9)
assert l 1 meet(8,8,8,5,8) => ok
at 2 => 2 met(7,9) met(8,8)
# a property has each value at its place ; theory initiates see(X,Y) seen(Y,lamp,X).
assert s 1 see(4,-6) => ok
at 2 => 1 seen(-6,lamp,4)
# all tests of a rule have to hold ; theory \
initiates e both if 4 = 4, 4 = 4. initiates e first if 4 = 4, 4 != 4. \
initiates e second if 4 != 4, 4 = 4. initiates e neither if 4 != 4, 4 != 4.
assert a 1 e => ok
at 2 => 1 both
# an event meets the rules with its name and its number of arguments ; theory \
initiates push(L) lit(L). initiates push(P,L) held(P,L). initiates ring(L) heard(L). \
terminates push(L) dark(L). terminates ring(P,L) asked(P). \
initiates dim(L) dark(L). initiates ask(P) asked(P).
assert a 1 dim(l1) => ok
assert b 1 ask(bob) => ok
at 2 => 2 asked(bob) dark(l1)
assert c 10 ring => ok
last => last seen 0 on 0 off 0 props 0
assert d 10 plug(l1) => ok
last => last seen 0 on 0 off 0 props 0
assert e 10 push(l1) => ok
last => last seen 0 on 0 off 0 props 2
why lit(l1) 11 => yes 10 inf by e rule 1
why dark(l1) 11 => no ended 1 10 by e rule 4
assert f 10 push(bob,l1) => ok
last => last seen 0 on 0 off 0 props 1
why held(bob,l1) 11 => yes 10 inf by f rule 2
assert g 10 ring(l1) => ok
last => last seen 0 on 0 off 0 props 1
why heard(l1) 11 => yes 10 inf by g rule 3
assert h 10 ring(bob,l1) => ok
last => last seen 0 on 0 off 0 props 1
why asked(bob) 11 => no ended 1 10 by h rule 5
at 11 => 3 heard(l1) held(bob,l1) lit(l1)
";

#[test]
fn terms_are_ordered_matched_and_filled(rt: HostRuntime) {
    tell_all(&rt, rt.alloc(), "", DIALOGUES);
}

/// Ten pairs of arguments, and which of them are the same, differ, or come one before the other, under rules that compare them.
const COMPARISONS: &str = "\
input assert a 1 ask(4,4)|assert b 1 ask(4,12)|assert c 1 ask(12,4)|assert d 1 ask(-5,4)|assert e 1 ask(4,-5)|\
assert f 1 ask(a1,a1)|assert g 1 ask(a1,aB)|assert h 1 ask(aB,a1)|assert i 1 ask(12,a1)|assert j 1 ask(a1,12)|at 2|
gives 0 {10 ok|}20 \
differ(-5,4) differ(4,-5) differ(4,12) differ(12,4) differ(12,a1) differ(a1,12) differ(a1,aB) differ(aB,a1) \
less(-5,4) less(4,12) less(12,a1) less(a1,aB) \
most(-5,4) most(4,4) most(4,12) most(12,a1) most(a1,a1) most(a1,aB) \
same(4,4) same(a1,a1)|
# both sides are variables
theory initiates ask(X,Y) same(X,Y) if X = Y. initiates ask(X,Y) differ(X,Y) if X != Y. \
initiates ask(X,Y) less(X,Y) if X < Y. initiates ask(X,Y) most(X,Y) if X <= Y. =>
# the right side is given itself
theory \
initiates ask(X,4) same(X,4) if X = 4. initiates ask(X,4) differ(X,4) if X != 4. \
initiates ask(X,4) less(X,4) if X < 4. initiates ask(X,4) most(X,4) if X <= 4. \
initiates ask(X,12) same(X,12) if X = 12. initiates ask(X,12) differ(X,12) if X != 12. \
initiates ask(X,12) less(X,12) if X < 12. initiates ask(X,12) most(X,12) if X <= 12. \
initiates ask(X,-5) same(X,-5) if X = -5. initiates ask(X,-5) differ(X,-5) if X != -5. \
initiates ask(X,-5) less(X,-5) if X < -5. initiates ask(X,-5) most(X,-5) if X <= -5. \
initiates ask(X,a1) same(X,a1) if X = a1. initiates ask(X,a1) differ(X,a1) if X != a1. \
initiates ask(X,a1) less(X,a1) if X < a1. initiates ask(X,a1) most(X,a1) if X <= a1. \
initiates ask(X,aB) same(X,aB) if X = aB. initiates ask(X,aB) differ(X,aB) if X != aB. \
initiates ask(X,aB) less(X,aB) if X < aB. initiates ask(X,aB) most(X,aB) if X <= aB. =>
# the left side is given itself
theory \
initiates ask(4,Y) same(4,Y) if 4 = Y. initiates ask(4,Y) differ(4,Y) if 4 != Y. \
initiates ask(4,Y) less(4,Y) if 4 < Y. initiates ask(4,Y) most(4,Y) if 4 <= Y. \
initiates ask(12,Y) same(12,Y) if 12 = Y. initiates ask(12,Y) differ(12,Y) if 12 != Y. \
initiates ask(12,Y) less(12,Y) if 12 < Y. initiates ask(12,Y) most(12,Y) if 12 <= Y. \
initiates ask(-5,Y) same(-5,Y) if -5 = Y. initiates ask(-5,Y) differ(-5,Y) if -5 != Y. \
initiates ask(-5,Y) less(-5,Y) if -5 < Y. initiates ask(-5,Y) most(-5,Y) if -5 <= Y. \
initiates ask(a1,Y) same(a1,Y) if a1 = Y. initiates ask(a1,Y) differ(a1,Y) if a1 != Y. \
initiates ask(a1,Y) less(a1,Y) if a1 < Y. initiates ask(a1,Y) most(a1,Y) if a1 <= Y. \
initiates ask(aB,Y) same(aB,Y) if aB = Y. initiates ask(aB,Y) differ(aB,Y) if aB != Y. \
initiates ask(aB,Y) less(aB,Y) if aB < Y. initiates ask(aB,Y) most(aB,Y) if aB <= Y. =>
# both sides are given themselves
theory \
initiates ask(4,4) same(4,4) if 4 = 4. initiates ask(4,4) differ(4,4) if 4 != 4. \
initiates ask(4,4) less(4,4) if 4 < 4. initiates ask(4,4) most(4,4) if 4 <= 4. \
initiates ask(4,12) same(4,12) if 4 = 12. initiates ask(4,12) differ(4,12) if 4 != 12. \
initiates ask(4,12) less(4,12) if 4 < 12. initiates ask(4,12) most(4,12) if 4 <= 12. \
initiates ask(12,4) same(12,4) if 12 = 4. initiates ask(12,4) differ(12,4) if 12 != 4. \
initiates ask(12,4) less(12,4) if 12 < 4. initiates ask(12,4) most(12,4) if 12 <= 4. \
initiates ask(-5,4) same(-5,4) if -5 = 4. initiates ask(-5,4) differ(-5,4) if -5 != 4. \
initiates ask(-5,4) less(-5,4) if -5 < 4. initiates ask(-5,4) most(-5,4) if -5 <= 4. \
initiates ask(4,-5) same(4,-5) if 4 = -5. initiates ask(4,-5) differ(4,-5) if 4 != -5. \
initiates ask(4,-5) less(4,-5) if 4 < -5. initiates ask(4,-5) most(4,-5) if 4 <= -5. \
initiates ask(a1,a1) same(a1,a1) if a1 = a1. initiates ask(a1,a1) differ(a1,a1) if a1 != a1. \
initiates ask(a1,a1) less(a1,a1) if a1 < a1. initiates ask(a1,a1) most(a1,a1) if a1 <= a1. \
initiates ask(a1,aB) same(a1,aB) if a1 = aB. initiates ask(a1,aB) differ(a1,aB) if a1 != aB. \
initiates ask(a1,aB) less(a1,aB) if a1 < aB. initiates ask(a1,aB) most(a1,aB) if a1 <= aB. \
initiates ask(aB,a1) same(aB,a1) if aB = a1. initiates ask(aB,a1) differ(aB,a1) if aB != a1. \
initiates ask(aB,a1) less(aB,a1) if aB < a1. initiates ask(aB,a1) most(aB,a1) if aB <= a1. \
initiates ask(12,a1) same(12,a1) if 12 = a1. initiates ask(12,a1) differ(12,a1) if 12 != a1. \
initiates ask(12,a1) less(12,a1) if 12 < a1. initiates ask(12,a1) most(12,a1) if 12 <= a1. \
initiates ask(a1,12) same(a1,12) if a1 = 12. initiates ask(a1,12) differ(a1,12) if a1 != 12. \
initiates ask(a1,12) less(a1,12) if a1 < 12. initiates ask(a1,12) most(a1,12) if a1 <= 12. =>
";

#[test]
fn a_test_compares_what_its_sides_stand_for(rt: HostRuntime) {
    run_all(&rt, rt.alloc(), "", COMPARISONS);
}

/// A lamp that is lit or put out by a push where it is powered, persons who move, a push of a thing by itself, a move of a place to
/// itself, and what lights a lamp in any case.
const RULES: &str = "theory \
initiates push(P,L) lit(L) if powered(L), not lit(L). \
terminates push(P,L) lit(L) if lit(L). \
initiates plug(L) powered(L). \
initiates move(P,Y) at(P,Y). \
initiates push(P,L) moved(P) if P = L. \
initiates move(P,P) still(P). \
initiates light(L) lit(L).";

/// Dialogues over them: what each event does, by which rule.
const EFFECTS: &str = "\
# events that meet no rule
assert a 1 push(bob) => ok
assert b 1 ring => ok
at 2 => 0
last => last seen 0 on 0 off 0 props 0
# events that meet one
assert a 1 plug(l1) => ok
at 2 => 1 powered(l1)
why powered(l1) 2 => yes 1 inf by a rule 3
assert b 1 move(bob,home) => ok
at 2 => 2 at(bob,home) powered(l1)
why at(bob,home) 2 => yes 1 inf by b rule 4
# a variable that stands twice, with one value
assert a 1 move(home,home) => ok
at 2 => 2 at(home,home) still(home)
why at(home,home) 2 => yes 1 inf by a rule 4
why still(home) 2 => yes 1 inf by a rule 6
# a test that does not hold, and one that holds
assert a 1 plug(l1) => ok
assert b 1 plug(l2) => ok
assert c 10 push(bob,l1) => ok
at 11 => 3 lit(l1) powered(l1) powered(l2)
why lit(l1) 11 => yes 10 inf by c rule 1
assert d 10 push(l2,l2) => ok
at 11 => 5 lit(l1) lit(l2) moved(l2) powered(l1) powered(l2)
why lit(l2) 11 => yes 10 inf by d rule 1
why moved(l2) 11 => yes 10 inf by d rule 5
assert e 20 push(l2,l2) => ok
intervals moved(l2) => 1 (10,inf)
why lit(l2) 21 => no ended 10 20 by e rule 2
# a push while nothing is current, and then while the lamp has power, and while it is lit too
assert a 10 push(bob,l1) => ok
at 11 => 0
assert b 5 plug(l1) => ok
last => last seen 1 on 1 off 0 props 2
why lit(l1) 11 => yes 10 inf by a rule 1
assert c 5 light(l1) => ok
last => last seen 2 on 1 off 1 props 1
intervals lit(l1) => 1 (5,10]
why lit(l1) 11 => no ended 5 10 by a rule 2
# a push while the lamp is lit without power
assert a 10 push(bob,l1) => ok
assert b 5 light(l1) => ok
last => last seen 2 on 1 off 0 props 1
intervals lit(l1) => 1 (5,10]
why lit(l1) 11 => no ended 5 10 by a rule 2
";

#[test]
fn an_event_does_what_the_rules_that_it_meets_say(rt: HostRuntime) {
    tell_all(&rt, rt.alloc(), RULES, EFFECTS);
}
