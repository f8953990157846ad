//! Texts of clauses, and what `check` says of them.
use crate::cases::run_all;

/// Texts, each with its counts or its first fault.
const TEXTS: &str = "\
# texts that are accepted, with blanks, comments and words that are names where no clause begins
theory strong at/2. strong at/0.% the end => 0 accepted rules 0 exclusives 0 strongs 2|
theory initiates initiates strong if exclusive, not terminates. => 0 accepted rules 1 exclusives 0 strongs 0|
theory initiates e(X,_,007,-0,a) p if X<=-5,3!=X,b=X, not q(X). => 0 accepted rules 1 exclusives 0 strongs 0|
theory strong a/00000000000000000001. => 0 accepted rules 0 exclusives 0 strongs 1|
# a byte that begins no token, behind line ends and comments too
theory a -b => 3 theory 1 3 byte|
theory a\r|\t% - ! ;|  !x => 3 theory 3 3 byte|
theory initiates a b.||  - => 3 theory 3 3 byte|
theory if\r|%\t;\r|; => 3 theory 3 1 byte|
# a number out of range, and one of too many digits
theory initiates a -9223372036854775809. => 3 theory 1 13 number|
theory strong a/\r|000000000000000000001. => 3 theory 2 1 number|
# `_` is a token of its own, and so is a number behind a number
theory initiates e(X,_,007,-0,a) p if X<=-5,3!=X,_b=X, not q(X). => 3 theory 1 44 syntax|
theory initiates e(12-3) p. => 3 theory 1 15 syntax|
# the first token that no theory has there
theory initiates plug(L) powered(L)| => 3 theory 2 1 syntax|
theory plug(L) powered(L). => 3 theory 1 1 syntax|
theory initiates plug() p. => 3 theory 1 16 syntax|
theory initiates if p. => 3 theory 1 11 syntax|
theory initiates not p. => 3 theory 1 11 syntax|
theory initiates e(not) p. => 3 theory 1 13 syntax|
theory initiates e p if a(X) = b. => 3 theory 1 23 syntax|
theory initiates e p if not X = b. => 3 theory 1 22 syntax|
theory initiates e p if X. => 3 theory 1 19 syntax|
theory initiates e p if a,. => 3 theory 1 20 syntax|
theory exclusive p. => 3 theory 1 12 syntax|
theory strong p/X. => 3 theory 1 10 syntax|
theory strong p/2 => 3 theory 1 11 syntax|
# a fault of syntax is told before any other, wherever it stands
theory strong at/9. strong => 3 theory 1 20 syntax|
# clauses that are wrong
theory initiates push(P) lit(P) if on(L). => 3 theory 1 unbound|
theory initiates push(P) lit(P) if L = a. => 3 theory 1 unbound|
theory initiates e(A,B,C,D,E,F,G,H) p(I,J,K,L,M,N,O,P). => 3 theory 1 unbound|
theory initiates e p. strong at/9. => 3 theory 2 arity|
theory initiates e(a,b,c,d,e,f,g,h,i) p. => 3 theory 1 arity|
theory initiates e p if _ = a. => 3 theory 1 any|
theory initiates e p if a = _. => 3 theory 1 any|
theory initiates e p if q(_). => 3 theory 1 any|
theory initiates e p if not q(a,_). => 3 theory 1 any|
# clauses with two faults, of which the first in their order is told
theory {1024 strong p/0. }strong p/9. => 3 theory 1025 many-strongs|
theory {64 initiates e p. }initiates e p(a,b,c,d,e,f,g,h,i). => 3 theory 65 arity|
theory {64 initiates e p. }initiates e p if a = a{16 , a < b}. => 3 theory 65 many-event-rules|
theory initiates e p if a = a{16 , a < b}{17 , c}. => 3 theory 1 many-tests|
theory initiates e(A,B,C,D,E,F,G,H) p(I,J,K,L,M,N,O,P) if q(Q){16 , not b}. => 3 theory 1 many-literals|
theory initiates e(A,B,C,D,E,F,G,H) p(I,J,K,L,M,N,O,P) if q(Q,_). => 3 theory 1 many-variables|
theory initiates e p(X,_). => 3 theory 1 any|
";

/// Texts with initial properties.
const INITIALS: &str = "\
# among other clauses, and with names like others
theory initially powered(a). => 0 accepted rules 0 exclusives 0 strongs 0 initials 1|
theory strong p/0. initially p. initiates e p. initially p.% twice => 0 accepted rules 1 exclusives 0 strongs 1 initials 2|
theory initially initially.|initially strong(-007,strong). => 0 accepted rules 0 exclusives 0 strongs 0 initials 2|
theory initially p(a,b,c,d,e,f,g,h). => 0 accepted rules 0 exclusives 0 strongs 0 initials 1|
# a name like others where no clause begins
theory initiates initially(initially) initially if initially = a, not initially. => 0 accepted rules 1 exclusives 0 strongs 0|
theory exclusive initially initially. strong initially/0. => 0 accepted rules 0 exclusives 1 strongs 1|
# a clause that ends too early, or too late
theory initially| => 3 theory 2 1 syntax|
theory initially. => 3 theory 1 10 syntax|
theory initially p => 3 theory 1 12 syntax|
theory initially p(a,b) => 3 theory 1 17 syntax|
theory initially p(a, => 3 theory 1 15 syntax|
theory initially p(a. => 3 theory 1 14 syntax|
theory initially p(). => 3 theory 1 13 syntax|
theory initially p q. => 3 theory 1 13 syntax|
theory initially p, q. => 3 theory 1 12 syntax|
theory initially p/0. => 3 theory 1 12 syntax|
theory initially not p. => 3 theory 1 11 syntax|
theory initially P. => 3 theory 1 11 syntax|
theory Initially p. => 3 theory 1 1 syntax|
# what is initial has no variable and no `_`
theory initially p. initially p(X). => 3 theory 2 unbound|
theory initially p(X,_). => 3 theory 1 any|
theory initially p(a,b,c,d,e,f,g,_,X). => 3 theory 1 arity|
# the first clause with a fault is told, of whatever kind
theory initially p. strong p/9. initially p(_). => 3 theory 2 arity|
";

/// Texts with kinds of time.
const TIMES: &str = "\
# anywhere, with blanks and comments between, and with names like others
theory initiates a b.|time % of days|\tcivil .|strong b/0. => 0 accepted rules 1 exclusives 0 strongs 1|
theory initiates tick civil. strong time/1. initially time(tick). => 0 accepted rules 1 exclusives 0 strongs 1 initials 1|
theory initiates time(civil) tick if time = civil, not time. => 0 accepted rules 1 exclusives 0 strongs 0|
theory exclusive time civil. time tick. => 0 accepted rules 0 exclusives 1 strongs 0|
# a clause that ends too early, or too late
theory time => 3 theory 1 5 syntax|
theory time| => 3 theory 2 1 syntax|
theory time. => 3 theory 1 5 syntax|
theory time civil => 3 theory 1 11 syntax|
theory time civil tick. => 3 theory 1 12 syntax|
theory time civil, tick. => 3 theory 1 11 syntax|
theory time civil(utc). => 3 theory 1 11 syntax|
theory time civil/0. => 3 theory 1 11 syntax|
# another word than the two
theory time Civil. => 3 theory 1 6 syntax|
theory time 1. => 3 theory 1 6 syntax|
theory time not. => 3 theory 1 6 syntax|
theory time civils. => 3 theory 1 6 syntax|
theory time time. => 3 theory 1 6 syntax|
theory Time civil. => 3 theory 1 1 syntax|
# one kind is declared, and once
theory time civil. time tick. => 3 theory 2 many-times|
theory time tick. initiates a b. time tick. time tick. => 3 theory 3 many-times|
# the first clause with a fault is told, of whatever kind
theory time tick. strong p/9. time tick. => 3 theory 2 arity|
theory time tick. time tick. strong p/9. => 3 theory 2 many-times|
";

#[test]
fn clauses_are_counted_or_their_first_fault_is_told(rt: HostRuntime) {
    for table in [TEXTS, INITIALS, TIMES] {
        run_all(&rt, rt.alloc(), "words check,t.ec", table);
    }
}
