//! Theories that are accepted and theories that are not, by `check` and by `serve`.
use crate::cases::run_all;

/// Texts that are no theories, and the lines about them.
const FAULTS: &str = "\
# rules and declarations
theory initiates push(P) lit(L). => 3 theory 1 unbound|
theory initiates plug(L) powered(L) => 3 theory 1 29 syntax|
theory initiates plug(L powered(L). => 3 theory 1 18 syntax|
theory initiates a b; => 3 theory 1 14 byte|
theory initiates a 9223372036854775808. => 3 theory 1 13 number|
theory initiates a -5. => 3 theory 1 13 syntax|
theory initiates push(P) lit(_). => 3 theory 1 any|
theory strong at/9. => 3 theory 1 arity|
theory strong a/-1. => 3 theory 1 arity|
theory strong a/1.\r|\t% a note|strong a/2 => 3 theory 3 11 syntax|
theory strong a/1| => 3 theory 2 1 syntax|
theory strong a/1 % note => 3 theory 1 18 syntax|
theory strong a/1 - => 3 theory 1 12 byte|
theory strong aaaaaaaaaaaaaaaaaaaaaaaaaaaaaaaaaaaaaaaaaaaaaaaaaaaaaaaaaaaaaaaaa/1. => 3 theory 1 8 long-name|
# a fault of the tokens comes before one of the syntax, wherever it stands
theory strong strong strong.||  ! => 3 theory 3 3 byte|
theory ODD_BYTE => 3 theory 1 12 byte|
# initial properties
theory initially p(X). => 3 theory 1 unbound|
theory initially p(_). => 3 theory 1 any|
theory initially p(a,b,c,d,e,f,g,h,i). => 3 theory 1 arity|
# an initial property that ends too early, and one that does not end
theory initially => 3 theory 1 10 syntax|
theory initially powered(a)| => 3 theory 2 1 syntax|
theory initially p if q. => 3 theory 1 13 syntax|
# kinds of time
theory time tick. time tick. => 3 theory 2 many-times|
theory time solar. => 3 theory 1 6 syntax|
";

#[test]
fn texts_that_are_no_theories_are_told_by_check_and_serve(rt: HostRuntime) {
    for given in ["words check,t.ec", "input quit|"] {
        run_all(&rt, rt.alloc(), given, FAULTS);
    }
}

/// Theories that are accepted.
const ACCEPTED: &str = "\
# what `check` says of them
words check,t.ec
# no clauses
theory => 0 accepted rules 0 exclusives 0 strongs 0|
theory initially initially. initially initially. => 0 accepted rules 0 exclusives 0 strongs 0 initials 2|
# a name like others where no clause begins
theory initiates initially(initially) initially if not initially. strong initially/0. => 0 accepted rules 1 exclusives 0 strongs 1|
# the kind of time, of which nothing is said
theory time tick. => 0 accepted rules 0 exclusives 0 strongs 0|
theory time civil. initially p. => 0 accepted rules 0 exclusives 0 strongs 0 initials 1|
# the rooms and lamps, with more clauses
theory ROOMS => 0 accepted rules 7 exclusives 1 strongs 0|
theory ROOMS strong at/2.| => 0 accepted rules 7 exclusives 1 strongs 1|
theory ROOMS initially powered(a).| => 0 accepted rules 7 exclusives 1 strongs 0 initials 1|
# the library
theory LIBRARY => 0 accepted rules 7 exclusives 1 strongs 0|
# those that are accepted are served, with literals and declarations
words serve,t.ec ; input quit| ; gives 0 bye|
theory ROOMS =>
theory ROOMS strong at/2.| =>
theory ROOMS initially powered(a).| =>
theory initially p. =>
theory time tick. =>
theory time civil. =>
theory initiates a b if c. =>
theory initiates a b. exclusive b c. =>
theory initiates a b. strong b/0. =>
";

#[test]
fn theories_are_counted_by_check_and_served(rt: HostRuntime) {
    run_all(&rt, rt.alloc(), "", ACCEPTED);
}
