//! Theories, lines and inputs at each of their limits, and one over it.
use crate::cases::run_all;
use ec_server::MOST_INPUT;

/// Theories, and what `check` says of them.
const THEORIES: &str = "\
# rules
theory {60 initiates a h. initiates b h. initiates c h. initiates d h. initiates e h. initiates f h. \
initiates g h. initiates h h. initiates i h. initiates j h. initiates k h. initiates l h. \
initiates m h. initiates n h. initiates o h. initiates p h. initiates q h.|}\
initiates a h. initiates b h. initiates c h. initiates d h.| => 0 accepted rules 1024 exclusives 0 strongs 0|
theory {60 initiates a h. initiates b h. initiates c h. initiates d h. initiates e h. initiates f h. \
initiates g h. initiates h h. initiates i h. initiates j h. initiates k h. initiates l h. \
initiates m h. initiates n h. initiates o h. initiates p h. initiates q h.|}\
initiates a h. initiates b h. initiates c h. initiates d h.|initiates e h. => 3 theory 1025 many-rules|
# rules of sixteen events, of each as many as there may be
theory {64 initiates e0 p. initiates e1 p. initiates e2 p. initiates e3 p. initiates e4 p. initiates e5 p. initiates e6 p. initiates e7 p. \
initiates e8 p. initiates e9 p. initiates e10 p. initiates e11 p. initiates e12 p. initiates e13 p. initiates e14 p. initiates e15 p.|} \
=> 0 accepted rules 1024 exclusives 0 strongs 0|
theory {64 initiates e0 p. initiates e1 p. initiates e2 p. initiates e3 p. initiates e4 p. initiates e5 p. initiates e6 p. initiates e7 p. \
initiates e8 p. initiates e9 p. initiates e10 p. initiates e11 p. initiates e12 p. initiates e13 p. initiates e14 p. initiates e15 p.|}\
initiates last p. => 3 theory 1025 many-rules|
# rules of one event, of one kind and of both
theory {64 initiates e p. } => 0 accepted rules 64 exclusives 0 strongs 0|
theory {65 initiates e p. } => 3 theory 65 many-event-rules|
theory {63 initiates e h.|}terminates e h.| => 0 accepted rules 64 exclusives 0 strongs 0|
theory {63 initiates e h.|}{2 terminates e h.|} => 3 theory 65 many-event-rules|
# with an argument it is another event
theory {64 initiates e h.|}{64 initiates e(X) h(X).|} => 0 accepted rules 128 exclusives 0 strongs 0|
# declarations
theory {256 exclusive a b.|} => 0 accepted rules 0 exclusives 256 strongs 0|
theory {257 exclusive a b.|} => 3 theory 257 many-exclusives|
theory {1024 strong a/0.|} => 0 accepted rules 0 exclusives 0 strongs 1024|
theory {1025 strong a/0.|} => 3 theory 1025 many-strongs|
# each kind is counted by itself, and the clauses together
theory {256 exclusive a b.|}{1024 strong a/0.|}{60 initiates a h. initiates b h. initiates c h. initiates d h. initiates e h. initiates f h. \
initiates g h. initiates h h. initiates i h. initiates j h. initiates k h. initiates l h. \
initiates m h. initiates n h. initiates o h. initiates p h. initiates q h.|}\
initiates a h. initiates b h. initiates c h. initiates d h.| => 0 accepted rules 1024 exclusives 256 strongs 1024|
theory {1024 strong a/0.|}{256 exclusive a b.|}{64 initiates e h.|}initiates e h. => 3 theory 1345 many-event-rules|
# initial properties, beside others
theory {1024 initially p.|}{256 exclusive a b.|} => 0 accepted rules 0 exclusives 256 strongs 0 initials 1024|
theory {1024 initially p. }strong p/0. => 0 accepted rules 0 exclusives 0 strongs 1 initials 1024|
theory {1024 initially p(a).|} => 0 accepted rules 0 exclusives 0 strongs 0 initials 1024|
theory {1025 initially p(a).|} => 3 theory 1025 many-initials|
theory strong p/0.{1025 initially p. } => 3 theory 1026 many-initials|
# tests and literals of a rule
theory initiates e h if 1 = 1{15 , 1 = 1}. => 0 accepted rules 1 exclusives 0 strongs 0|
theory initiates e h if 1 = 1{16 , 1 = 1}. => 3 theory 1 many-tests|
theory initiates e p if a = a{15 , a < b}. => 0 accepted rules 1 exclusives 0 strongs 0|
theory initiates e p if a = a{16 , a < b}. => 3 theory 1 many-tests|
theory initiates e h if c{15 , not c}. => 0 accepted rules 1 exclusives 0 strongs 0|
theory initiates e h if c{16 , not c}. => 3 theory 1 many-literals|
theory initiates e p if a{15 , not b}. => 0 accepted rules 1 exclusives 0 strongs 0|
theory initiates e p if a{16 , not b}. => 3 theory 1 many-literals|
theory initiates e h if c{15 , c}{16 , 1 = 1}. => 0 accepted rules 1 exclusives 0 strongs 0|
# variables of a clause; a rule with sixteen has another fault, as no event has so many
theory exclusive p(A,B,C,D,E,F,G,H) q(I,J,K,L,M,N,O,P). => 0 accepted rules 0 exclusives 1 strongs 0|
theory initiates e(A,B,C,D,E,F,G,H) h(I,J,K,L,M,N,O,P) if c(A). => 3 theory 1 unbound|
theory initiates e(A,B,C,D,E,F,G,H) h(I,J,K,L,M,N,O,P) if c(Q). => 3 theory 1 many-variables|
# arguments of a term
theory initiates e(A,B,C,D,E,F,G,H) h(A,A,A,A,A,A,A,A). => 0 accepted rules 1 exclusives 0 strongs 0|
theory initiates e(a{7 ,b}) p. => 0 accepted rules 1 exclusives 0 strongs 0|
theory initiates e(a{8 ,b}) p. => 3 theory 1 arity|
theory initiates e(1,2,3,4,5,6,7,8,9) h. => 3 theory 1 arity|
theory initiates e h(1,2,3,4,5,6,7,8,9). => 3 theory 1 arity|
theory initiates e h if not c(1,2,3,4,5,6,7,8,9). => 3 theory 1 arity|
theory exclusive p(1,2,3,4,5,6,7,8,9) q. => 3 theory 1 arity|
theory strong p/8. => 0 accepted rules 0 exclusives 0 strongs 1|
# bytes of a name and of a variable
theory initiates {64 a} b. => 0 accepted rules 1 exclusives 0 strongs 0|
theory initiates {65 a} b. => 3 theory 1 11 long-name|
theory initiates e({64 V}) b. => 0 accepted rules 1 exclusives 0 strongs 0|
theory initiates e({65 V}) b. => 3 theory 1 13 long-name|
theory |initiates e({65 V}) b. => 3 theory 2 13 long-name|
# digits and values of a number
theory initiates a(-{19 0}5) b. => 0 accepted rules 1 exclusives 0 strongs 0|
theory initiates a(-{20 0}5) b. => 3 theory 1 13 number|
theory initiates a(9223372036854775807) b. => 0 accepted rules 1 exclusives 0 strongs 0|
theory initiates a(9223372036854775808) b. => 3 theory 1 13 number|
theory initiates a(-9223372036854775808) b. => 0 accepted rules 1 exclusives 0 strongs 0|
theory initiates a(-9223372036854775809) b. => 3 theory 1 13 number|
";

#[test]
fn the_clauses_of_a_theory_and_their_parts_have_limits(rt: HostRuntime) {
    run_all(&rt, rt.alloc(), "words check,t.ec", THEORIES);
}

/// Line ends, and blanks behind a clause: as many bytes as a theory may have, and one more.
const LENGTHS: &str = "\
words check,t.ec
theory {1048576 |} => 0 accepted rules 0 exclusives 0 strongs 0|
theory {1048577 |} => 3 theory too-long|
theory strong p/8.{1048565  } => 0 accepted rules 0 exclusives 0 strongs 1|
theory strong p/8.{1048566  } => 3 theory too-long|
words serve,t.ec ; input quit|
theory {1048576 |} => 0 bye|
theory {1048577 |} => 3 theory too-long|
";

#[test]
fn the_file_of_a_theory_has_a_limit(rt: HostRuntime) {
    run_all(&rt, rt.alloc(), "", LENGTHS);
}

/// Lines, under no theory.
const LINES: &str = "\
# bytes of a name: an identity, an event, an argument, a property
input assert {64 a} 5 e| => 0 ok|
input assert {65 a} 5 e| => 0 refused syntax|
input retract {65 a}| => 0 refused syntax|
input assert p 5 {64 e} => 0 ok|
input assert p 5 {65 e} => 0 refused syntax|
input assert p 5 e({64 a})| => 0 ok|
input assert p 5 e({65 a})| => 0 refused syntax|
input holds {64 h} 5| => 0 no|
input holds {65 h} 5| => 0 refused syntax|
# arguments of a term
input assert p 5 e(1{7 ,1})|events| => 0 ok|1 p 5 e(1,1,1,1,1,1,1,1)|
input assert p 5 e(1{8 ,1})| => 0 refused syntax|
input intervals h(1{8 ,a})| => 0 refused syntax|
# digits of a number
input assert p {19 0}5 e|events| => 0 ok|1 p 5 e|
input assert p 5 e(-{20 0}5)| => 0 refused syntax|
";

#[test]
fn names_terms_and_numbers_of_lines_have_limits(rt: HostRuntime) {
    run_all(&rt, rt.alloc(), "reads 1,4096", LINES);
}

/// Inputs of which at most so many bytes are taken.
const INPUTS: &str = "\
theory ROOMS ; input assert p 5 plug(a)|holds powered(a) 6| ; limit 19 => 8 ok|
theory LAMP ; input assert p 5 plug|holds powered 6|quit|holds powered 6|
limit 0 => 8
limit 15 => 8
limit 16 => 8 ok|
limit 31 => 8 ok|
limit 36 => 8 ok|yes|
limit 37 => 0 ok|yes|bye|
limit 1000 => 0 ok|yes|bye|
# the end behind the last byte that may be taken is not looked for
input assert p 5 plug| ; limit 16 => 8 ok|
input assert p 5 plug| ; limit 17 => 0 ok|
";

#[test]
fn an_input_has_a_limit(rt: HostRuntime) {
    // so many bytes are too many to be given: what comes at a limit, smaller ones show
    assert!(rt; MOST_INPUT == 1 << 40);
    run_all(&rt, rt.alloc(), "reads 1,4096", INPUTS);
}
