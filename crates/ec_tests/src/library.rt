//! Loans of a library, of which a late correction takes back some.
use crate::cases::is_met;
use crate::dialogue::Script;
use crate::whole::{Case, SERVED};
use std::alloc::Global;
use std::process::Abort;

/// Adds a loan, which ends after the next one began and is told before that.
fn add_loan(rt: &impl Abort, alloc: Global, script: &mut Script, book: u32) {
    let member = book % 5;
    let from = book.saturating_mul(10);
    let until = from.saturating_add(25);
    let loan = format!(in alloc; "assert loan{book} {from} borrow(m{member},b{book})");
    script.add(rt, loan.expect(rt, "memory").as_str(), "ok");
    let back = format!(in alloc; "assert back{book} {until} return(m{member},b{book})");
    script.add(rt, back.expect(rt, "memory").as_str(), "ok");
}

/// Five members who join.
const MEMBERS: &str = "0..4: assert join* 0 join(m*) => ok";

/// One member turns out to have joined later.
const CORRECTION: &str = "\
at 300 => 9 has_book(m3,b28) has_book(m4,b29) lent(b28) lent(b29) member(m0) member(m1) member(m2) member(m3) member(m4)
begin => ok
retract join3 => drafted 1
assert join3 285 join(m3) => drafted 2
at 300 => 9 has_book(m3,b28) has_book(m4,b29) lent(b28) lent(b29) member(m0) member(m1) member(m2) member(m3) member(m4)
commit => ok
last => last seen 12 on 0 off 12 props 13
at 300 => 7 has_book(m4,b29) lent(b29) member(m0) member(m1) member(m2) member(m3) member(m4)
why lent(b28) 300 => no never
why lent(b29) 300 => yes 290 315 by loan29 rule 2 until back29 rule 4
intervals lent(b33) => 1 (330,355]
";

/// Five members who join, forty loans, and the correction.
fn loans(rt: &impl Abort, alloc: Global) -> Script {
    let mut script = Script::new(alloc);
    script.add_all(rt, alloc, MEMBERS);
    for book in 1..41 {
        add_loan(rt, alloc, &mut script, book);
    }
    script.add_all(rt, alloc, CORRECTION);
    script
}

/// Whether the lines get their replies as an input, byte by byte and in large pieces, and as a file.
fn are_told(rt: &impl Abort, alloc: Global) -> bool {
    let script = loans(rt, alloc);
    let served = Case {
        theory: "LIBRARY",
        input: script.lines.as_str(),
        reads: "1,4096",
        written: script.replies.as_str(),
        ..SERVED
    };
    let replayed = Case {
        words: "replay,t.ec,a.lines",
        lines: served.input,
        input: "",
        reads: "1",
        ..served
    };
    is_met(rt, alloc, &served) && is_met(rt, alloc, &replayed)
}

#[test]
fn loans_before_the_membership_are_taken_back(rt: HostRuntime) {
    assert!(rt; are_told(&rt, rt.alloc()));
}
