//! Proofs that properties hold, and what certificates for them come to.
ghost use Rattle.std.specs.Prelude.{◌≡◌, ◌<◌};

use crate::event_files::read;
use crate::plain::three;
use crate::tables::{bytes_of, row_of};
use crate::terms::term_of;
use ec_axioms::Steps;
use ec_cert::{EventFile, Verdict, prove, verify, write_verdict_line};
use ec_moment::Tick;
use ec_outside::MemSink;
use ec_rows::{MarkRow, SpanRow, TimeRow, VecMarks, VecSpans, VecTimes};
use std::alloc::Global;
use std::marker::Brand;
use std::process::Abort;
use std::sync::ledger::{Blank, Ledger};

/// Lamps and people: what is pushed lights up where there is power, and nobody is at two places.
const ROOMS: &str = "initiates push(P,L) lit(L) if powered(L), not lit(L).|\
terminates push(P,L) lit(L) if lit(L).|\
initiates plug(L) powered(L).|\
terminates unplug(L) powered(L).|\
terminates unplug(L) lit(L).|\
initiates move(P,Y) at(P,Y).|\
terminates leave(P,Y) at(P,Y).|\
exclusive at(X,Y) at(X,Z).|";

/// What is asked of event files. A part begins with its file. `prove` is answered by what proves that a property holds at a time,
/// any other text, as a certificate, by what it comes to.
const FILES: &str = "
file assert m1 3 move(bob,home)|assert p 5 plug(a)|assert q 10 push(bob,a)| =>
lit(a) 11 prove => certificate lit(a) 11|p 1|q 10|end 2|
lit(a) 10 prove => none|
lit(a) 011 prove => certificate lit(a) 11|p 1|q 10|end 2|
lit(a) 11 certificate lit(a) 11|p 1|q 10|end 2| => yes|
lit(a) 10 certificate lit(a) 10|p 1|q 10|end 2| => no|
# a bit is changed, or one more or less
lit(a) 11 certificate lit(a) 11|p 0|q 10|end 2| => bad 2|
lit(a) 11 certificate lit(a) 11|p 1|q 00|end 2| => bad 3|
lit(a) 11 certificate lit(a) 11|p 1|q 11|end 2| => bad 3|
lit(a) 11 certificate lit(a) 11|p 1|q 1|end 2| => bad 3|
lit(a) 11 certificate lit(a) 11|p 11|q 10|end 2| => bad 2|
lit(a) 10 certificate lit(a) 10|p 0|q 10|end 2| => bad 2|
# a line is left out, twice there, one of another event, or two are swapped
lit(a) 11 certificate lit(a) 11|q 10|end 2| => bad 2|
lit(a) 11 certificate lit(a) 11|p 1|p 1|q 10|end 2| => bad 3|
lit(a) 11 certificate lit(a) 11|m1 1|p 1|q 10|end 2| => bad 2|
lit(a) 11 certificate lit(a) 11|q 10|p 1|end 2| => bad 2|
# another number, another property, another time, and one that is not canonical
lit(a) 11 certificate lit(a) 11|p 1|q 10|end 3| => bad 4|
lit(b) 11 certificate lit(a) 11|p 1|q 10|end 2| => bad 1|
lit(a) 12 certificate lit(a) 11|p 1|q 10|end 2| => bad 1|
lit(a) 11 certificate lit(a) 011|p 1|q 10|end 2| => bad 1|
# nothing, a first part, more than all, and other line ends
lit(a) 11  => bad 1|
lit(a) 11 certificate lit(a) 11|p 1| => bad 3|
lit(a) 11 certificate lit(a) 11|p 1|q 10|end 2 => bad 4|
lit(a) 11 certificate lit(a) 11|p 1|q 10|end 2|x => bad 5|
lit(a) 11 certificate lit(a) 11|p 1|q 10|end 2|| => bad 5|
lit(a) 11 certificate lit(a) 11\r|p 1\r|q 10\r|end 2\r| => bad 1|
lit(a) 11 none| => bad 1|
# properties without a context, before, at and behind their begin
powered(a) 5 prove => none|
powered(a) 6 prove => certificate powered(a) 6|p 1|end 1|
powered(a) 9223372036854775807 prove => certificate powered(a) 9223372036854775807|p 1|end 1|
at(bob,home) 3 prove => none|
at(bob,home) 4 prove => certificate at(bob,home) 4|m1 1|end 1|
at(bob,home) 3 certificate at(bob,home) 3|m1 1|end 1| => no|
# an event is told where an entry of it has the name of one that counts
powered(b) 6 prove => none|
powered(b) 6 certificate powered(b) 6|p 1|end 1| => no|
# no rule has this name with this number of arguments
zoo 5 prove => none|
zoo 5 certificate zoo 5|end 0| => no|
lit(a,b) -5 certificate lit(a,b) -5|end 0| => no|
zoo 5 certificate zoo 5|p 1|end 1| => bad 2|

file =>
lit(a) 11 prove => none|
lit(a) 11 certificate lit(a) 11|end 0| => no|

file assert s 30 push(bob,a)|assert r 20 push(bob,a)|assert p 5 plug(a)|assert q 10 push(bob,a)| =>
# pushes in turn, out of the order of time in the file
lit(a) 20 prove => certificate lit(a) 20|p 1|q 10|r 01|s 10|end 4|
lit(a) 21 prove => none|
lit(a) 30 certificate lit(a) 30|p 1|q 10|r 01|s 10|end 4| => no|
lit(a) 31 certificate lit(a) 31|p 1|q 10|r 01|s 10|end 4| => yes|

file assert p 10 plug(a)|assert q 10 push(bob,a)| =>
# events of one time do not read each other
lit(a) 11 prove => none|
lit(a) 11 certificate lit(a) 11|p 1|q 00|end 2| => no|
lit(a) 11 certificate lit(a) 11|p 1|q 10|end 2| => bad 3|
powered(a) 11 prove => certificate powered(a) 11|p 1|end 1|

file assert m1 3 move(bob,home)|assert p 5 plug(a)|assert m2 7 move(bob,work)|assert l 9 leave(bob,work)| =>
# exclusive properties: the second breaks the first, whose begin is then not known to last
at(bob,home) 5 prove => none|
at(bob,home) 5 certificate at(bob,home) 5|m1 1|m2 1|l 1|end 3| => no|
at(bob,work) 7 prove => none|
at(bob,work) 8 prove => certificate at(bob,work) 8|m1 1|m2 1|l 1|end 3|
at(bob,work) 9 certificate at(bob,work) 9|m1 1|m2 1|l 1|end 3| => yes|
at(bob,work) 10 certificate at(bob,work) 10|m1 1|m2 1|l 1|end 3| => no|
at(bob,work) 10 certificate at(bob,work) 10|m1 1|m2 1|l 0|end 3| => bad 4|
at(ann,zoo) 8 certificate at(ann,zoo) 8|m1 1|m2 1|l 1|end 3| => no|
";

/// What is added where being at a place is strong.
const STRONG: &[u8] = b"strong at/2.";

/// What is asked under that.
const STRONG_FILES: &str = "
file assert m1 10 move(bob,home)|assert m2 14 move(bob,home)|assert l1 20 leave(bob,home)| =>
# the second move breaks what the first began
at(bob,home) 11 prove => none|
at(bob,home) 14 certificate at(bob,home) 14|m1 1|m2 1|l1 1|end 3| => no|
at(bob,home) 15 prove => certificate at(bob,home) 15|m1 1|m2 1|l1 1|end 3|
at(bob,home) 20 certificate at(bob,home) 20|m1 1|m2 1|l1 1|end 3| => yes|
at(bob,home) 21 certificate at(bob,home) 21|m1 1|m2 1|l1 1|end 3| => no|
";

/// What is added where there is power, and bob is at home, before all events.
const INITIAL: &[u8] = b"initially powered(a). initially at(bob,home).";

/// What is asked under that.
const INITIAL_FILES: &str = "
file =>
powered(a) 0 prove => certificate powered(a) 0|end 0|
powered(a) -9223372036854775808 certificate powered(a) -9223372036854775808|end 0| => yes|
powered(a) 0 certificate powered(a) 0|end 1| => bad 2|
powered(b) 0 certificate powered(b) 0|end 0| => no|

file assert u 7 unplug(a)|assert q 3 push(bob,a)|assert m 9 move(bob,work)| =>
powered(a) -5 prove => certificate powered(a) -5|u 1|end 1|
powered(a) 7 certificate powered(a) 7|u 1|end 1| => yes|
powered(a) 8 certificate powered(a) 8|u 1|end 1| => no|
lit(a) 5 prove => certificate lit(a) 5|q 10|u 11|end 2|
lit(a) 8 prove => none|
at(bob,home) 5 certificate at(bob,home) 5|m 1|end 1| => no|
at(bob,work) 10 prove => certificate at(bob,work) 10|m 1|end 1|
";

/// Whether this is what proves that a property holds at a time.
fn proves<X: TimeRow<Tick>, L: Ledger>(
    rt: &impl Abort,
    alloc: Global,
    file: &EventFile<Tick, X>,
    (prop, at): (&str, Tick),
    wanted: &[u8],
    steps: &mut Steps<L>,
) -> bool {
    let text = prove(alloc, file, &term_of(rt, prop), at, steps);
    text.expect(rt, "memory").as_slice() == wanted
}

/// What a certificate for a property and a time comes to.
fn verdict<X: TimeRow<Tick>, L: Ledger>(
    rt: &impl Abort,
    alloc: Global,
    file: &EventFile<Tick, X>,
    (prop, at): (&str, Tick),
    certificate: &[u8],
    steps: &mut Steps<L>,
) -> Verdict {
    assert!(rt; certificate.len() <= 67_108_864);
    let verdict = verify(alloc, file, &term_of(rt, prop), at, certificate, steps);
    verdict.expect(rt, "memory")
}

/// Whether a verdict has this line.
fn has_line(rt: &impl Abort, alloc: Global, verdict: Verdict, wanted: &[u8]) -> bool {
    let mut sink = MemSink::new(alloc, 32, 3, &[], &[]).expect(rt, "memory");
    write_verdict_line(verdict, &mut sink).is_ok() && sink.bytes() == wanted
}

/// Whether a row has its answer, by the events of a file.
fn row_is_answered<X: TimeRow<Tick>, L: Ledger>(
    rt: &impl Abort,
    alloc: Global,
    file: &EventFile<Tick, X>,
    spelt: &str,
    wanted: &str,
    steps: &mut Steps<L>,
) -> bool {
    let (prop, at, asked) = three(rt, spelt);
    let wanted = bytes_of(alloc, wanted).expect(rt, "memory");
    if asked == "prove" {
        return proves(rt, alloc, file, (prop, at), &wanted, steps);
    }
    let certificate = bytes_of(alloc, asked).expect(rt, "memory");
    let verdict = verdict(rt, alloc, file, (prop, at), &certificate, steps);
    has_line(rt, alloc, verdict, &wanted)
}

/// The file that is spelt, under lamps and people and some clauses more.
fn file_of<M: MarkRow<Tick>, I: SpanRow<Tick>, X: TimeRow<Tick>>(
    rt: &impl Abort,
    alloc: Global,
    clauses: &[u8],
    spelt: &str,
) -> Box<EventFile<Tick, X>> {
    let mut theory = bytes_of(alloc, ROOMS).expect(rt, "memory");
    theory.extend_from_slice(clauses).expect(rt, "memory");
    let file = bytes_of(alloc, spelt).expect(rt, "memory");
    let file = read::<Tick, M, I, X>(rt, alloc, &theory, &file, true);
    Box::new(alloc, file.ok().expect(rt, "an event file")).expect(rt, "memory")
}

/// The file that a part of a table begins with, and the rows behind it.
fn file_and_rows<'a>(rt: &impl Abort, part: &'a str) -> (&'a str, &'a str) {
    let part = part.trim_start().strip_prefix("file").expect(rt, part);
    let (file, rows) = part.split_once("=>").expect(rt, part);
    (file.trim(), rows)
}

/// Sees that each row of a part of a table has its answer.
fn check_part<M: MarkRow<Tick>, I: SpanRow<Tick>, X: TimeRow<Tick>, L: Ledger>(
    rt: &impl Abort,
    alloc: Global,
    clauses: &[u8],
    part: &str,
    steps: &mut Steps<L>,
) {
    let (file, rows) = file_and_rows(rt, part);
    let file = file_of::<M, I, X>(rt, alloc, clauses, file);
    for row in rows.lines() {
        if let Some((spelt, wanted)) = row_of(row) {
            assert!(rt;
                row_is_answered(rt, alloc, &file, spelt, wanted, steps),
                "{row}"
            );
        }
    }
}

/// Sees that each row of a table has its answer, with these clauses added to the theory.
fn check_table<M: MarkRow<Tick>, I: SpanRow<Tick>, X: TimeRow<Tick>, L: Ledger>(
    rt: &impl Abort,
    alloc: Global,
    clauses: &[u8],
    table: &str,
    steps: &mut Steps<L>,
) {
    for part in table.split("\n\n") {
        check_part::<M, I, X, L>(rt, alloc, clauses, part, steps);
    }
}

/// Sees that each row of each table has its answer.
fn check_tables<M: MarkRow<Tick>, I: SpanRow<Tick>, X: TimeRow<Tick>, L: Ledger>(
    rt: &impl Abort,
    alloc: Global,
    blank: Blank,
)
    requires name { blank.name ≡ L.name }
    requires parts { blank.parts ≡ L.parts }
    requires some { 0 < L.parts }
{
    let mut steps = Steps::<L>::new(blank);
    check_table::<M, I, X, L>(rt, alloc, b"", FILES, &mut steps);
    check_table::<M, I, X, L>(rt, alloc, STRONG, STRONG_FILES, &mut steps);
    check_table::<M, I, X, L>(rt, alloc, INITIAL, INITIAL_FILES, &mut steps);
}

#[test]
fn certificates_are_written_and_verified(rt: HostRuntime) {
    check_tables::<VecMarks<Tick>, VecSpans<Tick>, VecTimes<Tick>, Brand>(
        &rt,
        rt.alloc(),
        Blank::new(1),
    );
}

/// Whether a sink whose third write fails has the first part of a line.
fn breaks_off(sink: &mut MemSink) -> bool {
    write_verdict_line(Verdict::Bad(4_294_967_295), &mut *sink).is_err()
        && sink.bytes() == b"bad 42".as_slice()
}

#[test]
fn a_verdict_breaks_off_where_a_write_fails(rt: HostRuntime) {
    let alloc = rt.alloc();
    let mut sink = MemSink::new(alloc, 32, 3, &[3], &[]).expect(&rt, "memory");
    assert!(rt; breaks_off(&mut sink));
    assert!(rt; has_line(&rt, alloc, Verdict::Bad(4_294_967_295), b"bad 4294967295\n"));
}
