//! Event files: the events that one tells, or its first line that is refused.
ghost use Rattle.std.specs.Prelude.{◌≡◌, ◌<◌};

use crate::tables::{bytes_of, row_of};
use ec_axioms::{Event, Steps};
use ec_cert::{EventFault, EventFile, EventName, read_events, write_events_line};
use ec_check::Checked;
use ec_moment::{Moment, Tick};
use ec_outside::MemSink;
use ec_rows::{MarkRow, SpanRow, TimeRow, VecMarks, VecSpans, VecTimes};
use ec_store::EventStore;
use ec_terms::text;
use ec_theory::{MOST_BYTES, accept};
use std::alloc::Global;
use std::marker::Brand;
use std::process::Abort;
use std::sync::ledger::{Blank, Ledger};

/// Lamps and people: what is pushed lights up where there is power, and nobody is at two places.
const ROOMS: &[u8] = b"initiates push(P,L) lit(L) if powered(L), not lit(L).
terminates push(P,L) lit(L) if lit(L).
initiates plug(L) powered(L).
initiates move(P,Y) at(P,Y).
exclusive at(X,Y) at(X,Z).
";

/// Event files, each with its events, or with the line that tells why it is refused.
const FILES: &str = "
# no event
 =>
| =>
% nothing|\t \r|| =>
# out of the order of time, at one time, and without a last line end
assert q 10 push(bob,a)|assert m1 3 move(bob,home)|assert p 5 plug(a)| => m1 3 move(bob,home); p 5 plug(a); q 10 push(bob,a);
assert b 5 plug(b)|assert a 5 plug(a)|assert c -5 plug(c) => c -5 plug(c); a 5 plug(a); b 5 plug(b);
# silent lines between, a carriage return at a line's end, and terms that no rule reads
|assert p 5 plug(a)\r||  |% assert r 6 plug(b)|assert q 007 zoo\r| => p 5 plug(a); q 7 zoo;
# an identity and a property that are as long as they may be
assert {64 e} 9223372036854775807 {64 z} => {64 e} 9223372036854775807 {64 z};
# lines that have no place in an event file
quit => events 1 syntax
retract p => events 1 syntax
assert p 5 plug(a)|retract p| => events 2 syntax
assert p 5 plug(a)|@0 assert q 6 plug(a)| => events 2 syntax
begin => events 1 syntax
holds lit(a) 5 => events 1 syntax
last => events 1 syntax
pairs lit(a) before lit(b) => events 1 syntax
asof 0 events => events 1 syntax
# lines that say nothing
% one||assert p 5 plug(|assert p 5 plug(a) => events 3 syntax
assert p 5 => events 1 syntax
assert p five plug(a) => events 1 syntax
assert p 9223372036854775808 plug(a) => events 1 syntax
assert p 5 plug(a)\r => events 1 syntax
% {4094 a}|% {4095 a}| => events 2 syntax
# an identity that stands in an earlier line
assert p 5 plug(a)|assert p 5 plug(a)| => events 2 duplicate
assert p 5 plug(a)|%\r|assert p 6 plug(b)|quit => events 3 duplicate
assert p 5 plug(a)|quit|assert p 6 plug(b) => events 2 syntax
";

/// The theory of a text.
fn theory_of(rt: &impl Abort, alloc: Global, theory: &[u8]) -> Checked {
    assert!(rt; theory.len() <= MOST_BYTES);
    accept(alloc, theory).expect(rt, "a theory")
}

/// The file of a text under the theory of another.
pub fn read<T: Moment, M: MarkRow<T>, I: SpanRow<T>, X: TimeRow<T>>(
    rt: &impl Abort,
    alloc: Global,
    theory: &[u8],
    file: &[u8],
    all_limits: bool,
) -> Result<EventFile<T, X>, EventFault> {
    assert!(rt; file.len() <= 67_108_864);
    let checked = theory_of(rt, alloc, theory);
    read_events::<T, M, I, X>(alloc, checked, file, all_limits)
}

/// Adds an event, with its identity, its time and its term.
fn tell<T: Moment>(rt: &impl Abort, told: &mut String, event: &Event<T>) {
    let id = event.id.copied();
    let at = event.at.text();
    let term = text(&event.term.borrow());
    write!(told, "{id} {at} {term}; ").expect(rt, "memory");
}

/// The events of a store, in order.
fn events_told<T: Moment, X: TimeRow<T>, L: Ledger>(
    rt: &impl Abort,
    alloc: Global,
    store: &EventStore<T, X>,
    steps: &mut Steps<L>,
) -> String {
    let mut told = String::new(alloc);
    let mut cursor = store.first();
    for _ in 0..store.len() {
        let Some((slot, next)) = store.next(cursor) else {
            return told;
        };
        tell(rt, &mut told, store.event(slot, steps));
        cursor = next;
    }
    told
}

/// Whether the line that tells a refusal is this one, without its end.
fn is_refused(rt: &impl Abort, alloc: Global, line: u32, name: EventName, wanted: &[u8]) -> bool {
    let mut sink = MemSink::new(alloc, 64, 5, &[], &[]).expect(rt, "memory");
    let result = write_events_line(line, name, &mut sink);
    result.is_ok() && sink.bytes().strip_suffix(b"\n") == Some(wanted)
}

/// Whether a file has these events, or is refused by this line.
fn is_told<T: Moment, M: MarkRow<T>, I: SpanRow<T>, X: TimeRow<T>, L: Ledger>(
    rt: &impl Abort,
    alloc: Global,
    file: &[u8],
    all_limits: bool,
    wanted: &[u8],
    steps: &mut Steps<L>,
) -> bool {
    match read::<T, M, I, X>(rt, alloc, ROOMS, file, all_limits) {
        Ok(file) => events_told(rt, alloc, &file.store, steps).trim().as_bytes() == wanted,
        Err(EventFault::At(line, name)) => is_refused(rt, alloc, line, name, wanted),
        Err(EventFault::Memory) => false,
    }
}

/// Whether the file of a row is told as it should be, with all limits kept or the one on events alone.
fn row_is_told<T: Moment, M: MarkRow<T>, I: SpanRow<T>, X: TimeRow<T>, L: Ledger>(
    rt: &impl Abort,
    alloc: Global,
    spelt: &str,
    wanted: &str,
    steps: &mut Steps<L>,
) -> bool {
    let file = bytes_of(alloc, spelt).expect(rt, "memory");
    let wanted = bytes_of(alloc, wanted).expect(rt, "memory");
    is_told::<T, M, I, X, L>(rt, alloc, &file, true, &wanted, steps)
        && is_told::<T, M, I, X, L>(rt, alloc, &file, false, &wanted, steps)
}

/// Sees that each file is told as it should be.
fn check_files<T: Moment, M: MarkRow<T>, I: SpanRow<T>, X: TimeRow<T>, L: Ledger>(
    rt: &impl Abort,
    alloc: Global,
    blank: Blank,
)
    requires name { blank.name ≡ L.name }
    requires parts { blank.parts ≡ L.parts }
    requires some { 0 < L.parts }
{
    let mut steps = Steps::<L>::new(blank);
    for row in FILES.lines() {
        if let Some((spelt, wanted)) = row_of(row) {
            assert!(rt;
                row_is_told::<T, M, I, X, L>(rt, alloc, spelt, wanted, &mut steps),
                "{row}"
            );
        }
    }
}

#[test]
fn files_are_read_or_refused(rt: HostRuntime) {
    check_files::<Tick, VecMarks<Tick>, VecSpans<Tick>, VecTimes<Tick>, Brand>(
        &rt,
        rt.alloc(),
        Blank::new(1),
    );
}

/// The lines that tell refusals, each with its number and its name.
const REFUSALS: [(u32, EventName, &[u8]); 5] = [
    (1, EventName::Syntax, b"events 1 syntax"),
    (20, EventName::Duplicate, b"events 20 duplicate"),
    (262_145, EventName::FullEvents, b"events 262145 full-events"),
    (964, EventName::FullMentions, b"events 964 full-mentions"),
    (
        4_294_967_295,
        EventName::FullLinks,
        b"events 4294967295 full-links",
    ),
];

#[test]
fn each_refusal_has_its_line(rt: HostRuntime) {
    for (line, name, wanted) in REFUSALS.iter() {
        assert!(rt; is_refused(&rt, rt.alloc(), *line, *name, wanted), "{line}");
    }
}

/// Whether a sink whose third write fails has the first part of a line.
fn breaks_off(sink: &mut MemSink) -> bool {
    write_events_line(7, EventName::Syntax, &mut *sink).is_err()
        && sink.bytes() == b"events 7 s".as_slice()
}

#[test]
fn a_line_breaks_off_where_a_write_fails(rt: HostRuntime) {
    let mut sink = MemSink::new(rt.alloc(), 64, 5, &[3], &[]).expect(&rt, "memory");
    assert!(rt; breaks_off(&mut sink));
}
