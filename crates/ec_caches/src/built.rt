//! What no clause shows: that an engine is built of events where memory is given, in whatever order they come, and has the spans
//! of an engine that takes them one by one.
ghost use Rattle.std.specs.Prelude.{◌≡◌, ◌<◌, ◌≤◌, [], length, map};
ghost use Rattle.ec_axioms.specs.Events.{event_of};
ghost use Rattle.ec_theory.specs.declared.token_list.TheConstants.{MOST_BYTES};
ghost use Rattle.ec_batch.specs.Build.{HaveOwnIds, history_from};

use crate::fixtures::term_of;
use crate::spans::LAMPS;
use ec_axioms::{Event, Steps};
use ec_block_rows::{BlockMarks, BlockSpans, BlockTimes};
use ec_check::Checked;
use ec_engine::Engine;
use ec_moment::{Moment, Tick};
use ec_rows::{End, MarkRow, Span, SpanRow, TimeRow};
use ec_terms::{GroundRef, Name};
use ec_theory::accept;
use std::alloc::Global;
use std::marker::Brand;
use std::process::Abort;
use std::sync::ledger::{Blank, Ledger};
use std::test::Fail;

/// The event of an identity at a time.
fn event(rt: &impl Abort, alloc: Global, id: &[u8], at: i64, spelt: &[u8]) -> Event<Tick>
    ensures { result.id ≡ id.now }
{
    Event {
        id: Name::from_bytes(id).expect(rt, "a name"),
        at: Tick(at),
        term: term_of(rt, spelt).to_ground(alloc).expect(rt, "memory"),
    }
}

/// A lamp is plugged in, out and in again, told out of the order of time.
fn plugs(rt: &impl Abort, alloc: Global) -> [Event<Tick>; 3]
    ensures { HaveOwnIds (map (event_of ⟦<Tick as Moment>⟧.rank) result) }
{
    [
        event(rt, alloc, b"e3", 30, b"plug(a)"),
        event(rt, alloc, b"e1", 10, b"plug(a)"),
        event(rt, alloc, b"e2", 20, b"unplug(a)"),
    ]
}

/// When the lamp has power.
const POWERED: [Span<Tick>; 2] = [
    Span {
        from: Tick(10),
        end: End::At(Tick(20)),
    },
    Span {
        from: Tick(30),
        end: End::Unended,
    },
];

/// Whether a row has the spans in which the lamp has power, and no others.
fn has_powered<I: SpanRow<Tick>>(row: &I) -> bool {
    row.len() == POWERED.len() && row.run(0) == POWERED.as_slice()
}

/// Whether an engine has these spans for the power of the lamp.
fn is_powered<M: MarkRow<Tick>, I: SpanRow<Tick>, X: TimeRow<Tick>>(
    engine: &Engine<Tick, M, I, X>,
    p: &GroundRef<'_>,
) -> bool {
    let parts = engine.parts();
    match parts.props.lookup(p) {
        Some(p) => parts.intervals.spans(p).is_some_and(|row| has_powered(row)),
        None => false,
    }
}

/// An engine of no event.
fn no_events<M: MarkRow<Tick>, I: SpanRow<Tick>, X: TimeRow<Tick>>(
    rt: &impl Abort,
    alloc: Global,
    checked: Checked,
) -> Engine<Tick, M, I, X>
    ensures { result ≡ record { theory = checked; events = [] } }
{
    Engine::new(alloc, checked).expect(rt, "memory")
}

/// Asserts events in an engine of no event, one after the other.
fn assert_each<M: MarkRow<Tick>, I: SpanRow<Tick>, X: TimeRow<Tick>, L: Ledger>(
    rt: &impl Abort,
    engine: &mut Engine<Tick, M, I, X>,
    list: &[Event<Tick>],
    steps: &mut Steps<L>,
)
    requires none { engine.old.events ≡ [] }
    ensures theory { engine.new.theory ≡ engine.old.theory }
    ensures taken { engine.new.events ≡ history_from (map (event_of ⟦<Tick as Moment>⟧.rank) list.now) }
{
    for event in list {
        match engine.assert(event.id.copied(), event.at, &event.term.borrow(), steps) {
            Ok(_) => {}
            Err(_) => panic!(rt; "an event is refused"),
        }
    }
}

/// Whether an engine that is built of events at once, and one that takes them one by one, have these spans.
fn builds<M: MarkRow<Tick>, I: SpanRow<Tick>, X: TimeRow<Tick>, L: Ledger>(
    rt: &impl Abort,
    alloc: Global,
    theories: (Checked, Checked),
    list: &[Event<Tick>],
    blank: Blank,
) -> bool
    requires same { theories.0 ≡ theories.1 }
    requires own { HaveOwnIds (map (event_of ⟦<Tick as Moment>⟧.rank) list.now) }
    requires name { blank.name ≡ L.name }
    requires parts { blank.parts ≡ L.parts }
    requires some { 0 < L.parts }
{
    let mut steps = Steps::<L>::new(blank);
    let mut taken: Engine<Tick, M, I, X> = no_events(rt, alloc, theories.0);
    assert_each(rt, &mut taken, list, &mut steps);
    let power = term_of(rt, b"powered(a)");
    let _ = taken.parts();
    let built = Engine::build(alloc, theories.1, list, &mut steps);
    let built: Engine<Tick, M, I, X> = built.expect(rt, "memory");
    is_powered(&taken, &power) && is_powered(&built, &power)
}

/// The theory of a text, read twice.
fn two_theories(rt: &impl Abort, alloc: Global, text: &[u8]) -> (Checked, Checked)
    requires { length text.now ≤ MOST_BYTES }
    ensures { result.0 ≡ result.1 }
{
    let one = accept(alloc, text).expect(rt, "a theory");
    let other = accept(alloc, text).expect(rt, "a theory");
    (one, other)
}

#[test]
fn an_engine_is_built_of_events_in_any_order(rt: HostRuntime) {
    let theories = two_theories(&rt, rt.alloc(), LAMPS);
    let list = plugs(&rt, rt.alloc());
    assert!(rt;
        builds::<BlockMarks<Tick>, BlockSpans<Tick>, BlockTimes<Tick>, Brand>(
            &rt,
            rt.alloc(),
            theories,
            &list,
            Blank::new(1)
        )
    );
}
