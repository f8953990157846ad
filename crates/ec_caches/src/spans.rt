//! What no clause shows: that an update splices the last spans of a long row alone, and no other row.
//!
//! Few functions name the type of an engine, since each that does takes long to prove: the others are over what is `Watched`.
ghost use Rattle.std.specs.Prelude.{◌≡◌, ◌<◌, ◌^◌, length};

use crate::fixtures::{boxed, term_of};
use ec_axioms::{Event, Steps, Update};
use ec_block_rows::{BlockMarks, BlockTimes};
use ec_check::Checked;
use ec_engine::Engine;
use ec_layers::tally::TallySpans;
use ec_moment::Tick;
use ec_rows::{MarkRow, TimeRow};
use ec_terms::{GroundRef, Name};
use ec_theory::accept;
use std::alloc::Global;
use std::marker::Brand;
use std::process::Abort;
use std::sync::ledger::{Blank, Ledger};
use std::test::Fail;

/// Lamps that have power or not.
pub(crate) const LAMPS: &[u8] = b"initiates plug(L) powered(L). terminates unplug(L) powered(L).";

/// What takes updates, and has a row of spans for each property.
trait Watched {
    /// Whether it takes a batch.
    fn takes(&mut self, batch: &[Update<Tick>]) -> bool
        requires { length batch.now < 2 ^ 32 };

    /// The row of the spans of a property.
    fn spans(&self, p: &GroundRef<'_>) -> Option<&TallySpans>;
}

/// An engine with the count of its steps.
#[derive(Drop)]
struct Watch<M: MarkRow<Tick>, X: TimeRow<Tick>, L: Ledger> {
    engine: Box<Engine<Tick, M, TallySpans, X>>,
    steps: Steps<L>,
}

impl<M: MarkRow<Tick>, X: TimeRow<Tick>, L: Ledger> Watched for Watch<M, X, L> {
    fn takes(&mut self, batch: &[Update<Tick>]) -> bool {
        self.engine.revise(batch, &mut self.steps).is_ok()
    }

    fn spans(&self, p: &GroundRef<'_>) -> Option<&TallySpans> {
        let parts = self.engine.parts();
        let p = parts.props.lookup(p)?;
        parts.intervals.spans(p)
    }
}

/// The assertion of an event at a time, after which it is named.
fn assertion(rt: &impl Abort, alloc: Global, at: i64, spelt: &[u8]) -> Update<Tick> {
    let id = format!(in alloc; "e{at}").expect(rt, "memory");
    Update::Assert(Event {
        id: Name::from_bytes(id.as_bytes()).expect(rt, "a name"),
        at: Tick(at),
        term: term_of(rt, spelt).to_ground(alloc).expect(rt, "memory"),
    })
}

/// Asserts an event at a time, in a batch of its own.
fn assert_one<W: Watched>(rt: &impl Abort, alloc: Global, watched: &mut W, at: i64, spelt: &[u8]) {
    let batch = [assertion(rt, alloc, at, spelt)];
    assert!(rt; watched.takes(&batch), "{at}");
}

/// Plugs a lamp in and out a hundred times, told in order of time, and in once more.
fn assert_all<W: Watched>(rt: &impl Abort, alloc: Global, watched: &mut W) {
    for k in 1i64..101 {
        let start = k.wrapping_mul(10);
        assert_one(rt, alloc, watched, start, b"plug(a)");
        assert_one(rt, alloc, watched, start.wrapping_add(5), b"unplug(a)");
    }
    assert_one(rt, alloc, watched, 2000, b"plug(a)");
}

/// How often the row of a property was spliced, and the least place at which one of those splices wrote that were made since it
/// had a hundred spans.
fn splices<W: Watched>(rt: &impl Abort, watched: &W, spelt: &[u8]) -> (u64, usize) {
    let row = watched.spans(&term_of(rt, spelt)).expect(rt, "a row");
    (row.splices(), row.least())
}

/// Whether the power of one lamp is spliced at its end alone, and that of the other not at all, where the first is plugged in
/// and out.
fn touches_the_last_alone<W: Watched>(rt: &impl Abort, alloc: Global, watched: &mut W) -> bool {
    assert_one(rt, alloc, watched, 1, b"plug(b)");
    let (before, _) = splices(rt, watched, b"powered(b)");
    assert_all(rt, alloc, watched);
    let (after, _) = splices(rt, watched, b"powered(b)");
    let (count, least) = splices(rt, watched, b"powered(a)");
    after == before && count > 0 && least == 99
}

/// Whether it is so in an engine of no event before.
fn passes<M: MarkRow<Tick>, X: TimeRow<Tick>, L: Ledger>(
    rt: &impl Abort,
    alloc: Global,
    checked: Checked,
    blank: Blank,
) -> bool
    requires name { blank.name ≡ L.name }
    requires parts { blank.parts ≡ L.parts }
    requires some { 0 < L.parts }
{
    let engine: Engine<Tick, M, TallySpans, X> = Engine::new(alloc, checked).expect(rt, "memory");
    let mut watch = Watch {
        engine: boxed(rt, alloc, engine),
        steps: Steps::<L>::new(blank),
    };
    touches_the_last_alone(rt, alloc, &mut watch)
}

#[test]
fn an_update_touches_the_last_spans_of_its_property_alone(rt: HostRuntime) -> Result<(), Fail> {
    let checked = accept(rt.alloc(), LAMPS)?;
    assert!(rt;
        passes::<BlockMarks<Tick>, BlockTimes<Tick>, Brand>(&rt, rt.alloc(), checked, Blank::new(1))
    );
    Ok(())
}
