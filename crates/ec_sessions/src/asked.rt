//! The replies to queries, written from an engine: that of the present events, or any other.
ghost use Rattle.std.specs.Prelude.{◌≡◌, ◌≤◌, ◌+◌, ◌⊎◌, false, OnOk, OnErr};
ghost use Rattle.ec_lines.specs.ShownCommand.{plain_query};
ghost use Rattle.ec_outside.specs.Counts.{Rose};
ghost use Rattle.ec_outside.specs.Streams.{Appended, AppendedPart};
ghost use Rattle.ec_replies.specs.Replies.{query_text, reply_line};
ghost use Rattle.ec_sessions.specs.Answering.{IsWritten};
ghost use Rattle.ec_sessions.specs.LineSteps.{most_query_steps};

use crate::asking::{answer_holds, answer_through, held, marked};
use crate::handled::Handled;
use crate::sessions::Sessions;
use ec_axioms::Steps;
use ec_engine::Engine;
use ec_lines::{Query, write_front, write_text};
use ec_moment::Moment;
use ec_outside::{Failed, Sink, write_all};
use ec_query::{at, broken, clashes, events, intervals, write_why};
use ec_rows::{MarkRow, SpanRow, TimeRow};
use std::sync::ledger::Ledger;

/// Writes what a query asks for: yes or no, how many members there are and each of them, or a reason.
fn write_query<T: Moment, M: MarkRow<T>, I: SpanRow<T>, X: TimeRow<T>, K: Sink, L: Ledger>(
    engine: &Engine<T, M, I, X>,
    query: &Query<'_, T>,
    out: &mut K,
    steps: &mut Steps<L>,
) -> Result<(), Failed>
    ensures written { OnOk result (Appended K.stands out.old out.new (query_text (record { theory = engine.now.theory; spelt = T.spelt; canon = T.canon }) engine.now.events (plain_query T.rank query.now))) }
    ensures part { OnErr result (AppendedPart K.stands out.old out.new (query_text (record { theory = engine.now.theory; spelt = T.spelt; canon = T.canon }) engine.now.events (plain_query T.rank query.now))) }
    ensures failed { OnErr result (Rose (K.faults out.old) (K.faults out.new)) }
    ensures quiet { OnOk result (K.faults out.new ≡ K.faults out.old) }
    ensures counted { K.faults out.old ≤ K.faults out.new }
    ensures steps { steps.new ≤ steps.old + most_query_steps engine.now.theory engine.now.events (plain_query T.rank query.now) }
{
    match query {
        Query::Holds { prop, at } => write_text(&answer_holds(engine, prop, *at), out),
        Query::Through { prop, from, until } => {
            write_text(&answer_through(engine, prop, *from, *until), out)
        }
        Query::Intervals { prop } => intervals(&held(engine), prop, out),
        Query::Broken { prop } => broken(&marked(engine), prop, out),
        Query::At { at: time } => at(&held(engine), *time, out),
        Query::Clashes => clashes(&marked(engine), out),
        Query::Events => events(&engine.parts().store, out, steps),
        Query::Why { prop, at: time } => write_why(engine.parts(), prop, *time, out, steps),
    }
}

/// Writes the whole reply line to a query: the prefix if the line had one, what is asked for, and the line end.
fn write_line<T: Moment, M: MarkRow<T>, I: SpanRow<T>, X: TimeRow<T>, K: Sink, L: Ledger>(
    engine: &Engine<T, M, I, X>,
    prefix: Option<u8>,
    query: &Query<'_, T>,
    out: &mut K,
    steps: &mut Steps<L>,
) -> Result<(), Failed>
    ensures written { OnOk result (Appended K.stands out.old out.new (reply_line prefix (query_text (record { theory = engine.now.theory; spelt = T.spelt; canon = T.canon }) engine.now.events (plain_query T.rank query.now)))) }
    ensures part { OnErr result (AppendedPart K.stands out.old out.new (reply_line prefix (query_text (record { theory = engine.now.theory; spelt = T.spelt; canon = T.canon }) engine.now.events (plain_query T.rank query.now)))) }
    ensures failed { OnErr result (Rose (K.faults out.old) (K.faults out.new)) }
    ensures quiet { OnOk result (K.faults out.new ≡ K.faults out.old) }
    ensures counted { K.faults out.old ≤ K.faults out.new }
    ensures steps { steps.new ≤ steps.old + most_query_steps engine.now.theory engine.now.events (plain_query T.rank query.now) }
{
    write_front(prefix, out)?;
    write_query(engine, query, out, steps)?;
    write_all(out, b"\n")
}

/// Answers a query from an engine: writes the whole reply line, and says what follows.
pub(crate) fn reply_to_query<
    T: Moment,
    M: MarkRow<T>,
    I: SpanRow<T>,
    X: TimeRow<T>,
    K: Sink,
    L: Ledger,
>(
    engine: &Engine<T, M, I, X>,
    prefix: Option<u8>,
    query: &Query<'_, T>,
    out: &mut K,
    steps: &mut Steps<L>,
) -> Handled
    ensures written { IsWritten K.stands result false (reply_line prefix (query_text (record { theory = engine.now.theory; spelt = T.spelt; canon = T.canon }) engine.now.events (plain_query T.rank query.now))) out.old out.new }
    ensures failed { result ≡ Handled.WriteFault → Rose (K.faults out.old) (K.faults out.new) }
    ensures quiet { (result ≡ Handled.WriteFault) ⊎ (K.faults out.new ≡ K.faults out.old) }
    ensures counted { K.faults out.old ≤ K.faults out.new }
    ensures steps { steps.new ≤ steps.old + most_query_steps engine.now.theory engine.now.events (plain_query T.rank query.now) }
{
    if write_line(engine, prefix, query, out, steps).is_err() {
        Handled::WriteFault
    } else {
        Handled::Go
    }
}

impl<T: Moment, M: MarkRow<T>, I: SpanRow<T>, X: TimeRow<T>> Sessions<T, M, I, X> {
    /// Answers a query of the present events, and says what follows.
    pub(crate) fn ask<K: Sink, L: Ledger>(
        &self,
        prefix: Option<u8>,
        query: &Query<'_, T>,
        out: &mut K,
        steps: &mut Steps<L>,
    ) -> Handled
        ensures written { IsWritten K.stands result false (reply_line prefix (query_text (record { theory = self.now.theory; spelt = T.spelt; canon = T.canon }) self.now.state.events (plain_query T.rank query.now))) out.old out.new }
        ensures failed { result ≡ Handled.WriteFault → Rose (K.faults out.old) (K.faults out.new) }
        ensures quiet { (result ≡ Handled.WriteFault) ⊎ (K.faults out.new ≡ K.faults out.old) }
        ensures counted { K.faults out.old ≤ K.faults out.new }
        ensures steps { steps.new ≤ steps.old + most_query_steps self.now.theory self.now.state.events (plain_query T.rank query.now) }
    {
        reply_to_query(self.chronicle.engine(), prefix, query, out, steps)
    }
}
