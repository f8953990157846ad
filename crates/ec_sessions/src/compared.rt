//! The replies to commands that compare the intervals of two properties, written from an engine.
ghost use Rattle.std.specs.Prelude.{◌≡◌, ◌≤◌, ◌⊎◌, false, OnOk, OnErr};
ghost use Rattle.ec_commands.specs.QueryTexts.{pairs_reply};
ghost use Rattle.ec_outside.specs.Counts.{Rose};
ghost use Rattle.ec_outside.specs.Streams.{Appended, AppendedPart};
ghost use Rattle.ec_replies.specs.Replies.{reply_line};
ghost use Rattle.ec_sessions.specs.Answering.{IsWritten, comparison_text};
ghost use Rattle.ec_terms.specs.Term.{ground_of};

use crate::asking::held;
use crate::handled::Handled;
use crate::sessions::Sessions;
use crate::told::Comparison;
use ec_commands::Relation;
use ec_compare::{count_pairs, write_pairs, write_related};
use ec_engine::Engine;
use ec_lines::{Answer, write_front, write_text};
use ec_moment::Moment;
use ec_outside::{Failed, Sink, write_all};
use ec_rows::{MarkRow, SpanRow, TimeRow};
use ec_terms::GroundRef;

/// Writes the pairs that stand in a relation, or that they are more than a reply lists.
fn write_few_pairs<T: Moment, M: MarkRow<T>, I: SpanRow<T>, X: TimeRow<T>, K: Sink>(
    engine: &Engine<T, M, I, X>,
    left: &GroundRef<'_>,
    relation: Relation,
    right: &GroundRef<'_>,
    out: &mut K,
) -> Result<(), Failed>
    ensures written { OnOk result (Appended K.stands out.old out.new (pairs_reply engine.now.theory engine.now.events T.canon (ground_of left.now) relation (ground_of right.now))) }
    ensures part { OnErr result (AppendedPart K.stands out.old out.new (pairs_reply engine.now.theory engine.now.events T.canon (ground_of left.now) relation (ground_of right.now))) }
    ensures failed { OnErr result (Rose (K.faults out.old) (K.faults out.new)) }
    ensures quiet { OnOk result (K.faults out.new ≡ K.faults out.old) }
    ensures counted { K.faults out.old ≤ K.faults out.new }
{
    match count_pairs(&held(engine), left, relation, right) {
        Some(count) => write_pairs(&held(engine), left, relation, right, count, out),
        None => write_text(&Answer::FullPairs, out),
    }
}

/// Writes how the intervals of two properties relate.
fn write_comparison<T: Moment, M: MarkRow<T>, I: SpanRow<T>, X: TimeRow<T>, K: Sink>(
    engine: &Engine<T, M, I, X>,
    comparison: &Comparison<'_, T>,
    out: &mut K,
) -> Result<(), Failed>
    ensures written { OnOk result (Appended K.stands out.old out.new (comparison_text T.rank engine.now.theory engine.now.events T.canon comparison.now)) }
    ensures part { OnErr result (AppendedPart K.stands out.old out.new (comparison_text T.rank engine.now.theory engine.now.events T.canon comparison.now)) }
    ensures failed { OnErr result (Rose (K.faults out.old) (K.faults out.new)) }
    ensures quiet { OnOk result (K.faults out.new ≡ K.faults out.old) }
    ensures counted { K.faults out.old ≤ K.faults out.new }
{
    match comparison {
        Comparison::Pairs {
            left,
            relation,
            right,
        } => write_few_pairs(engine, left, *relation, right, out),
        Comparison::Related {
            left,
            at,
            relation,
            right,
        } => write_related(&held(engine), left, *at, *relation, right, out),
    }
}

/// Writes the whole reply line to a comparison: the prefix if the line had one, how the intervals relate, and the line end.
fn write_line<T: Moment, M: MarkRow<T>, I: SpanRow<T>, X: TimeRow<T>, K: Sink>(
    engine: &Engine<T, M, I, X>,
    prefix: Option<u8>,
    comparison: &Comparison<'_, T>,
    out: &mut K,
) -> Result<(), Failed>
    ensures written { OnOk result (Appended K.stands out.old out.new (reply_line prefix (comparison_text T.rank engine.now.theory engine.now.events T.canon comparison.now))) }
    ensures part { OnErr result (AppendedPart K.stands out.old out.new (reply_line prefix (comparison_text T.rank engine.now.theory engine.now.events T.canon comparison.now))) }
    ensures failed { OnErr result (Rose (K.faults out.old) (K.faults out.new)) }
    ensures quiet { OnOk result (K.faults out.new ≡ K.faults out.old) }
    ensures counted { K.faults out.old ≤ K.faults out.new }
{
    write_front(prefix, out)?;
    write_comparison(engine, comparison, out)?;
    write_all(out, b"\n")
}

/// Answers a comparison from an engine: writes the whole reply line, and says what follows.
fn reply_to_comparison<T: Moment, M: MarkRow<T>, I: SpanRow<T>, X: TimeRow<T>, K: Sink>(
    engine: &Engine<T, M, I, X>,
    prefix: Option<u8>,
    comparison: &Comparison<'_, T>,
    out: &mut K,
) -> Handled
    ensures written { IsWritten K.stands result false (reply_line prefix (comparison_text T.rank engine.now.theory engine.now.events T.canon comparison.now)) out.old out.new }
    ensures failed { result ≡ Handled.WriteFault → Rose (K.faults out.old) (K.faults out.new) }
    ensures quiet { (result ≡ Handled.WriteFault) ⊎ (K.faults out.new ≡ K.faults out.old) }
    ensures counted { K.faults out.old ≤ K.faults out.new }
{
    if write_line(engine, prefix, comparison, out).is_err() {
        Handled::WriteFault
    } else {
        Handled::Go
    }
}

impl<T: Moment, M: MarkRow<T>, I: SpanRow<T>, X: TimeRow<T>> Sessions<T, M, I, X> {
    /// Answers a comparison of the intervals of the present events, and says what follows.
    pub(crate) fn compare<K: Sink>(
        &self,
        prefix: Option<u8>,
        comparison: &Comparison<'_, T>,
        out: &mut K,
    ) -> Handled
        ensures written { IsWritten K.stands result false (reply_line prefix (comparison_text T.rank self.now.theory self.now.state.events T.canon comparison.now)) out.old out.new }
        ensures failed { result ≡ Handled.WriteFault → Rose (K.faults out.old) (K.faults out.new) }
        ensures quiet { (result ≡ Handled.WriteFault) ⊎ (K.faults out.new ≡ K.faults out.old) }
        ensures counted { K.faults out.old ≤ K.faults out.new }
    {
        reply_to_comparison(self.chronicle.engine(), prefix, comparison, out)
    }
}
