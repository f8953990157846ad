//! The reply that lists the intervals of a property.
ghost use Rattle.std.specs.Prelude.{◌≡◌, ◌≤◌, List, OnOk, OnErr, map};
ghost use Rattle.ec_terms.specs.declared.theory.Theory.{Theory};
ghost use Rattle.ec_terms.specs.Term.{ground_of};
ghost use Rattle.ec_axioms.specs.Calculus.{PlainEvent};
ghost use Rattle.ec_commands.specs.QueryTexts.{counted_text, interval_text, intervals_reply};
ghost use Rattle.ec_intervals.specs.Table.{front_members, members_at, plain_interval, plain_intervals, spans_at};
ghost use Rattle.ec_outside.specs.Counts.{Rose};
ghost use Rattle.ec_outside.specs.Streams.{Appended, AppendedPart};
ghost use Rattle.ec_query.specs.Held.{AreHeldOf};
ghost use Rattle.ec_query.specs.Members.{members_text, span_text};

use crate::counted::write_count;
use crate::held::Held;
use crate::member_text::{MemberText, set_interval};
use ec_intervals::{Begin, Interval, Intervals};
use ec_moment::Moment;
use ec_outside::{Failed, Sink, write_all};
use ec_rows::{End, Span, SpanRow};
use ec_terms::{GroundRef, PropId};

/// Writes spans that lie together, each as a member.
fn write_run<T: Moment, K: Sink>(run: &[Span<T>], out: &mut K) -> Result<(), Failed>
    ensures written { OnOk result (Appended K.stands out.old out.new (members_text (span_text T.rank T.canon) run.now)) }
    ensures part { OnErr result (AppendedPart K.stands out.old out.new (members_text (span_text T.rank T.canon) run.now)) }
    ensures failed { OnErr result (Rose (K.faults out.old) (K.faults out.new)) }
    ensures quiet { OnOk result (K.faults out.new ≡ K.faults out.old) }
    ensures counted { K.faults out.old ≤ K.faults out.new }
{
    let mut text = MemberText::new();
    for span in run {
        set_interval(
            &mut text,
            Interval {
                from: Begin::At(span.from),
                end: span.end,
            },
        );
        write_all(out, text.as_bytes())?;
    }
    Ok(())
}

/// Writes all spans of a row, each as a member.
fn write_spans<T: Moment, I: SpanRow<T>, K: Sink>(spans: &I, out: &mut K) -> Result<(), Failed>
    ensures written { OnOk result (Appended K.stands out.old out.new (members_text (span_text T.rank T.canon) (I.spans spans.now))) }
    ensures part { OnErr result (AppendedPart K.stands out.old out.new (members_text (span_text T.rank T.canon) (I.spans spans.now))) }
    ensures failed { OnErr result (Rose (K.faults out.old) (K.faults out.new)) }
    ensures quiet { OnOk result (K.faults out.new ≡ K.faults out.old) }
    ensures counted { K.faults out.old ≤ K.faults out.new }
{
    let mut i = 0;
    while i < spans.len() {
        let run = spans.run(i);
        write_run(run, out)?;
        i += run.len();
    }
    Ok(())
}

/// Writes the interval from before all events, if there is one, as a member.
fn write_front<T: Moment, K: Sink>(front: Option<End<T>>, out: &mut K) -> Result<(), Failed>
    ensures written { OnOk result (Appended K.stands out.old out.new (members_text (λ interval. interval_text T.canon (plain_interval T.rank interval)) (front_members front))) }
    ensures part { OnErr result (AppendedPart K.stands out.old out.new (members_text (λ interval. interval_text T.canon (plain_interval T.rank interval)) (front_members front))) }
    ensures failed { OnErr result (Rose (K.faults out.old) (K.faults out.new)) }
    ensures quiet { OnOk result (K.faults out.new ≡ K.faults out.old) }
    ensures counted { K.faults out.old ≤ K.faults out.new }
{
    let mut text = MemberText::new();
    if let Some(end) = front {
        set_interval(
            &mut text,
            Interval {
                from: Begin::Initial,
                end,
            },
        );
    }
    write_all(out, text.as_bytes())
}

/// Writes the intervals of a property that begin at a time, each as a member.
fn write_begun<T: Moment, I: SpanRow<T>, K: Sink>(
    intervals: &Intervals<T, I>,
    id: PropId,
    out: &mut K,
) -> Result<(), Failed>
    ensures written { OnOk result (Appended K.stands out.old out.new (members_text (span_text T.rank T.canon) (spans_at id.0 intervals.now))) }
    ensures part { OnErr result (AppendedPart K.stands out.old out.new (members_text (span_text T.rank T.canon) (spans_at id.0 intervals.now))) }
    ensures failed { OnErr result (Rose (K.faults out.old) (K.faults out.new)) }
    ensures quiet { OnOk result (K.faults out.new ≡ K.faults out.old) }
    ensures counted { K.faults out.old ≤ K.faults out.new }
{
    match intervals.spans(id) {
        Some(spans) => write_spans(spans, out),
        None => write_all(out, b""),
    }
}

/// Writes how many intervals a property has, and then each of them.
fn write_intervals<T: Moment, I: SpanRow<T>, K: Sink>(
    intervals: &Intervals<T, I>,
    id: PropId,
    out: &mut K,
) -> Result<(), Failed>
    ensures written { OnOk result (Appended K.stands out.old out.new (counted_text (map (interval_text T.canon) (plain_intervals T.rank (members_at id.0 intervals.now))))) }
    ensures part { OnErr result (AppendedPart K.stands out.old out.new (counted_text (map (interval_text T.canon) (plain_intervals T.rank (members_at id.0 intervals.now))))) }
    ensures failed { OnErr result (Rose (K.faults out.old) (K.faults out.new)) }
    ensures quiet { OnOk result (K.faults out.new ≡ K.faults out.old) }
    ensures counted { K.faults out.old ≤ K.faults out.new }
{
    write_count(intervals.len(id) as u64, out)?;
    write_front(intervals.front(id), out)?;
    write_begun(intervals, id, out)
}

/// Writes the intervals of a property: how many they are, and each of them in order, as `(5,10]` or `(10,inf)`. The first
/// may begin at `-inf`, before all events. `Failed` comes only where a call of the sink failed, and then some first part of
/// the reply was written.
pub fn intervals<T: Moment, I: SpanRow<T>, K: Sink>(
    held: &Held<'_, T, I>,
    p: &GroundRef<'_>,
    out: &mut K,
) -> Result<(), Failed>
    ensures written { (theory : Theory) (events : List PlainEvent) → AreHeldOf T.rank theory events held.now.props.now held.now.intervals.now → OnOk result (Appended K.stands out.old out.new (intervals_reply theory events T.canon (ground_of p.now))) }
    ensures part { (theory : Theory) (events : List PlainEvent) → AreHeldOf T.rank theory events held.now.props.now held.now.intervals.now → OnErr result (AppendedPart K.stands out.old out.new (intervals_reply theory events T.canon (ground_of p.now))) }
    ensures failed { OnErr result (Rose (K.faults out.old) (K.faults out.new)) }
    ensures quiet { OnOk result (K.faults out.new ≡ K.faults out.old) }
    ensures counted { K.faults out.old ≤ K.faults out.new }
{
    match held.props.lookup(p) {
        Some(id) => write_intervals(held.intervals, id, out),
        None => write_count(0, out),
    }
}
