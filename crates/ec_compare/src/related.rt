//! The reply that lists the intervals of a property to which the interval of another one at a time stands in a relation.
ghost use Rattle.std.specs.Prelude.{◌≡◌, ◌≤◌, List, IsTrue, OnOk, OnErr, filter, map};
ghost use Rattle.ec_axioms.specs.Calculus.{PlainEvent, intervals_of};
ghost use Rattle.ec_commands.specs.QueryTexts.{counted_text, interval_text, related_reply};
ghost use Rattle.ec_commands.specs.Relations.{is_proper, stands_in};
ghost use Rattle.ec_intervals.specs.Steps.{IsIntervalRow};
ghost use Rattle.ec_intervals.specs.Table.{members_at, plain_interval, plain_intervals};
ghost use Rattle.ec_outside.specs.Counts.{Rose};
ghost use Rattle.ec_outside.specs.Streams.{Appended, AppendedPart};
ghost use Rattle.ec_query.specs.Held.{AreHeldOf};
ghost use Rattle.ec_terms.specs.Term.{ground_of};
ghost use Rattle.ec_terms.specs.declared.theory.Theory.{Theory};

use crate::covering::interval_at;
use crate::fronted::Shown;
use crate::standing::{count_standing, write_standing};
use crate::zone::count_ended;
use ec_commands::Relation;
use ec_intervals::{Interval, Intervals};
use ec_moment::Moment;
use ec_outside::{Failed, Sink, write_all};
use ec_query::{Held, write_count};
use ec_rows::SpanRow;
use ec_terms::{GroundRef, PropId};

/// Writes how many intervals of a kept property an interval stands in a relation to, and each of them.
fn write_counted<T: Moment, I: SpanRow<T>, K: Sink>(
    intervals: &Intervals<T, I>,
    id: PropId,
    left: &Interval<T>,
    wanted: Relation,
    out: &mut K,
) -> Result<(), Failed>
    requires proper { IsTrue (is_proper (plain_interval T.rank left.now)) }
    ensures written { IsIntervalRow (plain_intervals T.rank (members_at id.0 intervals.now)) →
        OnOk result (Appended K.stands out.old out.new (counted_text (map (interval_text T.canon)
        (filter (stands_in wanted (plain_interval T.rank left.now)) (plain_intervals T.rank (members_at id.0 intervals.now)))))) }
    ensures part { IsIntervalRow (plain_intervals T.rank (members_at id.0 intervals.now)) →
        OnErr result (AppendedPart K.stands out.old out.new (counted_text (map (interval_text T.canon)
        (filter (stands_in wanted (plain_interval T.rank left.now)) (plain_intervals T.rank (members_at id.0 intervals.now)))))) }
    ensures failed { OnErr result (Rose (K.faults out.old) (K.faults out.new)) }
    ensures quiet { OnOk result (K.faults out.new ≡ K.faults out.old) }
    ensures counted { K.faults out.old ≤ K.faults out.new }
{
    let first = count_ended(intervals, id, left.from);
    let mut from = first;
    write_count(count_standing(intervals, id, left, wanted, &mut from), out)?;
    from = first;
    write_standing(intervals, id, left, wanted, &mut from, Shown::Right, out)
}

/// Writes how many intervals of a property an interval stands in a relation to, and each of them.
fn write_those<T: Moment, I: SpanRow<T>, K: Sink>(
    held: &Held<'_, T, I>,
    left: &Interval<T>,
    wanted: Relation,
    q: &GroundRef<'_>,
    out: &mut K,
) -> Result<(), Failed>
    requires proper { IsTrue (is_proper (plain_interval T.rank left.now)) }
    ensures written { (theory : Theory) (events : List PlainEvent) → AreHeldOf T.rank theory events held.now.props.now held.now.intervals.now →
        OnOk result (Appended K.stands out.old out.new (counted_text (map (interval_text T.canon)
        (filter (stands_in wanted (plain_interval T.rank left.now)) (intervals_of theory events (ground_of q.now)))))) }
    ensures part { (theory : Theory) (events : List PlainEvent) → AreHeldOf T.rank theory events held.now.props.now held.now.intervals.now →
        OnErr result (AppendedPart K.stands out.old out.new (counted_text (map (interval_text T.canon)
        (filter (stands_in wanted (plain_interval T.rank left.now)) (intervals_of theory events (ground_of q.now)))))) }
    ensures failed { OnErr result (Rose (K.faults out.old) (K.faults out.new)) }
    ensures quiet { OnOk result (K.faults out.new ≡ K.faults out.old) }
    ensures counted { K.faults out.old ≤ K.faults out.new }
{
    match held.props.lookup(q) {
        Some(id) => write_counted(held.intervals, id, left, wanted, out),
        None => write_count(0, out),
    }
}

/// Writes the intervals of `q` to which the interval of `p` that covers a time stands in a relation: how many they are, and
/// each of them in order; or `none` where `p` does not hold at the time. `Failed` comes only where a call of the sink
/// failed, and then some first part of the reply was written.
pub fn write_related<T: Moment, I: SpanRow<T>, K: Sink>(
    held: &Held<'_, T, I>,
    p: &GroundRef<'_>,
    at: T,
    wanted: Relation,
    q: &GroundRef<'_>,
    out: &mut K,
) -> Result<(), Failed>
    ensures written { (theory : Theory) (events : List PlainEvent) → AreHeldOf T.rank theory events held.now.props.now held.now.intervals.now →
        OnOk result (Appended K.stands out.old out.new (related_reply theory events T.canon (ground_of p.now) (T.rank at) wanted (ground_of q.now))) }
    ensures part { (theory : Theory) (events : List PlainEvent) → AreHeldOf T.rank theory events held.now.props.now held.now.intervals.now →
        OnErr result (AppendedPart K.stands out.old out.new (related_reply theory events T.canon (ground_of p.now) (T.rank at) wanted (ground_of q.now))) }
    ensures failed { OnErr result (Rose (K.faults out.old) (K.faults out.new)) }
    ensures quiet { OnOk result (K.faults out.new ≡ K.faults out.old) }
    ensures counted { K.faults out.old ≤ K.faults out.new }
{
    match interval_at(held, p, at) {
        Some(left) => write_those(held, &left, wanted, q, out),
        None => write_all(out, b"none"),
    }
}
