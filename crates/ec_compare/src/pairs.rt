//! The pairs of an interval of one property and one of another that stand in a relation: counted, and written.
ghost use Rattle.std.specs.Prelude.{◌≡◌, ◌≤◌, ◌<◌, List, IfSome, IfNone, OnOk, OnErr, length, map};
ghost use Rattle.ec_axioms.specs.Calculus.{PlainEvent};
ghost use Rattle.ec_commands.specs.QueryTexts.{counted_text, pair_text};
ghost use Rattle.ec_commands.specs.Relations.{pairs_of};
ghost use Rattle.ec_commands.specs.declared.limits.TheConstants.{MOST_PAIRS};
ghost use Rattle.ec_compare.specs.Stretches.{count_ahead, pairs_between};
ghost use Rattle.ec_intervals.specs.Steps.{IsIntervalRow};
ghost use Rattle.ec_intervals.specs.Table.{members_at, plain_interval, plain_intervals};
ghost use Rattle.ec_outside.specs.Counts.{Rose};
ghost use Rattle.ec_outside.specs.Streams.{Appended, AppendedPart};
ghost use Rattle.ec_query.specs.Held.{AreHeldOf};
ghost use Rattle.ec_query.specs.Members.{members_text};
ghost use Rattle.ec_terms.specs.Term.{ground_of};
ghost use Rattle.ec_terms.specs.declared.theory.Theory.{Theory};

use crate::fronted::Shown;
use crate::standing::{count_standing, write_standing};
use crate::zone::count_ended;
use ec_commands::{MOST_PAIRS, Relation};
use ec_intervals::{Interval, Intervals};
use ec_moment::Moment;
use ec_outside::{Failed, Sink, write_all};
use ec_query::{Held, write_count};
use ec_rows::SpanRow;
use ec_terms::{GroundRef, PropId};

/// How many intervals a walk goes over in the time of a search, about.
const SEARCH: usize = 16;

/// Whether a property has so few intervals beside another that a search for each is quicker than a walk over both. Either
/// answer serves; only the time differs.
fn is_small_beside<T: Moment, I: SpanRow<T>>(
    intervals: &Intervals<T, I>,
    p: PropId,
    q: PropId,
) -> bool {
    intervals.len(p) < intervals.len(q) / SEARCH
}

/// Where the walk of an interval begins: where that of the one before it left off, or where a search tells.
fn next_start<T: Moment, I: SpanRow<T>>(
    intervals: &Intervals<T, I>,
    q: PropId,
    left: &Interval<T>,
    from: usize,
    is_sought: bool,
) -> usize
    ensures { from ≤ count_ahead (plain_interval T.rank left.now) (plain_intervals T.rank (members_at q.0 intervals.now)) →
        result ≤ count_ahead (plain_interval T.rank left.now) (plain_intervals T.rank (members_at q.0 intervals.now)) }
{
    if is_sought {
        count_ended(intervals, q, left.from)
    } else {
        from
    }
}

/// How many pairs of intervals of two kept properties stand in a relation, if a reply lists so many.
fn count_between<T: Moment, I: SpanRow<T>>(
    intervals: &Intervals<T, I>,
    p: PropId,
    wanted: Relation,
    q: PropId,
) -> Option<u64>
    ensures count { IsIntervalRow (plain_intervals T.rank (members_at p.0 intervals.now)) → IsIntervalRow (plain_intervals T.rank (members_at q.0 intervals.now)) →
        IfSome result (λ count. count ≡ length (pairs_between wanted (plain_intervals T.rank (members_at p.0 intervals.now)) (plain_intervals T.rank (members_at q.0 intervals.now)))) }
    ensures few { IfSome result (λ count. count ≤ MOST_PAIRS) }
    ensures many { IsIntervalRow (plain_intervals T.rank (members_at p.0 intervals.now)) → IsIntervalRow (plain_intervals T.rank (members_at q.0 intervals.now)) →
        IfNone result (MOST_PAIRS < length (pairs_between wanted (plain_intervals T.rank (members_at p.0 intervals.now)) (plain_intervals T.rank (members_at q.0 intervals.now)))) }
{
    let is_sought = is_small_beside(intervals, p, q);
    let mut from = 0;
    let mut count = 0;
    for place in 0..intervals.len(p) {
        let left = intervals.member(p, place);
        from = next_start(intervals, q, &left, from, is_sought);
        let more = count_standing(intervals, q, &left, wanted, &mut from);
        if more > MOST_PAIRS - count {
            return None;
        }
        count += more;
    }
    Some(count)
}

/// How many pairs of an interval of `p` and one of `q` stand in a relation, if a reply lists so many. `None` exactly where
/// there are more: what is found then is not counted further.
pub fn count_pairs<T: Moment, I: SpanRow<T>>(
    held: &Held<'_, T, I>,
    p: &GroundRef<'_>,
    wanted: Relation,
    q: &GroundRef<'_>,
) -> Option<u64>
    ensures count { (theory : Theory) (events : List PlainEvent) → AreHeldOf T.rank theory events held.now.props.now held.now.intervals.now →
        IfSome result (λ count. count ≡ length (pairs_of theory events (ground_of p.now) wanted (ground_of q.now))) }
    ensures few { IfSome result (λ count. count ≤ MOST_PAIRS) }
    ensures many { (theory : Theory) (events : List PlainEvent) → AreHeldOf T.rank theory events held.now.props.now held.now.intervals.now →
        IfNone result (MOST_PAIRS < length (pairs_of theory events (ground_of p.now) wanted (ground_of q.now))) }
{
    let Some(left) = held.props.lookup(p) else {
        return Some(0);
    };
    let Some(right) = held.props.lookup(q) else {
        return Some(0);
    };
    count_between(held.intervals, left, wanted, right)
}

/// Writes the pairs of intervals of two kept properties that stand in a relation, each as a member.
fn write_between<T: Moment, I: SpanRow<T>, K: Sink>(
    intervals: &Intervals<T, I>,
    p: PropId,
    wanted: Relation,
    q: PropId,
    out: &mut K,
) -> Result<(), Failed>
    ensures written { IsIntervalRow (plain_intervals T.rank (members_at p.0 intervals.now)) → IsIntervalRow (plain_intervals T.rank (members_at q.0 intervals.now)) →
        OnOk result (Appended K.stands out.old out.new (members_text (pair_text T.canon)
        (pairs_between wanted (plain_intervals T.rank (members_at p.0 intervals.now)) (plain_intervals T.rank (members_at q.0 intervals.now))))) }
    ensures part { IsIntervalRow (plain_intervals T.rank (members_at p.0 intervals.now)) → IsIntervalRow (plain_intervals T.rank (members_at q.0 intervals.now)) →
        OnErr result (AppendedPart K.stands out.old out.new (members_text (pair_text T.canon)
        (pairs_between wanted (plain_intervals T.rank (members_at p.0 intervals.now)) (plain_intervals T.rank (members_at q.0 intervals.now))))) }
    ensures failed { OnErr result (Rose (K.faults out.old) (K.faults out.new)) }
    ensures quiet { OnOk result (K.faults out.new ≡ K.faults out.old) }
    ensures counted { K.faults out.old ≤ K.faults out.new }
{
    let is_sought = is_small_beside(intervals, p, q);
    let mut from = 0;
    for place in 0..intervals.len(p) {
        let left = intervals.member(p, place);
        from = next_start(intervals, q, &left, from, is_sought);
        write_standing(intervals, q, &left, wanted, &mut from, Shown::Both, out)?;
    }
    Ok(())
}

/// Writes the pairs of intervals of two properties that stand in a relation, each as a member.
fn write_members<T: Moment, I: SpanRow<T>, K: Sink>(
    held: &Held<'_, T, I>,
    p: &GroundRef<'_>,
    wanted: Relation,
    q: &GroundRef<'_>,
    out: &mut K,
) -> Result<(), Failed>
    ensures written { (theory : Theory) (events : List PlainEvent) → AreHeldOf T.rank theory events held.now.props.now held.now.intervals.now →
        OnOk result (Appended K.stands out.old out.new (members_text (pair_text T.canon) (pairs_of theory events (ground_of p.now) wanted (ground_of q.now)))) }
    ensures part { (theory : Theory) (events : List PlainEvent) → AreHeldOf T.rank theory events held.now.props.now held.now.intervals.now →
        OnErr result (AppendedPart K.stands out.old out.new (members_text (pair_text T.canon) (pairs_of theory events (ground_of p.now) wanted (ground_of q.now)))) }
    ensures failed { OnErr result (Rose (K.faults out.old) (K.faults out.new)) }
    ensures quiet { OnOk result (K.faults out.new ≡ K.faults out.old) }
    ensures counted { K.faults out.old ≤ K.faults out.new }
{
    let Some(left) = held.props.lookup(p) else {
        return write_all(out, b"");
    };
    let Some(right) = held.props.lookup(q) else {
        return write_all(out, b"");
    };
    write_between(held.intervals, left, wanted, right, out)
}

/// Writes the pairs of an interval of `p` and one of `q` that stand in a relation: how many they are, as `count_pairs` found,
/// and each of them by the interval of `p`, then by that of `q`. `Failed` comes only where a call of the sink failed, and
/// then some first part of the reply was written.
pub fn write_pairs<T: Moment, I: SpanRow<T>, K: Sink>(
    held: &Held<'_, T, I>,
    p: &GroundRef<'_>,
    wanted: Relation,
    q: &GroundRef<'_>,
    count: u64,
    out: &mut K,
) -> Result<(), Failed>
    ensures written { (theory : Theory) (events : List PlainEvent) → AreHeldOf T.rank theory events held.now.props.now held.now.intervals.now →
        count ≡ length (pairs_of theory events (ground_of p.now) wanted (ground_of q.now)) →
        OnOk result (Appended K.stands out.old out.new (counted_text (map (pair_text T.canon) (pairs_of theory events (ground_of p.now) wanted (ground_of q.now))))) }
    ensures part { (theory : Theory) (events : List PlainEvent) → AreHeldOf T.rank theory events held.now.props.now held.now.intervals.now →
        count ≡ length (pairs_of theory events (ground_of p.now) wanted (ground_of q.now)) →
        OnErr result (AppendedPart K.stands out.old out.new (counted_text (map (pair_text T.canon) (pairs_of theory events (ground_of p.now) wanted (ground_of q.now))))) }
    ensures failed { OnErr result (Rose (K.faults out.old) (K.faults out.new)) }
    ensures quiet { OnOk result (K.faults out.new ≡ K.faults out.old) }
    ensures counted { K.faults out.old ≤ K.faults out.new }
{
    write_count(count, out)?;
    write_members(held, p, wanted, q, out)
}
