//! The intervals of a property that one interval stands in a relation to: counted, and written.
ghost use Rattle.std.specs.Prelude.{◌≡◌, ◌≤◌, IsTrue, OnOk, OnErr, filter, length};
ghost use Rattle.ec_commands.specs.Relations.{is_proper, stands_in};
ghost use Rattle.ec_compare.specs.Stretches.{count_ahead, count_ending_first, front_text, fronted_text, stretch};
ghost use Rattle.ec_intervals.specs.Steps.{IsIntervalRow};
ghost use Rattle.ec_intervals.specs.Table.{members_at, plain_interval, plain_intervals};
ghost use Rattle.ec_outside.specs.Counts.{Rose};
ghost use Rattle.ec_outside.specs.Streams.{Appended, AppendedPart};

use crate::fronted::{Shown, set_front, write_fronted};
use crate::touching::{count_touching, write_touching};
use crate::zone::{Zone, count_begun, count_ended};
use ec_commands::Relation;
use ec_intervals::{Interval, Intervals};
use ec_moment::Moment;
use ec_outside::{Failed, Sink};
use ec_query::MemberText;
use ec_rows::SpanRow;
use ec_terms::PropId;

/// How many intervals of a property an interval stands in a relation to. For `before` and `after` no interval is compared;
/// for the others a walk begins at the place `from`, in front of which all intervals end before `left` begins. It leaves
/// there a place in front of which all end before `left` ends: so the walk of an interval that begins later can begin there.
pub(crate) fn count_standing<T: Moment, I: SpanRow<T>>(
    intervals: &Intervals<T, I>,
    id: PropId,
    left: &Interval<T>,
    wanted: Relation,
    from: &mut usize,
) -> u64
    requires proper { IsTrue (is_proper (plain_interval T.rank left.now)) }
    ensures count { IsIntervalRow (plain_intervals T.rank (members_at id.0 intervals.now)) →
        from.old ≤ count_ahead (plain_interval T.rank left.now) (plain_intervals T.rank (members_at id.0 intervals.now)) →
        result ≡ length (filter (stands_in wanted (plain_interval T.rank left.now)) (plain_intervals T.rank (members_at id.0 intervals.now))) }
    ensures from { IsIntervalRow (plain_intervals T.rank (members_at id.0 intervals.now)) →
        from.old ≤ count_ahead (plain_interval T.rank left.now) (plain_intervals T.rank (members_at id.0 intervals.now)) →
        from.new ≤ count_ending_first (plain_interval T.rank left.now) (plain_intervals T.rank (members_at id.0 intervals.now)) }
{
    match wanted {
        Relation::After => count_ended(intervals, id, left.from) as u64,
        Relation::Before => (intervals.len(id) - count_begun(intervals, id, left.end)) as u64,
        _ => count_touching(intervals, id, left, wanted, from),
    }
}

/// Writes the intervals of a zone as the second ones of pairs with one interval.
fn write_zone<T: Moment, I: SpanRow<T>, K: Sink>(
    intervals: &Intervals<T, I>,
    id: PropId,
    left: &Interval<T>,
    zone: Zone,
    shown: Shown,
    out: &mut K,
) -> Result<(), Failed>
    requires within { zone.to ≤ length (members_at id.0 intervals.now) }
    ensures written { OnOk result (Appended K.stands out.old out.new (fronted_text (front_text shown T.canon (plain_interval T.rank left.now)) T.canon
        (stretch zone.from zone.to (plain_intervals T.rank (members_at id.0 intervals.now))))) }
    ensures part { OnErr result (AppendedPart K.stands out.old out.new (fronted_text (front_text shown T.canon (plain_interval T.rank left.now)) T.canon
        (stretch zone.from zone.to (plain_intervals T.rank (members_at id.0 intervals.now))))) }
    ensures failed { OnErr result (Rose (K.faults out.old) (K.faults out.new)) }
    ensures quiet { OnOk result (K.faults out.new ≡ K.faults out.old) }
    ensures counted { K.faults out.old ≤ K.faults out.new }
{
    let mut front = MemberText::new();
    set_front(&mut front, left, shown);
    for place in zone.from..zone.to {
        write_fronted(front.as_bytes(), intervals.member(id, place), out)?;
    }
    Ok(())
}

/// Writes the intervals of a property that an interval stands in a relation to, as the second ones of pairs with it. The
/// place `from` is that of `count_standing`.
pub(crate) fn write_standing<T: Moment, I: SpanRow<T>, K: Sink>(
    intervals: &Intervals<T, I>,
    id: PropId,
    left: &Interval<T>,
    wanted: Relation,
    from: &mut usize,
    shown: Shown,
    out: &mut K,
) -> Result<(), Failed>
    requires proper { IsTrue (is_proper (plain_interval T.rank left.now)) }
    ensures written { IsIntervalRow (plain_intervals T.rank (members_at id.0 intervals.now)) →
        from.old ≤ count_ahead (plain_interval T.rank left.now) (plain_intervals T.rank (members_at id.0 intervals.now)) →
        OnOk result (Appended K.stands out.old out.new (fronted_text (front_text shown T.canon (plain_interval T.rank left.now)) T.canon
        (filter (stands_in wanted (plain_interval T.rank left.now)) (plain_intervals T.rank (members_at id.0 intervals.now))))) }
    ensures part { IsIntervalRow (plain_intervals T.rank (members_at id.0 intervals.now)) →
        from.old ≤ count_ahead (plain_interval T.rank left.now) (plain_intervals T.rank (members_at id.0 intervals.now)) →
        OnErr result (AppendedPart K.stands out.old out.new (fronted_text (front_text shown T.canon (plain_interval T.rank left.now)) T.canon
        (filter (stands_in wanted (plain_interval T.rank left.now)) (plain_intervals T.rank (members_at id.0 intervals.now))))) }
    ensures from { IsIntervalRow (plain_intervals T.rank (members_at id.0 intervals.now)) →
        from.old ≤ count_ahead (plain_interval T.rank left.now) (plain_intervals T.rank (members_at id.0 intervals.now)) →
        OnOk result (from.new ≤ count_ending_first (plain_interval T.rank left.now) (plain_intervals T.rank (members_at id.0 intervals.now))) }
    ensures failed { OnErr result (Rose (K.faults out.old) (K.faults out.new)) }
    ensures quiet { OnOk result (K.faults out.new ≡ K.faults out.old) }
    ensures counted { K.faults out.old ≤ K.faults out.new }
{
    match wanted {
        Relation::After => {
            let zone = Zone {
                from: 0,
                to: count_ended(intervals, id, left.from),
            };
            write_zone(intervals, id, left, zone, shown, out)
        }
        Relation::Before => {
            let zone = Zone {
                from: count_begun(intervals, id, left.end),
                to: intervals.len(id),
            };
            write_zone(intervals, id, left, zone, shown, out)
        }
        _ => write_touching(intervals, id, left, wanted, from, shown, out),
    }
}
