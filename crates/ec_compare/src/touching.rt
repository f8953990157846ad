//! The intervals of a property that touch one interval, walked from the first that does not end before it begins.
//!
//! The intervals of a property are in order: those that end before another interval begins come first, and those that begin
//! behind its end come last. Where the other interval moves on, the first ones become more; so a walk that compares all
//! intervals of one property with those of another never goes back.
ghost use Rattle.std.specs.Prelude.{◌≡◌, ◌≢◌, ◌≤◌, ◌++◌, ◌∷◌, IsTrue, OnOk, OnErr, filter, length};
ghost use Rattle.ec_commands.specs.QueryTexts.{interval_text};
ghost use Rattle.ec_commands.specs.Relations.{is_proper, stands_in};
ghost use Rattle.ec_commands.specs.declared.relation.Relation.TheVariants.{Before, After};
ghost use Rattle.ec_compare.specs.Stretches.{count_ahead, count_ending_first, front_text, fronted_text};
ghost use Rattle.ec_intervals.specs.Steps.{IsIntervalRow};
ghost use Rattle.ec_intervals.specs.Table.{members_at, plain_interval, plain_intervals};
ghost use Rattle.ec_outside.specs.Counts.{Rose};
ghost use Rattle.ec_outside.specs.Streams.{Appended, AppendedPart};

use crate::comparing::{ends_later, relation};
use crate::fronted::{Shown, set_front, write_fronted};
use ec_commands::Relation;
use ec_intervals::{Interval, Intervals};
use ec_moment::Moment;
use ec_outside::{Failed, Sink};
use ec_query::MemberText;
use ec_rows::SpanRow;
use ec_terms::PropId;

/// How many intervals of a property an interval stands in a relation to, where that is neither `before` nor `after`. The walk
/// begins at the place `from`, in front of which all intervals end before `left` begins. It leaves there a place in front of
/// which all end before `left` ends: so the walk of an interval that begins later can begin there.
pub(crate) fn count_touching<T: Moment, I: SpanRow<T>>(
    intervals: &Intervals<T, I>,
    id: PropId,
    left: &Interval<T>,
    wanted: Relation,
    from: &mut usize,
) -> u64
    requires proper { IsTrue (is_proper (plain_interval T.rank left.now)) }
    requires not_before { wanted ≢ Before }
    requires not_after { wanted ≢ After }
    ensures count { IsIntervalRow (plain_intervals T.rank (members_at id.0 intervals.now)) →
        from.old ≤ count_ahead (plain_interval T.rank left.now) (plain_intervals T.rank (members_at id.0 intervals.now)) →
        result ≡ length (filter (stands_in wanted (plain_interval T.rank left.now)) (plain_intervals T.rank (members_at id.0 intervals.now))) }
    ensures from { IsIntervalRow (plain_intervals T.rank (members_at id.0 intervals.now)) →
        from.old ≤ count_ahead (plain_interval T.rank left.now) (plain_intervals T.rank (members_at id.0 intervals.now)) →
        from.new ≤ count_ending_first (plain_interval T.rank left.now) (plain_intervals T.rank (members_at id.0 intervals.now)) }
{
    let mut count = 0;
    for place in *from..intervals.len(id) {
        let found = relation(left, &intervals.member(id, place));
        if found == Relation::Before {
            return count;
        }
        if found == wanted {
            count += 1;
        }
        if ends_later(found) {
            *from += 1;
        }
    }
    count
}

/// Writes a pair: of its first interval what is to be shown, and its second.
fn write_pair<T: Moment, K: Sink>(
    left: &Interval<T>,
    right: Interval<T>,
    shown: Shown,
    out: &mut K,
) -> Result<(), Failed>
    ensures written { OnOk result (Appended K.stands out.old out.new (front_text shown T.canon (plain_interval T.rank left.now) ++ 32 ∷ interval_text T.canon (plain_interval T.rank right))) }
    ensures part { OnErr result (AppendedPart K.stands out.old out.new (front_text shown T.canon (plain_interval T.rank left.now) ++ 32 ∷ interval_text T.canon (plain_interval T.rank right))) }
    ensures failed { OnErr result (Rose (K.faults out.old) (K.faults out.new)) }
    ensures quiet { OnOk result (K.faults out.new ≡ K.faults out.old) }
    ensures counted { K.faults out.old ≤ K.faults out.new }
{
    let mut front = MemberText::new();
    set_front(&mut front, left, shown);
    write_fronted(front.as_bytes(), right, out)
}

/// Writes the intervals of a property that an interval stands in a relation to, each as a member, where the relation is neither
/// `before` nor `after`. The walk begins at the place `from`, and moves it, as `count_touching` does.
pub(crate) fn write_touching<T: Moment, I: SpanRow<T>, K: Sink>(
    intervals: &Intervals<T, I>,
    id: PropId,
    left: &Interval<T>,
    wanted: Relation,
    from: &mut usize,
    shown: Shown,
    out: &mut K,
) -> Result<(), Failed>
    requires proper { IsTrue (is_proper (plain_interval T.rank left.now)) }
    requires not_before { wanted ≢ Before }
    requires not_after { wanted ≢ After }
    ensures written { IsIntervalRow (plain_intervals T.rank (members_at id.0 intervals.now)) →
        from.old ≤ count_ahead (plain_interval T.rank left.now) (plain_intervals T.rank (members_at id.0 intervals.now)) →
        OnOk result (Appended K.stands out.old out.new (fronted_text (front_text shown T.canon (plain_interval T.rank left.now)) T.canon
        (filter (stands_in wanted (plain_interval T.rank left.now)) (plain_intervals T.rank (members_at id.0 intervals.now))))) }
    ensures part { IsIntervalRow (plain_intervals T.rank (members_at id.0 intervals.now)) →
        from.old ≤ count_ahead (plain_interval T.rank left.now) (plain_intervals T.rank (members_at id.0 intervals.now)) →
        OnErr result (AppendedPart K.stands out.old out.new (fronted_text (front_text shown T.canon (plain_interval T.rank left.now)) T.canon
        (filter (stands_in wanted (plain_interval T.rank left.now)) (plain_intervals T.rank (members_at id.0 intervals.now))))) }
    ensures from { IsIntervalRow (plain_intervals T.rank (members_at id.0 intervals.now)) →
        from.old ≤ count_ahead (plain_interval T.rank left.now) (plain_intervals T.rank (members_at id.0 intervals.now)) →
        OnOk result (from.new ≤ count_ending_first (plain_interval T.rank left.now) (plain_intervals T.rank (members_at id.0 intervals.now))) }
    ensures failed { OnErr result (Rose (K.faults out.old) (K.faults out.new)) }
    ensures quiet { OnOk result (K.faults out.new ≡ K.faults out.old) }
    ensures counted { K.faults out.old ≤ K.faults out.new }
{
    for place in *from..intervals.len(id) {
        let right = intervals.member(id, place);
        let found = relation(left, &right);
        if found == Relation::Before {
            return Ok(());
        }
        if found == wanted {
            write_pair(left, right, shown, out)?;
        }
        if ends_later(found) {
            *from += 1;
        }
    }
    Ok(())
}
