//! The reply that lists the broken begins of a property.
ghost use Rattle.std.specs.Prelude.{◌≡◌, ◌≤◌, ◌-◌, ◌^◌, List, OnOk, OnErr, length, map, min};
ghost use Rattle.ec_terms.specs.Term.{ground_of};
ghost use Rattle.ec_axioms.specs.Calculus.{PlainEvent};
ghost use Rattle.ec_axioms.specs.Marks.{broken_spans_of};
ghost use Rattle.ec_commands.specs.QueryTexts.{broken_reply, broken_text, counted_text};
ghost use Rattle.ec_outside.specs.Counts.{Rose};
ghost use Rattle.ec_outside.specs.Streams.{Appended, AppendedPart};
ghost use Rattle.ec_rows.specs.PlainMarks.{plain_marks};
ghost use Rattle.ec_query.specs.Marked.{AreMarkedOf};
ghost use Rattle.ec_query.specs.Members.{members_text};

use crate::counted::write_count;
use crate::marked::Marked;
use crate::member_text::{MemberText, set_broken};
use ec_intervals::broken_after;
use ec_moment::Moment;
use ec_outside::{Failed, Sink, write_all};
use ec_rows::MarkRow;
use ec_terms::{GroundRef, is_strong};

/// How many broken begins a row of marks spells, as far as the number can tell.
fn count_broken<T: Moment, M: MarkRow<T>>(row: &M, strong: bool, is_initial: bool) -> u64
    ensures { result ≡ min (length (broken_spans_of (plain_marks T.rank (M.marks row.now)) strong is_initial)) (2 ^ 64 - 1) }
{
    let _ = row.len();
    let mut count: u64 = 0;
    let mut after = None;
    while let Some(found) = broken_after(row, strong, is_initial, after) {
        count = count.saturating_add(1);
        after = Some(found.0);
    }
    count
}

/// Writes the broken begins that a row of marks spells, each as a member.
fn write_members<T: Moment, M: MarkRow<T>, K: Sink>(
    row: &M,
    strong: bool,
    is_initial: bool,
    out: &mut K,
) -> Result<(), Failed>
    ensures written { OnOk result (Appended K.stands out.old out.new (members_text (broken_text T.canon) (broken_spans_of (plain_marks T.rank (M.marks row.now)) strong is_initial))) }
    ensures part { OnErr result (AppendedPart K.stands out.old out.new (members_text (broken_text T.canon) (broken_spans_of (plain_marks T.rank (M.marks row.now)) strong is_initial))) }
    ensures failed { OnErr result (Rose (K.faults out.old) (K.faults out.new)) }
    ensures quiet { OnOk result (K.faults out.new ≡ K.faults out.old) }
    ensures counted { K.faults out.old ≤ K.faults out.new }
{
    let _ = row.len();
    let mut text = MemberText::new();
    let mut after = None;
    while let Some(found) = broken_after(row, strong, is_initial, after) {
        set_broken(&mut text, found.0, found.1);
        write_all(out, text.as_bytes())?;
        after = Some(found.0);
    }
    Ok(())
}

/// Writes how many broken begins a row of marks spells, and then each of them.
fn write_broken<T: Moment, M: MarkRow<T>, K: Sink>(
    row: &M,
    strong: bool,
    is_initial: bool,
    out: &mut K,
) -> Result<(), Failed>
    ensures written { length (broken_spans_of (plain_marks T.rank (M.marks row.now)) strong is_initial) ≤ 2 ^ 64 - 1 → OnOk result (Appended K.stands out.old out.new (counted_text (map (broken_text T.canon) (broken_spans_of (plain_marks T.rank (M.marks row.now)) strong is_initial)))) }
    ensures part { length (broken_spans_of (plain_marks T.rank (M.marks row.now)) strong is_initial) ≤ 2 ^ 64 - 1 → OnErr result (AppendedPart K.stands out.old out.new (counted_text (map (broken_text T.canon) (broken_spans_of (plain_marks T.rank (M.marks row.now)) strong is_initial)))) }
    ensures failed { OnErr result (Rose (K.faults out.old) (K.faults out.new)) }
    ensures quiet { OnOk result (K.faults out.new ≡ K.faults out.old) }
    ensures counted { K.faults out.old ≤ K.faults out.new }
{
    write_count(count_broken(row, strong, is_initial), out)?;
    write_members(row, strong, is_initial, out)
}

/// Writes the begins of a property that are broken: how many they are, and each in order with its break. A begin is `-inf`
/// where the property is broken that holds from before all events. `Failed` comes only where a call of the sink failed,
/// and then some first part of the reply was written.
pub fn broken<T: Moment, M: MarkRow<T>, K: Sink>(
    marked: &Marked<'_, T, M>,
    p: &GroundRef<'_>,
    out: &mut K,
) -> Result<(), Failed>
    ensures written { (events : List PlainEvent) → AreMarkedOf T.rank marked.now.theory.now events marked.now.props.now marked.now.points.now → OnOk result (Appended K.stands out.old out.new (broken_reply marked.now.theory.now events T.canon (ground_of p.now))) }
    ensures part { (events : List PlainEvent) → AreMarkedOf T.rank marked.now.theory.now events marked.now.props.now marked.now.points.now → OnErr result (AppendedPart K.stands out.old out.new (broken_reply marked.now.theory.now events T.canon (ground_of p.now))) }
    ensures failed { OnErr result (Rose (K.faults out.old) (K.faults out.new)) }
    ensures quiet { OnOk result (K.faults out.new ≡ K.faults out.old) }
    ensures counted { K.faults out.old ≤ K.faults out.new }
{
    let Some(id) = marked.props.lookup(p) else {
        return write_count(0, out);
    };
    let Some(row) = marked.points.row(id) else {
        return write_count(0, out);
    };
    let strong = is_strong(marked.theory, p);
    write_broken(row, strong, marked.points.initial(id), out)
}
