//! The reply that lists the times of clashes.
ghost use Rattle.std.specs.Prelude.{◌≡◌, ◌≤◌, ◌-◌, ◌^◌, ℤ, List, OnOk, OnErr, length, min};
ghost use Rattle.ec_axioms.specs.Calculus.{PlainEvent};
ghost use Rattle.ec_commands.specs.QueryTexts.{clashes_reply};
ghost use Rattle.ec_outside.specs.Counts.{Rose};
ghost use Rattle.ec_outside.specs.Streams.{Appended, AppendedPart};
ghost use Rattle.ec_query.specs.Marked.{AreClashTimes, AreMarkedOf};
ghost use Rattle.ec_query.specs.Members.{members_text};

use crate::counted::write_count;
use crate::marked::Marked;
use crate::member_text::{MemberText, set_time};
use ec_moment::Moment;
use ec_outside::{Failed, Sink, write_all};
use ec_points::Points;
use ec_rows::MarkRow;

/// How many times have a clash, as far as the number can tell.
fn count_clashes<T: Moment, M: MarkRow<T>>(points: &Points<T, M>) -> u64
    ensures { (times : List ℤ) → AreClashTimes T.rank points.now times → result ≡ min (length times) (2 ^ 64 - 1) }
{
    let mut count: u64 = 0;
    let mut after = None;
    while let Some(at) = points.next_clash(after) {
        count = count.saturating_add(1);
        after = Some(at);
    }
    count
}

/// Writes the times that have a clash, each as a member.
fn write_members<T: Moment, M: MarkRow<T>, K: Sink>(
    points: &Points<T, M>,
    out: &mut K,
) -> Result<(), Failed>
    ensures written { (times : List ℤ) → AreClashTimes T.rank points.now times → OnOk result (Appended K.stands out.old out.new (members_text T.canon times)) }
    ensures part { (times : List ℤ) → AreClashTimes T.rank points.now times → OnErr result (AppendedPart K.stands out.old out.new (members_text T.canon times)) }
    ensures failed { OnErr result (Rose (K.faults out.old) (K.faults out.new)) }
    ensures quiet { OnOk result (K.faults out.new ≡ K.faults out.old) }
    ensures counted { K.faults out.old ≤ K.faults out.new }
{
    let mut text = MemberText::new();
    let mut after = None;
    while let Some(at) = points.next_clash(after) {
        set_time(&mut text, at);
        write_all(out, text.as_bytes())?;
        after = Some(at);
    }
    Ok(())
}

/// Writes the times at which two properties that exclude each other are both initiated: how many they are, and each of
/// them, ascending. `Failed` comes only where a call of the sink failed, and then some first part of the reply was written.
pub fn clashes<T: Moment, M: MarkRow<T>, K: Sink>(
    marked: &Marked<'_, T, M>,
    out: &mut K,
) -> Result<(), Failed>
    ensures written { (events : List PlainEvent) → AreMarkedOf T.rank marked.now.theory.now events marked.now.props.now marked.now.points.now → OnOk result (Appended K.stands out.old out.new (clashes_reply marked.now.theory.now events T.canon)) }
    ensures part { (events : List PlainEvent) → AreMarkedOf T.rank marked.now.theory.now events marked.now.props.now marked.now.points.now → OnErr result (AppendedPart K.stands out.old out.new (clashes_reply marked.now.theory.now events T.canon)) }
    ensures failed { OnErr result (Rose (K.faults out.old) (K.faults out.new)) }
    ensures quiet { OnOk result (K.faults out.new ≡ K.faults out.old) }
    ensures counted { K.faults out.old ≤ K.faults out.new }
{
    let _ = marked.props.len();
    write_count(count_clashes(marked.points), out)?;
    write_members(marked.points, out)
}
