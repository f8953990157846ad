//! The intervals of a list that are missing from another: counted, and written.
ghost use Rattle.std.specs.Prelude.{◌≡◌, ◌≤◌, ◌<◌, ◌+◌, true, false, ◌∷◌, [], ◌++◌, OnOk, OnErr, length, map};
ghost use Rattle.ec_commands.specs.QueryTexts.{counted_text, interval_text};
ghost use Rattle.ec_compare.specs.Lists.{missing_behind};
ghost use Rattle.ec_intervals.specs.Steps.{IsIntervalRow};
ghost use Rattle.ec_intervals.specs.Table.{plain_interval, plain_intervals};
ghost use Rattle.ec_outside.specs.Counts.{Rose};
ghost use Rattle.ec_outside.specs.Streams.{Appended, AppendedPart};
ghost use Rattle.ec_query.specs.Members.{members_text};
ghost use Rattle.ec_replies.specs.Notes.{missing_from};

use crate::listed::Listed;
use ec_intervals::Interval;
use ec_moment::Moment;
use ec_outside::{Failed, Sink, write_all};
use ec_query::{MemberText, set_interval, write_count};

/// How many of one interval are missing from a list: one or none.
fn count_one<T: Moment, B: Listed<T>>(interval: &Interval<T>, those: &B) -> u64
    ensures count { IsIntervalRow (plain_intervals T.rank (B.members those.now)) →
        result ≡ length (missing_from (plain_intervals T.rank (B.members those.now)) (plain_interval T.rank interval.now ∷ [])) }
    ensures few { result ≤ 1 }
{
    if those.contains(interval) { 0 } else { 1 }
}

/// How many intervals of a list from a place on are missing from another.
pub(crate) fn count_missing<T: Moment, A: Listed<T>, B: Listed<T>>(
    these: &A,
    from: usize,
    those: &B,
) -> u64
    ensures { IsIntervalRow (plain_intervals T.rank (B.members those.now)) →
        result ≡ length (missing_behind from (plain_intervals T.rank (B.members those.now)) (plain_intervals T.rank (A.members these.now))) }
{
    let mut count = 0;
    for place in from..these.len() {
        count += count_one(&these.get(place), those);
    }
    count
}

/// Whether an interval of one list is missing from another, or one of that from a place on from the first.
pub(crate) fn are_different<T: Moment, A: Listed<T>, B: Listed<T>>(
    before: &A,
    after: &B,
    skipped: usize,
) -> bool
    ensures same { IsIntervalRow (plain_intervals T.rank (A.members before.now)) → IsIntervalRow (plain_intervals T.rank (B.members after.now)) → result ≡ false →
        (length (missing_behind 0 (plain_intervals T.rank (B.members after.now)) (plain_intervals T.rank (A.members before.now))) ≡ 0)
        × (length (missing_behind skipped (plain_intervals T.rank (A.members before.now)) (plain_intervals T.rank (B.members after.now))) ≡ 0) }
    ensures differ { IsIntervalRow (plain_intervals T.rank (A.members before.now)) → IsIntervalRow (plain_intervals T.rank (B.members after.now)) → result ≡ true →
        0 < length (missing_behind 0 (plain_intervals T.rank (B.members after.now)) (plain_intervals T.rank (A.members before.now)))
        + length (missing_behind skipped (plain_intervals T.rank (A.members before.now)) (plain_intervals T.rank (B.members after.now))) }
{
    let lost = count_missing(before, 0, after);
    if lost > 0 {
        return true;
    }
    let gained = count_missing(after, skipped, before);
    gained > 0
}

/// Writes an interval as a member, if it is missing from a list. The text is for use.
fn write_one<T: Moment, B: Listed<T>, K: Sink>(
    interval: Interval<T>,
    those: &B,
    text: &mut MemberText,
    out: &mut K,
) -> Result<(), Failed>
    ensures written { IsIntervalRow (plain_intervals T.rank (B.members those.now)) →
        OnOk result (Appended K.stands out.old out.new (members_text (interval_text T.canon) (missing_from (plain_intervals T.rank (B.members those.now)) (plain_interval T.rank interval ∷ [])))) }
    ensures part { IsIntervalRow (plain_intervals T.rank (B.members those.now)) →
        OnErr result (AppendedPart K.stands out.old out.new (members_text (interval_text T.canon)
        (missing_from (plain_intervals T.rank (B.members those.now)) (plain_interval T.rank interval ∷ [])))) }
    ensures failed { OnErr result (Rose (K.faults out.old) (K.faults out.new)) }
    ensures quiet { OnOk result (K.faults out.new ≡ K.faults out.old) }
    ensures counted { K.faults out.old ≤ K.faults out.new }
{
    if those.contains(&interval) {
        return Ok(());
    }
    set_interval(text, interval);
    write_all(out, text.as_bytes())
}

/// Writes the intervals of a list from a place on that are missing from another, each as a member.
fn write_missing<T: Moment, A: Listed<T>, B: Listed<T>, K: Sink>(
    these: &A,
    from: usize,
    those: &B,
    out: &mut K,
) -> Result<(), Failed>
    ensures written { IsIntervalRow (plain_intervals T.rank (B.members those.now)) →
        OnOk result (Appended K.stands out.old out.new (members_text (interval_text T.canon)
        (missing_behind from (plain_intervals T.rank (B.members those.now)) (plain_intervals T.rank (A.members these.now))))) }
    ensures part { IsIntervalRow (plain_intervals T.rank (B.members those.now)) →
        OnErr result (AppendedPart K.stands out.old out.new (members_text (interval_text T.canon)
        (missing_behind from (plain_intervals T.rank (B.members those.now)) (plain_intervals T.rank (A.members these.now))))) }
    ensures failed { OnErr result (Rose (K.faults out.old) (K.faults out.new)) }
    ensures quiet { OnOk result (K.faults out.new ≡ K.faults out.old) }
    ensures counted { K.faults out.old ≤ K.faults out.new }
{
    let mut text = MemberText::new();
    for place in from..these.len() {
        write_one(these.get(place), those, &mut text, out)?;
    }
    Ok(())
}

/// Writes a word, how many intervals of a list from a place on are missing from another, and each of them.
pub(crate) fn write_counted_missing<T: Moment, A: Listed<T>, B: Listed<T>, K: Sink>(
    word: &[u8],
    these: &A,
    from: usize,
    those: &B,
    out: &mut K,
) -> Result<(), Failed>
    ensures written { IsIntervalRow (plain_intervals T.rank (B.members those.now)) →
        OnOk result (Appended K.stands out.old out.new (word.now ++ counted_text (map (interval_text T.canon)
        (missing_behind from (plain_intervals T.rank (B.members those.now)) (plain_intervals T.rank (A.members these.now)))))) }
    ensures part { IsIntervalRow (plain_intervals T.rank (B.members those.now)) →
        OnErr result (AppendedPart K.stands out.old out.new (word.now ++ counted_text (map (interval_text T.canon)
        (missing_behind from (plain_intervals T.rank (B.members those.now)) (plain_intervals T.rank (A.members these.now)))))) }
    ensures failed { OnErr result (Rose (K.faults out.old) (K.faults out.new)) }
    ensures quiet { OnOk result (K.faults out.new ≡ K.faults out.old) }
    ensures counted { K.faults out.old ≤ K.faults out.new }
{
    write_all(out, word)?;
    write_count(count_missing(these, from, those), out)?;
    write_missing(these, from, those, out)
}
