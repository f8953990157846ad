//! The notes of an accepted update: for each watched property whose intervals differ, those that were lost and those that
//! were gained.
ghost use Rattle.std.specs.Prelude.{◌≡◌, ◌≤◌, ◌<◌, ◌++◌, List, OnOk, OnErr, IsTrue, codes, decimal};
ghost use Rattle.ec_axioms.specs.Calculus.{PlainEvent};
ghost use Rattle.ec_axioms.specs.Changes.{is_history};
ghost use Rattle.ec_commands.specs.declared.limits.TheConstants.{SESSIONS};
ghost use Rattle.ec_intervals.specs.Steps.{IsIntervalRow};
ghost use Rattle.ec_intervals.specs.Table.{plain_intervals};
ghost use Rattle.ec_outside.specs.Counts.{Rose};
ghost use Rattle.ec_outside.specs.Streams.{Appended, AppendedPart};
ghost use Rattle.ec_query.specs.Held.{AreHeldOf};
ghost use Rattle.ec_compare.specs.Lists.{changes_text, missing_behind};
ghost use Rattle.ec_compare.specs.TailNotes.{IsTailOfRow, note_at};
ghost use Rattle.ec_replies.specs.Notes.{note_between, notes_text, session_notes};
ghost use Rattle.ec_terms.specs.Term.{ground_of, names_are_names, term_text};
ghost use Rattle.ec_terms.specs.declared.theory.Theory.{Theory};
ghost use Rattle.ec_watch.specs.Tails.{AreTails, IsTailOf};
ghost use Rattle.ec_watch.specs.Watched.{watched_by, watched_by_each};

use crate::listed::{Copies, Listed, Present};
use crate::missing::{are_different, write_counted_missing};
use ec_commands::SESSIONS;
use ec_moment::Moment;
use ec_outside::{Failed, Sink, Text, write_all};
use ec_query::Held;
use ec_rows::SpanRow;
use ec_terms::{GroundRef, LONGEST_TERM, text};
use ec_watch::{Row, Tail, Tails, Watches};

/// The most bytes that a note has in front of what was lost.
const LONGEST_HEAD: usize = LONGEST_TERM + 26;

/// Writes how a note begins: which session and which property it is for.
fn write_head<K: Sink>(session: u8, p: &GroundRef<'_>, out: &mut K) -> Result<(), Failed>
    requires named { IsTrue (names_are_names (ground_of p.now)) }
    ensures written { OnOk result (Appended K.stands out.old out.new (((codes "note " ++ decimal session) ++ codes " ") ++ term_text (ground_of p.now))) }
    ensures part { OnErr result (AppendedPart K.stands out.old out.new (((codes "note " ++ decimal session) ++ codes " ") ++ term_text (ground_of p.now))) }
    ensures failed { OnErr result (Rose (K.faults out.old) (K.faults out.new)) }
    ensures quiet { OnOk result (K.faults out.new ≡ K.faults out.old) }
    ensures counted { K.faults out.old ≤ K.faults out.new }
{
    let mut head: Text<LONGEST_HEAD> = Text::new();
    head.push(b"note ");
    head.push_number(session as u64);
    head.push(b" ");
    head.push(text(p).as_bytes());
    write_all(out, head.as_bytes())
}

/// Writes the note of a session on a property: what of its intervals before is missing after, and the other way round. The
/// first `skipped` intervals after are not looked at.
fn write_changes<T: Moment, A: Listed<T>, B: Listed<T>, K: Sink>(
    session: u8,
    p: &GroundRef<'_>,
    before: &A,
    after: &B,
    skipped: usize,
    out: &mut K,
) -> Result<(), Failed>
    requires named { IsTrue (names_are_names (ground_of p.now)) }
    ensures written { IsIntervalRow (plain_intervals T.rank (A.members before.now)) → IsIntervalRow (plain_intervals T.rank (B.members after.now)) →
        OnOk result (Appended K.stands out.old out.new (changes_text T.canon session (ground_of p.now)
        (missing_behind 0 (plain_intervals T.rank (B.members after.now)) (plain_intervals T.rank (A.members before.now)))
        (missing_behind skipped (plain_intervals T.rank (A.members before.now)) (plain_intervals T.rank (B.members after.now))))) }
    ensures part { IsIntervalRow (plain_intervals T.rank (A.members before.now)) → IsIntervalRow (plain_intervals T.rank (B.members after.now)) →
        OnErr result (AppendedPart K.stands out.old out.new (changes_text T.canon session (ground_of p.now)
        (missing_behind 0 (plain_intervals T.rank (B.members after.now)) (plain_intervals T.rank (A.members before.now)))
        (missing_behind skipped (plain_intervals T.rank (A.members before.now)) (plain_intervals T.rank (B.members after.now))))) }
    ensures failed { OnErr result (Rose (K.faults out.old) (K.faults out.new)) }
    ensures quiet { OnOk result (K.faults out.new ≡ K.faults out.old) }
    ensures counted { K.faults out.old ≤ K.faults out.new }
{
    write_head(session, p, out)?;
    write_counted_missing(b" lost ", before, 0, after, out)?;
    write_counted_missing(b" gained ", after, skipped, before, out)?;
    write_all(out, b"\n")
}

/// Writes the note of a session on a property, if its intervals differ from those that its tail was taken of.
fn write_note<T: Moment, I: SpanRow<T>, K: Sink>(
    session: u8,
    p: &GroundRef<'_>,
    tail: &Tail<T>,
    held: &Held<'_, T, I>,
    out: &mut K,
) -> Result<(), Failed>
    requires named { IsTrue (names_are_names (ground_of p.now)) }
    ensures written { (theory : Theory) (old new : List PlainEvent) → IsTrue (is_history old) →
        AreHeldOf T.rank theory new held.now.props.now held.now.intervals.now → IsTailOf T.rank theory old new (ground_of p.now) tail.now →
        OnOk result (Appended K.stands out.old out.new (note_between theory T.canon session (ground_of p.now) old new)) }
    ensures part { (theory : Theory) (old new : List PlainEvent) → IsTrue (is_history old) →
        AreHeldOf T.rank theory new held.now.props.now held.now.intervals.now → IsTailOf T.rank theory old new (ground_of p.now) tail.now →
        OnErr result (AppendedPart K.stands out.old out.new (note_between theory T.canon session (ground_of p.now) old new)) }
    ensures failed { OnErr result (Rose (K.faults out.old) (K.faults out.new)) }
    ensures quiet { OnOk result (K.faults out.new ≡ K.faults out.old) }
    ensures counted { K.faults out.old ≤ K.faults out.new }
{
    let before = Copies {
        intervals: tail.intervals.as_slice(),
    };
    let after = Present {
        intervals: held.intervals,
        id: held.props.lookup(p),
    };
    if are_different(&before, &after, tail.skipped) {
        write_changes(session, p, &before, &after, tail.skipped, out)
    } else {
        Ok(())
    }
}

/// Writes the note of a session on the property of a tail, if the session watches it and its intervals differ.
fn write_tail_note<T: Moment, I: SpanRow<T>, K: Sink>(
    session: u8,
    rows: &[Row],
    tail: &Tail<T>,
    held: &Held<'_, T, I>,
    out: &mut K,
) -> Result<(), Failed>
    requires session { session < SESSIONS }
    ensures written { (theory : Theory) (old new : List PlainEvent) → IsTrue (is_history old) →
        AreHeldOf T.rank theory new held.now.props.now held.now.intervals.now → IsTailOfRow T.rank theory old new rows.now tail.now →
        OnOk result (Appended K.stands out.old out.new (note_at theory T.canon session old new rows.now tail.now.place)) }
    ensures part { (theory : Theory) (old new : List PlainEvent) → IsTrue (is_history old) →
        AreHeldOf T.rank theory new held.now.props.now held.now.intervals.now → IsTailOfRow T.rank theory old new rows.now tail.now →
        OnErr result (AppendedPart K.stands out.old out.new (note_at theory T.canon session old new rows.now tail.now.place)) }
    ensures failed { OnErr result (Rose (K.faults out.old) (K.faults out.new)) }
    ensures quiet { OnOk result (K.faults out.new ≡ K.faults out.old) }
    ensures counted { K.faults out.old ≤ K.faults out.new }
{
    let Some(row) = rows.get(tail.place) else {
        return Ok(());
    };
    if row.is_watched_by(session) {
        write_note(session, &row.prop(), tail, held, out)
    } else {
        Ok(())
    }
}

/// Writes the notes of a session: those on the properties that it watches, in term order.
fn write_session_notes<T: Moment, I: SpanRow<T>, K: Sink>(
    session: u8,
    rows: &[Row],
    tails: &[Tail<T>],
    held: &Held<'_, T, I>,
    out: &mut K,
) -> Result<(), Failed>
    requires session { session < SESSIONS }
    ensures written { (theory : Theory) (old new : List PlainEvent) → IsTrue (is_history old) →
        AreHeldOf T.rank theory new held.now.props.now held.now.intervals.now → AreTails T.rank theory old new rows.now tails.now →
        OnOk result (Appended K.stands out.old out.new (session_notes theory T.canon session (watched_by session rows.now) old new)) }
    ensures part { (theory : Theory) (old new : List PlainEvent) → IsTrue (is_history old) →
        AreHeldOf T.rank theory new held.now.props.now held.now.intervals.now → AreTails T.rank theory old new rows.now tails.now →
        OnErr result (AppendedPart K.stands out.old out.new (session_notes theory T.canon session (watched_by session rows.now) old new)) }
    ensures failed { OnErr result (Rose (K.faults out.old) (K.faults out.new)) }
    ensures quiet { OnOk result (K.faults out.new ≡ K.faults out.old) }
    ensures counted { K.faults out.old ≤ K.faults out.new }
{
    for i in 0..tails.len() {
        write_tail_note(session, rows, &tails[i], held, out)?;
    }
    Ok(())
}

/// Writes the notes of an accepted update: for each session in order, for each property that it watches in term order, if
/// its intervals differ, one line with those that were lost and those that were gained. `tails` is what was kept of the
/// list before the update, and `held` is read after it. `Failed` comes only where a call of the sink failed, and then some
/// first part of the notes was written.
pub fn write_notes<T: Moment, I: SpanRow<T>, K: Sink>(
    watches: &Watches,
    tails: &Tails<T>,
    held: &Held<'_, T, I>,
    out: &mut K,
) -> Result<(), Failed>
    ensures written { (theory : Theory) (old new : List PlainEvent) → IsTrue (is_history old) →
        AreHeldOf T.rank theory new held.now.props.now held.now.intervals.now → AreTails T.rank theory old new watches.now tails.now →
        OnOk result (Appended K.stands out.old out.new (notes_text theory T.canon (watched_by_each watches.now) old new)) }
    ensures part { (theory : Theory) (old new : List PlainEvent) → IsTrue (is_history old) →
        AreHeldOf T.rank theory new held.now.props.now held.now.intervals.now → AreTails T.rank theory old new watches.now tails.now →
        OnErr result (AppendedPart K.stands out.old out.new (notes_text theory T.canon (watched_by_each watches.now) old new)) }
    ensures failed { OnErr result (Rose (K.faults out.old) (K.faults out.new)) }
    ensures quiet { OnOk result (K.faults out.new ≡ K.faults out.old) }
    ensures counted { K.faults out.old ≤ K.faults out.new }
{
    for session in 0..SESSIONS {
        write_session_notes(session, watches.rows(), tails.as_slice(), held, out)?;
    }
    Ok(())
}
