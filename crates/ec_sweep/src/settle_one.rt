//! The settling of one property at an instant.
ghost use Rattle.std.specs.Prelude.{◌≡◌, ◌==◌, ◌<ℤ◌, ◌&&◌, not, ℕ, ℤ, List, Some, false, IsTrue, OnOk, option_map, unwrap_or};
ghost use Rattle.ec_exclusive.specs.Added.{is_added};
ghost use Rattle.ec_exclusive.specs.Forms.{breaks_by_initiation as may_break};
ghost use Rattle.ec_exclusive.specs.Neighbours.{AreNeighbours};
ghost use Rattle.ec_points.specs.Changes.{has_change};
ghost use Rattle.ec_store.specs.Table.{KeptProp, term_at};
ghost use Rattle.ec_rows.specs.Marks.{is_counted};
ghost use Rattle.ec_revise.specs.Tallied.{HasRoomFor};
ghost use Rattle.ec_terms.specs.declared.ground.Ground.{Ground};
ghost use Rattle.ec_terms.specs.declared.theory.Theory.{Theory};
ghost use Rattle.ec_sweep.specs.State.{dirty_at};
ghost use Rattle.ec_sweep.specs.Settling.{AddsDue, BearsAt, IsDueWithin, IsNextMark, LeavesNumber, PlansMark, SettlesNumber, currencies_at, mark_or_zeros, old_mark, starts_of, touch_of};

use crate::dirty::Dirty;
use crate::next_time::next_time;
use crate::places::Places;
use ec_delta::{Planned, Touch};
use ec_exclusive::Neighbours;
use ec_lists::NoMemory;
use ec_moment::Moment;
use ec_numbered::Agenda;
use ec_parts::Parts;
use ec_points::Points;
use ec_revise::{Currencies, Settled, Tallied, settle};
use ec_rows::{Mark, MarkRow, SpanRow, TimeRow};
use ec_terms::PropId;

/// In place of a place to look at first: none.
const ANYWHERE: usize = usize::MAX;

/// What the old list has of a property at a time: its mark there, three zeros if it has none; its currencies there; the time of
/// its next mark; and where its marks were found.
#[derive(Clone, Copy)]
struct Old<T> {
    mark: Mark<T>,
    current: Currencies,
    next: Option<T>,
    place: usize,
}

/// The mark at a time: three zeros, if there is none.
fn mark_or_zeros<T: Moment>(mark: Option<Mark<T>>, at: T) -> Mark<T>
    ensures { result ≡ mark_or_zeros at mark }
{
    match mark {
        Some(mark) => Mark {
            at,
            inits: mark.inits,
            terms: mark.terms,
            clashes: mark.clashes,
        },
        None => Mark {
            at,
            inits: 0,
            terms: 0,
            clashes: 0,
        },
    }
}

/// Whether a property is current in the old list, and whether it is in the new one.
fn currencies(dirty: &Dirty, p: PropId, in_old: bool) -> Currencies
    ensures { result ≡ record { in_old = in_old; in_new = unwrap_or (dirty_at p.0 dirty.now) in_old } }
{
    Currencies {
        in_old,
        in_new: dirty.get(p).unwrap_or(in_old),
    }
}

/// The time of a mark, if there is one.
fn time_of<T: Moment>(mark: Option<Mark<T>>) -> Option<T>
    ensures { result ≡ option_map (λ m. m.at) mark }
{
    match mark {
        Some(mark) => Some(mark.at),
        None => None,
    }
}

/// Reads what the old list has of a property at a time, by one search. `near` is a place among its marks to look at first.
fn read_old<T: Moment, M: MarkRow<T>>(
    points: &Points<T, M>,
    dirty: &Dirty,
    p: PropId,
    at: T,
    near: usize,
) -> Old<T>
    ensures mark { result.mark ≡ old_mark T.rank points.now at p.0 }
    ensures current { result.current ≡ currencies_at T.rank points.now at p.0 (dirty_at p.0 dirty.now) }
    ensures next { IsNextMark T.rank points.now p.0 (T.rank at) result.next }
{
    let here = points.read(p, at, near);
    Old {
        mark: mark_or_zeros(here.mark, at),
        current: currencies(dirty, p, here.is_current),
        next: time_of(here.next),
        place: here.place,
    }
}

/// Whether some count of a mark is not zero.
fn counts<T: Moment>(mark: &Mark<T>) -> bool
    ensures { result ≡ is_counted mark.now }
{
    mark.inits > 0 || mark.terms > 0 || mark.clashes > 0
}

/// The mark with its initiations alone.
fn starts_of<T: Moment>(mark: &Mark<T>) -> Mark<T>
    ensures { result ≡ starts_of mark.now }
{
    Mark {
        at: mark.at,
        inits: mark.inits,
        terms: 0,
        clashes: 0,
    }
}

/// Whether a property has other initiations in its new mark, and they are kept: whether an initiation may break it.
fn starts_anew<T: Moment>(neighbours: &Neighbours, p: PropId, old: &Mark<T>, new: &Mark<T>) -> bool
    requires { IsTrue (is_added p neighbours.now.rows) }
    ensures { (theory : Theory) (table : List KeptProp) (term : Ground) → AreNeighbours theory table neighbours.now → term_at p.0 table ≡ Some term →
        result ≡ (not (old.now.inits == new.now.inits) && may_break theory term) }
{
    old.inits != new.inits && neighbours.breaks_by_initiation(p)
}

/// The change of a mark, as it is noted, where its initiations are planned, or they are not.
fn touch_of<T: Moment>(starts: bool, old: &Mark<T>, settled: &Settled<T>) -> Touch<T>
    ensures { result ≡ touch_of starts old.now settled.now }
{
    let had = counts(old);
    let has = counts(&settled.mark);
    let had_starts = old.inits > 0;
    let has_starts = settled.mark.inits > 0;
    Touch {
        at: settled.mark.at,
        grows: !had && has,
        starts: starts && !had_starts && has_starts,
        matters: settled.matters,
    }
}

/// Plans the new mark of a property, if it is another one than the old, which was looked for at the place `near`. `Err`: memory
/// ran out, or a count is at its end.
fn plan_mark<T: Moment>(
    planned: &mut Planned<T>,
    neighbours: &Neighbours,
    p: PropId,
    old: &Mark<T>,
    settled: &Settled<T>,
    near: usize,
) -> Result<(), NoMemory>
    requires added { IsTrue (is_added p neighbours.now.rows) }
    requires mark_free { has_change T.rank p.0 (T.rank settled.now.mark.at) planned.old.marks ≡ false }
    requires initiation_free { has_change T.rank p.0 (T.rank settled.now.mark.at) planned.old.initiations ≡ false }
    ensures { OnOk result (PlansMark neighbours.now p old.now settled.now planned.old planned.new) }
{
    if !settled.is_changed {
        return Ok(());
    }
    planned.marks.push(p, settled.mark, near)?;
    let starts = starts_anew(neighbours, p, old, &settled.mark);
    if starts {
        planned
            .initiations
            .push(p, starts_of(&settled.mark), ANYWHERE)?;
    }
    planned.touched.note(p, &touch_of(starts, old, settled))
}

/// Makes a property due at the next time at which anything bears on it, where the time of its next mark is known. `near` is a
/// place among its dependents to look at first. `Err`: memory ran out.
fn make_due<T: Moment, M: MarkRow<T>, I: SpanRow<T>, X: TimeRow<T>>(
    parts: &Parts<T, M, I, X>,
    p: PropId,
    at: T,
    next_mark: Option<T>,
    near: usize,
    agenda: &mut Agenda<T>,
) -> Result<(), NoMemory>
    requires { IsNextMark T.rank parts.now.points p.0 (T.rank at) next_mark }
    ensures adds { OnOk result (AddsDue T.rank parts.now.points parts.now.entries.slots (T.rank at) (λ n. p.0 == n) agenda.old agenda.new) }
    ensures due { OnOk result ((u : ℤ) → T.rank at <ℤ u → BearsAt T.rank parts.now.points parts.now.entries.slots p.0 u → IsDueWithin T.rank agenda.new p.0 (T.rank at) u) }
{
    if let Some(next) = next_time(parts, p, at, next_mark, near) {
        agenda.add(next, p)?;
    }
    Ok(())
}

/// Settles a property at an instant, by what is tallied of it. `Err`: memory ran out, and what is noted is of no further use.
pub(crate) fn settle_one<T: Moment, M: MarkRow<T>, I: SpanRow<T>, X: TimeRow<T>>(
    places: &mut Places,
    parts: &Parts<T, M, I, X>,
    p: PropId,
    tallied: &Tallied,
    at: T,
    dirty: &mut Dirty,
    agenda: &mut Agenda<T>,
    planned: &mut Planned<T>,
) -> Result<(), NoMemory>
    requires added { IsTrue (is_added p parts.now.neighbours.rows) }
    requires room { HasRoomFor (old_mark T.rank parts.now.points at p.0) tallied.now }
    requires mark_free { has_change T.rank p.0 (T.rank at) planned.old.marks ≡ false }
    requires initiation_free { has_change T.rank p.0 (T.rank at) planned.old.initiations ≡ false }
    ensures settles { OnOk result (SettlesNumber T.rank parts.now.neighbours parts.now.points parts.now.entries.slots at p tallied.now
        (record { dirty = dirty.old; agenda = agenda.old; planned = planned.old }) (record { dirty = dirty.new; agenda = agenda.new; planned = planned.new })) }
    ensures leaves { OnOk result ((n : ℕ) → (p.0 == n) ≡ false → LeavesNumber n
        (record { dirty = dirty.old; agenda = agenda.old; planned = planned.old }) (record { dirty = dirty.new; agenda = agenda.new; planned = planned.new })) }
    ensures dues { OnOk result (AddsDue T.rank parts.now.points parts.now.entries.slots (T.rank at) (λ n. p.0 == n) agenda.old agenda.new) }
{
    let mut near = places.near(p);
    let old = read_old(&parts.points, dirty, p, at, near.marks);
    near.marks = old.place;
    places.keep(near);
    let settled = settle(&old.mark, tallied, old.current);
    plan_mark(
        planned,
        &parts.neighbours,
        p,
        &old.mark,
        &settled,
        old.place,
    )?;
    dirty.set(p, settled.dirty)?;
    if settled.dirty.is_some() {
        make_due(parts, p, at, old.next, near.dependents, agenda)?;
    }
    Ok(())
}
