//! The first break of a property behind a begin.
ghost use Rattle.std.specs.Prelude.{◌≡◌, List, drop, filter, find, option_map};
ghost use Rattle.ec_terms.specs.declared.ground.Ground.{Ground};
ghost use Rattle.ec_axioms.specs.Calculus.{PlainEvent, timeline_of};
ghost use Rattle.ec_axioms.specs.Marks.{mark_at, mark_breaks};
ghost use Rattle.ec_axioms.specs.Timeline.{is_after, next_break as break_behind};
ghost use Rattle.ec_intervals.specs.Table.{plain_begin};
ghost use Rattle.ec_parts.specs.StandFor.{view_of};
ghost use Rattle.ec_rows.specs.PlainMarks.{plain_mark, plain_marks};
ghost use Rattle.ec_query.specs.Standing.{AreOn, AreOnSome};

use ec_intervals::Begin;
use ec_moment::Moment;
use ec_parts::Parts;
use ec_rows::{Mark, MarkRow, SpanRow, TimeRow};
use ec_terms::PropId;

/// Whether a mark breaks: it terminates or clashes, or it initiates a strong property.
pub(crate) fn breaks<T: Moment>(mark: Mark<T>, strong: bool) -> bool
    ensures { result ≡ mark_breaks strong (plain_mark T.rank mark) }
{
    mark.terms > 0 || mark.clashes > 0 || (strong && mark.inits > 0)
}

/// The first of some marks that breaks.
fn break_in<T: Moment>(run: &[Mark<T>], strong: bool) -> Option<Mark<T>>
    ensures { option_map (plain_mark T.rank) result ≡ find (mark_breaks strong) (plain_marks T.rank run.now) }
{
    for mark in run {
        if breaks(*mark, strong) {
            return Some(*mark);
        }
    }
    None
}

/// The first mark of a row that breaks, from a place on.
fn break_from<T: Moment, M: MarkRow<T>>(row: &M, first: usize, strong: bool) -> Option<Mark<T>>
    ensures { option_map (plain_mark T.rank) result ≡ find (mark_breaks strong) (drop first (plain_marks T.rank (M.marks row.now))) }
{
    let mut i = first;
    while i < row.len() {
        let run = row.run(i);
        let found = break_in(run, strong);
        if found.is_some() {
            return found;
        }
        i += run.len();
    }
    None
}

/// The first mark of a row behind a begin that breaks.
fn break_after<T: Moment, M: MarkRow<T>>(row: &M, begin: Begin<T>, strong: bool) -> Option<Mark<T>>
    ensures { option_map (plain_mark T.rank) result ≡ find (mark_breaks strong) (filter (λ mark. is_after (plain_begin T.rank begin) mark.instant) (plain_marks T.rank (M.marks row.now))) }
{
    match begin {
        Begin::Initial => break_from(row, 0, strong),
        Begin::At(at) => break_from(row, row.next_after(at)?, strong),
    }
}

/// The mark at the first break of a property behind a begin, if there is one. It reads the marks from the begin on, up to
/// the break.
pub(crate) fn next_break<T: Moment, M: MarkRow<T>, I: SpanRow<T>, X: TimeRow<T>>(
    parts: &Parts<T, M, I, X>,
    id: PropId,
    begin: Begin<T>,
) -> Option<Mark<T>>
    requires { AreOnSome T.rank parts.now.checked (view_of parts.now) id.0 }
    ensures { (events : List PlainEvent) (p : Ground) → AreOn T.rank parts.now.checked events (view_of parts.now) id.0 p → option_map (plain_mark T.rank) result ≡ option_map (mark_at parts.now.checked events p) (break_behind (timeline_of parts.now.checked events p) (plain_begin T.rank begin)) }
{
    let strong = parts.neighbours.is_strong(id);
    let row = parts.points.row(id)?;
    break_after(row, begin, strong)
}
