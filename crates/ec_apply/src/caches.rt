ghost use Rattle.std.specs.Prelude.{◌≡◌, ◌+◌, length};
ghost use Rattle.ec_parts.specs.StandFor.{view_of};
ghost use Rattle.ec_apply.specs.Aim.{AreCountsOf, IsAimed, StandForNew};

use crate::mend::mend;
use crate::switch::switch_events;
use ec_axioms::{Seen, Steps};
use ec_delta::{Delta, Planned};
use ec_intervals::growth_is_bounded_law;
use ec_moment::Moment;
use ec_parts::Parts;
use ec_points::changes_are_made;
use ec_rows::{MarkRow, SpanRow, TimeRow};
use std::sync::ledger::Ledger;

/// Makes the change of all caches that a sweep planned, and counts what it changed. It takes no memory and can't fail.
///
/// Each event that goes is one step. Intervals are looked at only of the properties of which some change of marks matters. The
/// lists of the plan are given back in `spent`, for their room alone.
pub fn apply<T: Moment, M: MarkRow<T>, I: SpanRow<T>, X: TimeRow<T>, L: Ledger>(
    parts: &mut Parts<T, M, I, X>,
    delta: Delta<T>,
    spent: &mut Planned<T>,
    steps: &mut Steps<L>,
) -> Seen
    requires aimed { IsAimed T.rank parts.old.checked (view_of parts.old) delta }
    ensures stands { StandForNew T.rank parts.old.checked (view_of parts.old) delta (view_of parts.new) }
    ensures counts { AreCountsOf T.rank parts.old.checked (view_of parts.old) delta result }
    ensures checked { parts.new.checked ≡ parts.old.checked }
    ensures props { parts.new.props ≡ parts.old.props }
    ensures neighbours { parts.new.neighbours ≡ parts.old.neighbours }
    ensures steps { steps.new ≡ steps.old + length delta.change.remove }
{
    changes_are_made::<T>();
    growth_is_bounded_law::<T>();
    let Delta {
        change,
        looked,
        planned,
    } = delta;
    let seen = looked.seen;
    let on = looked.on;
    let off = looked.off;
    // what these say of themselves
    let _ = parts.checked.theory();
    let _ = parts.props.len();
    let _ = planned.marks.len();
    let _ = planned.initiations.len();
    let _ = planned.touched.len();
    switch_events(&mut parts.store, &mut parts.entries, change, looked, steps);
    parts.points.apply(&planned.marks);
    parts.initiations.apply(&planned.initiations);
    let props = mend(
        &mut parts.intervals,
        &parts.points,
        &parts.neighbours,
        &planned.touched,
    );
    *spent = planned;
    Seen {
        seen,
        on,
        off,
        props,
    }
}
