//! The look at the entries of one instant.
ghost use Rattle.std.specs.Prelude.{◌≡◌, ◌+◌, ◌≤◌, ◌+ℤ◌, pos, ℤ, Bool, List, IfOk, OnOk};
ghost use Rattle.ec_axioms.specs.Calculus.{PlainEvent, Effect};
ghost use Rattle.ec_numbered.specs.Due.{Due};
ghost use Rattle.ec_store.specs.Store.{history_of};
ghost use Rattle.ec_delta.specs.declared.delta.Planned.{Planned};
ghost use Rattle.ec_parts.specs.declared.tally.Tally.{Tally as PartsTally};
ghost use Rattle.ec_parts.specs.StandFor.{view_of};
ghost use Rattle.ec_sweep.specs.State.{IsProgress};
ghost use Rattle.ec_sweep.specs.Visiting.{CanLook, CanLookAt, HasLooked, most_steps, steps_for};

use crate::dirty::{Dirty, Overlay};
use crate::looking::{AtInstant, look_by_number};
use crate::progress::Progress;
use crate::runs::{between, count_added, count_removals};
use crate::scratch::Scratch;
use ec_axioms::Steps;
use ec_delta::Looked;
use ec_lists::NoMemory;
use ec_moment::Moment;
use ec_parts::Parts;
use ec_revise::{Change, Turn};
use ec_rows::{MarkRow, SpanRow, TimeRow};
use ec_terms::PropId;
use std::sync::ledger::Ledger;

/// Looks at the entries of one instant: evaluates those of the kept events that read a dirty property which is due, and those
/// of the added events, and notes which are active in the new list. It tells what turned. `Err`: memory ran out, and what was
/// noted is of no further use.
pub(crate) fn look<T: Moment, M: MarkRow<T>, I: SpanRow<T>, X: TimeRow<T>, L: Ledger>(
    scratch: &mut Scratch,
    parts: &Parts<T, M, I, X>,
    change: &Change<T>,
    dirty: &Dirty,
    due: &[PropId],
    at: T,
    progress: &mut Progress,
    looked: &mut Looked,
    steps: &mut Steps<L>,
) -> Result<Vec<Turn>, NoMemory>
    requires may_look { CanLookAt T.rank parts.now.checked (view_of parts.now) change.now (T.rank at) dirty.now due.now looked.old progress.old }
    ensures looked { IfOk result (λ turns. (new : List PlainEvent) (tally : PartsTally) (r : ℤ) (agenda : List (Due T)) (planned : Planned T) (active : Effect → Bool) →
        CanLook T.rank parts.now.checked new (view_of parts.now) tally change.now r (T.rank at) dirty.now agenda due.now looked.old planned active progress.old →
        HasLooked T.rank parts.now.checked new (view_of parts.now) change.now (T.rank at) dirty.now agenda planned looked.old looked.new active turns.items) }
    ensures progress { OnOk result ((r : ℤ) → T.rank at ≡ r +ℤ pos 1 → IsProgress T.rank change.now r progress.old → IsProgress T.rank change.now (T.rank at) progress.new) }
    ensures most { (new : List PlainEvent) (tally : PartsTally) (r : ℤ) (agenda : List (Due T)) (planned : Planned T) (active : Effect → Bool) →
        CanLook T.rank parts.now.checked new (view_of parts.now) tally change.now r (T.rank at) dirty.now agenda due.now looked.old planned active progress.old →
        steps.new + steps_for change.now looked.old progress.old ≤ steps.old + most_steps parts.now.checked (history_of T.rank parts.now.store.events) new change.now }
    ensures steps { OnOk result (steps.new + steps_for change.now looked.old progress.old ≤ steps.old + steps_for change.now looked.new progress.new) }
{
    let _ = parts.props.len();
    let _ = parts.store.len();
    let removed = count_removals(change.remove.as_slice(), at);
    let added = count_added(change.add.as_slice(), at);
    let here = AtInstant {
        removals: between(change.remove.as_slice(), progress.removed, removed),
        lists: between(change.entries.as_slice(), progress.added, added),
    };
    let overlay = Overlay {
        points: &parts.points,
        dirty,
    };
    let turns = look_by_number(
        scratch,
        &parts.entries,
        at,
        &here,
        dirty,
        due,
        &overlay,
        looked,
        steps,
    )?;
    *progress = Progress { removed, added };
    Ok(turns)
}
