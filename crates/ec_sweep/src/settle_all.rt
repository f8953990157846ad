//! The settling of properties at one instant.
ghost use Rattle.std.specs.Prelude.{ℤ, Bool, List, OnOk};
ghost use Rattle.ec_axioms.specs.Calculus.{PlainEvent, Effect};
ghost use Rattle.ec_numbered.specs.Due.{Due};
ghost use Rattle.ec_delta.specs.declared.delta.Looked.{Looked};
ghost use Rattle.ec_parts.specs.declared.tally.Tally.{Tally as PartsTally};
ghost use Rattle.ec_revise.specs.declared.change.Change.{Change};
ghost use Rattle.ec_revise.specs.Visit.{PlainTurn};
ghost use Rattle.ec_parts.specs.StandFor.{view_of};
ghost use Rattle.ec_sweep.specs.Visiting.{CanSettle, CanSettleAt, HasSettled, settled_by};

use crate::dirty::Dirty;
use crate::scratch::Scratch;
use crate::settle_rows::{settle_rows, tally_of};
use ec_delta::Planned;
use ec_lists::NoMemory;
use ec_moment::Moment;
use ec_numbered::Agenda;
use ec_parts::Parts;
use ec_revise::Turn;
use ec_rows::{MarkRow, SpanRow, TimeRow};
use ec_terms::PropId;

/// Settles the properties that are due at an instant, and those for which something that turned there counts: plans the new
/// mark of each, and keeps whether it is dirty behind the instant and when it is due again. `Err`: memory ran out, and what was
/// planned is of no further use.
pub(crate) fn settle_all<T: Moment, M: MarkRow<T>, I: SpanRow<T>, X: TimeRow<T>>(
    scratch: &mut Scratch,
    parts: &Parts<T, M, I, X>,
    turns: &[Turn],
    due: &[PropId],
    at: T,
    dirty: &mut Dirty,
    agenda: &mut Agenda<T>,
    planned: &mut Planned<T>,
) -> Result<(), NoMemory>
    requires may_settle { CanSettleAt T.rank parts.now.checked (view_of parts.now) (T.rank at) dirty.old agenda.old due.now turns.now planned.old }
    ensures { OnOk result ((new : List PlainEvent) (tally : PartsTally) (change : Change T) (r : ℤ) (before : List (Due T)) (plains : List PlainTurn) (looked : Looked) (active : Effect → Bool) →
        CanSettle T.rank parts.now.checked new (view_of parts.now) tally change r (T.rank at) dirty.old before agenda.old due.now turns.now plains looked planned.old active →
        HasSettled T.rank parts.now.checked new (view_of parts.now) (T.rank at) plains (settled_by (view_of parts.now).table (view_of parts.now).neighbours.rows due.now turns.now)
        before agenda.new dirty.old dirty.new planned.old planned.new) }
{
    let _ = parts.props.len();
    let _ = parts.store.len();
    let tally = tally_of(scratch, &parts.neighbours, turns, due)?;
    let settled = settle_rows(
        &mut scratch.places,
        parts,
        &tally,
        at,
        dirty,
        agenda,
        planned,
    );
    scratch.tally = tally;
    settled
}
