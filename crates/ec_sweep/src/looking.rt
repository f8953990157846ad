//! The look at an instant by slots and the numbers of properties.
ghost use Rattle.std.specs.Prelude.{◌≡◌, ◌+◌, ◌*◌, flat_map, length, IsSome, IfOk, OnOk};
ghost use Rattle.std.specs.List.{All};
ghost use Rattle.ec_numbered.specs.ByNumber.{kept_at};
ghost use Rattle.ec_sweep.specs.LookedBy.{HasLookedBy, TakesSteps};

use crate::dirty::Dirty;
use crate::hits::hits_at;
use crate::look_hits::look_at_hits;
use crate::scratch::Scratch;
use crate::turned::{turn_down_removed, turn_up_added};
use ec_axioms::{Current, Steps};
use ec_context::EntryList;
use ec_delta::Looked;
use ec_entries::Entries;
use ec_lists::NoMemory;
use ec_moment::Moment;
use ec_revise::{Removal, Turn};
use ec_terms::PropId;
use std::sync::ledger::Ledger;

/// The events that a change takes out at an instant, and the entries of those that it puts in there.
#[derive(Drop)]
pub(crate) struct AtInstant<'a, T> {
    pub removals: &'a [Removal<T>],
    pub lists: &'a [EntryList],
}

/// Looks at the entries of one instant: at those that read a property which is dirty and due, and those of added and removed
/// events. It tells what turned. `Err`: memory ran out.
pub(crate) fn look_by_number<T: Moment, C: Current<T>, L: Ledger>(
    scratch: &mut Scratch,
    entries: &Entries<T>,
    at: T,
    here: &AtInstant<T>,
    dirty: &Dirty,
    due: &[PropId],
    current: &C,
    looked: &mut Looked,
    steps: &mut Steps<L>,
) -> Result<Vec<Turn>, NoMemory>
    requires { All (λ removal. IsSome (kept_at removal.slot.0 entries.now.slots)) here.now.removals.now }
    ensures looked { IfOk result (λ turns. HasLookedBy T.rank (C.is_current current.now) entries.now.slots (T.rank at) dirty.now due.now here.now.removals.now here.now.lists.now looked.old looked.new turns.items) }
    ensures steps { OnOk result (steps.new + 2 * looked.old.seen ≡ steps.old + 2 * looked.new.seen + length here.now.removals.now + length (flat_map (λ list. list) here.now.lists.now)) }
    ensures most { TakesSteps T.rank entries.now.slots (T.rank at) dirty.now due.now here.now.removals.now here.now.lists.now steps.old steps.new }
{
    let hits = hits_at(scratch, entries, dirty, due, at, here.removals)?;
    let mut turns = look_at_hits(scratch, entries, &hits, at, current, looked, steps)?;
    scratch.hits = hits;
    turn_down_removed(entries, here.removals, &mut turns, steps)?;
    turn_up_added(here.lists, at, current, &mut looked.bits, &mut turns, steps)?;
    Ok(turns)
}
