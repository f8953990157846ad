//! The plan of a change of all caches.
ghost use Rattle.std.specs.Prelude.{◌≡◌, ◌+◌, ◌*◌, ◌≤◌, List, IfOk, IfErr, flat_map, length};
ghost use Rattle.ec_axioms.specs.Calculus.{PlainEvent};
ghost use Rattle.ec_axioms.specs.Changes.{change_counts};
ghost use Rattle.ec_store.specs.Store.{history_of};
ghost use Rattle.ec_parts.specs.declared.tally.Tally.{Tally as PartsTally};
ghost use Rattle.ec_parts.specs.StandFor.{StandForBoth, view_of};
ghost use Rattle.ec_delta.specs.Ready.{IsReady};
ghost use Rattle.ec_sweep.specs.State.{IsUnderway};
ghost use Rattle.ec_sweep.specs.Planning.{LeadsSomewhere};

use crate::lists::Lists;
use crate::rooms::make_room;
use crate::sweep::{Sweep, sweep_over};
use ec_axioms::Steps;
use ec_delta::Delta;
use ec_lists::NoMemory;
use ec_moment::Moment;
use ec_parts::Parts;
use ec_revise::Change;
use ec_rows::{MarkRow, SpanRow, TimeRow};
use std::sync::ledger::Ledger;

/// Plans the change of all caches from the list of the store to the new list that a change leads to, and takes all the room
/// that making it needs. The tables are those of the new list already. Nothing changes in the parts but their room.
///
/// It goes from instant to instant, from the first event that stands in one list alone on, and visits only those at which
/// something may differ; there it evaluates the entries that read a property whose currency differs, and no others. `Err`:
/// memory ran out; the change is given back, with the want of memory.
pub fn plan<T: Moment, M: MarkRow<T>, I: SpanRow<T>, X: TimeRow<T>, L: Ledger>(
    lists: &mut Lists<T>,
    parts: &mut Parts<T, M, I, X>,
    change: Change<T>,
    steps: &mut Steps<L>,
) -> Result<Delta<T>, (Change<T>, NoMemory)>
    requires { LeadsSomewhere T.rank parts.old.checked (view_of parts.old) change }
    ensures ready { IfOk result (λ delta. (new : List PlainEvent) (tally : PartsTally) → IsUnderway T.rank parts.old.checked new (view_of parts.old) tally change →
        IsReady T.rank parts.old.checked new (view_of parts.new) delta) }
    ensures change { IfOk result (λ delta. delta.change ≡ change) }
    ensures back { IfErr result (λ back. back.0 ≡ change) }
    ensures stands { (now soon : List PlainEvent) (tally : PartsTally) → StandForBoth T.rank parts.old.checked now soon (view_of parts.old) tally →
        StandForBoth T.rank parts.new.checked now soon (view_of parts.new) tally }
    ensures checked { parts.new.checked ≡ parts.old.checked }
    ensures events { parts.new.store.events ≡ parts.old.store.events }
    ensures table { parts.new.props ≡ parts.old.props }
    ensures neighbours { parts.new.neighbours ≡ parts.old.neighbours }
    ensures steps { (new : List PlainEvent) (tally : PartsTally) → IsUnderway T.rank parts.old.checked new (view_of parts.old) tally change →
        steps.new ≤ steps.old + 2 * (change_counts parts.old.checked (history_of T.rank parts.old.store.events) new).seen
        + length (flat_map (λ entries. entries) change.entries) + length change.remove }
{
    let _ = (parts.props.len(), parts.store.len());
    let sweep = match sweep_over(lists, parts, &change, steps) {
        Ok(sweep) => sweep,
        Err(none) => return Err((change, none)),
    };
    let Sweep {
        dirty,
        agenda,
        looked,
        planned,
        ..
    } = sweep;
    lists.dirty = dirty;
    lists.agenda = agenda;
    if let Err(none) = make_room(parts, &change, &planned) {
        return Err((change, none));
    }
    Ok(Delta {
        change,
        looked,
        planned,
    })
}
