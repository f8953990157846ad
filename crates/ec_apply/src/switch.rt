//! The events of the store, and what is kept of them, made those of a new list.
ghost use Rattle.std.specs.Prelude.{◌≡◌, ◌+◌, ◌≤◌, ℕ, length};
ghost use Rattle.ec_entries.specs.Dependents.{count_on_all, room_of};
ghost use Rattle.ec_apply.specs.Switched.{HasSwitch, IsSwitchMade};

use crate::events::{put_in, take_out};
use crate::flips::set_flips;
use ec_axioms::Steps;
use ec_delta::Looked;
use ec_entries::Entries;
use ec_moment::Moment;
use ec_revise::Change;
use ec_rows::TimeRow;
use ec_store::EventStore;
use std::sync::ledger::Ledger;

/// Makes the events of the store those of the new list to which a change leads, and what is kept of each what it is there.
/// Each event that goes is one step. It takes no memory.
pub(crate) fn switch_events<T: Moment, X: TimeRow<T>, L: Ledger>(
    store: &mut EventStore<T, X>,
    entries: &mut Entries<T>,
    change: Change<T>,
    looked: Looked,
    steps: &mut Steps<L>,
)
    requires switch { HasSwitch T.rank store.old entries.old change looked }
    requires spare { length change.add ≤ store.old.spare }
    requires places { store.old.places ≤ length entries.old.slots }
    requires dependents { (q : ℕ) → count_on_all q change.entries ≤ room_of q entries.old.rows }
    ensures switched { IsSwitchMade T.rank store.old entries.old change looked store.new entries.new }
    ensures steps { steps.new ≡ steps.old + length change.remove }
{
    let Change {
        remove,
        add,
        entries: lists,
    } = change;
    let Looked { bits, flips, .. } = looked;
    let _ = store.len(); // the events are a history
    set_flips(entries, flips);
    take_out(store, entries, remove, steps);
    put_in(store, entries, add, lists, bits);
    let _ = store.len(); // and so are these
}
