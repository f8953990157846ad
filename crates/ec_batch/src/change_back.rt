//! The way back from a change that is not made: the tables become those of the list of the store again.
ghost use Rattle.std.specs.Prelude.{◌≡◌, ◌+◌, ◌≤◌, ℕ, Some, All, IsTrue, length, option_map};
ghost use Rattle.ec_store.specs.Store.{event_at, history_of};
ghost use Rattle.ec_numbered.specs.PropSet.{has_number};
ghost use Rattle.ec_parts.specs.StandFor.{StandFor, StandForBoth, view_of};
ghost use Rattle.ec_store.specs.Table.{term_at};
ghost use Rattle.ec_revise.specs.Change.{removal_before};
ghost use Rattle.ec_rows.specs.Ordered.{is_ascending};
ghost use Rattle.ec_batch.specs.Limits.{IsWithinLimits};
ghost use Rattle.ec_batch.specs.Undo.{untouched};
ghost use Rattle.ec_batch.specs.UndoChange.{IsLedSomewhere, removals_by_id};
ghost use Rattle.ec_batch.specs.Walk.{AreLiveOrListed};

use crate::idle::forget_idle;
use crate::walk_back::restore_old;
use ec_axioms::Steps;
use ec_moment::Moment;
use ec_parts::{Parts, Tally, release_all};
use ec_revise::{Change, Removal};
use ec_rows::{MarkRow, SpanRow, TimeRow};
use ec_terms::PropId;
use std::sync::ledger::Ledger;

/// Releases what the events mention that are added. The tables are then those of the events that stay. It takes no memory.
fn release_added<T: Moment, M: MarkRow<T>, I: SpanRow<T>, X: TimeRow<T>>(
    parts: &mut Parts<T, M, I, X>,
    tally: &mut Tally,
    change: &Change<T>,
)
    requires { IsLedSomewhere T.rank parts.old.checked (view_of parts.old) tally.old change.now }
    ensures stay { StandForBoth T.rank parts.old.checked (history_of T.rank parts.old.store.events) (untouched (removals_by_id parts.old.store.events change.now.remove) (history_of T.rank parts.old.store.events)) (view_of parts.new) tally.new }
    ensures terms { (id : ℕ) → term_at id parts.new.props ≡ term_at id parts.old.props }
    ensures rest { parts.new ≡ record parts.old { props = parts.new.props } }
{
    let _ = parts.store.len();
    for list in change.entries.as_slice() {
        release_all(parts, tally, list);
    }
}

/// Mentions again what the events mention that are removed. Each is one step. It takes no memory.
fn restore_removed<T: Moment, M: MarkRow<T>, I: SpanRow<T>, X: TimeRow<T>, L: Ledger>(
    parts: &mut Parts<T, M, I, X>,
    tally: &mut Tally,
    removals: &[Removal<T>],
    steps: &mut Steps<L>,
)
    requires stay { StandForBoth T.rank parts.old.checked (history_of T.rank parts.old.store.events) (untouched (removals_by_id parts.old.store.events removals.now) (history_of T.rank parts.old.store.events)) (view_of parts.old) tally.old }
    requires times { All (λ removal. option_map (λ event. event.at) (event_at removal.slot parts.old.store.events) ≡ Some removal.at) removals.now }
    requires order { IsTrue (is_ascending (removal_before T.rank) removals.now) }
    requires within { IsWithinLimits parts.old.checked (history_of T.rank parts.old.store.events) }
    ensures back { StandForBoth T.rank parts.old.checked (history_of T.rank parts.old.store.events) (history_of T.rank parts.old.store.events) (view_of parts.new) tally.new }
    ensures terms { (id : ℕ) → term_at id parts.new.props ≡ term_at id parts.old.props }
    ensures rest { parts.new ≡ record parts.old { props = parts.new.props } }
    ensures steps { steps.new ≤ steps.old + length removals.now }
{
    let _ = parts.store.len();
    for removal in removals {
        restore_old(parts, tally, Some(removal.slot), steps);
    }
}

/// Goes back from a change that is not made: releases the entries of what was to be added, mentions those of what was to be
/// removed again, which is one step each, and forgets which of `fresh` nothing mentions then. It takes no memory.
///
/// The parts stand for the list of the store and, in their tables, for the list that the change leads to. They then stand for
/// the list of the store.
pub fn undo_change<T: Moment, M: MarkRow<T>, I: SpanRow<T>, X: TimeRow<T>, L: Ledger>(
    parts: &mut Parts<T, M, I, X>,
    tally: &mut Tally,
    change: &Change<T>,
    fresh: &[PropId],
    steps: &mut Steps<L>,
)
    requires led { IsLedSomewhere T.rank parts.old.checked (view_of parts.old) tally.old change.now }
    requires within { IsWithinLimits parts.old.checked (history_of T.rank parts.old.store.events) }
    requires fresh { AreLiveOrListed parts.old.checked (history_of T.rank parts.old.store.events) parts.old.props (λ id. has_number id fresh.now) }
    ensures stand { StandFor T.rank parts.old.checked (history_of T.rank parts.old.store.events) (view_of parts.new) tally.new }
    ensures theory { parts.new.checked ≡ parts.old.checked }
    ensures steps { steps.new ≤ steps.old + length change.now.remove }
{
    release_added(parts, tally, change);
    restore_removed(parts, tally, change.remove.as_slice(), steps);
    forget_idle(parts, fresh);
}
