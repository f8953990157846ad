//! A batch of updates is tried: a walk to the list that it leaves, or nothing at all.
ghost use Rattle.std.specs.Prelude.{◌≡◌, ◌+◌, ◌*◌, ◌≤◌, ◌<◌, ◌^◌, [], ◌∷◌, IfOk, OnOk, length, map};
ghost use Rattle.indexmap.specs.IndexMap.{index_map_len};
ghost use Rattle.ec_axioms.specs.Events.{plain_update};
ghost use Rattle.ec_store.specs.Store.{history_of};
ghost use Rattle.ec_parts.specs.StandFor.{StandFor, view_of};
ghost use Rattle.ec_batch.specs.Attempt.{IsAttempted};
ghost use Rattle.ec_batch.specs.Limits.{IsWithinLimits};
ghost use Rattle.ec_batch.specs.Walk.{HasWalkedTo};

use crate::refusal::Refusal;
use crate::through::{walk_one, walk_through};
use crate::walk::Walk;
use crate::walk_back::undo;
use ec_axioms::{Steps, Update};
use ec_moment::Moment;
use ec_parts::{Parts, Tally};
use ec_rows::{MarkRow, SpanRow, TimeRow};
use indexmap::IndexMap;
use std::alloc::Global;
use std::sync::ledger::Ledger;

/// A walk that has not gone anywhere. It takes no memory.
pub fn start<T: Moment, M: MarkRow<T>, I: SpanRow<T>, X: TimeRow<T>>(
    alloc: Global,
    parts: &Parts<T, M, I, X>,
    tally: &Tally,
) -> Walk<T>
    requires stand { StandFor T.rank parts.now.checked (history_of T.rank parts.now.store.events) (view_of parts.now) tally.now }
    requires within { IsWithinLimits parts.now.checked (history_of T.rank parts.now.store.events) }
    ensures walked { HasWalkedTo T.rank parts.now.checked parts.now.store.events (history_of T.rank parts.now.store.events) (view_of parts.now) tally.now result }
    ensures len { index_map_len result.nets ≡ 0 }
{
    let _ = tally;
    Walk {
        nets: IndexMap::new(alloc),
        fresh: Vec::new(alloc),
        dying: Vec::new(alloc),
        events: parts.store.len() as u64,
    }
}

/// Walks through a batch of updates from the list of the store. `Err`: the first refusal with its place from 1, or memory ran
/// out; then the parts stand for the list of the store as before.
pub fn attempt<T: Moment, M: MarkRow<T>, I: SpanRow<T>, X: TimeRow<T>, L: Ledger>(
    alloc: Global,
    parts: &mut Parts<T, M, I, X>,
    tally: &mut Tally,
    batch: &[Update<T>],
    steps: &mut Steps<L>,
) -> Result<Walk<T>, Refusal>
    requires stand { StandFor T.rank parts.old.checked (history_of T.rank parts.old.store.events) (view_of parts.old) tally.old }
    requires within { IsWithinLimits parts.old.checked (history_of T.rank parts.old.store.events) }
    requires few { length batch.now < 2 ^ 32 }
    ensures goes { IsAttempted T.rank parts.old.checked parts.old.store.events (map (plain_update T.rank) batch.now) (view_of parts.new) tally.new result }
    ensures theory { parts.new.checked ≡ parts.old.checked }
    ensures store { OnOk result (parts.new.store ≡ parts.old.store) }
    ensures len { IfOk result (λ walk. index_map_len walk.nets ≤ length batch.now) }
    ensures steps { OnOk result (steps.new ≤ steps.old + length batch.now) }
    ensures all_steps { steps.new ≤ steps.old + 2 * length batch.now }
{
    let mut walk = start(alloc, parts, tally);
    match walk_through(alloc, parts, tally, &mut walk, batch, steps) {
        Ok(()) => Ok(walk),
        Err(refusal) => {
            undo(parts, tally, &walk, steps);
            Err(refusal)
        }
    }
}

/// Walks by one update from the list of the store, as `attempt` does by a batch of it. `Err`: it is refused, at place 1, or memory
/// ran out; then the parts stand for the list of the store as before.
pub fn attempt_one<T: Moment, M: MarkRow<T>, I: SpanRow<T>, X: TimeRow<T>, L: Ledger>(
    alloc: Global,
    parts: &mut Parts<T, M, I, X>,
    tally: &mut Tally,
    one: &Update<T>,
    steps: &mut Steps<L>,
) -> Result<Walk<T>, Refusal>
    requires stand { StandFor T.rank parts.old.checked (history_of T.rank parts.old.store.events) (view_of parts.old) tally.old }
    requires within { IsWithinLimits parts.old.checked (history_of T.rank parts.old.store.events) }
    ensures goes { IsAttempted T.rank parts.old.checked parts.old.store.events (plain_update T.rank one.now ∷ []) (view_of parts.new) tally.new result }
    ensures theory { parts.new.checked ≡ parts.old.checked }
    ensures store { OnOk result (parts.new.store ≡ parts.old.store) }
    ensures len { IfOk result (λ walk. index_map_len walk.nets ≤ 1) }
    ensures steps { OnOk result (steps.new ≤ steps.old + 1) }
    ensures all_steps { steps.new ≤ steps.old + 2 }
{
    let mut walk = start(alloc, parts, tally);
    match walk_one(alloc, parts, tally, &mut walk, one, steps) {
        Ok(()) => Ok(walk),
        Err(refusal) => {
            undo(parts, tally, &walk, steps);
            Err(refusal)
        }
    }
}
