//! A walk is carried out: the caches follow the tables to the list that it came to, or all goes back.
ghost use Rattle.std.specs.Prelude.{◌≡◌, ◌+◌, ◌≤◌, ◌||◌, [], List, IfOk, IfErr, IsTrue, OnOk, OnErr, length};
ghost use Rattle.indexmap.specs.IndexMap.{index_map_len};
ghost use Rattle.ec_axioms.specs.Calculus.{PlainEvent};
ghost use Rattle.ec_rows.specs.Ordered.{is_ascending};
ghost use Rattle.ec_store.specs.Store.{history_of};
ghost use Rattle.ec_numbered.specs.PropSet.{has_number};
ghost use Rattle.ec_parts.specs.declared.tally.Tally.{Tally as PartsTally};
ghost use Rattle.ec_parts.specs.StandFor.{StandFor, StandForBoth, view_of};
ghost use Rattle.ec_sweep.specs.Planning.{LeadsSomewhere};
ghost use Rattle.ec_sweep.specs.State.{IsUnderway};
ghost use Rattle.ec_batch.specs.Idle.{StandForSome};
ghost use Rattle.ec_batch.specs.Limits.{IsWithinLimits};
ghost use Rattle.ec_batch.specs.Walk.{AreLiveOrListed, HasWalked, HasWalkedTo};
ghost use Rattle.ec_engine.specs.CarriedOut.{IsCarriedOut, IsMade, Leads, LeadsTo, StandAsBefore};
ghost use Rattle.ec_engine.specs.Revise.{HasTails, steps_between};
ghost use Rattle.ec_watch.specs.Tails.{AreTails};
ghost use Rattle.ec_watch.specs.Watched.{comes_first};

use ec_apply::apply;
use ec_axioms::{Seen, Steps};
use ec_batch::{Walk, forget_idle, net_change, undo, undo_change};
use ec_delta::Delta;
use ec_intervals::what_ends_before_a_change_stays_law;
use ec_lists::NoMemory;
use ec_moment::Moment;
use ec_parts::{Parts, Tally};
use ec_revise::Change;
use ec_rows::{MarkRow, SpanRow, TimeRow};
use ec_sweep::{Lists, plan};
use ec_terms::PropId;
use ec_watch::{Row, Tails};
use std::alloc::Global;
use std::sync::ledger::Ledger;

/// What updates share for its room: the lists of a change, and the tails of what is watched.
#[derive(Drop)]
pub(crate) struct Room<T: Moment> {
    pub lists: Lists<T>,
    /// Those of the last change; none where it was not made.
    pub tails: Tails<T>,
}

/// The properties that may be live no longer once a change is made or undone: those that were not kept before, and those that
/// may die by it.
#[derive(Drop)]
pub(crate) struct Listed<'a> {
    pub fresh: &'a [PropId],
    pub dying: &'a [PropId],
}

impl<T: Moment> Room<T> {
    /// No room yet. It takes no memory.
    pub(crate) fn new(alloc: Global) -> Room<T> {
        Room {
            lists: Lists::new(alloc),
            tails: Tails::new(alloc),
        }
    }
}

/// Takes a change back out of its plan, whose lists are kept for their room.
fn taken_back<T: Moment>(lists: &mut Lists<T>, delta: Delta<T>) -> Change<T>
    ensures { result ≡ delta.change }
{
    let Delta {
        change,
        planned,
        ..
    } = delta;
    lists.planned = planned;
    change
}

/// Plans a change of all caches, keeps the tails of what is watched, and makes the change. `Err`: memory ran out, and nothing has
/// changed; the change is given back, with the want of memory.
fn make_change<T: Moment, M: MarkRow<T>, I: SpanRow<T>, X: TimeRow<T>, L: Ledger>(
    room: &mut Room<T>,
    parts: &mut Parts<T, M, I, X>,
    change: Change<T>,
    watched: &[Row],
    steps: &mut Steps<L>,
) -> Result<Seen, (Change<T>, NoMemory)>
    requires leads { LeadsSomewhere T.rank parts.old.checked (view_of parts.old) change }
    requires ascend { IsTrue (is_ascending comes_first watched.now) }
    ensures made { IfOk result (IsMade T.rank parts.old.checked change (view_of parts.old) (view_of parts.new)) }
    ensures back { IfErr result (λ back. back.0 ≡ change) }
    ensures stands { OnErr result (StandAsBefore T.rank parts.old.checked (view_of parts.old) (view_of parts.new)) }
    ensures events { OnErr result (parts.new.store.events ≡ parts.old.store.events) }
    ensures theory { parts.new.checked ≡ parts.old.checked }
    ensures table { parts.new.props ≡ parts.old.props }
    ensures steps { OnOk result ((new : List PlainEvent) (tally : PartsTally) → IsUnderway T.rank parts.old.checked new (view_of parts.old) tally change →
        steps.new ≤ steps.old + steps_between parts.old.checked (history_of T.rank parts.old.store.events) new) }
    ensures planned { OnErr result ((new : List PlainEvent) (tally : PartsTally) → IsUnderway T.rank parts.old.checked new (view_of parts.old) tally change →
        steps.new + length change.remove ≤ steps.old + steps_between parts.old.checked (history_of T.rank parts.old.store.events) new) }
    ensures tails { IfOk result (λ seen. (new : List PlainEvent) (tally : PartsTally) → IsUnderway T.rank parts.old.checked new (view_of parts.old) tally change →
        AreTails T.rank parts.old.checked (history_of T.rank parts.old.store.events) new watched.now room.new.tails) }
    ensures no_tails { OnErr result (room.new.tails ≡ []) }
{
    what_ends_before_a_change_stays_law::<T>();
    room.tails.clear();
    let delta = match plan(&mut room.lists, parts, change, steps) {
        Ok(delta) => delta,
        Err(back) => return Err(back),
    };
    let _ = parts.props.len(); // that no term has two numbers
    let kept = room.tails.keep(
        watched,
        &parts.props,
        &parts.intervals,
        &delta.planned.touched,
    );
    match kept {
        Ok(()) => Ok(apply(parts, delta, &mut room.lists.planned, steps)),
        Err(none) => Err((taken_back(&mut room.lists, delta), none)),
    }
}

/// Forgets what is listed and nothing mentions now. It takes no memory.
fn forget_listed<T: Moment, M: MarkRow<T>, I: SpanRow<T>, X: TimeRow<T>>(
    parts: &mut Parts<T, M, I, X>,
    fresh: &[PropId],
    dying: &[PropId],
)
    requires stand { StandForSome T.rank parts.old.checked (view_of parts.old) }
    ensures stands { (events : List PlainEvent) (tally : PartsTally) → StandForBoth T.rank parts.old.checked events events (view_of parts.old) tally →
        AreLiveOrListed parts.old.checked events parts.old.props (λ id. has_number id fresh.now || has_number id dying.now) →
        StandFor T.rank parts.old.checked events (view_of parts.new) tally }
    ensures theory { parts.new.checked ≡ parts.old.checked }
{
    forget_idle(parts, fresh);
    forget_idle(parts, dying);
}

/// Carries out a change: the caches become those of the list that it leads to, and the parts keep only what is live in it.
/// Counts what changed, and leaves the tails of what is watched. `Err`: memory ran out; the parts stand for the list of
/// the store, the tables have gone back to it, and there are no tails.
pub(crate) fn carry_change<T: Moment, M: MarkRow<T>, I: SpanRow<T>, X: TimeRow<T>, L: Ledger>(
    room: &mut Room<T>,
    parts: &mut Parts<T, M, I, X>,
    tally: &mut Tally,
    change: Change<T>,
    listed: &Listed<'_>,
    watched: &[Row],
    steps: &mut Steps<L>,
) -> Result<Seen, NoMemory>
    requires leads { Leads T.rank parts.old.checked (view_of parts.old) tally.old change listed.now.fresh.now listed.now.dying.now }
    requires within { IsWithinLimits parts.old.checked (history_of T.rank parts.old.store.events) }
    requires ascend { IsTrue (is_ascending comes_first watched.now) }
    ensures carried { (soon : List PlainEvent) → LeadsTo T.rank parts.old.checked (view_of parts.old) tally.old change listed.now.fresh.now listed.now.dying.now soon →
        IsCarriedOut T.rank parts.old.checked (history_of T.rank parts.old.store.events) soon (view_of parts.new) tally.new result }
    ensures theory { parts.new.checked ≡ parts.old.checked }
    ensures steps { (soon : List PlainEvent) → LeadsTo T.rank parts.old.checked (view_of parts.old) tally.old change listed.now.fresh.now listed.now.dying.now soon →
        steps.new ≤ steps.old + steps_between parts.old.checked (history_of T.rank parts.old.store.events) soon }
    ensures tails { (soon : List PlainEvent) → LeadsTo T.rank parts.old.checked (view_of parts.old) tally.old change listed.now.fresh.now listed.now.dying.now soon →
        HasTails T.rank parts.old.checked (history_of T.rank parts.old.store.events) soon watched.now room.new.tails result }
{
    match make_change(room, parts, change, watched, steps) {
        Ok(seen) => {
            forget_listed(parts, listed.fresh, listed.dying);
            Ok(seen)
        }
        Err((change, none)) => {
            undo_change(parts, tally, &change, listed.fresh, steps);
            Err(none)
        }
    }
}

/// Carries out a walk: the caches become those of the list that it came to, and the parts keep only what is live in it. Counts
/// what changed, and leaves the tails of what is watched. `Err`: memory ran out; the parts stand for the list of the store as
/// before the walk, and there are no tails.
pub(crate) fn carry_out<T: Moment, M: MarkRow<T>, I: SpanRow<T>, X: TimeRow<T>, L: Ledger>(
    alloc: Global,
    room: &mut Room<T>,
    parts: &mut Parts<T, M, I, X>,
    tally: &mut Tally,
    walk: Walk<T>,
    watched: &[Row],
    steps: &mut Steps<L>,
) -> Result<Seen, NoMemory>
    requires walked { HasWalked T.rank parts.old.checked (view_of parts.old) tally.old walk }
    requires within { IsWithinLimits parts.old.checked (history_of T.rank parts.old.store.events) }
    requires ascend { IsTrue (is_ascending comes_first watched.now) }
    ensures carried { (soon : List PlainEvent) → HasWalkedTo T.rank parts.old.checked parts.old.store.events soon (view_of parts.old) tally.old walk →
        IsCarriedOut T.rank parts.old.checked (history_of T.rank parts.old.store.events) soon (view_of parts.new) tally.new result }
    ensures theory { parts.new.checked ≡ parts.old.checked }
    ensures steps { (soon : List PlainEvent) → HasWalkedTo T.rank parts.old.checked parts.old.store.events soon (view_of parts.old) tally.old walk →
        steps.new ≤ steps.old + index_map_len walk.nets + steps_between parts.old.checked (history_of T.rank parts.old.store.events) soon }
    ensures tails { (soon : List PlainEvent) → HasWalkedTo T.rank parts.old.checked parts.old.store.events soon (view_of parts.old) tally.old walk →
        HasTails T.rank parts.old.checked (history_of T.rank parts.old.store.events) soon watched.now room.new.tails result }
{
    room.tails.clear();
    let mut walk = walk;
    let change = match net_change(alloc, parts, &mut walk, steps) {
        Ok(change) => change,
        Err(none) => {
            undo(parts, tally, &walk, steps);
            return Err(none);
        }
    };
    let listed = Listed {
        fresh: walk.fresh.as_slice(),
        dying: walk.dying.as_slice(),
    };
    carry_change(room, parts, tally, change, &listed, watched, steps)
}
