//! The way back from a walk that is not taken: the tables become those of the list of the store again.
ghost use Rattle.std.specs.Prelude.{◌≡◌, ◌+◌, ◌≤◌, ℕ, List};
ghost use Rattle.indexmap.specs.IndexMap.{index_map_len};
ghost use Rattle.ec_axioms.specs.Calculus.{PlainEvent};
ghost use Rattle.ec_store.specs.Store.{history_of};
ghost use Rattle.ec_parts.specs.StandFor.{StandFor, StandForBoth, view_of};
ghost use Rattle.ec_store.specs.Table.{term_at};
ghost use Rattle.ec_batch.specs.Limits.{IsWithinLimits};
ghost use Rattle.ec_batch.specs.Net.{net_in};
ghost use Rattle.ec_batch.specs.Walk.{HasWalked};
ghost use Rattle.ec_batch.specs.Undo.{IsHalfway, LeadSomewhere, LeadTo, MayRelease, MayRestore, Releases, Restores};

use crate::idle::forget_idle;
use crate::net::{Net, Nets};
use crate::walk::Walk;
use ec_axioms::Steps;
use ec_moment::Moment;
use ec_parts::{Parts, Tally, mention_slot, release_all};
use ec_rows::{MarkRow, SpanRow, TimeRow};
use ec_terms::Slot;
use std::sync::ledger::Ledger;

/// Releases what the event mentions that stands under an identity in the list to come, if there is one. It takes no memory.
fn release_new<T: Moment, M: MarkRow<T>, I: SpanRow<T>, X: TimeRow<T>>(
    parts: &mut Parts<T, M, I, X>,
    tally: &mut Tally,
    net: &Net<T>,
)
    requires { MayRelease T.rank parts.old.checked (view_of parts.old) tally.old net.now }
    ensures out { Releases T.rank parts.old.checked net.now (view_of parts.old) tally.old (view_of parts.new) tally.new }
    ensures terms { (id : ℕ) → term_at id parts.new.props ≡ term_at id parts.old.props }
    ensures rest { parts.new ≡ record parts.old { props = parts.new.props } }
{
    match &net.new {
        None => {}
        Some(added) => release_all(parts, tally, &added.entries),
    }
}

/// Mentions again what the event mentions that the store has in a slot, if there is one. To read its entries is one
/// step. It takes no memory.
pub(crate) fn restore_old<T: Moment, M: MarkRow<T>, I: SpanRow<T>, X: TimeRow<T>, L: Ledger>(
    parts: &mut Parts<T, M, I, X>,
    tally: &mut Tally,
    slot: Option<Slot>,
    steps: &mut Steps<L>,
)
    requires { MayRestore T.rank parts.old.checked (view_of parts.old) tally.old slot }
    ensures back { Restores T.rank parts.old.checked slot (view_of parts.old) tally.old (view_of parts.new) tally.new }
    ensures terms { (id : ℕ) → term_at id parts.new.props ≡ term_at id parts.old.props }
    ensures rest { parts.new ≡ record parts.old { props = parts.new.props } }
    ensures steps { steps.new ≤ steps.old + 1 }
{
    let _ = parts.store.len();
    match slot {
        None => {}
        Some(slot) => mention_slot(parts, tally, slot, steps),
    }
}

/// Releases what stands under each touched identity in the list to come. It takes no memory.
fn release_nets<T: Moment, M: MarkRow<T>, I: SpanRow<T>, X: TimeRow<T>>(
    parts: &mut Parts<T, M, I, X>,
    tally: &mut Tally,
    nets: &Nets<T>,
)
    requires { LeadSomewhere T.rank parts.old.checked (view_of parts.old) tally.old (λ id. net_in id nets.now) }
    ensures halfway { (soon : List PlainEvent) → LeadTo T.rank parts.old.checked (view_of parts.old) tally.old (λ id. net_in id nets.now) soon →
        IsHalfway T.rank parts.old.checked (view_of parts.new) tally.new (λ id. net_in id nets.now) nets.now.entries }
    ensures terms { (id : ℕ) → term_at id parts.new.props ≡ term_at id parts.old.props }
    ensures rest { parts.new ≡ record parts.old { props = parts.new.props } }
{
    let _ = nets.len();
    for i in 0..nets.len() {
        match nets.get_index(i) {
            Some((_, net)) => release_new(parts, tally, net),
            None => unreachable!(),
        }
    }
}

/// Mentions again what stood under each touched identity in the store. Each is one step. It takes no memory.
fn restore_nets<T: Moment, M: MarkRow<T>, I: SpanRow<T>, X: TimeRow<T>, L: Ledger>(
    parts: &mut Parts<T, M, I, X>,
    tally: &mut Tally,
    nets: &Nets<T>,
    steps: &mut Steps<L>,
)
    requires halfway { IsHalfway T.rank parts.old.checked (view_of parts.old) tally.old (λ id. net_in id nets.now) nets.now.entries }
    requires within { IsWithinLimits parts.old.checked (history_of T.rank parts.old.store.events) }
    ensures back { StandForBoth T.rank parts.old.checked (history_of T.rank parts.old.store.events) (history_of T.rank parts.old.store.events) (view_of parts.new) tally.new }
    ensures terms { (id : ℕ) → term_at id parts.new.props ≡ term_at id parts.old.props }
    ensures rest { parts.new ≡ record parts.old { props = parts.new.props } }
    ensures steps { steps.new ≤ steps.old + index_map_len nets.now }
{
    let _ = parts.store.len();
    let _ = nets.len();
    for i in 0..nets.len() {
        match nets.get_index(i) {
            Some((_, net)) => restore_old(parts, tally, net.old, steps),
            None => unreachable!(),
        }
    }
}

/// Goes back from a walk that is not taken: the parts stand for the list of the store, as they did before the walk, and keep
/// only what is live in it. Each identity that the walk touched is at most one step. It takes no memory.
pub fn undo<T: Moment, M: MarkRow<T>, I: SpanRow<T>, X: TimeRow<T>, L: Ledger>(
    parts: &mut Parts<T, M, I, X>,
    tally: &mut Tally,
    walk: &Walk<T>,
    steps: &mut Steps<L>,
)
    requires walked { HasWalked T.rank parts.old.checked (view_of parts.old) tally.old walk.now }
    requires within { IsWithinLimits parts.old.checked (history_of T.rank parts.old.store.events) }
    ensures stand { StandFor T.rank parts.old.checked (history_of T.rank parts.old.store.events) (view_of parts.new) tally.new }
    ensures theory { parts.new.checked ≡ parts.old.checked }
    ensures steps { steps.new ≤ steps.old + index_map_len walk.now.nets }
{
    release_nets(parts, tally, &walk.nets);
    restore_nets(parts, tally, &walk.nets, steps);
    forget_idle(parts, walk.fresh.as_slice());
}
