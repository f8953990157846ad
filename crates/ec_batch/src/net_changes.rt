//! The change that a walk comes to: the events that go, and those that come.
ghost use Rattle.std.specs.Prelude.{◌≡◌, ◌+◌, ◌≤◌, ◌++◌, ℕ, [], List, IsSome, IfSome, IfOk, OnErr, All, map, filter_map, reverse, length};
ghost use Rattle.std.specs.Ordering.{is_lt};
ghost use Rattle.std.specs.List.Sorted.{IsPermutation, IsSortedBy};
ghost use Rattle.std.specs.Option.{option_to_list};
ghost use Rattle.std.specs.Vec.{vec_len, vec_capacity};
ghost use Rattle.indexmap.specs.IndexMap.{index_map_len};
ghost use Rattle.ec_axioms.specs.Calculus.{PlainEvent};
ghost use Rattle.ec_store.specs.Store.{event_at};
ghost use Rattle.ec_parts.specs.declared.tally.Tally.{Tally};
ghost use Rattle.ec_parts.specs.StandFor.{view_of};
ghost use Rattle.ec_revise.specs.Change.{IsChange, removal_before};
ghost use Rattle.ec_batch.specs.NetChange.{HasRoom, added_before, coming, going, is_back as back, is_same_record};
ghost use Rattle.ec_batch.specs.Walk.{HasWalked, HasWalkedTo};

use crate::net::{Added, Net, Nets};
use crate::walk::Walk;
use ec_axioms::{Event, Steps};
use ec_context::EntryList;
use ec_lists::NoMemory;
use ec_moment::Moment;
use ec_parts::Parts;
use ec_revise::{Change, Removal};
use ec_rows::{MarkRow, SpanRow, TimeRow};
use ec_store::EventStore;
use ec_terms::{Sequence, is_same};
use std::alloc::Global;
use std::cmp::Ordering;
use std::sync::ledger::Ledger;

/// What goes and what comes, while it is gathered in no order.
#[derive(Drop)]
pub(crate) struct Gathered<T> {
    pub going: Vec<Removal<T>>,
    pub coming: Vec<Added<T>>,
}

/// Whether two events of one identity are the same record.
fn is_record<T: Moment>(left: &Event<T>, right: &Event<T>) -> bool
    ensures { result ≡ is_same_record T.rank left.now right.now }
{
    left.at.order(&right.at).is_eq() && is_same(&left.term.borrow(), &right.term.borrow())
}

/// Whether what is put in under the identity of an event is that record.
fn is_back<T: Moment>(event: &Event<T>, new: &Option<Added<T>>) -> bool
    ensures { result ≡ back T.rank event.now new.now }
{
    match new {
        Some(added) => is_record(event, &added.event),
        None => false,
    }
}

/// Lists with room for what comes of so many identities. `Err`: memory ran out.
fn with_room<T: Moment>(alloc: Global, count: usize) -> Result<Gathered<T>, NoMemory>
    ensures going { IfOk result (λ gathered. gathered.going.items ≡ []) }
    ensures coming { IfOk result (λ gathered. gathered.coming.items ≡ []) }
    ensures room { IfOk result (HasRoom count) }
{
    Ok(Gathered {
        going: Vec::with_capacity(alloc, count)?,
        coming: Vec::with_capacity(alloc, count)?,
    })
}

/// Adds what is put in, if something is. It takes no memory.
fn add_coming<T: Moment>(coming: &mut Vec<Added<T>>, new: Option<Added<T>>)
    requires { vec_len coming.old + 1 ≤ vec_capacity coming.old }
    ensures coming { coming.new.items ≡ coming.old.items ++ option_to_list new }
    ensures len { vec_len coming.new ≤ vec_len coming.old + 1 }
    ensures capacity { vec_capacity coming.new ≡ vec_capacity coming.old }
{
    match new {
        Some(added) => coming.push_reserved(added),
        None => {}
    }
}

/// Adds what goes and what comes under an identity. To read the event that stands there is one step. It takes no memory.
fn gather_one<T: Moment, X: TimeRow<T>, L: Ledger>(
    store: &EventStore<T, X>,
    net: Net<T>,
    gathered: &mut Gathered<T>,
    steps: &mut Steps<L>,
)
    requires live { IfSome net.old (λ slot. IsSome (event_at slot store.now.events)) }
    requires room { HasRoom 1 gathered.old }
    ensures going { gathered.new.going.items ≡ gathered.old.going.items ++ option_to_list (going T.rank store.now.events net) }
    ensures coming { gathered.new.coming.items ≡ gathered.old.coming.items ++ option_to_list (coming T.rank store.now.events net) }
    ensures room { (n : ℕ) → HasRoom (n + 1) gathered.old → HasRoom n gathered.new }
    ensures steps { steps.new ≤ steps.old + 1 }
{
    let Some(slot) = net.old else {
        add_coming(&mut gathered.coming, net.new);
        return;
    };
    let event = store.event(slot, steps);
    if is_back(event, &net.new) {
        return;
    }
    gathered.going.push_reserved(Removal { at: event.at, slot });
    add_coming(&mut gathered.coming, net.new);
}

/// Takes all out of the nets: what goes and what comes, of each touched identity. It takes no memory.
fn gather<T: Moment, X: TimeRow<T>, L: Ledger>(
    store: &EventStore<T, X>,
    nets: &mut Nets<T>,
    gathered: &mut Gathered<T>,
    steps: &mut Steps<L>,
)
    requires live { All (λ entry. IfSome entry.1.old (λ slot. IsSome (event_at slot store.now.events))) nets.old.entries }
    requires room { HasRoom (index_map_len nets.old) gathered.old }
    ensures going { gathered.new.going.items ≡ gathered.old.going.items ++ filter_map (λ entry. going T.rank store.now.events entry.1) (reverse nets.old.entries) }
    ensures coming { gathered.new.coming.items ≡ gathered.old.coming.items ++ filter_map (λ entry. coming T.rank store.now.events entry.1) (reverse nets.old.entries) }
    ensures steps { steps.new ≤ steps.old + index_map_len nets.old }
{
    while let Some((_, net)) = nets.pop() {
        gather_one(store, net, gathered, steps);
    }
}

/// Puts removals in the order of their times, and at one time of their slots. It takes no memory.
fn sort_going<T: Moment>(going: &mut Vec<Removal<T>>)
    ensures same { IsPermutation going.old.items going.new.items }
    ensures order { IsSortedBy (removal_before T.rank) going.new.items }
{
    going.sort_unstable_by(
        |a, b| -> Ordering
            ensures { is_lt result ≡ removal_before T.rank a.now b.now }
        { a.at.order(&b.at).then(a.slot.0.cmp(&b.slot.0)) },
    );
}

/// Puts what comes in the order of a history. It takes no memory.
fn sort_coming<T: Moment>(coming: &mut Vec<Added<T>>)
    ensures same { IsPermutation coming.old.items coming.new.items }
    ensures order { IsSortedBy (added_before T.rank) coming.new.items }
{
    coming.sort_unstable_by(
        |a, b| -> Ordering
            ensures { is_lt result ≡ added_before T.rank a.now b.now }
        {
            match a.event.at.order(&b.event.at) {
                Ordering::Equal => a.event.id.cmp(&b.event.id),
                unlike => unlike,
            }
        },
    );
}

/// The change of what goes and what comes, where both lists are in order. The two other lists, which are empty, have room for
/// what comes. It takes no memory.
fn change_of<T: Moment>(
    gathered: Gathered<T>,
    mut add: Vec<Event<T>>,
    mut entries: Vec<EntryList>,
) -> Change<T>
    requires add { add.items ≡ [] }
    requires entries { entries.items ≡ [] }
    requires room { length gathered.coming.items ≤ vec_capacity add }
    requires entries_room { length gathered.coming.items ≤ vec_capacity entries }
    ensures remove { result.remove ≡ gathered.going.items }
    ensures add { result.add ≡ map (λ added. added.event) gathered.coming.items }
    ensures entries { result.entries ≡ map (λ added. added.entries) gathered.coming.items }
{
    for added in gathered.coming {
        add.push_reserved(added.event);
        entries.push_reserved(added.entries);
    }
    Change {
        remove: Sequence::from_vec(gathered.going),
        add: Sequence::from_vec(add),
        entries: Sequence::from_vec(entries),
    }
}

/// Takes out of a walk the change that it comes to: for each identity that it touched, the event of the store goes and the one
/// that was put in comes, with its entries. The same record taken out and put in again is no change. Each touched identity is
/// at most one step. `Err`: memory ran out; the walk is as it was.
pub fn net_change<T: Moment, M: MarkRow<T>, I: SpanRow<T>, X: TimeRow<T>, L: Ledger>(
    alloc: Global,
    parts: &Parts<T, M, I, X>,
    walk: &mut Walk<T>,
    steps: &mut Steps<L>,
) -> Result<Change<T>, NoMemory>
    requires walked { (tally : Tally) × HasWalked T.rank parts.now.checked (view_of parts.now) tally walk.old }
    ensures change { IfOk result (λ change. (soon : List PlainEvent) (tally : Tally) → HasWalkedTo T.rank parts.now.checked parts.now.store.events soon (view_of parts.now) tally walk.old →
        IsChange T.rank parts.now.checked parts.now.props parts.now.store.events soon change) }
    ensures fresh { walk.new.fresh ≡ walk.old.fresh }
    ensures dying { walk.new.dying ≡ walk.old.dying }
    ensures events { walk.new.events ≡ walk.old.events }
    ensures err { OnErr result (walk.new ≡ walk.old) }
    ensures err_steps { OnErr result (steps.new ≡ steps.old) }
    ensures steps { steps.new ≤ steps.old + index_map_len walk.old.nets }
{
    let _ = parts.store.len();
    let count = walk.nets.len();
    let mut gathered = with_room(alloc, count)?;
    let add = Vec::with_capacity(alloc, count)?;
    let entries = Vec::with_capacity(alloc, count)?;
    gather(&parts.store, &mut walk.nets, &mut gathered, steps);
    sort_going(&mut gathered.going);
    sort_coming(&mut gathered.coming);
    Ok(change_of(gathered, add, entries))
}
