//! The first cause of a change at an instant: of the event with the least identity, the least rule.
ghost use Rattle.std.specs.Prelude.{◌≡◌, ◌+◌, ◌*◌, ◌<◌, ◌≤◌, ◌&&◌, List, Some, find, option_map, IsSome, IsTrue};
ghost use Rattle.std.specs.Ordering.{int_eq};
ghost use Rattle.ec_terms.specs.declared.ground.Ground.{Ground};
ghost use Rattle.ec_terms.specs.Domain.{GroundEntry};
ghost use Rattle.ec_axioms.specs.declared.event.Event.{Event as AnEvent};
ghost use Rattle.ec_axioms.specs.Calculus.{Effect, PlainEvent, first_cause as cause_at, has_effect, is_current};
ghost use Rattle.ec_axioms.specs.Events.{event_of};
ghost use Rattle.ec_context.specs.Entries.{shown_entry};
ghost use Rattle.ec_store.specs.Store.{event_at, history_of};
ghost use Rattle.ec_parts.specs.Activity.{is_bit_set};
ghost use Rattle.ec_parts.specs.StandFor.{view_of};
ghost use Rattle.ec_query.specs.ReasonSteps.{count_at};
ghost use Rattle.ec_query.specs.Reasons.{IsFirstCause, plain_cause};
ghost use Rattle.ec_query.specs.Sought.{AreEffects, first_of_event, is_cause, is_sought as sought_by};
ghost use Rattle.ec_query.specs.Standing.{AreOn, AreOnSome};

use crate::reason::Cause;
use crate::sought::{Sought, is_sought};
use ec_axioms::Steps;
use ec_context::{Entry, EntryList};
use ec_moment::Moment;
use ec_parts::Parts;
use ec_rows::{MarkRow, SpanRow, TimeRow};
use ec_terms::{PropId, Slot};
use std::sync::ledger::Ledger;

/// Whether a bit of a word is set.
fn has_bit(word: u64, k: usize) -> bool
    requires { k < 64 }
    ensures { result ≡ is_bit_set word k }
{
    (word >> k) & 1 == 1
}

/// Whether the entry at a place of a list is active and does to a property what is sought.
fn is_active_cause<T: Moment, M: MarkRow<T>, I: SpanRow<T>, X: TimeRow<T>>(
    parts: &Parts<T, M, I, X>,
    id: PropId,
    sought: Sought,
    entry: &Entry,
    active: u64,
    k: usize,
) -> bool
    requires on { AreOnSome T.rank parts.now.checked (view_of parts.now) id.0 }
    requires few { k < 64 }
    ensures { (events : List PlainEvent) (p : Ground) (shown : GroundEntry) → AreOn T.rank parts.now.checked events (view_of parts.now) id.0 p → shown_entry parts.now.props entry.now ≡ Some shown → result ≡ (is_bit_set active k && sought_by parts.now.checked p sought shown) }
{
    let wanted = is_sought(parts, id, sought, entry);
    has_bit(active, k) && wanted
}

/// The rule of the first active entry of a list that does to a property what is sought.
fn first_rule<T: Moment, M: MarkRow<T>, I: SpanRow<T>, X: TimeRow<T>>(
    parts: &Parts<T, M, I, X>,
    id: PropId,
    sought: Sought,
    list: &EntryList,
    active: u64,
) -> Option<u16>
    requires { AreOnSome T.rank parts.now.checked (view_of parts.now) id.0 }
    ensures { (events : List PlainEvent) (p : Ground) (effects : List Effect) → AreOn T.rank parts.now.checked events (view_of parts.now) id.0 p → AreEffects parts.now.checked events parts.now.props list.now active effects → result ≡ option_map (λ effect. effect.entry.rule) (find (is_cause parts.now.checked events (sought_by parts.now.checked p sought)) effects) }
{
    for k in 0..list.len() {
        let entry = list.get(k);
        if is_active_cause(parts, id, sought, entry, active, k) {
            return Some(entry.rule);
        }
    }
    None
}

/// The rule of the first active entry of the event in a slot that does to a property what is sought. It takes one step.
fn first_rule_in<T: Moment, M: MarkRow<T>, I: SpanRow<T>, X: TimeRow<T>, L: Ledger>(
    parts: &Parts<T, M, I, X>,
    id: PropId,
    sought: Sought,
    slot: Slot,
    steps: &mut Steps<L>,
) -> Option<u16>
    requires on { AreOnSome T.rank parts.now.checked (view_of parts.now) id.0 }
    requires live { IsSome (event_at slot parts.now.store.events) }
    ensures rule { (events : List PlainEvent) (p : Ground) (event : AnEvent T) → AreOn T.rank parts.now.checked events (view_of parts.now) id.0 p → event_at slot parts.now.store.events ≡ Some event → option_map (λ rule. record { id = event.id; rule = rule }) result ≡ first_of_event parts.now.checked events (sought_by parts.now.checked p sought) (event_of T.rank event) }
    ensures steps { steps.new ≡ steps.old + 1 }
{
    let active = parts.entries.active(slot);
    let list = parts.entries.list(slot, steps);
    first_rule(parts, id, sought, list, active)
}

/// Whether two times are the same.
fn is_at<T: Moment>(at: T, other: T) -> bool
    ensures { result ≡ int_eq (T.rank at) (T.rank other) }
{
    at.order(&other).is_eq()
}

/// The first cause of a change of a property at a time, if there is one. It takes two steps at the most for each event at
/// that time.
fn first_cause<T: Moment, M: MarkRow<T>, I: SpanRow<T>, X: TimeRow<T>, L: Ledger>(
    parts: &Parts<T, M, I, X>,
    id: PropId,
    sought: Sought,
    at: T,
    steps: &mut Steps<L>,
) -> Option<Cause>
    requires { AreOnSome T.rank parts.now.checked (view_of parts.now) id.0 }
    ensures cause { (events : List PlainEvent) (p : Ground) → AreOn T.rank parts.now.checked events (view_of parts.now) id.0 p → option_map plain_cause result ≡ cause_at parts.now.checked events (sought_by parts.now.checked p sought) (T.rank at) }
    ensures steps { steps.new ≤ steps.old + 2 * count_at (history_of T.rank parts.now.store.events) (T.rank at) }
{
    let _ = parts.store.len();
    let mut cursor = parts.store.first_at(at);
    #[tactic(none)]
    while let Some(found) = parts.store.next(cursor) {
        let here = is_at(parts.entries.at(found.0), at);
        if !here {
            return None;
        }
        if let Some(rule) = first_rule_in(parts, id, sought, found.0, steps) {
            let event = parts.store.event(found.0, steps);
            return Some(Cause {
                id: event.id.copied(),
                rule,
            });
        }
        cursor = found.1;
    }
    None
}

/// The first cause of a change of a property at a time at which it takes place. It takes two steps at the most for each
/// event at that time.
pub(crate) fn find_cause<T: Moment, M: MarkRow<T>, I: SpanRow<T>, X: TimeRow<T>, L: Ledger>(
    parts: &Parts<T, M, I, X>,
    id: PropId,
    sought: Sought,
    at: T,
    steps: &mut Steps<L>,
) -> Cause
    requires on { (events : List PlainEvent) × (p : Ground) × AreOn T.rank parts.now.checked events (view_of parts.now) id.0 p × IsTrue (has_effect parts.now.checked events (is_current parts.now.checked events) (sought_by parts.now.checked p sought) (T.rank at)) }
    ensures cause { (events : List PlainEvent) (p : Ground) → AreOn T.rank parts.now.checked events (view_of parts.now) id.0 p → IsFirstCause parts.now.checked events (sought_by parts.now.checked p sought) (T.rank at) result }
    ensures steps { (events : List PlainEvent) (p : Ground) → AreOn T.rank parts.now.checked events (view_of parts.now) id.0 p → steps.new ≤ steps.old + 2 * count_at events (T.rank at) }
{
    match first_cause(parts, id, sought, at, steps) {
        Some(cause) => cause,
        None => unreachable!(),
    }
}
