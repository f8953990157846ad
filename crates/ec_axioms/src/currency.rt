//! Currency by the definitions alone: no cache, and no memory.
ghost use Rattle.std.specs.Prelude.{◌≡◌, ℕ, IsTrue, IsSome, IfNone, IfSome, [], map};
ghost use Rattle.std.specs.List.{list_all, list_any};
ghost use Rattle.ec_terms.specs.Binding.{stands_in, values_of};
ghost use Rattle.ec_terms.specs.Domain.{ground_literal_of};
ghost use Rattle.ec_terms.specs.Matchable.{IsMatchable, IsMatchableRule};
ghost use Rattle.ec_terms.specs.Term.{names_are_names};
ghost use Rattle.ec_terms.specs.Term.{ground_of};
ghost use Rattle.ec_axioms.specs.Calculus.{agrees};
ghost use Rattle.ec_axioms.specs.Calculus.{is_current as current};
ghost use Rattle.ec_axioms.specs.Changes.{is_history};
ghost use Rattle.ec_axioms.specs.Events.{event_of};
ghost use Rattle.ec_axioms.specs.Laws.{events_before};
ghost use Rattle.ec_axioms.specs.Plain.{IsLastBefore, changes_at, does_change_by, would_change};

use crate::event::Event;
use crate::history;
use ec_moment::Moment;
use ec_terms::{
    Binding, GroundRef, Kind, Rule, Theory, are_exclusive, fill_ref, is_initial, is_same,
    is_strong, matches, tests_hold,
};

/// What an entry may do to a property.
#[derive(Clone, Copy)]
pub(crate) enum Change {
    Initiation,
    Termination,
    /// A termination, or the initiation of an exclusive property, or of the property itself where it is strong.
    Break,
}

/// Whether an entry of this kind and head would make the change, if it were active.
fn makes_change(
    theory: &Theory,
    p: &GroundRef<'_>,
    change: Change,
    kind: Kind,
    head: &GroundRef<'_>,
) -> bool
    requires matchable { IsMatchable theory.now }
    requires p_named { IsTrue (names_are_names (ground_of p.now)) }
    requires head_named { IsTrue (names_are_names (ground_of head.now)) }
    ensures { result ≡ would_change theory.now (ground_of p.now) change kind (ground_of head.now) }
{
    match kind {
        Kind::Terminates => match change {
            Change::Initiation => false,
            Change::Termination | Change::Break => is_same(head, p),
        },
        Kind::Initiates => match change {
            Change::Initiation => is_same(head, p),
            Change::Termination => false,
            Change::Break => {
                are_exclusive(theory, p, head) || (is_strong(theory, p) && is_same(head, p))
            }
        },
    }
}

/// The last instant before a time, if there is one.
fn last_before<T: Moment>(events: &[Event<T>], at: T) -> Option<T>
    requires ordered { IsTrue (is_history (map (event_of T.rank) events.now)) }
    ensures last { IfSome result (λ last. IsLastBefore (map (event_of T.rank) events.now) (T.rank at) (T.rank last)) }
    ensures none { IfNone result (events_before (T.rank at) (map (event_of T.rank) events.now) ≡ []) }
{
    let event = history::before(events, at).last()?;
    Some(event.at)
}

/// Whether each literal of a rule agrees with the currency of its property at a time.
#[cycle(currency)]
fn literals_agree<'a, T: Moment>(
    events: &'a [Event<T>],
    theory: &'a Theory,
    rule: &'a Rule,
    binding: &Binding<'a>,
    at: T,
) -> bool
    requires ordered { IsTrue (is_history (map (event_of T.rank) events.now)) }
    requires matchable { IsMatchable theory.now }
    requires rule { IsMatchableRule rule.now }
    requires bound { (v : ℕ) → IsTrue (stands_in v rule.now.event) → IsSome (values_of binding.now v) }
    ensures { result ≡ list_all (agrees (current theory.now (map (event_of T.rank) events.now)) (T.rank at)) (map (ground_literal_of (values_of binding.now)) rule.now.literals) }
{
    for literal in rule.literals.as_slice() {
        let prop = fill_ref(&literal.prop, binding);
        if is_current(events, theory, &prop, at) != literal.positive {
            return false;
        }
    }
    true
}

/// Whether an event at a time makes the change to a property by a rule.
#[cycle(currency)]
fn rule_changes<'a, T: Moment>(
    events: &'a [Event<T>],
    theory: &'a Theory,
    rule: &'a Rule,
    event: &GroundRef<'a>,
    at: T,
    p: &GroundRef<'_>,
    change: Change,
) -> bool
    requires ordered { IsTrue (is_history (map (event_of T.rank) events.now)) }
    requires matchable { IsMatchable theory.now }
    requires rule { IsMatchableRule rule.now }
    requires event_named { IsTrue (names_are_names (ground_of event.now)) }
    requires named { IsTrue (names_are_names (ground_of p.now)) }
    ensures { result ≡ does_change_by theory.now (map (event_of T.rank) events.now) (ground_of p.now) change (T.rank at) (ground_of event.now) rule.now }
{
    let Some(binding) = matches(&rule.event, event) else {
        return false;
    };
    if !tests_hold(rule, &binding) {
        return false;
    }
    let head = fill_ref(&rule.head, &binding);
    makes_change(theory, p, change, rule.kind, &head)
        && literals_agree(events, theory, rule, &binding, at)
}

/// Whether an event at a time makes the change to a property.
#[cycle(currency)]
fn event_changes<'a, T: Moment>(
    events: &'a [Event<T>],
    theory: &'a Theory,
    event: &GroundRef<'a>,
    at: T,
    p: &GroundRef<'_>,
    change: Change,
) -> bool
    requires ordered { IsTrue (is_history (map (event_of T.rank) events.now)) }
    requires matchable { IsMatchable theory.now }
    requires event_named { IsTrue (names_are_names (ground_of event.now)) }
    requires named { IsTrue (names_are_names (ground_of p.now)) }
    ensures { result ≡ list_any (does_change_by theory.now (map (event_of T.rank) events.now) (ground_of p.now) change (T.rank at) (ground_of event.now)) theory.now.rules }
{
    for rule in theory.rules.as_slice() {
        if rule_changes(events, theory, rule, event, at, p, change) {
            return true;
        }
    }
    false
}

/// Whether some event at a time makes the change to a property.
#[cycle(currency)]
pub(crate) fn has_change<'a, T: Moment>(
    events: &'a [Event<T>],
    theory: &'a Theory,
    p: &GroundRef<'_>,
    change: Change,
    at: T,
) -> bool
    requires ordered { IsTrue (is_history (map (event_of T.rank) events.now)) }
    requires matchable { IsMatchable theory.now }
    requires named { IsTrue (names_are_names (ground_of p.now)) }
    ensures { result ≡ changes_at theory.now (map (event_of T.rank) events.now) (ground_of p.now) change (T.rank at) }
{
    for event in history::at(events, at) {
        if event_changes(events, theory, &event.term.borrow(), at, p, change) {
            return true;
        }
    }
    false
}

/// Whether a property is current at a time: at the last instant before it the property is initiated, or
/// it is current there and not broken.
#[cycle(currency)]
pub(crate) fn is_current<'a, T: Moment>(
    events: &'a [Event<T>],
    theory: &'a Theory,
    p: &GroundRef<'_>,
    at: T,
) -> bool
    requires ordered { IsTrue (is_history (map (event_of T.rank) events.now)) }
    requires matchable { IsMatchable theory.now }
    requires named { IsTrue (names_are_names (ground_of p.now)) }
    ensures { result ≡ current theory.now (map (event_of T.rank) events.now) (ground_of p.now) (T.rank at) }
{
    match last_before(events, at) {
        Some(last) => {
            has_change(events, theory, p, Change::Initiation, last)
                || (is_current(events, theory, p, last)
                    && !has_change(events, theory, p, Change::Break, last))
        }
        None => is_initial(theory, p),
    }
}
