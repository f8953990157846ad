//! What a pass over all events of a store finds.
ghost use Rattle.std.specs.Prelude.{◌≡◌, [], ◌∷◌, ◌++◌, List, IsTrue, IfOk, OnOk};
ghost use Rattle.ec_terms.specs.declared.ground.Ground.{Ground};
ghost use Rattle.ec_terms.specs.Term.{ground_of, names_are_names};
ghost use Rattle.ec_axioms.specs.Calculus.{PlainEvent, holds_at};
ghost use Rattle.ec_axioms.specs.Changes.{is_history};
ghost use Rattle.ec_axioms.specs.Events.{event_of};
ghost use Rattle.ec_store.specs.Store.{history_of};
ghost use Rattle.ec_cone.specs.Cone.{cone_rules};
ghost use Rattle.ec_cone.specs.Label.{label_text};
ghost use Rattle.ec_pass.specs.Passing.{IsComing, IsPassing};
ghost use Rattle.ec_pass.specs.Present.{IsReady};
ghost use Rattle.ec_pass.specs.Written.{IsWritten};

use crate::label::Label;
use crate::pass::Pass;
use ec_axioms::{Event, Steps};
use ec_cone::Cone;
use ec_context::Rules;
use ec_lists::NoMemory;
use ec_moment::Moment;
use ec_rows::TimeRow;
use ec_store::EventStore;
use ec_terms::GroundRef;
use std::alloc::Global;
use std::sync::ledger::Ledger;

/// What a pass finds of a property and a time.
#[derive(Drop)]
pub struct Finding {
    /// The label of the property and the time.
    pub label: Vec<u8>,
    /// Whether the property holds at the time.
    pub holds: bool,
}

/// The time of the first event of a store, or a given one if it has no event.
fn first_time<T: Moment, X: TimeRow<T>, L: Ledger>(
    store: &EventStore<T, X>,
    at: T,
    steps: &mut Steps<L>,
) -> T
    ensures history { IsTrue (is_history (history_of T.rank store.now.events)) }
    ensures first { IsComing (history_of T.rank store.now.events) (history_of T.rank store.now.events) (T.rank at) (T.rank result) (T.rank result) }
{
    let _ = store.len(); // the events are a history
    match store.next(store.first()) {
        Some(found) => store.event(found.0, steps).at,
        None => at,
    }
}

/// Takes in the next event of a pass, and writes its line if it has one.
fn take_next<T: Moment, L: Ledger>(
    pass: &mut Pass<T>,
    label: &mut Label,
    rules: &Rules,
    cone: &Cone,
    event: &Event<T>,
    bits: &mut Vec<u8>,
    steps: &mut Steps<L>,
) -> Result<(), NoMemory>
    requires ready { IsReady rules.now pass.old.present pass.old.p }
    ensures passing { OnOk result ((events done left : List PlainEvent) (q : Ground)
        → IsPassing T.rank rules.now events done (event_of T.rank event.now ∷ left) q pass.old
        → IsPassing T.rank rules.now events (done ++ event_of T.rank event.now ∷ []) left q pass.new) }
    ensures written { OnOk result ((events done left : List PlainEvent) (q : Ground)
        → IsPassing T.rank rules.now events done (event_of T.rank event.now ∷ left) q pass.old → cone.now ≡ cone_rules rules.now q
        → IsWritten rules.now events done T.canon q (T.rank pass.old.at) label.old
        → IsWritten rules.now events (done ++ event_of T.rank event.now ∷ []) T.canon q (T.rank pass.new.at) label.new) }
    ensures at { pass.new.at ≡ pass.old.at }
{
    pass.meet(rules, cone, event, bits, steps)?;
    let line = bits.as_slice();
    if !line.is_empty() {
        label.add_line(event.id.as_bytes(), line)?;
    }
    Ok(())
}

/// Takes in all events of a store, in their order, and writes the label.
fn write_label<T: Moment, X: TimeRow<T>, L: Ledger>(
    alloc: Global,
    rules: &Rules,
    store: &EventStore<T, X>,
    cone: &Cone,
    p: &GroundRef<'_>,
    pass: &mut Pass<T>,
    steps: &mut Steps<L>,
) -> Result<Vec<u8>, NoMemory>
    requires named { IsTrue (names_are_names (ground_of p.now)) }
    requires passing { IsPassing T.rank rules.now (history_of T.rank store.now.events) [] (history_of T.rank store.now.events) (ground_of p.now) pass.old }
    requires cone { cone.now ≡ cone_rules rules.now (ground_of p.now) }
    ensures passing { IfOk result (λ text. IsPassing T.rank rules.now (history_of T.rank store.now.events) (history_of T.rank store.now.events) [] (ground_of p.now) pass.new) }
    ensures text { IfOk result (λ text. text.items ≡ label_text rules.now (history_of T.rank store.now.events) T.canon (ground_of p.now) (T.rank pass.old.at)) }
    ensures at { IfOk result (λ text. pass.new.at ≡ pass.old.at) }
{
    let mut label = Label::begin(alloc, p, pass.at)?;
    let mut bits = Vec::new(alloc);
    let mut cursor = store.first();
    while let Some(found) = store.next(cursor) {
        let event = store.event(found.0, steps);
        take_next(pass, &mut label, rules, cone, event, &mut bits, steps)?;
        cursor = found.1;
    }
    label.end()
}

/// Passes over the events of a store, in their order, and finds the label of a property and a time, and whether the
/// property holds there. It keeps what is current at one instant alone, and reads no cache. `Err`: memory ran out.
pub fn find<T: Moment, X: TimeRow<T>, L: Ledger>(
    alloc: Global,
    rules: &Rules,
    store: &EventStore<T, X>,
    p: &GroundRef<'_>,
    at: T,
    steps: &mut Steps<L>,
) -> Result<Finding, NoMemory>
    requires named { IsTrue (names_are_names (ground_of p.now)) }
    ensures label { IfOk result (λ finding. finding.label.items ≡ label_text rules.now (history_of T.rank store.now.events) T.canon (ground_of p.now) (T.rank at)) }
    ensures holds { IfOk result (λ finding. finding.holds ≡ holds_at rules.now (history_of T.rank store.now.events) (ground_of p.now) (T.rank at)) }
{
    let theory = rules.theory();
    let cone = Cone::of(alloc, theory, p)?;
    let first = first_time(store, at, steps);
    let mut pass = Pass::begin(alloc, theory, p, at, first)?;
    let label = write_label(alloc, rules, store, &cone, p, &mut pass, steps)?;
    let holds = pass.finish(theory)?;
    Ok(Finding { label, holds })
}
