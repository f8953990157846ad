//! What refuses an update for which there is no memory: a cause that takes none to find, or the want of memory.
ghost use Rattle.std.specs.Prelude.{◌≡◌, List, ◌∷◌, Err, map};
ghost use Rattle.ec_axioms.specs.Calculus.{PlainEvent};
ghost use Rattle.ec_axioms.specs.Changes.{PlainUpdate, asserting, retracting};
ghost use Rattle.ec_axioms.specs.Events.{plain_update};
ghost use Rattle.ec_engine.specs.Revise.{IsRevised};
ghost use Rattle.ec_replies.specs.RunLaws.{IsListWithinLimits};
ghost use Rattle.ec_store.specs.Store.{history_of};
ghost use Rattle.ec_past.specs.Chronicles.{IsCommitted};

use ec_axioms::{Cut, MOST_EVENTS, Update};
use ec_engine::{Engine, Refusal};
use ec_lists::NoMemory;
use ec_moment::Moment;
use ec_rows::{MarkRow, SpanRow, TimeRow};
use ec_store::EventStore;
use ec_terms::Name;

/// The events of an engine, which are a history within the limits.
pub(crate) fn store_of<T: Moment, M: MarkRow<T>, I: SpanRow<T>, X: TimeRow<T>>(
    engine: &Engine<T, M, I, X>,
) -> &EventStore<T, X>
    ensures events { history_of T.rank result.now.events ≡ engine.now.events }
    ensures within { IsListWithinLimits engine.now.theory engine.now.events }
{
    let store = &engine.parts().store;
    let _ = store.len(); // the events are a history
    store
}

/// Why updates that begin by asserting an event of an identity are refused where memory is wanting.
pub(crate) fn refused_arrival<T: Moment, M: MarkRow<T>, I: SpanRow<T>, X: TimeRow<T>>(
    engine: &Engine<T, M, I, X>,
    id: Name,
    none: NoMemory,
) -> Refusal
    ensures { (event : PlainEvent) (rest : List PlainUpdate) → event.id ≡ id → IsRevised engine.now.theory engine.now.events (asserting event ∷ rest) (Err result) engine.now.events }
{
    let store = store_of(engine);
    if store.find(&id).is_some() {
        let cut = Cut::Duplicate(id);
        return Refusal::Update { place: 1, cut };
    }
    if store.len() as u64 >= MOST_EVENTS {
        let cut = Cut::FullEvents;
        return Refusal::Update { place: 1, cut };
    }
    Refusal::Memory(none)
}

/// Why updates that begin by retracting an identity are refused where memory is wanting.
pub(crate) fn refused_departure<T: Moment, M: MarkRow<T>, I: SpanRow<T>, X: TimeRow<T>>(
    engine: &Engine<T, M, I, X>,
    id: Name,
    none: NoMemory,
) -> Refusal
    ensures { (rest : List PlainUpdate) → IsRevised engine.now.theory engine.now.events (retracting id ∷ rest) (Err result) engine.now.events }
{
    if store_of(engine).find(&id).is_some() {
        Refusal::Memory(none)
    } else {
        let cut = Cut::Unknown(id);
        Refusal::Update { place: 1, cut }
    }
}

/// Why a batch is refused where memory is wanting.
pub(crate) fn refused_batch<T: Moment, M: MarkRow<T>, I: SpanRow<T>, X: TimeRow<T>>(
    engine: &Engine<T, M, I, X>,
    batch: &[Update<T>],
    none: NoMemory,
) -> Refusal
    ensures { IsCommitted engine.now.theory engine.now.events (map (plain_update T.rank) batch.now) (Err result) engine.now.events }
{
    match batch.first() {
        Some(Update::Assert(event)) => refused_arrival(engine, event.id.copied(), none),
        Some(Update::Retract(id)) => refused_departure(engine, id.copied(), none),
        None => Refusal::Memory(none),
    }
}
