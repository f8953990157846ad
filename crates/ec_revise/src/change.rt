//! What a batch of updates comes to, between the list of a store and the list that the batch leaves.
use ec_axioms::EventList;
use ec_context::EntryList;
use ec_moment::Moment;
use ec_terms::{Sequence, Slot};

/// An event that a change takes out of the store: its time, and the slot under which it stands there.
#[derive(Clone, Copy, Debug, PartialEq, Eq)]
pub struct Removal<T> {
    pub at: T,
    pub slot: Slot,
}

/// The events that stand in one of two lists alone: those to take out, by time and then by slot, and those to put in, in
/// the order of a history. Each added event has its entries at the same place of `entries`.
#[derive(Drop)]
pub struct Change<T: Moment> {
    pub remove: Sequence<Removal<T>>,
    pub add: EventList<T>,
    pub entries: Sequence<EntryList>,
}
