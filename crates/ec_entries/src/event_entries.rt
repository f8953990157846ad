use ec_context::EntryList;
use ec_lists::Copied;
use ec_moment::Moment;
use ec_terms::Slot;

/// What is kept of one event: its time, its entries, and which of them are active. Bit k of `active` stands for the
/// entry at place k of the list.
#[derive(Drop)]
pub struct EventEntries<T> {
    pub at: T,
    pub list: EntryList,
    pub active: u64,
}

/// An entry with a literal on some property: the time of its event, the slot of the event, and the entry's place in
/// the list of that slot.
#[derive(Clone, Copy, Debug, PartialEq, Eq)]
pub struct Dependent<T> {
    pub at: T,
    pub slot: Slot,
    pub place: u8,
}

impl<T: Moment> Copied for Dependent<T> {
    fn copied(&self) -> Self {
        *self
    }
}
