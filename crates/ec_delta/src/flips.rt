use ec_terms::Slot;

/// An event that stands in both lists and of which other entries are active in the new one: its slot, and which are active
/// there. Bit k stands for the entry at place k.
#[derive(Clone, Copy, Debug, PartialEq, Eq)]
pub struct Flip {
    pub slot: Slot,
    pub active: u64,
}
