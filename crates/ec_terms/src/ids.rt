use ec_lists::Copied;

/// The number under which a property is kept in a table of properties.
#[derive(Clone, Copy, Debug, PartialEq, Eq, PartialOrd, Ord, Hash)]
pub struct PropId(pub usize);

/// The place under which a present event is kept in a store of events.
#[derive(Clone, Copy, Debug, PartialEq, Eq, PartialOrd, Ord, Hash)]
pub struct Slot(pub usize);

impl Copied for PropId {
    fn copied(&self) -> Self {
        *self
    }
}
