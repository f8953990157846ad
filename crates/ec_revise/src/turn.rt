//! What turned at an instant, by the numbers of properties.
use ec_terms::{Kind, PropId};

/// An entry that came to act at an instant, or ceased to: what it does, and to which property.
#[derive(Clone, Copy, Debug, PartialEq, Eq)]
pub struct Turn {
    pub up: bool,
    pub kind: Kind,
    pub head: PropId,
}
