//! Which properties of a table are exclusive to which.
//!
//! [`Neighbours`] keeps for each added property those that exclude it. A new one is compared only
//! with properties that share a key with it, by a declaration and the values of the variables that
//! both sides share. [`CurrentProps`] is a set without such lists, for a pass over events.
//!
//! **Proved**: a property's neighbours are exactly the added ones exclusive to it, in the order of
//! numbers (`of`: `list`, `exclusive`), whatever the keys are. **Not said**: how many are compared.
//! Start at `neighbours.rt`; `specs/Neighbours.antt` says what the lists are.
#![tactic(auto)]

mod current_props;
mod forms;
mod group;
mod groups;
mod keys;
mod laws;
mod neighbours;
mod rows;
mod search;

pub use current_props::CurrentProps;
pub use ec_terms::are_exclusive as exclusive;
pub use laws::neighbours_read_terms_alone;
pub use neighbours::Neighbours;
