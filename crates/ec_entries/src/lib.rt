//! The entries of events by slot, and for each property its dependents.
//!
//! The dependents of a property are the entries with a literal on it, by time: what an update has
//! to look at again where the property turns. [`Entries`] keeps both, with which entries are
//! active.
//!
//! **Proved**: the dependents are exactly these, each once, in order; room is made first, and then
//! an event comes without memory (`prepare`: `room`; `insert`: `kept`). **Not said**: how much an
//! insertion moves. Start at `entries.rt`; `specs/Dependents.antt` says what dependents are.
#![tactic(auto)]

mod entries;
mod event_entries;
mod noting;
mod ordered;
mod reserving;

pub use entries::{Entries, EntryLists};
pub use event_entries::{Dependent, EventEntries};
