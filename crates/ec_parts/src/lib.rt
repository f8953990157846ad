//! The parts of the engine, and what it is that they stand for a list of events.
//!
//! [`Parts`] has the store, the tables of properties and neighbours, the entries, the marks and the
//! intervals. The tables can be ahead of the caches by some events: so an update is tried in them
//! first.
//!
//! **Proved**: what an event's entries name newly joins all parts ([`enter`]), its mentions come
//! and go ([`mention_all`], [`release_all`]), and what nothing mentions is forgotten ([`forget`]),
//! while the parts go on standing for the lists that they stood for. **Not said**: how much memory
//! the parts take. Start at `parts.rt`; `specs/StandFor.antt` says what the parts stand for,
//! `specs/Caches.antt` what each cache holds.
#![tactic(auto)]

mod adopting;
mod entering;
mod forgetting;
mod gathering;
mod initials;
mod laws;
mod links;
mod mention;
mod parts;
mod slots;
mod tables;
mod tally;

pub use entering::enter;
pub use forgetting::forget;
pub use initials::{boxed, new_parts};
pub use laws::initials_are_listed_law;
pub use parts::Parts;
pub use slots::{mention_slot, note_props, release_slot};
pub use tables::{mention_all, release_all};
pub use tally::Tally;
