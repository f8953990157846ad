//! The forward sweep, which plans the change of all caches.
//!
//! It visits the instants at which something may differ between the list of the store and the list
//! that the tables have, from the first one on. At each it looks at the entries that see a change,
//! and settles the properties that turned.
//!
//! **Proved**: what it plans is the change between the two lists, ready to be made, with all its
//! room ([`plan`]: `ready`); or memory ran out, and the change is given back (`back`); either way
//! the parts stand for the lists that they stood for (`stands`); the steps are bounded by what the
//! change turns (`steps`). **Not said**: how long it takes. Start at `planning.rt`, then
//! `sweep.rt`; `specs/Sweeping.antt` says what is found so far, `specs/State.antt` what a sweep is
//! between.
#![tactic(auto)]

mod dirty;
mod due;
mod hits;
mod lists;
mod look;
mod look_hits;
mod looking;
mod next_time;
mod places;
mod planning;
mod progress;
mod rooms;
mod runs;
mod scratch;
mod settle_all;
mod settle_one;
mod settle_rows;
mod sweep;
mod turned;
mod words;

pub use dirty::{Dirty, Overlay};
pub use lists::Lists;
pub use planning::plan;
pub use progress::Progress;
