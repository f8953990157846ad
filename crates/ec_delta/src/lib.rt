//! The change that a sweep plans: from the caches of one list of events to those of another.
//!
//! A [`Delta`] is what must change: events that come and go, entries that turn, marks, and where
//! each property's marks change. The sweep (ec_sweep) fills it while nothing has changed yet;
//! ec_apply makes it.
//!
//! **Proved**: each call is exact on the lists of a delta. **Not said**: that a delta is right;
//! that is the sweep's contract. Start at `delta.rt`; `specs/Ready.antt` says when a change is
//! ready to be made.
#![tactic(auto)]

mod delta;
mod flips;
mod touches;

pub use delta::{Delta, Looked, Planned};
pub use flips::Flip;
pub use touches::{Touch, Touched, Touches};
