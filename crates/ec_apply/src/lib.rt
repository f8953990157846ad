//! Makes the change of all caches that a sweep planned.
//!
//! All memory was taken when the change was planned. So [`apply`] cannot fail: it says anew which
//! entries are active, takes events out and puts them in, changes marks, and mends intervals.
//!
//! **Proved**: afterwards the parts stand for the new list, with the four counts of the change
//! (`apply`: `stands`, `counts`); each removed event is one step (`steps`). **Tested**: that little
//! of a long row is touched. **Not said**: in which order rows change. Start at `caches.rt`;
//! `specs/Aim.antt` says what is to be reached.
#![tactic(auto)]

mod caches;
mod events;
mod flips;
mod mend;
mod switch;

pub use caches::apply;
