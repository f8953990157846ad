//! The trial of a batch of updates in the tables alone.
//!
//! [`attempt`] walks from list to list, one update after the other; the caches stay as they are. So
//! a refusal is told before anything else changes. [`net_change`] then finds what goes and what
//! comes, and [`undo`] goes all the way back.
//!
//! **Proved**: the walk comes to the list after all updates, or the batch is refused for the first
//! one that is, with its place, and the parts stand for the list of the store as before (`attempt`:
//! `goes`); the steps are at most twice the updates. **Not said**: which update memory ran out at.
//! Start at `attempting.rt`, then `walk.rt`; `specs/Walk.antt` says what a walk has come to.
#![tactic(auto)]

mod attempting;
mod change_back;
mod coming_in;
mod idle;
mod limited;
mod net;
mod net_changes;
mod refusal;
mod through;
mod walk;
mod walk_back;

pub use attempting::{attempt, attempt_one, start};
pub use change_back::undo_change;
pub use coming_in::{come_in, let_in};
pub use idle::forget_idle;
pub use net::{Added, Net, Nets};
pub use net_changes::net_change;
pub use refusal::Refusal;
pub use through::walk_in;
pub use walk::{Stop, Walk};
pub use walk_back::undo;
