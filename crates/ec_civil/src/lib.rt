//! Civil time: days and times of day in UTC, to the second, as a kind of time.
//!
//! A [`Civil`] is a moment that is spelt as `2024-02-29T09:00:00Z`. `specs/Civil.antt` defines which bytes
//! spell one, which rank it has, and which text a rank has.
//!
//! **Proved**: a civil time is read, written and ordered by these definitions, as the trait `Moment` wants
//! it; each civil time has one spelling, and each rank of the range a text that is read back (`laws.rt`).
#![tactic(auto)]

mod civil;
mod laws;
mod limits;
mod stamp;

pub use civil::Civil;
pub use laws::{civil_edges_law, civil_text_law, one_spelling_law};
pub use limits::MOST_CIVIL;
