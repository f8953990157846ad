//! The forward sweep, as laws: how the caches of one list of events become those of another.
//!
//! A sweep goes over the instants from the first event of one list alone on, and finds which
//! properties differ, which marks change and which entries turn. Here are its invariant, the laws
//! by which it starts, passes quiet instants, visits one and ends, and its smallest steps in code.
//! ec_sweep does the walk.
//!
//! **Proved**: where nothing is left to visit, what was found is what the new list has
//! (`sweep_ends_law`); a property settled at an instant has its new mark ([`settle`]: `mark`,
//! `dirty`). **Not said**: in which order a program looks at things. Start at `specs/Sweep.antt`,
//! then `laws.rt`.
#![tactic(auto)]

mod change;
mod laws;
mod settled;
mod tally;
mod turn;

pub use change::{Change, Removal};
pub use laws::{
    hits_are_seen_law, marks_are_after_turns_law, sweep_ends_law, sweep_passes_law,
    sweep_starts_law, sweep_visits_law, tallies_go_by_term_law,
};
pub use settled::{Counts, Currencies, Settled, Tallied, settle};
pub use tally::Tally;
pub use turn::Turn;
