//! One pass over the events of a history, in their order: whether a property holds at a time, and its
//! label.
//!
//! A *pass* ([`find`]) keeps nothing but which properties are current now, and what the active entries
//! of the present instant start and end. It knows no cache and no sweep, so it is a second way to what a
//! server answers.
//!
//! **Proved**: the label is that of ec_cone byte for byte, and whether the property holds is the
//! calculus's word (`find`: `label`, `holds`). **Not said**: how many steps a pass takes; it evaluates
//! each entry once. Start at `specs/Passing.antt`, which says what is known between two events, and at
//! `pass.rt`.
#![tactic(auto)]

mod beginning;
mod finding;
mod holding;
mod label;
mod looking;
mod outcome;
mod pass;
mod present;
mod settling;
mod taking_in;

pub use finding::{Finding, find};
