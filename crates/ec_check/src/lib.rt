//! Well-formed theories.
//!
//! [`check`] takes a theory that was read, and gives it back as [`Checked`], or tells the first
//! fault of the clause with the least number that has one: arity, a variable that the event does
//! not bind, a limit.
//!
//! **Proved**: a checked theory is the one that was given, without a fault, and can be matched
//! (`check`: `ok`, `sound`; `Checked::theory`); a fault is the first one (`err`, `first`). It takes
//! no memory. **Not said**: how long it takes. Start at `checked.rt`; `specs/Faults.antt` says what
//! a fault is, and `specs/WellFormed.antt` what a theory without one is.
#![tactic(auto)]

mod checked;
mod clauses;
mod fault;
mod limits;
mod rules;

pub use checked::{Checked, check};
pub use fault::{CheckFault, Many};
pub use limits::{
    MOST_EVENT_RULES, MOST_EXCLUSIVES, MOST_INITIALS, MOST_LITERALS, MOST_RULES, MOST_STRONGS,
    MOST_TESTS,
};
