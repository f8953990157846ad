//! The marks of each property, by its number, and the currency that is read off them.
//!
//! A mark counts how often a property is initiated, terminated and clashed with at an instant.
//! Whether it is current is what its last mark before says. [`Points`] has a row of marks for each
//! property, and all clashes by time.
//!
//! **Proved**: room is made first, and then a change takes no memory and leaves exactly the marks
//! that it says (`reserve`: `room`; `apply`: `marks`); currency is that of the calculus
//! (`laws.rt`). **Not said**: how long a read takes. Start at `points.rt`; `specs/Changes.antt` and
//! `specs/CurrencyLaws.antt` have the words.
#![tactic(auto)]

mod change;
mod clashes;
mod laws;
mod noted;
mod points;
mod reading;
mod row;
mod rows;

pub use change::MarkChange;
pub use laws::{
    changes_are_made, currency_is_of_the_past, past_is_known_by_times, points_tell_currency,
};
pub use points::Points;
pub use reading::Reading;
