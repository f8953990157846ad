//! Kinds of time.
//!
//! A kind of time is a type that implements [`Moment`]: the calculus sees a time by its rank alone,
//! a whole number. [`Tick`] is the one here; civil times are in ec_civil. What a number is, and how
//! it is spelt, is defined here for terms and tokens as well.
//!
//! **Proved**: a number is read exactly ([`read_number`]), and its text is read back. **Not said**:
//! how many bytes a text has, but that it has at most [`LONGEST_MOMENT`]. Start at `moment.rt`;
//! `specs/Number.antt` and `specs/Moment.antt` say what a number and a kind of time are.
#![tactic(auto)]

mod laws;
mod limits;
mod moment;
mod moment_text;
mod number;
mod tick;

pub use laws::{number_edges_law, number_text_law, read_back};
pub use limits::{LONGEST_MOMENT, MOST_DIGITS};
pub use moment::Moment;
pub use moment_text::MomentText;
pub use number::read_number;
pub use tick::Tick;
