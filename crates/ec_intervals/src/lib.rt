//! The maximal validity intervals of each property, by its number, made from its row of marks
//! alone.
//!
//! [`Intervals`] makes them anew (`rebuild`), or mends them from the first changed mark to the
//! first unchanged one behind the last (`splice_from`), and tells whether they differ.
//!
//! **Proved**: the intervals are those that the row spells, after either call, without memory
//! (`intervals`, `differs`), and whether a property holds at a time. **Tested**: that mending
//! touches little of a long row. **Not said**: how long it takes. Start at `intervals.rt`;
//! `specs/Drafts.antt` and `specs/ChangedRows.antt` say how marks are read and what a changed
//! instant does.
#![tactic(auto)]

mod broken;
mod counts;
mod draft;
mod interval;
mod intervals;
mod laws;
mod near;
mod reach;
mod reaches;
mod row;
mod rows;
mod steps;
mod window;
mod write;

pub use broken::broken_after;
pub use interval::{Begin, Interval};
pub use intervals::Intervals;
pub use laws::{
    growth_is_bounded_law, inert_marks_spell_nothing_law, marks_are_read_in_parts_law,
    open_begins_are_told_by_one_mark_law, spans_are_few_law, what_ends_before_a_change_stays_law,
};
pub use near::Near;
