//! Ordered rows: the marks of a property, the intervals that it held over, and the times of events.
//!
//! Each kind of row is a trait ([`MarkRow`], [`SpanRow`], [`TimeRow`]), seen by contracts as an
//! ordered list with `spare`, the number of further members that it takes without memory. A row
//! over `Vec` implements each; rows over lists in blocks are in ec_block_rows.
//!
//! **Proved**: each call is exact on the list; a call with room takes no memory; two rows with the
//! same mark at each time are equal ([`rows_ext`]). **Not said**: how much an edit moves. Start at
//! `mark_row.rt`.
#![tactic(auto)]

mod edits;
mod laws;
mod mark;
mod mark_row;
mod search;
mod span;
mod span_row;
mod time_row;
mod vec_marks;
mod vec_spans;
mod vec_times;

pub use laws::rows_ext;
pub use mark::Mark;
pub use mark_row::MarkRow;
pub use search::Timed;
pub use span::{End, Span};
pub use span_row::SpanRow;
pub use time_row::TimeRow;
pub use vec_marks::VecMarks;
pub use vec_spans::VecSpans;
pub use vec_times::VecTimes;
