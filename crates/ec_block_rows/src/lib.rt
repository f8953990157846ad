//! Ordered rows of marks, spans and times, each over a list in blocks.
//!
//! A late event in a long history changes a row in the middle. Over a list in blocks that moves one
//! block and not all behind it.
//!
//! **Proved**: [`BlockMarks`], [`BlockSpans`] and [`BlockTimes`] keep the contracts of rows
//! (ec_rows), as rows over a `Vec` do. **Not said**: how much an edit moves. Start at
//! `block_marks.rt`.
#![tactic(auto)]

mod block_marks;
mod block_spans;
mod block_times;
mod search;

pub use block_marks::BlockMarks;
pub use block_spans::BlockSpans;
pub use block_times::BlockTimes;
