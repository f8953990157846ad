//! The input and the output of a soak run.
//!
//! [`SoakSource`] gives the lines that a seed makes, one after the other, and [`TallySink`] counts
//! replies in place of writing them. So a run of a hundred thousand lines needs no file.
//!
//! **Proved**: the bytes are those of the definition, and the counts are those of what was written
//! ([`write_summary`]: `written`). **Not said**: that the generated lines try much. Start at
//! `soak_source.rt`; `specs/Load.antt` and `specs/Tally.antt` are the definitions.
#![tactic(auto)]

mod counts;
mod draws;
mod generated_line;
mod generated_lines;
mod laws;
mod line_text;
mod soak_source;
mod summary;
mod tally_sink;

pub use counts::Counts;
pub use generated_line::{GeneratedEvent, GeneratedLine};
pub use laws::{first_draws_law, load_lines_law, small_counts_law};
pub use soak_source::SoakSource;
pub use summary::write_summary;
pub use tally_sink::TallySink;
