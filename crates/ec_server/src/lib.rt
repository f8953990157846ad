//! The server: the loop that answers the lines of an input, and the top call.
//!
//! [`run`] does what the words behind the program's name ask for, and answers the exit status.
//! [`serve`] answers the lines of one input under a theory, and chooses the kind of time and the
//! rows.
//!
//! **Proved**: the bytes written are the replies of a run over the lines of the whole input or file
//! (`run`: `replies`), and each status comes where its clauses say so. **Not said**: which bytes
//! the real input, output and files pass. Start at `top.rt`, then `served.rt` and `input.rt`;
//! `specs/Answered.antt` and `specs/Ends.antt` say what a run comes to.
#![tactic(auto)]

mod commands;
mod ending;
mod file_source;
mod input;
mod laws;
mod piece;
mod replayed;
mod served;
mod soaked;
mod top;

pub use commands::{replay, serve_command};
pub use ec_files::{MOST_REPLAYED, Status};
pub use ending::Ending;
pub use laws::{soak_line_is_one_law, soak_text_is_a_theory_law};
pub use served::{MOST_INPUT, serve};
pub use soaked::soak_command;
pub use top::run;
