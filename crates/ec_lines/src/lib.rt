//! Lines: how bytes are cut into them, what a line asks, and how an answer is written.
//!
//! A [`Feed`] takes the bytes of an input piece by piece and gives out whole lines.
//! [`read_command`] reads a line into a [`Command`]; [`write_answer`] writes an [`Answer`] of fixed
//! form. The definitions are those of ec_commands.
//!
//! **Proved**: pieces make exactly the lines of their joined bytes; a command is what the line says
//! (`read_command`: `names`, `session`); an answer is written byte for byte, or a first part of it
//! where the output fails. **Not said**: what the reply to a line is. Start at `feed.rt` and
//! `line_reading.rt`; `specs/ShownCommand.antt` says what a command is to the definitions.
#![tactic(auto)]

mod answer;
mod arguments;
mod command;
mod count;
mod feed;
mod line;
mod line_reading;
mod line_words;
mod reply_text;
mod splitting;

pub use answer::{Answer, write_answer, write_front, write_text};
pub use arguments::read_term;
pub use command::{Command, Parsed, Query};
pub use ec_axioms::Cut;
pub use ec_commands::LONGEST_LINE;
pub use feed::Feed;
pub use line::Line;
pub use line_reading::read_command;
pub use reply_text::ReplyText;
pub use splitting::split_line;
