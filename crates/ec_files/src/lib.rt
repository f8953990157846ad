//! What the words behind the program's name ask for, and what is done for them that serves no lines: theories are read from their
//! files and checked, certificates are written and verified.
//!
//! A *claim* says that a property holds at a time, by a theory and an event file. [`certify_command`] decides it: it writes a
//! certificate (ec_cert), or says what one comes to. Serving (ec_server) stands on this crate for its words, theories and statuses.
//!
//! **Proved**: which words have a shape ([`shape_of`]); what each status of [`check_command`] and [`certify_command`] says of the
//! files and of what was written (`checked`, `certified`), with the order in which files are read. Start at `specs/Words.antt` and
//! `specs/Claims.antt`, where `claim_outcome` is what a claim comes to by the files of a folder; for the code at `words.rt`.
#![tactic(auto)]

mod answering;
mod certifying;
mod checking;
mod claim;
mod line_file;
mod no_answer;
mod status;
mod theory_file;
mod theory_text;
mod words;

pub use certifying::certify_command;
pub use checking::{check_command, hand_on_line, refuse, refuse_words};
pub use claim::Claim;
pub use line_file::MOST_REPLAYED;
pub use status::Status;
pub use theory_file::{NoTheory, load};
pub use words::{Shape, shape_of};
