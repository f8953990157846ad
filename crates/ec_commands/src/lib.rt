//! What lines and replies are made of: how an input is cut into lines, what a line asks, and the
//! texts of the answers.
//!
//! This crate is definitions. [`Lines`](specs) says where a line ends and what its words are,
//! `Commands` which command the words make and which of them are queries of one list of events,
//! `Answers` how the answers of fixed form read, `QueryTexts` how the replies to queries read, byte for
//! byte. They speak of the calculus (ec_axioms) and of nothing that a program keeps. ec_lines reads and
//! writes by them; ec_replies says which reply a line gets.
//!
//! `Relations` says in which of Allen's relations two intervals stand, and by which word each is asked for.
//!
//! **Proved**: the worked replies, by computation, and the laws of the relations. In code there are the
//! keywords, the relations, and the limits on lines, drafts and sessions.
#![tactic(auto)]

mod keyword;
mod limits;
mod relation;
pub mod worked_replies;

pub use keyword::{Keyword, read_keyword};
pub use limits::{LONGEST_LINE, MOST_DRAFTED, MOST_PAIRS, MOST_PAST, MOST_WATCHED, SESSIONS};
pub use relation::{
    Relation, intervals_stand_in_one_relation_law, read_relation, relations_have_inverses_law,
};
