//! The handling of one line from the caches, with the drafts of all sessions.
//!
//! [`Sessions`] has the chronicle (ec_past) and a draft for each session. A line is read into a
//! command; an update goes to the chronicle or into its session's draft; a query is answered from
//! the engine.
//!
//! **Proved**: a line is one step of the replies of ec_replies, its text written whole, or a first
//! part of it where the output fails (`Sessions::handle`: `handled`, `failed`), in so many steps
//! (`steps`). **Not said**: when memory runs out. Start at `sessions.rt`; `specs/Answering.antt`
//! and `specs/Handling.antt` say what an answer and a handled line are.
#![tactic(auto)]

mod asked;
mod asking;
mod compared;
mod drafting;
mod drafts;
mod handled;
mod laws;
mod past;
mod reply;
mod sessions;
mod told;
mod updating;

pub use handled::Handled;
pub use laws::{
    drafts_take_their_steps_at_the_commit_law, other_lines_take_no_step_law,
    past_questions_take_their_way_law, queries_on_events_take_their_steps_law,
};
pub use sessions::Sessions;
