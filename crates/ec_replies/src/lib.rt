//! The replies of a state to lines, and the runs that lines make.
//!
//! No code: definitions and laws. A state is the present events, what the last update changed, a
//! draft for each session, the past, and what each session watches. A line is answered by a reply
//! and leaves a state; a run takes the lines in order, up to `quit`.
//!
//! **Proved**: a refused line changes nothing; a commit is all or nothing; a session sees its own
//! draft alone; queries change nothing; the past is remembered as long as it is kept; notes tell
//! the intervals (`laws_*.rt`). **Not said**: how a program finds a reply. Start at
//! `specs/State.antt`, `specs/Replies.antt` and `specs/Runs.antt`.
#![tactic(auto)]

mod laws_notes;
mod laws_past;
mod laws_replies;
mod laws_runs;
mod worked;

pub use laws_notes::{
    followed_notes_tell_the_intervals_law, no_note_where_nothing_differs_law, notes_are_told_law,
    notes_tell_the_intervals_law,
};
pub use laws_past::{
    accepted_updates_are_counted_law, accepted_updates_can_be_taken_back_law,
    the_past_is_remembered_law, the_window_is_widest_law, windows_are_widest_law,
};
pub use laws_replies::{
    begins_and_aborts_law, commits_are_whole_law, only_accepted_lines_change_law,
    others_keep_a_draft_law, queries_ignore_drafts_law, replies_depend_on_own_draft_law,
    updates_are_made_or_held_law, watches_and_unwatches_law, watches_show_in_notes_alone_law,
    without_memory_a_step_is_the_reply_law,
};
pub use laws_runs::{
    output_tells_the_state_law, runs_are_of_lines_law, runs_go_on_law, runs_stay_within_limits_law,
    sessions_without_effect_are_unseen_law, without_memory_a_run_is_one_law,
};
pub use worked::{
    a_commit_is_refused_at_its_second_update, a_lamp_is_plugged_and_pushed,
    a_state_has_all_drafts_closed, a_watched_lamp_is_noted, two_lamps_are_compared,
    two_sessions_do_not_see_each_other, what_was_known_is_asked_for,
};
