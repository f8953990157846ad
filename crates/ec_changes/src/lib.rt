//! The laws of change: how the calculus of one list of events comes from that of another.
//!
//! No code: each function's contract is a law over every theory and any two lists, at each whole
//! number. A sweep between two lists rests on them: what is quiet passes on, only what sees a
//! change turns, marks follow turns, the past stays.
//!
//! **Proved**: 34 laws, in `laws_*.rt`, and what the words say of two examples
//! (`worked_changes.rt`). Start at `specs/Differences.antt`, which says when two lists differ and
//! what is quiet, and `specs/Turns.antt`.
#![tactic(auto)]

mod laws_counts;
mod laws_inert;
mod laws_links;
mod laws_live;
mod laws_quiet;
mod laws_turns;
pub mod worked_changes;

pub use laws_counts::{
    counts_are_sums_law, kept_counts_are_whole_law, kept_counts_go_on_law,
    other_intervals_differ_law, properties_in_any_list_law, quiet_counts_nothing_law,
    same_list_changes_nothing_law,
};
pub use laws_inert::inert_changes_keep_intervals_law;
pub use laws_links::{
    links_are_of_mentions_law, links_in_any_order_law, mentions_with_event_law,
    mentions_without_event_law, one_mention_more_law,
};
pub use laws_live::{
    clashes_are_initiations_law, fixed_initials_are_listed_law, live_is_listed_law,
    marks_are_small_law, not_live_is_gathered_law, not_live_is_unknown_law,
    what_differs_is_live_law,
};
pub use laws_quiet::{
    currency_behind_marks_law, currency_goes_on_law, events_stay_law, past_stays_law,
    quiet_entries_stay_law, quiet_instants_pass_on_law, quiet_stretches_pass_on_law,
};
pub use laws_turns::{
    effects_follow_turns_law, kept_is_of_both_law, marks_follow_turns_law,
    same_events_same_history_law, seeing_is_reading_law, seen_in_any_order_law, unseen_stays_law,
};
