//! A list of events with its past.
//!
//! A [`Chronicle`] is an engine (ec_engine) with a journal of the updates that led to its list. The journal keeps each single update
//! with the event that it added or removed, a *record*, as a log with undo and redo does: so each list of the past can be had from the
//! present one, and the present one from it. How far back is a limit by weight: a commit weighs as many updates as it has.
//!
//! A list of the past is asked of an engine of its own, which stays at the list that was asked last (`go_to` makes it ready and `at` lends
//! it). It goes from there to the next by one batch, of the updates that lie between: so asking about one list again and again costs what
//! asking about the present one does.
//!
//! **Proved**: an update does to the list what it does to that of the engine, and leaves the past with one accepted update more, or as
//! it was (`revised` and `past` of `assert`, `retract` and `commit`); what is asked of the past is the list after so many accepted
//! updates, and the way there takes steps by the work between the two lists (`list` of `at`, `steps` of `go_to`). **Not said**: how much
//! memory the journal and the engine of the past take. Start at `chronicle.rt`; `specs/Journals.antt` says what a journal is, and
//! `specs/Viewing.antt` when a list of the past is ready.
#![tactic(auto)]

mod chronicle;
mod copying;
mod journal;
mod log_record;
mod past_engine;
mod recording;
mod refusing;
mod ways;

pub use chronicle::Chronicle;
