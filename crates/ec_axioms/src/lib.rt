//! The event calculus: its definitions and their laws.
//!
//! What is current and what holds, which intervals a property has and why, over a plain list of
//! events: no cache, no order of arrival. The types of events, updates and refusals stand here too,
//! since definitions and code share them, and [`Steps`], by which work is counted.
//!
//! **Proved**: the laws of the calculus (`laws_*.rt`); the definitions on worked examples
//! (`worked_rows.rt`); a plain slow program answers by them ([`holds_plain`]). **Not said**: that
//! the definitions mean what is wanted, which a reader has to judge. Start at
//! `specs/Timeline.antt`, then `specs/Calculus.antt`; `specs/Laws.antt` has the laws.
#![tactic(auto)]

mod currency;
mod current;
mod event;
mod history;
mod in_order;
mod laws_currency;
mod laws_intervals;
mod laws_not_initial;
mod limits;
mod plain;
mod steps;
pub mod worked_rows;

pub use current::Current;
pub use event::{Cut, Event, EventList, Seen, Update};
pub use in_order::is_in_order;
pub use laws_currency::{
    currency_is_the_solution_law, holds_where_current_law, past_is_closed_law,
};
pub use laws_intervals::{
    at_most_one_interval_covers_law, currency_is_of_the_last_mark_law,
    exclusives_share_only_a_beginning_law, holding_is_the_reason_yes_law,
    intervals_are_disjoint_law, spans_are_the_intervals_law, through_is_each_instant_law,
};
pub use laws_not_initial::not_initial_law;
pub use limits::{MOST_EVENTS, MOST_LINKS, MOST_MENTIONS};
pub use plain::holds_plain;
pub use steps::Steps;
