//! The entries of an event over a table of properties, and whether an entry is active.
//!
//! An entry is a rule that an event meets, with its head and literals as numbers of the table
//! ([`entries_of`]). [`Rules`] finds the rules for an event's name and number of arguments.
//! [`evaluate`] asks whether an entry is active, by what is current, and takes a step: it is the
//! unit of counted work.
//!
//! **Proved**: the entries are those of the definitions, and to evaluate one is to ask whether it
//! is active (`evaluate`: `active`, `step`); after memory ran out the table is as it was. **Not
//! said**: how long a rule takes to match. Start at `entries.rt` and `activity.rt`;
//! `specs/Entries.antt` says what an entry by number is.
#![tactic(auto)]

mod activity;
mod entries;
mod entry;
mod keeping;
mod laws;
mod rules;

pub use activity::evaluate;
pub use entries::entries_of;
pub use entry::{Entry, EntryList, EntryLiteral, EntryLiterals, MOST_ENTRIES, MOST_LITERALS};
pub use keeping::forget_each;
pub use laws::evaluating_is_activity_law;
pub use rules::Rules;
