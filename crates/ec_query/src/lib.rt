//! Queries and reasons, answered from the caches without memory.
//!
//! Each query has a file that writes its reply: what holds, what broke, what clashed, which events
//! there are. [`why`] finds the reason why a property holds at a time or does not, with its first
//! causes.
//!
//! **Proved**: each reply is that of the definitions, byte for byte, or a first part of it where
//! the output fails; a reason is that of the calculus, found in at most two steps for each event at
//! its instants (`why`: `reason`, `steps`). **Not said**: how long a search takes. Start at
//! `held.rt` and `explaining.rt`; `specs/Held.antt` says what the caches must hold.
#![tactic(auto)]

mod begin_text;
mod broken_reply;
mod causes;
mod clash_reply;
mod counted;
mod event_reply;
mod explaining;
mod held;
mod held_list;
mod interval_reply;
mod last_begins;
mod marked;
mod member_text;
mod next_breaks;
mod property_reply;
mod reason;
mod reason_text;
mod sought;
mod stretches;
mod why_reply;

pub use broken_reply::broken;
pub use clash_reply::clashes;
pub use counted::write_count;
pub use event_reply::events;
pub use explaining::why;
pub use held::{Held, holds_at};
pub use interval_reply::intervals;
pub use marked::Marked;
pub use member_text::{MemberText, set_interval};
pub use property_reply::at;
pub use reason::{Cause, Origin, Reason};
pub use stretches::through;
pub use why_reply::{write_reason, write_why};
