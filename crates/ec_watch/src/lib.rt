//! What the sessions watch.
//!
//! A session watches properties, at most `MOST_WATCHED` of them. [`Watches`] keeps each watched property once, with the sessions that watch it,
//! in term order. A contract sees these rows, and `watched_by_each` of them: a list of properties for each session, in term order.
//!
//! All room is taken at once, when there is no watch yet: so no later call takes memory. It is an address for each place and
//! no more until a place is used, since a system gives memory to what is written.
//!
//! While a change is made, [`Tails`] keep what it may move: of each watched property of which it may move an interval, the
//! intervals that do not end before the first instant at which its marks change. What was lost and gained is found between these
//! and the present intervals that stand in their place.
//!
//! **Proved**: each call is exact on the lists, and tails are those of all watched properties that a change may move. **Not
//! said**: how long a search takes. Start at `watches.rt`, and for tails at `tails.rt`.
#![tactic(auto)]

mod kept_term;
mod row;
mod tails;
mod watches;

pub use kept_term::KeptTerm;
pub use row::Row;
pub use tails::{Tail, Tails};
pub use watches::{WatchRefusal, Watches};
