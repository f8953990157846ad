//! How the intervals of two properties relate, and what a property lost and gained, told from the caches without memory.
//!
//! Two intervals stand in one of Allen's thirteen relations ([`relation`]). Against one interval, the intervals of a property
//! are three runs: those that end before it begins, those that touch it, and those that begin after it ends. Only what
//! touches is compared, in one walk over the intervals of both properties, and `before` and `after` are counted without a
//! look at any interval.
//!
//! A note tells which intervals of a watched property an update took, and which it gave. Only what stands behind the first
//! intervals that stayed is compared, with a search for each.
//!
//! **Proved**: the pairs that are told are exactly those in the asked relation, byte for byte ([`write_pairs`],
//! [`write_related`]), and their count tells whether a reply lists so many ([`count_pairs`]); and the notes are exactly those
//! of what each session watches ([`write_notes`]). **Tested**: how long it takes.
//! Start at `touching.rs`; what the replies say is in `QueryTexts` and `Relations` of ec_commands.
#![tactic(auto)]

mod comparing;
mod covering;
mod fronted;
mod listed;
mod missing;
mod notes;
mod pairs;
mod related;
mod standing;
mod touching;
mod zone;

pub use comparing::relation;
pub use notes::write_notes;
pub use pairs::{count_pairs, write_pairs};
pub use related::write_related;
