//! Lists in blocks, in which members are put in and taken out cheaply anywhere.
//!
//! [`Blocks`] is one `Vec` while it has few members, and from then on a chain of blocks of at most
//! 128. Room is made beforehand; an edit with room takes no memory. Nothing here speaks of the
//! calculus.
//!
//! **Proved**: each call is exact on the list (`items`), and after a reservation of n any n
//! insertions take no memory (`spare`; `reserve`: `ok`, `most`). **Tested**: that an edit of one
//! member touches little of a long list. **Not said**: how long a call takes. Start at `blocks.rt`,
//! then `chain.rt`; `specs/Chain.antt` says what a chain of blocks is, and `specs/Starts.antt`
//! where they begin.
#![tactic(auto)]

mod bases;
mod blocks;
mod by_place;
mod chain;
mod counts;
mod starts;
mod tiers;

pub use blocks::Blocks;
