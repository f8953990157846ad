//! What all lists share: copies, the want of memory, and lemmas.
//!
//! The lowest crate. [`Copied`] is a copy that takes memory and may fail; [`NoMemory`] is the one
//! answer for that, made here alone; [`add_counts`] adds two counts of members. Most of the crate
//! is lemmas on truth values, numbers, options and lists (`proofs/`), stated once for all crates.
//!
//! **Proved**: a copy is equal; two counts are added, or their sum is past 64 bits (`many`). **Not
//! said**: that there is memory where a call says that there was none. `specs/Reserved.antt` says
//! what a list with room is.
#![tactic(auto)]

mod copied;
mod counts;
mod no_memory;

pub use copied::Copied;
pub use counts::add_counts;
pub use no_memory::NoMemory;
