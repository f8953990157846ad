//! Tests: the calls of the tables and caches that the engine keeps, each used as the engine uses
//! it.
//!
//! A module for each; and an engine over rows that count their splices, so that it is seen how
//! little an update writes of its spans. Nothing here has a contract that others rest on.
#![tactic(auto)]

#[cfg(test)]
mod built;
#[cfg(test)]
mod delta;
#[cfg(test)]
mod entries;
#[cfg(test)]
mod exclusive;
#[cfg(test)]
mod fixtures;
#[cfg(test)]
mod points;
#[cfg(test)]
mod points_tally;
#[cfg(test)]
mod props;
#[cfg(test)]
mod revise;
#[cfg(test)]
mod spans;
