//! Tests: calls of the layers below the server, each used as the layers above use it.
//!
//! A module for each kind of call. [`tables`] reads the table of a test from a text; [`tally`] is a
//! span row that counts what its splices touched. Nothing here has a contract that others rest on.
#![tactic(auto)]

#[cfg(test)]
mod agenda;
#[cfg(test)]
mod answers;
#[cfg(test)]
mod block_spans;
#[cfg(test)]
mod block_times;
#[cfg(test)]
mod blocks;
#[cfg(test)]
mod certificates;
#[cfg(test)]
mod cones;
#[cfg(test)]
mod event_files;
#[cfg(test)]
mod events;
#[cfg(test)]
mod intervals;
#[cfg(test)]
mod maps;
#[cfg(test)]
mod moment;
#[cfg(test)]
mod numbered;
#[cfg(test)]
mod outside;
#[cfg(test)]
mod plain;
#[cfg(test)]
mod rows;
#[cfg(test)]
mod soak;
#[cfg(test)]
mod splitting;
#[cfg(test)]
mod steps;
pub mod tables;
pub mod tally;
#[cfg(test)]
mod terms;
#[cfg(test)]
mod tokens;
#[cfg(test)]
mod watches;
