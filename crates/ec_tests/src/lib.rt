//! Tests: whole runs of the program's top call, over folders, sources and sinks in memory.
//!
//! A row of a table is a run (`cases.rt`), or a line beside its reply (`dialogue.rt`). Nothing here
//! has a contract that others rest on.
#![tactic(auto)]

#[cfg(test)]
mod cases;
#[cfg(test)]
mod certificates;
#[cfg(test)]
mod civil;
#[cfg(test)]
mod clauses;
#[cfg(test)]
mod compared;
#[cfg(test)]
mod dialogue;
#[cfg(test)]
mod faults;
#[cfg(test)]
mod full;
#[cfg(test)]
mod initial;
#[cfg(test)]
mod library;
#[cfg(test)]
mod limits;
#[cfg(test)]
mod lines;
#[cfg(test)]
mod matching;
#[cfg(test)]
mod past;
#[cfg(test)]
mod replayed;
#[cfg(test)]
mod soaked;
#[cfg(test)]
mod spelling;
#[cfg(test)]
mod texts;
#[cfg(test)]
mod theories;
#[cfg(test)]
mod whole;
#[cfg(test)]
mod worked;
