//! Certificates: what a property's holding at a time rests on, as a text that others can check.
//!
//! An *event file* has an event a line, and nothing else but silent lines; [`read_events`] reads
//! one. The *label* of a property and a time (ec_cone) is made from the events of such a file; a
//! *certificate* is a text that claims to be the label.
//!
//! **Proved**: which events a file tells, and the first of its lines that is refused, with its name
//! (`read_events`: `events`, `fault`); what a certificate comes to beside its label, with the line at
//! which it leaves it ([`verdict_of`]); that each proof that is written verifies
//! (`written_certificates_verify_law`); which text proves that a property holds by the events of a
//! file, and what a certificate for it comes to, both by one pass over the events ([`prove`],
//! [`verify`]). **Not said**: how many steps that takes. Start at
//! `specs/EventFile.antt` and `specs/Verdicts.antt`; `worked_files.rt` and `worked_verdicts.rt` show
//! both on small files. For the code start at `event_file.rt`.
#![tactic(auto)]

mod comparing;
mod event_fault;
mod event_file;
mod file_line;
mod laws;
mod limits;
mod proving;
mod telling;
mod verdict;
pub mod worked_files;
pub mod worked_verdicts;

pub use comparing::verdict_of;
pub use event_fault::{EventFault, EventName};
pub use event_file::{EventFile, read_events};
pub use laws::written_certificates_verify_law;
pub use proving::{prove, verify};
pub use telling::{write_events_line, write_verdict_line};
pub use verdict::Verdict;
