//! The engine: a list of events under a theory, changed by batches of updates.
//!
//! A batch is tried in the tables (ec_batch), its change is planned (ec_sweep) and made (ec_apply),
//! and what nothing mentions any more is forgotten. Where it is refused or memory runs out, all
//! goes back.
//!
//! **Proved**: a batch leaves the list after all its updates, with the four counts, or the list as
//! it was (`Engine::revise`: `revised`), in steps by the work between the two lists (`steps`); an
//! engine is built from events in any order. **Not said**: how much memory an engine takes. Start
//! at `engine.rt`; `specs/Revise.antt` says what a batch comes to, `specs/Standing.antt` what an
//! engine stands for.
#![tactic(auto)]

mod arriving;
mod building;
mod carrying;
mod engine;
pub mod worked;

pub use ec_batch::Refusal;
pub use engine::Engine;
