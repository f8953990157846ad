//! Names, ground terms, patterns, and the types of a theory.
//!
//! A term is a name with up to 8 arguments, each a number or a name. A pattern has variables too,
//! and fits a term under a binding. A theory is its rules and declarations as values; ec_theory
//! reads one.
//!
//! **Proved**: terms are read as the longest run and never cut; their order is total, and their
//! text is read back; matching finds the one binding under which a pattern fits ([`matches`]:
//! `fits`, `binding`); which properties are exclusive, strong and initial. **Not said**: how long
//! matching takes. Start at `ground.rt` and `theory.rt`; `specs/Term.antt`, `specs/Matching.antt`
//! and `specs/Domain.antt` are the definitions.
#![tactic(auto)]

mod binding;
mod domain;
mod domain_laws;
mod filling;
mod ground;
mod ids;
mod laws;
mod limits;
mod matching;
mod matching_laws;
mod name;
mod order_laws;
mod pattern;
mod reading;
mod sequence;
mod spelling;
mod term_order;
mod term_text;
mod theory;

pub use binding::Binding;
pub use domain::{are_exclusive, is_initial, is_same, is_strong, time_of};
pub use domain_laws::{entries_ascend, exclusive_is_symmetric, exclusive_is_under_one_binding};
pub use filling::{fill, fill_ref, tests_hold};
pub use ground::{Arg, ArgRef, ArgRefs, Args, Ground, GroundRef};
pub use ids::{PropId, Slot};
pub use laws::{texts_are_read_back, texts_differ};
pub use limits::{LONGEST_NAME, LONGEST_TERM, MOST_ARGS, MOST_VARIABLES};
pub use matching::{extend_match, matches};
pub use matching_laws::fitting_binding_is_unique;
pub use name::Name;
pub use order_laws::{arguments_are_ordered, equality_is_decided, terms_are_ordered};
pub use pattern::{PatArg, PatArgs, Pattern};
pub use reading::{read_ground, read_int, read_name};
pub use sequence::Sequence;
pub use term_order::order;
pub use term_text::{TermText, text};
pub use theory::{
    Exclusive, Initial, Kind, Literal, Literals, Rule, Strong, Test, TestOp, Tests, Theory,
    TimeDecl, TimeKind,
};
