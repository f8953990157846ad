//! What a property rests on: forms, closed sets of properties, cones and labels.
//!
//! A *form* is a name and a number of arguments. The *cone* of a property has its form and each
//! form that what happens to the property may rest on, by the rules and the exclusive declarations
//! of the theory. The *label* of a property and a time is the text that a certificate for it must
//! be: a line for each event with an entry in the cone.
//!
//! **Proved**: of the properties of a closed set, its own events say all that the history says
//! (`closed_set_suffices_law`), and a cone is such a set (`cone_suffices_law`), the least one by
//! forms (`cone_is_least_law`); [`Cone::of`] finds it. **Not said**: that a cone is the least set
//! of properties, or that a label is short; how many steps [`Cone::of`] takes. Start at
//! `specs/Closed.antt` and `specs/Cone.antt`, and for the code at `cone.rt`.
#![tactic(auto)]

mod cone;
mod growing;
mod laws;
mod node;
mod source;
pub mod worked_cones;

pub use cone::Cone;
pub use laws::{
    closed_set_suffices_law, cone_goes_by_rules_law, cone_is_least_law, cone_suffices_law,
};
