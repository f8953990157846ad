//! What reads forms: rules, and the sides of exclusive declarations.
ghost use Rattle.std.specs.Prelude.{◌≡◌};
ghost use Rattle.ec_cone.specs.Forms.{form_eq, pattern_form};
ghost use Rattle.ec_cone.specs.Growing.{source_reads};

use ec_terms::{Exclusive, Pattern, Rule};

/// What reads forms for the form that it has: a rule by its head, or one side of an exclusive
/// declaration.
#[derive(Clone, Copy)]
pub(crate) enum Source<'t> {
    Head(&'t Rule),
    Left(&'t Exclusive),
    Right(&'t Exclusive),
}

/// Whether a pattern has a name and so many arguments.
#[tactic(auto, unfolding(crate::specs::Forms::form_eq))]
fn has_form(pattern: &Pattern, name: &[u8], arity: usize) -> bool
    ensures { result ≡ form_eq (pattern_form pattern.now) (record { name = name.now; arity = arity }) }
{
    pattern.args.len() == arity && pattern.name.as_bytes() == name
}

impl<'t> Source<'t> {
    /// Whether the source has a form: a name and so many arguments.
    pub(crate) fn has_form(self, name: &[u8], arity: usize) -> bool
        ensures { result ≡ form_eq (source_reads self.entry).form (record { name = name.now; arity = arity }) }
    {
        match self {
            Source::Head(rule) => has_form(&rule.head, name, arity),
            Source::Left(declaration) => has_form(&declaration.left, name, arity),
            Source::Right(declaration) => has_form(&declaration.right, name, arity),
        }
    }
}
