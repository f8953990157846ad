//! The laws of matching, each the contract of a function that does nothing.

ghost use Rattle.ec_terms.specs.MatchingLaws.{FitsByFirstPlaces, HasOneBinding};
ghost use Rattle.ec_terms.specs.declared.ground.Ground.{Ground};
ghost use Rattle.ec_terms.specs.declared.pattern.Pattern.{Pattern};

/// A binding under which a pattern fits a term is the only one on the pattern's variables, and
/// there is one exactly when the arguments at the variables' first places make one.
pub fn fitting_binding_is_unique()
    ensures unique { (pattern : Pattern) (term : Ground) → HasOneBinding pattern term }
    ensures exists { (pattern : Pattern) (term : Ground) → FitsByFirstPlaces pattern term }
{}
