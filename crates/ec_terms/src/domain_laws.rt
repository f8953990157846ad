//! The laws of a theory's declarations and entries, each the contract of a function that does
//! nothing.

ghost use Rattle.ec_terms.specs.DomainLaws.{EntriesAscend, ExcludesBothWays, FitTogether, NeverExcludesItself, OneExcludes};
ghost use Rattle.ec_terms.specs.declared.ground.Ground.{Ground};
ghost use Rattle.ec_terms.specs.declared.pattern.Pattern.{Pattern};
ghost use Rattle.ec_terms.specs.declared.theory.Theory.{Theory};

/// To be exclusive goes both ways, and no property is exclusive to itself.
pub fn exclusive_is_symmetric()
    ensures both_ways { (theory : Theory) → ExcludesBothWays theory }
    ensures not_itself { (theory : Theory) → NeverExcludesItself theory }
{}

/// The patterns of a declaration fit two properties together exactly when there is one binding under
/// which each fits its property. So two properties are exclusive exactly when they differ and some
/// declaration has a binding under which one of its patterns fits the one and the other the other.
pub fn exclusive_is_under_one_binding()
    ensures patterns { (left right : Pattern) (p q : Ground) → FitTogether left right p q }
    ensures theory { (theory : Theory) (p q : Ground) → OneExcludes theory p q }
{}

/// The entries of an event stand in the order of their rules, and each rule gives at most one.
pub fn entries_ascend()
    ensures { (theory : Theory) (event : Ground) → EntriesAscend theory event }
{}
