//! The laws of tables, each the contract of a function that does nothing.
ghost use Rattle.std.specs.Prelude.{◌≤◌, length};
ghost use Rattle.ec_terms.specs.declared.theory.Theory.{Theory};
ghost use Rattle.ec_terms.specs.Matchable.{IsMatchable};
ghost use Rattle.ec_check.specs.WellFormed.{IsWellFormed};
ghost use Rattle.ec_check.specs.declared.limits.TheConstants.{MOST_INITIALS};
ghost use Rattle.ec_changes.specs.LiveLaws.{ListsInitials};

/// A property is initial under a checked theory exactly when the theory lists it, and the theory lists few.
pub fn initials_are_listed_law()
    ensures listed { (theory : Theory) → IsWellFormed theory → IsMatchable theory → ListsInitials theory }
    ensures few { (theory : Theory) → IsWellFormed theory → length theory.initials ≤ MOST_INITIALS }
{}
