//! The laws of closed sets and of the cone.
ghost use Rattle.ec_cone.specs.Closed.{ClosedSetSuffices};
ghost use Rattle.ec_cone.specs.ConeLaws.{ConeGoesByRules, ConeHasAllBelow, ConeIsClosed, ConeIsLeast, ConeSuffices};

/// The cone of a form is the least set of forms that has it, with the head of a rule each of the
/// rule's literals, and with one side of an exclusive declaration the other.
pub fn cone_is_least_law()
    ensures closed { ConeHasAllBelow }
    ensures least { ConeIsLeast }
{}

/// What a history says of the properties of a closed set, its events with an entry in the set say
/// alone: the same is current at every time, with the same intervals and broken begins, and the
/// same holds. So a history may be cut into parts by closed sets.
pub fn closed_set_suffices_law()
    ensures { ClosedSetSuffices }
{}

/// Under a theory that can be matched, as each accepted one can, the properties whose forms are in
/// a cone are a closed set. So of the property whose cone it is, the events with a cone entry say
/// all that the history says.
pub fn cone_suffices_law()
    ensures closed { ConeIsClosed }
    ensures suffices { ConeSuffices }
{}

/// Under such a theory an entry is in the cone exactly when the head of its rule is.
pub fn cone_goes_by_rules_law()
    ensures { ConeGoesByRules }
{}
