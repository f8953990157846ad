//! The law of properties that are not initial, the contract of a function.
ghost use Rattle.ec_axioms.specs.Laws.{BegunOnlyByAStart, CurrentOnlyIfCarriedOver, LiveOnlyIfMentioned};

/// For a property that is not initial the calculus says what one without initial properties says: currency comes from an
/// initiation alone, an interval begins at an instant alone, and only a mention makes the property live.
pub fn not_initial_law()
    ensures current { CurrentOnlyIfCarriedOver }
    ensures begun { BegunOnlyByAStart }
    ensures live { LiveOnlyIfMentioned }
{}
