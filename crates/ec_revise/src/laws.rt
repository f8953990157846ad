//! The induction of the sweep, each of its moves the contract of a function: how it starts, passes over quiet instants,
//! visits an instant, and ends.
ghost use Rattle.ec_revise.specs.ShownTurns.{TalliesGoByTerm};
ghost use Rattle.ec_revise.specs.SweepLaws.{HitsAreSeen, MarksAreAfterTurns, SweepEnds, SweepPasses, SweepStarts, SweepVisits};

/// Before the first event that stands in one list alone nothing differs, so a sweep may start there with nothing found.
pub fn sweep_starts_law()
    ensures { SweepStarts }
{}

/// Where no event stands in one list alone and nothing is due, a sweep goes on with what it has found, however many instants
/// are between.
pub fn sweep_passes_law()
    ensures { SweepPasses }
{}

/// The entries to look at in a visit are the dependents of the dirty properties that are due: these, of events that stand
/// in both lists, are the entries that see a change.
pub fn hits_are_seen_law()
    ensures { HitsAreSeen }
{}

/// What turned at an instant makes its new marks of the old ones, each count by itself. The turns say the kind and the
/// head of an entry alone.
pub fn marks_are_after_turns_law()
    ensures { MarksAreAfterTurns }
{}

/// A visit evaluates what sees a change at the next instant, adds what turned to the marks there, and settles what is due:
/// then all up to that instant is swept.
pub fn sweep_visits_law()
    ensures { SweepVisits }
{}

/// Where no instant is left to visit, the marks, the activity and the counts that were found are those of the new list, at
/// every instant, and a property that does not matter has kept its intervals.
pub fn sweep_ends_law()
    ensures { SweepEnds }
{}

/// What is tallied for a property by the numbers in a table is what the turns are by their terms, where the table finds
/// each of its terms and the neighbours are those of the table.
pub fn tallies_go_by_term_law()
    ensures { TalliesGoByTerm }
{}
