//! Laws of intervals, of holding and of marks, each the contract of a function. They speak of each theory and of each
//! history, which is a list of events in order with distinct identities.
ghost use Rattle.ec_axioms.specs.Laws.{AtMostOneIntervalCovers, CurrencyIsOfTheLastMark, ExclusivesShareOnlyABeginning, HoldingIsTheReasonYes, IntervalsAreDisjoint, SpansAreTheIntervals, ThroughIsEachInstant};

/// A property is current at a time exactly when the last of its marks before that time initiates it, or it has no mark
/// before that time and is initial. So one search in the row of a property's marks tells its currency.
pub fn currency_is_of_the_last_mark_law()
    ensures { CurrencyIsOfTheLastMark }
{}

/// The intervals that a property's row of marks spells are its intervals, and the broken begins that the row spells are
/// its broken begins. So a row tells them with no look at the events.
pub fn spans_are_the_intervals_law()
    ensures { SpansAreTheIntervals }
{}

/// Intervals of one property are disjoint: an interval ends, or is broken, not after the next start of the property.
pub fn intervals_are_disjoint_law()
    ensures { IntervalsAreDisjoint }
{}

/// A time is covered by at most one interval of a property: two that cover it are the same interval. So the interval in
/// which a property holds at a time is one, and a search finds it by its begin.
pub fn at_most_one_interval_covers_law()
    ensures { AtMostOneIntervalCovers }
{}

/// Two exclusive properties hold at one time only through intervals with one beginning. A start of either breaks what the
/// other has going, so only what begins together can go on together.
pub fn exclusives_share_only_a_beginning_law()
    ensures { ExclusivesShareOnlyABeginning }
{}

/// A property holds through a stretch exactly when it holds at each whole number of the stretch, its ends among them.
/// An end with a start at the same instant is no gap.
pub fn through_is_each_instant_law()
    ensures { ThroughIsEachInstant }
{}

/// A property holds at a time exactly when the reason for it there is yes: holding and reasons, which are defined apart,
/// never disagree.
pub fn holding_is_the_reason_yes_law()
    ensures { HoldingIsTheReasonYes }
{}
