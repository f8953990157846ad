//! What turned between two histories, each law the contract of a function: how the effects and the marks at an instant
//! follow from those of the old list and the entries that came to act there or ceased to.
ghost use Rattle.ec_changes.specs.TurnLaws.{EffectsFollowTurns, KeptIsOfBoth, MarksFollowTurns, SameEventsSameHistory, SeeingIsReading, SeenInAnyOrder, UnseenStays};

/// Two histories with the same events are the same list: the order of a history leaves no choice.
pub fn same_events_same_history_law()
    ensures { SameEventsSameHistory }
{}

/// The events that stand in both of two histories are one list, in one order, whichever of the two they are taken from.
pub fn kept_is_of_both_law()
    ensures { KeptIsOfBoth }
{}

/// An entry sees a change exactly when it has a literal on a property whose currency differs at its time.
pub fn seeing_is_reading_law()
    ensures { SeeingIsReading }
{}

/// An entry turns only where it sees a change: if no property that it reads has another currency at its time, it is
/// active in both lists or in neither. So only entries that read what differs need to be looked at again.
pub fn unseen_stays_law()
    ensures { UnseenStays }
{}

/// The account of an instant. The number of active entries that pass a test, in the new list, is the number in the old
/// list, with the entries that were turned on there and the active ones of added events, and without those that were
/// turned off and the formerly active ones of removed events.
pub fn effects_follow_turns_law()
    ensures { EffectsFollowTurns }
{}

/// That account for the three counts of a mark: what initiates the property, what terminates it, and what initiates one
/// that is exclusive to it.
pub fn marks_follow_turns_law()
    ensures { MarksFollowTurns }
{}

/// Only entries that see a change turn. So whoever lists the kept entries at an instant that see one, in any order and each
/// once, has in that list all that is seen, gained and lost there, but for the events that were added and removed.
pub fn seen_in_any_order_law()
    ensures { SeenInAnyOrder }
{}
