//! What stays the same between two lists of events, each law the contract of a function: from one whole number to the
//! next, over stretches where nothing bears on what differs, and before the first event of one list alone.
ghost use Rattle.ec_changes.specs.QuietLaws.{CurrencyBehindMarks, CurrencyGoesOn, EventsStay, PastStays, QuietEntriesStay, QuietInstantsPassOn, QuietStretchesPassOn};

/// A property is current at the next whole number exactly when it is initiated now, or is current now and has no break
/// now. This holds at every whole number, with an event there or with none, so an induction over whole numbers needs no
/// list of instants.
pub fn currency_goes_on_law()
    ensures { CurrencyGoesOn }
{}

/// The same by the mark at a whole number: a mark with a count decides alone what is current behind it, by whether it
/// initiates, and where there is none currency stays.
pub fn currency_behind_marks_law()
    ensures { CurrencyBehindMarks }
{}

/// Two histories have the same events at an instant at which no event stands in one of them alone.
pub fn events_stay_law()
    ensures { EventsStay }
{}

/// A quiet instant passes every difference on. Where the events are the same in both lists, and none of their entries
/// reads a property that differs, and no such property has a mark, all marks are equal and the same properties differ at
/// the next whole number.
pub fn quiet_instants_pass_on_law()
    ensures { QuietInstantsPassOn }
{}

/// So does a stretch of any length: where nothing in it bears on the properties that differ at its first number, all marks
/// in it are equal and the same properties differ just behind it. A sweep may go from one instant that is not quiet to
/// the next, and look at nothing between.
pub fn quiet_stretches_pass_on_law()
    ensures { QuietStretchesPassOn }
{}

/// In a quiet stretch no entry turns: each is active in both lists or in neither.
pub fn quiet_entries_stay_law()
    ensures { QuietEntriesStay }
{}

/// Before the first event that stands in one list alone, everything is as it was: currency up to that time, marks and
/// starts before it, and the activity of each entry up to it.
pub fn past_stays_law()
    ensures { PastStays }
{}
