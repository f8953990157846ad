//! The laws of rows of intervals, each the contract of a function that does nothing.
ghost use Rattle.ec_intervals.specs.ChangedRows.{GrowthIsBounded, InertMarksSpellNothing, WhatEndsBeforeAChangeStays};
ghost use Rattle.ec_intervals.specs.Laws.{MarksAreReadInParts, OpenBeginsAreToldByOneMark, SpansAreFew};

use ec_moment::Moment;

/// A row of marks spells at most one interval more than it has marks.
pub fn spans_are_few_law<T: Moment>()
    ensures { SpansAreFew T.rank }
{}

/// What a row of marks spells is found by reading it from left to right, and in parts: what its first marks end, and
/// then what the others spell from the begin that is open between them.
pub fn marks_are_read_in_parts_law<T: Moment>()
    ensures { MarksAreReadInParts T.rank }
{}

/// Behind a mark with a count a begin is open exactly when the mark initiates, whatever was open in front of it.
pub fn open_begins_are_told_by_one_mark_law()
    ensures { OpenBeginsAreToldByOneMark }
{}

/// A change of marks adds at most two intervals for each instant at which the row differs: one that ends there, and one
/// that begins there. So much room, and one more for a front, is enough for `splice_from`.
pub fn growth_is_bounded_law<T: Moment>()
    ensures { GrowthIsBounded T.rank }
{}

/// Marks that do not initiate say nothing where no begin is open: what they end and what they break is nothing. So a
/// change among such marks leaves the intervals as they are.
pub fn inert_marks_spell_nothing_law<T: Moment>()
    ensures { InertMarksSpellNothing T.rank }
{}

/// What ends before an instant is known by the marks before it: a change from there on leaves it as it is.
pub fn what_ends_before_a_change_stays_law<T: Moment>()
    ensures { WhatEndsBeforeAChangeStays T.rank }
{}
