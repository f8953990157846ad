//! When a change of marks leaves the intervals, a law that is the contract of a function.
ghost use Rattle.ec_changes.specs.IntervalLaws.{InertChangesKeepIntervals};

/// A property keeps its currency, its intervals and its broken begins where each instant has the same mark in both lists,
/// or is inert: the property is current there in neither list, and neither mark initiates it. Such a mark breaks nothing
/// and begins nothing. So intervals need a new look only at properties with a change that is not inert.
pub fn inert_changes_keep_intervals_law()
    ensures { InertChangesKeepIntervals }
{}
