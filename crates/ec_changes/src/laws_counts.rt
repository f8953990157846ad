//! What a change counts, each law the contract of a function: the entries that saw a change or turned, instant by instant,
//! and the properties whose intervals differ.
ghost use Rattle.ec_changes.specs.CountLaws.{CountsAreSums, KeptCountsAreWhole, KeptCountsGoOn, OtherIntervalsDiffer, PropertiesInAnyList, QuietCountsNothing, SameListChangesNothing};

/// Counting kept entries up to a whole number goes on from one to the next by the entries there that pass the test.
pub fn kept_counts_go_on_law()
    ensures { KeptCountsGoOn }
{}

/// Such a count starts at 0, where no kept event is earlier, and ends at the whole, where each is.
pub fn kept_counts_are_whole_law()
    ensures { KeptCountsAreWhole }
{}

/// Over a quiet stretch no kept entry sees a change, becomes active or becomes inactive.
pub fn quiet_counts_nothing_law()
    ensures { QuietCountsNothing }
{}

/// The entries that a change counts are those of each instant, summed over any list that has each instant of a kept event
/// and none twice.
pub fn counts_are_sums_law()
    ensures { CountsAreSums }
{}

/// The test for other intervals fails exactly when a property has the same list of intervals in both lists of events.
pub fn other_intervals_differ_law()
    ensures { OtherIntervalsDiffer }
{}

/// The properties whose intervals differ may be counted in any list that has each of them and none twice, where every
/// property that is initial is one of the theory's initial properties.
pub fn properties_in_any_list_law()
    ensures { PropertiesInAnyList }
{}

/// Between a list and itself all four counts are 0, and so is the work.
pub fn same_list_changes_nothing_law()
    ensures { SameListChangesNothing }
{}
