//! The laws of rows, each the contract of a function that does nothing.
ghost use Rattle.ec_rows.specs.Marks.{IsKnownByTimes};

use ec_moment::Moment;

/// Two rows of marks with the same mark at each time are equal.
pub fn rows_ext<T: Moment>()
    ensures { IsKnownByTimes T.rank }
{}
